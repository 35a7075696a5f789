//! Certificates for the goals of conditions.
#![tactic(auto)]

mod certified;

pub use certified::{Failure, certify_all};
