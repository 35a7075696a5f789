//! The greatest assignment of rows to templates under which the conditions of a program are met.
#![tactic(auto)]

mod facts;
mod filling;
mod laws;
mod met;
mod sifting;
mod solving;
mod users;
mod work;

pub use facts::{facts_under, goals_under};
pub use filling::filled_row;
pub use laws::any_order;
pub use met::is_met;
pub use solving::solve;
