//! A list that shares its front with the lists that were copied from it.
#![tactic(auto)]

mod chain;
mod shared;
mod walk;

pub use chain::Chain;
pub use walk::Walk;
