//! The assignment that gives each template all its instances, and how many facts conditions have under it.
#![tactic(auto)]

mod assignment;
mod counting;
mod fault;

pub use assignment::full;
pub use fault::ConditionsFault;
