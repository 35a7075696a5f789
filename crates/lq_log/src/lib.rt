//! The log of a replay: its accesses, and which of them race.
#![tactic(auto)]

mod entry;
mod forks;
mod laws;
mod race;

pub use entry::{Entry, Path};
pub use laws::ordered_or_unordered;
pub use race::first_race;
