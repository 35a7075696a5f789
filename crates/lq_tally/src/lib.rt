//! The conditions that have been asked so far: the first of them, and how many there are.
#![tactic(auto)]

mod tally;

pub use tally::Tally;
