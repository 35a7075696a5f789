//! A memory of words that threads share with no lock.
//!
//! A part says how many units of each cell it has. A cell is read by a part with a unit of it and written by a part with all units of it,
//! so no write meets another part's read or write of that cell.
#![tactic(auto)]

mod memory;
mod part;
mod words;

pub use lq_rule::Foot;
pub use memory::{MOST_CELLS, MOST_UNITS, WordMemory};
pub use part::Part;
pub use words::SharedWords;

#[cfg(test)]
mod tests;
