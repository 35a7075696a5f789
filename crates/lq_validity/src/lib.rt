//! The search for what facts derive, and the multipliers that it uses.
#![tactic(auto)]

mod derive;
mod index;
mod known;
mod laws;
mod marks;
mod mults;
mod narrow;
mod pool;
mod rows;
mod search;
mod spare;
mod sum;
mod table;

pub use derive::derives;
pub use index::{GoalIndex, Index};
pub use laws::combinations_stand_in_order;
pub use mults::Mults;
