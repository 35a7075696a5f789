//! The rule by which threads share words with no lock.
//!
//! Each cell of a table has as many units as there are. A seat may read a cell of which it has a unit, and write one of which it has them all.
//! So the word of a cell changes only where no other seat may read it, and each seat knows the words of the cells that it may read.
#![tactic(auto)]

mod foot;
mod laws;
mod steps;
mod units;
mod view;

pub use foot::Foot;
pub use laws::{each_step_keeps, one_holder, units_move};
pub use steps::{Cut, Load, Look, Merge, Store};
pub use units::Units;
pub use view::{Held, Supply, View};
