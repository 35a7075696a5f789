//! The rule by which workers claim the chunks of a fork with no lock.
//!
//! Each chunk lies in a slot of a table. A claim draws a number by one step, and the slot of this number goes out to the seat that
//! drew it; it comes home when the chunk is given back. So no two workers have one chunk, and the seat that has all stakes at
//! the end knows that every chunk was run.
#![tactic(auto)]

mod claims;
mod laws;
mod stages;
mod steps;
mod view;

pub use claims::Claims;
pub use laws::{all_are_back, each_step_keeps, one_claimer, stakes_move};
pub use stages::Stages;
pub use steps::{Claim, Cut, Draws, GiveBack, Merge};
pub use view::{Round, View};
