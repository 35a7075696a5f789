//! The rule by which workers steal the chunks of a fork from each other.
//!
//! The caller deals the chunks to deques before any worker starts. A worker takes chunks at the front of its own deque, and of the
//! others'. Of each deque by itself the rule says that every chunk that was put into it stands in one place: in the deque, or in
//! what one worker took. Whoever has all stakes of a deque knows all of that.
#![tactic(auto)]

mod dealing;
mod handed;
mod laws;
mod steps;
mod view;

pub use dealing::Dealing;
pub use handed::Handed;
pub use laws::{caller_knows_all, each_step_keeps, one_place};
pub use steps::{Cut, Merge, Pop, Push, Steal, Total};
pub use view::View;
