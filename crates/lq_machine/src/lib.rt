//! The task machine: what a plain program does one action at a time, under picks.
#![tactic(auto)]

mod laws;
mod machine;
mod replays;

pub use laws::{
    bounds_of_tasks_do_not_matter, ended_tasks_stay, first_leaves_run_in_order, replays_have_rules,
};
pub use machine::{Machine, StepFault, start};
pub use replays::{Replayed, replay};
