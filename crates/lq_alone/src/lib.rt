//! Branches alone, clean programs, and the literal check of slices: definitions and laws. The program runs nothing of them.
#![tactic(auto)]

mod laws;
mod slice;

pub use laws::{
    accepted_slices_are_clean, branches_keep_to_their_frame, clean_branches_alone_run_in_order,
    clean_programs_run_alike, clean_sources_run_alike, ended_tasks_are_clean,
};
pub use slice::{Block, Slice, Step, Store};
