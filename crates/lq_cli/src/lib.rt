//! The commands of the program, from the words of the command line to the bytes that are written.
#![tactic(auto)]

mod answer;
mod commands;
mod end;
mod entry;
mod files;
mod laws;
mod numbers;
mod stop;
mod text;
mod words;

pub use entry::liquid;
pub use laws::{clean_replays_run_in_order, one_answer};
