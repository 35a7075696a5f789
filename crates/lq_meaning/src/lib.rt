//! What a program means: words, pointers and memory, and the sequential execution as definitions, with the
//! memory of an interpreter that computes by them.
#![tactic(auto)]

mod action;
mod blocks;
mod end;
mod heap;
mod laws;
mod line;
mod lines;
mod memory;
mod operators;
mod pointer;
mod printing;
mod run;
#[cfg(test)]
mod tests;
mod value;
mod words;

pub use action::Action;
pub use blocks::{Blocks, Span};
pub use end::End;
pub use heap::{Acted, Heap};
pub use laws::{
    addresses_have_their_own_cells, bounds_do_not_matter, ended_plain_runs_keep, ended_runs_keep,
    formed_programs_have_regular_tasks, plain_bounds_do_not_matter, plain_runs_only_grow,
    runs_only_grow, tasks_are_placed, tasks_in_order, words_stand_in_cells,
};
pub use line::{Line, Standing};
pub use memory::{Address, Block, Memory};
pub use pointer::input_pointer;
pub use printing::put_action;
pub use run::run_seq;
pub use words::Words;
