//! Copies of functions: which source has a function of its own for each call.
#![tactic(auto)]

mod laws;

pub use laws::copies_keep_structs;
