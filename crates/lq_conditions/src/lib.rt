//! The conditions of a program: definitions of what the checker asks, statement by statement.
#![tactic(auto)]

mod laws;

pub use laws::{named_templates_are_there, without_functions_nothing_is_asked};
