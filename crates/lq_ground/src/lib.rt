//! What the walk over a function's body rests on: the program, its classes and templates, and what they are at a
//! statement. Later crates make of it the conditions of a program.
#![tactic(auto)]

mod fields;
mod ground;
mod locals;
mod moves;
mod names;
mod noted;
mod numbers;
mod position;
mod scopes;
mod scoping;
mod spot;
mod tables;
#[cfg(test)]
mod tests;

pub use ground::{Ground, argument_values};
pub use locals::param_values;
pub use position::Position;
pub use scoping::{at_entry, enter_scope};
pub use spot::Change;
pub use tables::Tables;
