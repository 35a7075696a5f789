//! The name rules and the counts of a program, over the tree that the parser gives: which rule is broken first, and
//! which count passes its limit (docs/LANGUAGE.md, "Name rules"; docs/COMMANDS.md, "Limits").
#![tactic(auto)]

mod check;
mod counts;
mod effects;
mod fault;
mod headers;
mod laws;
mod least;
mod names;
mod rules;
mod site;
mod statement_rules;
mod statements;
mod walk;

pub use check::check_names;
pub use counts::check_counts;
pub use fault::NamesFault;
pub use laws::{locals_are_most_in_scope, one_least_fault};
