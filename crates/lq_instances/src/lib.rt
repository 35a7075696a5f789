//! The rows that the templates of a program may remember, for the qualifiers of a file.
#![tactic(auto)]

mod fault;
mod laws;
mod list;
mod matching;
mod row;
mod search;
mod table;

pub use fault::TemplateFault;
pub use laws::{search_finds_instances, stated_instances_are_rows};
pub use list::instances;
