//! The places at which the checker remembers rows, and the numbers that the rows may speak of. Later crates make of
//! them the conditions of a program.
#![tactic(auto)]

mod access;
mod condition;
mod firsts;
mod laws;
mod listing;
mod lives;
mod made;
mod makers;
mod names;
mod reading;
mod template;
mod touches;

pub use access::Access;
pub use condition::{Assign, Condition, Conditions, Given, Rule, Site};
pub use laws::templates_are_settled;
pub use listing::templates;
pub use lives::list_lives;
pub use made::struct_among;
pub use names::{is_marked, is_word};
pub use reading::{changed, marks_of, target};
pub use template::{NamePart, Named, ScopeRef, Template, TemplateKind};
