//! The plain form of a program, in which every expression is pure: its definition, the function that makes it, and what
//! follows from the definition.
#![tactic(auto)]

mod arms;
mod copies;
mod factors;
mod flat;
mod flatten;
mod functions;
mod laws;
mod lookups;
mod made;
mod operators;
mod parts;
mod program;
mod scope;
mod site;
mod statements;
mod values;

pub use laws::{
    functions_stay, meaning_stays, meanings_have_rules, plain_is_formed, stores_go_to_places,
};
pub use program::plain;
