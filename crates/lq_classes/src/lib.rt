//! The classes of pointers of a plain program (docs/CHECKING.md, "Classes"): pointers that may point to the same block are
//! of one class.
#![tactic(auto)]

mod forest;
mod joins;
mod layout;
mod links;
mod map;
mod numbers;
mod places;
mod var;

pub use map::{ClassMap, class_of, classes, same};
pub use var::Var;
