//! The parser: the tree that the tokens of a source spell, by the grammar of docs/LANGUAGE.md.
#![tactic(auto)]

mod expressions;
pub mod laws;
mod lexeme;
mod nodes;
mod parts;
mod programs;
mod source;
mod spelling;
mod statements;
mod stop;
mod terminals;
mod types;

pub use lexeme::{Keyword, Lexeme, Sign, Symbol};
pub use spelling::{ParseFault, parse};
