//! Tokens of a source, and where a source has none.
#![tactic(auto)]

mod bytes;
pub mod laws;
mod lexing;
mod scan;
mod shape;
mod sign;
mod token;

pub use lexing::{LexFault, lex};
pub use shape::check_shape;
pub use token::{Token, TokenKind};
