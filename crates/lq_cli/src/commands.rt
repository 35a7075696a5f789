//! The commands, each in a file of its own: its words, and what it does.

pub mod replay;
pub mod seq;
