//! The variables of a plain program.

/// A slot of a function, or its result, which has the number of slots as its number.
#[derive(Clone, Copy, Debug, PartialEq, Eq)]
pub struct Var {
    pub func: u32,
    pub slot: u32,
}
