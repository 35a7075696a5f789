use crate::Op;
use lq_tree::Place;
use sqlite_items::Items;

/// An instruction and the place of the statement that it comes from.
#[derive(Debug, Drop)]
pub struct Instr {
    pub at: Place,
    pub op: Op,
}

/// A function: so many of its slots are parameters.
#[derive(Debug, Drop)]
pub struct CFunc {
    pub at: Place,
    pub params: u32,
    pub slots: u32,
    pub instrs: Items<Instr>,
}

/// The stack code of a program, and the number of its function `main` (docs/CODE.md, "Stack code").
#[derive(Debug, Drop)]
pub struct Code {
    pub funcs: Items<CFunc>,
    pub main: u32,
}
