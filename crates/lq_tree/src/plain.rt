//! The plain tree: a program whose expressions are pure (docs/LANGUAGE.md, "Plain form").

use crate::{BinOp, Boxed, CType, Name, Place, StructDef};
use sqlite_items::Items;

/// An expression that loads nothing, calls nothing and allocates nothing. Slots are numbered from 0.
#[derive(Drop)]
pub enum PExpr {
    Num(i64),
    Null,
    Slot(u32),
    Neg(Boxed<PExpr>),
    Not(Boxed<PExpr>),
    Bin(BinOp, Boxed<PExpr>, Boxed<PExpr>),
    /// A pointer so many elements further on.
    Shift(Boxed<PExpr>, Boxed<PExpr>),
    IsNull(Boxed<PExpr>),
}

/// A block of a `cobegin` or the body of a `foreach`, and the place of its first byte.
#[cycle(plain)]
#[derive(Drop)]
pub struct Branch {
    pub at: Place,
    pub body: Items<PStmt>,
}

/// A plain statement and the place of the source statement that it comes from.
#[cycle(plain)]
#[derive(Drop)]
pub struct PStmt {
    pub at: Place,
    pub kind: PKind,
}

/// What a plain statement is.
#[cycle(plain)]
#[derive(Drop)]
pub enum PKind {
    /// The slot gets the value.
    Set(u32, PExpr),
    /// The first slot gets the word at the base slot, the index and the field.
    Load(u32, u32, PExpr, u32),
    /// The base slot, the index, the field, and the value that is stored there.
    Store(u32, PExpr, u32, PExpr),
    /// The slot gets a block of so many elements of the type.
    Calloc(u32, PExpr, CType),
    /// The slot, if any, gets what the function with this number gives on these arguments.
    Call(Option<u32>, u32, Items<PExpr>),
    /// The condition, and the statements where it holds and where it doesn't.
    If(PExpr, Items<PStmt>, Items<PStmt>),
    /// The statements of the condition, the condition, and the body.
    While(Items<PStmt>, PExpr, Items<PStmt>),
    Cobegin(Items<Branch>),
    /// The index slot, the low and the high end, the step, and the branch of each iteration.
    Foreach(u32, PExpr, PExpr, i64, Branch),
    Print(PExpr),
    Return(Option<PExpr>),
}

/// A local of a plain function. Slots that are made for parts of expressions have no name.
#[derive(Drop)]
pub struct Slot {
    pub name: Option<Name>,
    pub ctype: CType,
}

/// A plain function: its first slots, so many, are its parameters.
#[derive(Drop)]
pub struct PFunc {
    pub at: Place,
    pub name: Name,
    pub result: Option<CType>,
    pub params: u32,
    pub slots: Items<Slot>,
    pub body: Items<PStmt>,
}

/// A whole plain program: its structs and functions in the order of the source, the number of `main`, and the
/// factors of the source from which the checker takes its multipliers.
#[derive(Drop)]
pub struct PProgram {
    pub structs: Items<StructDef>,
    pub funcs: Items<PFunc>,
    pub main: u32,
    pub factors: Items<i64>,
}
