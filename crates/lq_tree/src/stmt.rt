use crate::{Boxed, CType, Expr, Name, Place};
use sqlite_items::Items;

/// A condition of an `if` or `else if`, and what it guards.
#[cycle(statements)]
#[derive(Drop)]
pub struct Arm {
    pub cond: Expr,
    pub body: Boxed<Stmt>,
}

/// A statement and the place of its first byte.
#[cycle(statements)]
#[derive(Drop)]
pub struct Stmt {
    pub at: Place,
    pub kind: StmtKind,
}

/// What a statement is, as the grammar spells it (docs/LANGUAGE.md, "Grammar").
#[cycle(statements)]
#[derive(Drop)]
pub enum StmtKind {
    Empty,
    Block(Items<Stmt>),
    Local(CType, Name, Option<Expr>),
    Set(Name, Expr),
    Store(Expr, Expr),
    Call(Name, Items<Expr>),
    If(Items<Arm>, Option<Boxed<Stmt>>),
    While(Expr, Boxed<Stmt>),
    For(Option<Boxed<Stmt>>, Option<Expr>, Option<Boxed<Stmt>>, Boxed<Stmt>),
    Return(Option<Expr>),
    Print(Expr),
    Cobegin(Items<Stmt>),
    /// The index, the low and the high end, the step, and the block.
    Foreach(Name, Expr, Expr, i64, Boxed<Stmt>),
}
