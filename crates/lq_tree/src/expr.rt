use crate::{Boxed, Name};
use sqlite_items::Items;

/// What a type is made of (docs/LANGUAGE.md, "Grammar").
#[derive(Debug, Drop)]
pub enum Base {
    Int,
    Struct(Name),
}

/// A type: its base behind so many `*`.
#[derive(Debug, Drop)]
pub struct CType {
    pub base: Base,
    pub stars: u8,
}

/// An operator with two operands, the tightest binding first.
#[derive(Clone, Copy, Debug, PartialEq, Eq)]
pub enum BinOp {
    Mul,
    Div,
    Rem,
    Add,
    Sub,
    Lt,
    Le,
    Gt,
    Ge,
    Eq,
    Ne,
    And,
    Or,
}

/// An expression, as the grammar spells it (docs/LANGUAGE.md, "Grammar").
#[derive(Drop)]
pub enum Expr {
    Num(i64),
    Var(Name),
    Neg(Boxed<Expr>),
    Not(Boxed<Expr>),
    Bin(BinOp, Boxed<Expr>, Boxed<Expr>),
    Index(Boxed<Expr>, Boxed<Expr>),
    Deref(Boxed<Expr>),
    Arrow(Boxed<Expr>, Name),
    Dot(Boxed<Expr>, Name),
    Call(Name, Items<Expr>),
    Calloc(Boxed<Expr>, CType),
}
