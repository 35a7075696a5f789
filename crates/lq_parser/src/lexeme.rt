use lq_tree::{Name, Place};

/// A sign of the language (docs/LANGUAGE.md, "Tokens").
#[derive(Clone, Copy, Debug, PartialEq, Eq)]
pub enum Sign {
    LeftParen,
    RightParen,
    LeftBrace,
    RightBrace,
    LeftBracket,
    RightBracket,
    Semicolon,
    Comma,
    Dot,
    Arrow,
    Plus,
    Minus,
    Star,
    Slash,
    Percent,
    Less,
    LessEqual,
    Greater,
    GreaterEqual,
    EqualEqual,
    NotEqual,
    Equal,
    AndAnd,
    OrOr,
    Not,
    PlusPlus,
    MinusMinus,
    PlusEqual,
    MinusEqual,
    StarEqual,
}

/// A word that the grammar uses (docs/LANGUAGE.md, "Tokens").
#[derive(Clone, Copy, Debug, PartialEq, Eq)]
pub enum Keyword {
    Int,
    Struct,
    Void,
    If,
    Else,
    While,
    For,
    Return,
    Print,
    Calloc,
    Sizeof,
    Cobegin,
    Foreach,
}

/// A token as the grammar sees it.
#[derive(Debug, Drop)]
pub enum Symbol {
    Name(Name),
    /// A number and its value.
    Number(i64),
    Keyword(Keyword),
    Sign(Sign),
    /// A word that no rule uses, or that marks an annotation.
    Reserved,
}

/// A symbol and the place of its first byte.
#[derive(Debug, Drop)]
pub struct Lexeme {
    pub symbol: Symbol,
    pub at: Place,
}
