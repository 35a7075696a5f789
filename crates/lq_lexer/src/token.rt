//! Tokens.

ghost use Rattle.std.specs.Prelude.{◌≡◌, ◌≤◌, length};
ghost use Rattle.lq_lexer.specs.Tokens.{text_of};

/// What a token is.
#[derive(Clone, Copy, Debug, PartialEq, Eq)]
pub enum TokenKind {
    /// A letter or `_`, then letters, digits and `_`, and no word of the language.
    Name,
    /// A number from 0 to 2^63-1.
    Number,
    /// A sign, of one byte or two.
    Sign,
    /// A word that the grammar uses.
    Keyword,
    /// `commutative` or `atomic`.
    Annotation,
    /// A word that no rule uses.
    Unused,
}

/// A token of a source: its bytes from `start` to before `end`.
#[derive(Clone, Copy, Debug, PartialEq, Eq)]
pub struct Token {
    pub start: usize,
    pub end: usize,
    pub kind: TokenKind,
}

impl Token {
    /// The bytes of the token in its source.
    pub fn text<'a>(&self, source: &'a [u8]) -> &'a [u8]
        requires ordered { self.now.start ≤ self.now.end }
        requires inside { self.now.end ≤ length source.now }
        ensures { result.now ≡ text_of source.now self.now }
    {
        &source[self.start..self.end]
    }
}
