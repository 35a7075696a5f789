ghost use Rattle.std.specs.Prelude.{◌≡◌, ◌-◌, ◌<◌, ◌≤◌, ◌^◌, map, length, IfOk, All};
ghost use Rattle.std.specs.List.{AllPairs};
ghost use Rattle.std.specs.Map.{lookup};
ghost use Rattle.std.specs.Str.{bytes_eq};
ghost use Rattle.lq_lexer.specs.Tokens.{Spells, text_of};
ghost use Rattle.lq_parser.specs.Source.{symbol_of, place_at, lexemes_of};

use crate::lexeme::{Keyword, Lexeme, Sign, Symbol};
use lq_lexer::{Token, TokenKind};
use lq_text::read_literal;
use lq_tree::{Name, Place};
use std::alloc::{AllocError, Global};

const SIGNS: [(&[u8], Sign); 30] = [
    (b"(", Sign::LeftParen),
    (b")", Sign::RightParen),
    (b"{", Sign::LeftBrace),
    (b"}", Sign::RightBrace),
    (b"[", Sign::LeftBracket),
    (b"]", Sign::RightBracket),
    (b";", Sign::Semicolon),
    (b",", Sign::Comma),
    (b".", Sign::Dot),
    (b"->", Sign::Arrow),
    (b"+", Sign::Plus),
    (b"-", Sign::Minus),
    (b"*", Sign::Star),
    (b"/", Sign::Slash),
    (b"%", Sign::Percent),
    (b"<", Sign::Less),
    (b"<=", Sign::LessEqual),
    (b">", Sign::Greater),
    (b">=", Sign::GreaterEqual),
    (b"==", Sign::EqualEqual),
    (b"!=", Sign::NotEqual),
    (b"=", Sign::Equal),
    (b"&&", Sign::AndAnd),
    (b"||", Sign::OrOr),
    (b"!", Sign::Not),
    (b"++", Sign::PlusPlus),
    (b"--", Sign::MinusMinus),
    (b"+=", Sign::PlusEqual),
    (b"-=", Sign::MinusEqual),
    (b"*=", Sign::StarEqual),
];

const KEYWORDS: [(&[u8], Keyword); 13] = [
    (b"int", Keyword::Int),
    (b"struct", Keyword::Struct),
    (b"void", Keyword::Void),
    (b"if", Keyword::If),
    (b"else", Keyword::Else),
    (b"while", Keyword::While),
    (b"for", Keyword::For),
    (b"return", Keyword::Return),
    (b"print", Keyword::Print),
    (b"calloc", Keyword::Calloc),
    (b"sizeof", Keyword::Sizeof),
    (b"cobegin", Keyword::Cobegin),
    (b"foreach", Keyword::Foreach),
];

// What a table has for a text.
fn entry_of<T: Copy>(table: &[(&[u8], T)], text: &[u8]) -> Option<T>
    ensures { result ≡ lookup (bytes_eq text.now) (map (λ entry. (entry.0.now, entry.1)) table.now) }
{
    for entry in table {
        if entry.0 == text {
            return Some(entry.1);
        }
    }
    None
}

// A token of this kind and text as the grammar sees it.
fn symbol(alloc: Global, kind: TokenKind, text: &[u8]) -> Result<Symbol, AllocError>
    requires { Spells kind text.now }
    ensures { IfOk result (λ s. s ≡ symbol_of kind text.now) }
{
    Ok(match kind {
        TokenKind::Name => Symbol::Name(Name::from_slice(alloc, text)?),
        TokenKind::Number => read_literal(text).map_or(Symbol::Reserved, Symbol::Number),
        TokenKind::Sign => entry_of(&SIGNS, text).map_or(Symbol::Reserved, Symbol::Sign),
        TokenKind::Keyword => entry_of(&KEYWORDS, text).map_or(Symbol::Reserved, Symbol::Keyword),
        TokenKind::Annotation | TokenKind::Unused => Symbol::Reserved,
    })
}

// The place of a later byte of a text.
fn place_on(text: &[u8], from: usize, place: Place, to: usize) -> Place
    requires short { length text.now < 2 ^ 32 - 1 }
    requires order { from ≤ to }
    requires within { to ≤ length text.now }
    requires place { place ≡ place_at text.now from }
    ensures { result ≡ place_at text.now to }
{
    let mut place = place;
    for at in from..to {
        if text[at] == b'\n' {
            place.line += 1;
            place.col = 1;
        } else {
            place.col += 1;
        }
    }
    place
}

/// The tokens of a text as the grammar sees them.
pub fn lexemes(alloc: Global, text: &[u8], tokens: &[Token]) -> Result<Vec<Lexeme>, AllocError>
    requires short { length text.now < 2 ^ 32 - 1 }
    requires spans { All (λ token. (token.start < token.end) × (token.end ≤ length text.now)) tokens.now }
    requires apart { AllPairs (λ token next. token.end ≤ next.start) tokens.now }
    requires spelled { All (λ token. Spells token.kind (text_of text.now token)) tokens.now }
    ensures { IfOk result (λ ls. ls.items ≡ lexemes_of text.now tokens.now) }
{
    let mut lexemes = Vec::new(alloc);
    let mut from = 0;
    let mut at = Place { line: 1, col: 1 };
    for token in tokens {
        at = place_on(text, from, at, token.start);
        from = token.start;
        let symbol = symbol(alloc, token.kind, token.text(text))?;
        lexemes.push(Lexeme { symbol, at })?;
    }
    Ok(lexemes)
}
