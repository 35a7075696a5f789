ghost use Rattle.std.specs.Prelude.{◌≡◌, ℤ, IfOk, IfErr, IfSome, IfNone};
ghost use Rattle.lq_parser.specs.Lexemes.{sign_at, word_at, number_at};
ghost use Rattle.lq_parser.specs.Outcome.{Begins, Lacks, StopsFor, BeginsName, LacksName, StopsForName};

use crate::lexeme::{Keyword, Lexeme, Sign, Symbol};
use crate::stop::Stop;
use lq_tree::Name;

/// The lexemes behind a sign, where they begin with it.
pub fn eat_sign<'a>(lexemes: &'a [Lexeme], wanted: Sign) -> Option<&'a [Lexeme]>
    ensures some { IfSome result (λ rest. Begins (sign_at wanted) lexemes.now rest.now) }
    ensures none { IfNone result (Lacks (sign_at wanted) lexemes.now) }
{
    let (found, rest) = lexemes.split_first()?;
    match found.symbol {
        Symbol::Sign(sign) if sign == wanted => Some(rest),
        _ => None,
    }
}

/// The lexemes behind a keyword, where they begin with it.
pub fn eat_word<'a>(lexemes: &'a [Lexeme], wanted: Keyword) -> Option<&'a [Lexeme]>
    ensures some { IfSome result (λ rest. Begins (word_at wanted) lexemes.now rest.now) }
    ensures none { IfNone result (Lacks (word_at wanted) lexemes.now) }
{
    let (found, rest) = lexemes.split_first()?;
    match found.symbol {
        Symbol::Keyword(keyword) if keyword == wanted => Some(rest),
        _ => None,
    }
}

/// A name that the lexemes begin with, and the lexemes behind it.
pub fn eat_name<'a>(lexemes: &'a [Lexeme]) -> Option<(&'a Name, &'a [Lexeme])>
    ensures some { IfSome result (λ p. BeginsName lexemes.now p.0.now p.1.now) }
    ensures none { IfNone result (LacksName lexemes.now) }
{
    let (found, rest) = lexemes.split_first()?;
    match &found.symbol {
        Symbol::Name(name) => Some((name, rest)),
        _ => None,
    }
}

/// The lexemes behind a sign that has to come.
pub fn expect_sign<'a>(lexemes: &'a [Lexeme], wanted: Sign) -> Result<&'a [Lexeme], Stop<'a>>
    ensures found { IfOk result (λ rest. Begins (sign_at wanted) lexemes.now rest.now) }
    ensures missing { IfErr result (λ stop. StopsFor (sign_at wanted) lexemes.now stop) }
{
    eat_sign(lexemes, wanted).ok_or(Stop::Syntax(lexemes))
}

/// The lexemes behind a keyword that has to come.
pub fn expect_word<'a>(lexemes: &'a [Lexeme], wanted: Keyword) -> Result<&'a [Lexeme], Stop<'a>>
    ensures found { IfOk result (λ rest. Begins (word_at wanted) lexemes.now rest.now) }
    ensures missing { IfErr result (λ stop. StopsFor (word_at wanted) lexemes.now stop) }
{
    eat_word(lexemes, wanted).ok_or(Stop::Syntax(lexemes))
}

/// A name that has to come, and the lexemes behind it.
pub fn expect_name<'a>(lexemes: &'a [Lexeme]) -> Result<(&'a Name, &'a [Lexeme]), Stop<'a>>
    ensures found { IfOk result (λ p. BeginsName lexemes.now p.0.now p.1.now) }
    ensures missing { IfErr result (λ stop. StopsForName lexemes.now stop) }
{
    eat_name(lexemes).ok_or(Stop::Syntax(lexemes))
}

/// A number that the lexemes begin with, and the lexemes behind it.
pub fn eat_number<'a>(lexemes: &'a [Lexeme]) -> Option<(i64, &'a [Lexeme])>
    ensures some { IfSome result (λ p. Begins (number_at p.0) lexemes.now p.1.now) }
    ensures none { IfNone result ((value : ℤ) → Lacks (number_at value) lexemes.now) }
{
    let (found, rest) = lexemes.split_first()?;
    match found.symbol {
        Symbol::Number(value) => Some((value, rest)),
        _ => None,
    }
}
