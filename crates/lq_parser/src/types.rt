ghost use Rattle.std.specs.Prelude.{◌<◌, length, IfOk, IfErr};
ghost use Rattle.lq_parser.specs.Types.{IsBase, IsType};
ghost use Rattle.lq_parser.specs.Outcome.{Done, Stops, Anything, NoStar};

use crate::lexeme::{Keyword, Lexeme, Sign};
use crate::stop::Stop;
use crate::terminals::{eat_sign, eat_word, expect_name, expect_word};
use lq_tree::{Base, CType, Name};
use std::alloc::Global;

/// The most `*` that a type has.
const MOST_STARS: u8 = 3;

// "int" | "struct" NAME
fn base<'a>(alloc: Global, lexemes: &'a [Lexeme]) -> Result<(Base, &'a [Lexeme]), Stop<'a>>
    ensures done { IfOk result (λ p. Done IsBase Anything lexemes.now p.0 p.1.now) }
    ensures stops { IfErr result (λ stop. Stops IsBase Anything lexemes.now stop) }
    ensures shorter { IfOk result (λ p. length p.1.now < length lexemes.now) }
{
    if let Some(rest) = eat_word(lexemes, Keyword::Int) {
        return Ok((Base::Int, rest));
    }
    let rest = expect_word(lexemes, Keyword::Struct)?;
    let (name, rest) = expect_name(rest)?;
    let name = Name::from_slice(alloc, name.as_bytes())?;
    Ok((Base::Struct(name), rest))
}

/// A type: its base and up to three `*`.
pub fn ctype<'a>(alloc: Global, lexemes: &'a [Lexeme]) -> Result<(CType, &'a [Lexeme]), Stop<'a>>
    ensures done { IfOk result (λ p. Done IsType NoStar lexemes.now p.0 p.1.now) }
    ensures stops { IfErr result (λ stop. Stops IsType NoStar lexemes.now stop) }
    ensures shorter { IfOk result (λ p. length p.1.now < length lexemes.now) }
{
    let (base, mut rest) = base(alloc, lexemes)?;
    let mut stars = 0;
    while let Some(after) = eat_sign(rest, Sign::Star) {
        if stars == MOST_STARS {
            return Err(Stop::Syntax(rest));
        }
        stars += 1;
        rest = after;
    }
    Ok((CType { base, stars }, rest))
}
