ghost use Rattle.std.specs.Prelude.{◌≡◌, ◌<◌, ◌≤◌, length, [], IfOk, IfErr, IfSome, IfNone};
ghost use Rattle.lq_parser.specs.Programs.{IsParam, IsResult, IsFunc, IsStruct, IsProgram};
ghost use Rattle.lq_parser.specs.Sequence.{AreClosedParams, IsField, AreClosedFields};
ghost use Rattle.lq_parser.specs.Outcome.{Done, Stops, Anything, NoStar, AtEnd, BeginsStruct, LacksStruct};

use crate::lexeme::{Keyword, Lexeme, Sign};
use crate::statements::{block, place_of_first};
use crate::stop::Stop;
use crate::terminals::{eat_name, eat_sign, eat_word, expect_name, expect_sign};
use crate::types::ctype;
use lq_tree::{CType, Func, Items, Name, Param, Place, Program, StructDef};
use std::alloc::Global;

// param = type NAME
fn param<'a>(alloc: Global, lexemes: &'a [Lexeme]) -> Result<(Param, &'a [Lexeme]), Stop<'a>>
    ensures done { IfOk result (λ p. Done IsParam Anything lexemes.now p.0 p.1.now) }
    ensures stops { IfErr result (λ stop. Stops IsParam Anything lexemes.now stop) }
    ensures shorter { IfOk result (λ p. length p.1.now < length lexemes.now) }
{
    let (ctype, rest) = ctype(alloc, lexemes)?;
    let (name, rest) = expect_name(rest)?;
    let name = Name::from_slice(alloc, name.as_bytes())?;
    Ok((Param { ctype, name }, rest))
}

// The parameters of a function behind its `(`, and the `)`.
fn params<'a>(
    alloc: Global,
    lexemes: &'a [Lexeme],
) -> Result<(Items<Param>, &'a [Lexeme]), Stop<'a>>
    ensures done { IfOk result (λ p. Done AreClosedParams Anything lexemes.now p.0 p.1.now) }
    ensures stops { IfErr result (λ stop. Stops AreClosedParams Anything lexemes.now stop) }
    ensures shorter { IfOk result (λ p. length p.1.now < length lexemes.now) }
{
    let mut params = Items::new(alloc);
    if let Some(rest) = eat_sign(lexemes, Sign::RightParen) {
        return Ok((params, rest));
    }
    if let Some(rest) = eat_word(lexemes, Keyword::Void) {
        let rest = expect_sign(rest, Sign::RightParen)?;
        return Ok((params, rest));
    }
    let (first, mut rest) = param(alloc, lexemes)?;
    params.push(first)?;
    while let Some(after) = eat_sign(rest, Sign::Comma) {
        let (next, after) = param(alloc, after)?;
        params.push(next)?;
        rest = after;
    }
    let rest = expect_sign(rest, Sign::RightParen)?;
    Ok((params, rest))
}

// "void" | type
fn function_result<'a>(
    alloc: Global,
    lexemes: &'a [Lexeme],
) -> Result<(Option<CType>, &'a [Lexeme]), Stop<'a>>
    ensures done { IfOk result (λ p. Done IsResult NoStar lexemes.now p.0 p.1.now) }
    ensures stops { IfErr result (λ stop. Stops IsResult NoStar lexemes.now stop) }
    ensures shorter { IfOk result (λ p. length p.1.now < length lexemes.now) }
{
    if let Some(rest) = eat_word(lexemes, Keyword::Void) {
        return Ok((None, rest));
    }
    let (ctype, rest) = ctype(alloc, lexemes)?;
    Ok((Some(ctype), rest))
}

// A function.
fn function<'a>(alloc: Global, lexemes: &'a [Lexeme]) -> Result<(Func, &'a [Lexeme]), Stop<'a>>
    ensures done { IfOk result (λ p. Done IsFunc Anything lexemes.now p.0 p.1.now) }
    ensures stops { IfErr result (λ stop. Stops IsFunc Anything lexemes.now stop) }
    ensures shorter { IfOk result (λ p. length p.1.now < length lexemes.now) }
{
    let at = place_of_first(lexemes);
    let (result, rest) = function_result(alloc, lexemes)?;
    let (name, rest) = expect_name(rest)?;
    let name = Name::from_slice(alloc, name.as_bytes())?;
    let rest = expect_sign(rest, Sign::LeftParen)?;
    let (params, rest) = params(alloc, rest)?;
    let (body, rest) = block(alloc, rest)?;
    let function = Func {
        at,
        result,
        name,
        params,
        body,
    };
    Ok((function, rest))
}

// A field and the `;` behind it.
fn field<'a>(alloc: Global, lexemes: &'a [Lexeme]) -> Result<(Param, &'a [Lexeme]), Stop<'a>>
    ensures done { IfOk result (λ p. Done IsField Anything lexemes.now p.0 p.1.now) }
    ensures stops { IfErr result (λ stop. Stops IsField Anything lexemes.now stop) }
    ensures shorter { IfOk result (λ p. length p.1.now < length lexemes.now) }
{
    let (field, rest) = param(alloc, lexemes)?;
    let rest = expect_sign(rest, Sign::Semicolon)?;
    Ok((field, rest))
}

// The fields of a struct behind its `{`, and the `}` and `;`.
fn fields<'a>(
    alloc: Global,
    lexemes: &'a [Lexeme],
) -> Result<(Items<Param>, &'a [Lexeme]), Stop<'a>>
    ensures done { IfOk result (λ p. Done AreClosedFields Anything lexemes.now p.0 p.1.now) }
    ensures stops { IfErr result (λ stop. Stops AreClosedFields Anything lexemes.now stop) }
    ensures shorter { IfOk result (λ p. length p.1.now < length lexemes.now) }
{
    let mut fields = Items::new(alloc);
    let (first, mut rest) = field(alloc, lexemes)?;
    fields.push(first)?;
    loop {
        if let Some(after) = eat_sign(rest, Sign::RightBrace) {
            let after = expect_sign(after, Sign::Semicolon)?;
            return Ok((fields, after));
        }
        let (next, after) = field(alloc, rest)?;
        fields.push(next)?;
        rest = after;
    }
}

// The name of a struct that is defined here, and the lexemes behind its `{`. A function may begin with
// `struct` and a name too.
fn eat_struct<'a>(lexemes: &'a [Lexeme]) -> Option<(&'a Name, &'a [Lexeme])>
    ensures some { IfSome result (λ p. BeginsStruct lexemes.now p.0.now p.1.now) }
    ensures none { IfNone result (LacksStruct lexemes.now) }
{
    let rest = eat_word(lexemes, Keyword::Struct)?;
    let (name, rest) = eat_name(rest)?;
    let rest = eat_sign(rest, Sign::LeftBrace)?;
    Some((name, rest))
}

/// A whole source: structs and functions up to the end.
pub fn program<'a>(alloc: Global, lexemes: &'a [Lexeme]) -> Result<Program, Stop<'a>>
    ensures done { IfOk result (λ p. Done IsProgram AtEnd lexemes.now p []) }
    ensures stops { IfErr result (λ stop. Stops IsProgram AtEnd lexemes.now stop) }
{
    let mut structs = Items::new(alloc);
    let mut funcs = Items::new(alloc);
    let mut rest = lexemes;
    while !rest.is_empty() {
        let at = place_of_first(rest);
        if let Some((name, after)) = eat_struct(rest) {
            let name = Name::from_slice(alloc, name.as_bytes())?;
            let (fields, after) = fields(alloc, after)?;
            structs.push(StructDef { at, name, fields })?;
            rest = after;
        } else {
            let (function, after) = function(alloc, rest)?;
            funcs.push(function)?;
            rest = after;
        }
    }
    Ok(Program { structs, funcs })
}
