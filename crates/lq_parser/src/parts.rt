ghost use Rattle.std.specs.Prelude.{◌≡◌, ◌≢◌, ℕ, ◌<◌, ◌≤◌, ◌∷◌, List, length, IfOk, IfErr, IfSome, IfNone};
ghost use Rattle.lq_tree.specs.declared.place.Place.{Place};
ghost use Rattle.lq_tree.specs.declared.stmt.StmtKind.{Set, Call as CallKind};
ghost use Rattle.lq_tree.specs.declared.expr.Expr.{Expr as ExprTree, Bin, Var, Call as CallExpr};
ghost use Rattle.lq_parser.specs.declared.lexeme.Sign.TheVariants.{Equal, Semicolon};
ghost use Rattle.lq_parser.specs.declared.lexeme.Keyword.TheVariants.{Return as ReturnWord, Print as PrintWord};
ghost use Rattle.lq_parser.specs.Lexemes.{name_at, word_at, sign_at, updating, stepping};
ghost use Rattle.lq_parser.specs.Expressions.{IsPlace, is_place};
ghost use Rattle.lq_parser.specs.Statements.{IsDeclaration, IsSimple, IsPart, IsFlat};
ghost use Rattle.lq_parser.specs.Sequence.{IsStored, Then, Makes, IsSign};
ghost use Rattle.lq_parser.specs.Outcome.{Done, Stops, StopsFor, Anything, EndsPart, IsEqual, Begins, Lacks, BeginsAs, LacksAs};

use crate::expressions::{expression, named, postfix, tail, unary};
use crate::lexeme::{Keyword, Lexeme, Sign, Symbol};
use crate::stop::Stop;
use crate::terminals::{eat_name, eat_sign, eat_word, expect_name, expect_sign};
use crate::types::ctype;
use lq_tree::{BinOp, Boxed, Expr, Name, StmtKind};
use std::alloc::{AllocError, Global};

// The operator of `+=`, `-=` or `*=`.
fn updating(sign: Sign) -> Option<BinOp>
    ensures { result ≡ updating sign }
{
    match sign {
        Sign::PlusEqual => Some(BinOp::Add),
        Sign::MinusEqual => Some(BinOp::Sub),
        Sign::StarEqual => Some(BinOp::Mul),
        _ => None,
    }
}

// The operator of `++` or `--`.
fn stepping(sign: Sign) -> Option<BinOp>
    ensures { result ≡ stepping sign }
{
    match sign {
        Sign::PlusPlus => Some(BinOp::Add),
        Sign::MinusMinus => Some(BinOp::Sub),
        _ => None,
    }
}

// An operator of an update that the lexemes begin with, and the lexemes behind it.
fn eat_update<'a>(lexemes: &'a [Lexeme]) -> Option<(BinOp, &'a [Lexeme])>
    ensures some { IfSome result (λ p. BeginsAs updating lexemes.now p.0 p.1.now) }
    ensures none { IfNone result (LacksAs updating lexemes.now) }
{
    let (found, rest) = lexemes.split_first()?;
    match found.symbol {
        Symbol::Sign(sign) => {
            let op = updating(sign)?;
            Some((op, rest))
        }
        _ => None,
    }
}

// An operator of a step that the lexemes begin with, and the lexemes behind it.
fn eat_step<'a>(lexemes: &'a [Lexeme]) -> Option<(BinOp, &'a [Lexeme])>
    ensures some { IfSome result (λ p. BeginsAs stepping lexemes.now p.0 p.1.now) }
    ensures none { IfNone result (LacksAs stepping lexemes.now) }
{
    let (found, rest) = lexemes.split_first()?;
    match found.symbol {
        Symbol::Sign(sign) => {
            let op = stepping(sign)?;
            Some((op, rest))
        }
        _ => None,
    }
}

// Whether an expression ends as what may be stored to.
fn is_place(expr: &Expr) -> bool
    ensures { result ≡ is_place expr.now }
{
    matches!(
        expr,
        Expr::Index(..) | Expr::Deref(..) | Expr::Arrow(..) | Expr::Dot(..)
    )
}

// What may be stored to.
fn place<'a>(alloc: Global, lexemes: &'a [Lexeme]) -> Result<(Expr, &'a [Lexeme]), Stop<'a>>
    ensures done { IfOk result (λ p. Done IsPlace IsEqual lexemes.now p.0 p.1.now) }
    ensures stops { IfErr result (λ stop. Stops IsPlace IsEqual lexemes.now stop) }
    ensures shorter { IfOk result (λ p. length p.1.now < length lexemes.now) }
{
    if let Some(rest) = eat_sign(lexemes, Sign::Star) {
        let (operand, rest) = unary(alloc, rest)?;
        return Ok((Expr::Deref(Boxed::new(alloc, operand)?), rest));
    }
    let (whole, rest) = postfix(alloc, lexemes)?;
    if is_place(&whole) {
        Ok((whole, rest))
    } else {
        Err(Stop::Syntax(rest))
    }
}

// What stands behind the place of a store.
fn store<'a>(
    alloc: Global,
    place: Expr,
    lexemes: &'a [Lexeme],
) -> Result<(StmtKind, &'a [Lexeme]), Stop<'a>>
    ensures done { IfOk result (λ p. Done (IsStored place) EndsPart lexemes.now p.0 p.1.now) }
    ensures stops { IfErr result (λ stop. Stops (IsStored place) EndsPart lexemes.now stop) }
    ensures shorter { IfOk result (λ p. length p.1.now < length lexemes.now) }
{
    let rest = expect_sign(lexemes, Sign::Equal)?;
    let (value, rest) = expression(alloc, rest)?;
    Ok((StmtKind::Store(place, value), rest))
}

// The statement that a call is.
fn call_statement(whole: Expr) -> Option<StmtKind>
    ensures some { IfSome result (λ kind. (function : List ℕ) × (arguments : List ExprTree) × (whole ≡ CallExpr function arguments) × (kind ≡ CallKind function arguments)) }
    ensures none { IfNone result ((function : List ℕ) (arguments : List ExprTree) → whole ≢ CallExpr function arguments) }
{
    match whole {
        Expr::Call(function, arguments) => Some(StmtKind::Call(function, arguments)),
        _ => None,
    }
}

// A simple statement behind the name that it begins with, where it is no assignment to that name.
fn store_or_call<'a>(
    alloc: Global,
    name: &Name,
    lexemes: &'a [Lexeme],
) -> Result<(StmtKind, &'a [Lexeme]), Stop<'a>>
    requires set { Lacks (sign_at Equal) lexemes.now }
    requires update { LacksAs updating lexemes.now }
    requires step { LacksAs stepping lexemes.now }
    ensures done { (at : Place) → IfOk result (λ p. Done (λ ls k. IsSimple (name_at name.now at ∷ ls) k) EndsPart lexemes.now p.0 p.1.now) }
    ensures stops { (at : Place) → IfErr result (λ stop. Stops (λ ls k. IsSimple (name_at name.now at ∷ ls) k) EndsPart lexemes.now stop) }
    ensures shorter { IfOk result (λ p. length p.1.now ≤ length lexemes.now) }
{
    let (start, rest) = named(alloc, name, lexemes)?;
    let (whole, rest) = tail(alloc, start, rest)?;
    if is_place(&whole) {
        return store(alloc, whole, rest);
    }
    match call_statement(whole) {
        Some(kind) => Ok((kind, rest)),
        None => Err(Stop::Syntax(rest)),
    }
}

// A simple statement behind the name that it begins with.
fn behind_name<'a>(
    alloc: Global,
    name: &Name,
    lexemes: &'a [Lexeme],
) -> Result<(StmtKind, &'a [Lexeme]), Stop<'a>>
    ensures done { (at : Place) → IfOk result (λ p. Done (λ ls k. IsSimple (name_at name.now at ∷ ls) k) EndsPart lexemes.now p.0 p.1.now) }
    ensures stops { (at : Place) → IfErr result (λ stop. Stops (λ ls k. IsSimple (name_at name.now at ∷ ls) k) EndsPart lexemes.now stop) }
    ensures shorter { IfOk result (λ p. length p.1.now ≤ length lexemes.now) }
{
    if let Some(rest) = eat_sign(lexemes, Sign::Equal) {
        let (value, rest) = expression(alloc, rest)?;
        return Ok((StmtKind::Set(copy(alloc, name)?, value), rest));
    }
    if let Some((op, rest)) = eat_update(lexemes) {
        let (value, rest) = expression(alloc, rest)?;
        return Ok((updated(alloc, name, op, value)?, rest));
    }
    if let Some((op, rest)) = eat_step(lexemes) {
        return Ok((updated(alloc, name, op, Expr::Num(1))?, rest));
    }
    store_or_call(alloc, name, lexemes)
}

/// The same name on the heap once more.
pub fn copy(alloc: Global, name: &Name) -> Result<Name, AllocError>
    ensures { IfOk result (λ n. n ≡ name.now) }
{
    Name::from_slice(alloc, name.as_bytes())
}

// The tree of `x = x op (value)`.
fn updated(alloc: Global, name: &Name, op: BinOp, value: Expr) -> Result<StmtKind, AllocError>
    ensures { IfOk result (λ k. k ≡ Set name.now (Bin op (Var name.now) value)) }
{
    let before = Boxed::new(alloc, Expr::Var(copy(alloc, name)?))?;
    let after = Expr::Bin(op, before, Boxed::new(alloc, value)?);
    Ok(StmtKind::Set(copy(alloc, name)?, after))
}

/// A simple statement.
pub fn simple<'a>(
    alloc: Global,
    lexemes: &'a [Lexeme],
) -> Result<(StmtKind, &'a [Lexeme]), Stop<'a>>
    ensures done { IfOk result (λ p. Done IsSimple EndsPart lexemes.now p.0 p.1.now) }
    ensures stops { IfErr result (λ stop. Stops IsSimple EndsPart lexemes.now stop) }
    ensures shorter { IfOk result (λ p. length p.1.now < length lexemes.now) }
{
    if let Some((name, rest)) = eat_name(lexemes) {
        return behind_name(alloc, name, rest);
    }
    let (place, rest) = place(alloc, lexemes)?;
    store(alloc, place, rest)
}

// A declaration.
fn declaration<'a>(
    alloc: Global,
    lexemes: &'a [Lexeme],
) -> Result<(StmtKind, &'a [Lexeme]), Stop<'a>>
    ensures done { IfOk result (λ p. Done IsDeclaration EndsPart lexemes.now p.0 p.1.now) }
    ensures stops { IfErr result (λ stop. Stops IsDeclaration EndsPart lexemes.now stop) }
    ensures shorter { IfOk result (λ p. length p.1.now < length lexemes.now) }
{
    let (ctype, rest) = ctype(alloc, lexemes)?;
    let (name, rest) = expect_name(rest)?;
    let name = copy(alloc, name)?;
    let Some(after) = eat_sign(rest, Sign::Equal) else {
        return Ok((StmtKind::Local(ctype, name, None), rest));
    };
    let (value, rest) = expression(alloc, after)?;
    Ok((StmtKind::Local(ctype, name, Some(value)), rest))
}

/// A declaration or a simple statement.
pub fn part<'a>(alloc: Global, lexemes: &'a [Lexeme]) -> Result<(StmtKind, &'a [Lexeme]), Stop<'a>>
    ensures done { IfOk result (λ p. Done IsPart EndsPart lexemes.now p.0 p.1.now) }
    ensures stops { IfErr result (λ stop. Stops IsPart EndsPart lexemes.now stop) }
    ensures shorter { IfOk result (λ p. length p.1.now < length lexemes.now) }
{
    if eat_word(lexemes, Keyword::Int).is_some() {
        return declaration(alloc, lexemes);
    }
    if eat_word(lexemes, Keyword::Struct).is_some() {
        return declaration(alloc, lexemes);
    }
    simple(alloc, lexemes)
}

// What stands behind the word `return`.
fn returned<'a>(alloc: Global, lexemes: &'a [Lexeme]) -> Result<(StmtKind, &'a [Lexeme]), Stop<'a>>
    ensures done { (at : Place) → IfOk result (λ p. Done (λ ls k. IsFlat (word_at ReturnWord at ∷ ls) k) Anything lexemes.now p.0 p.1.now) }
    ensures stops { (at : Place) → IfErr result (λ stop. Stops (λ ls k. IsFlat (word_at ReturnWord at ∷ ls) k) Anything lexemes.now stop) }
    ensures shorter { IfOk result (λ p. length p.1.now < length lexemes.now) }
{
    if let Some(rest) = eat_sign(lexemes, Sign::Semicolon) {
        return Ok((StmtKind::Return(None), rest));
    }
    let (value, rest) = expression(alloc, lexemes)?;
    let rest = expect_sign(rest, Sign::Semicolon)?;
    Ok((StmtKind::Return(Some(value)), rest))
}

// What stands behind the word `print`.
fn printed<'a>(alloc: Global, lexemes: &'a [Lexeme]) -> Result<(StmtKind, &'a [Lexeme]), Stop<'a>>
    ensures done { (at : Place) → IfOk result (λ p. Done (λ ls k. IsFlat (word_at PrintWord at ∷ ls) k) Anything lexemes.now p.0 p.1.now) }
    ensures stops { (at : Place) → IfErr result (λ stop. Stops (λ ls k. IsFlat (word_at PrintWord at ∷ ls) k) Anything lexemes.now stop) }
    ensures shorter { IfOk result (λ p. length p.1.now < length lexemes.now) }
{
    let rest = expect_sign(lexemes, Sign::LeftParen)?;
    let (value, rest) = expression(alloc, rest)?;
    let rest = expect_sign(rest, Sign::RightParen)?;
    let rest = expect_sign(rest, Sign::Semicolon)?;
    Ok((StmtKind::Print(value), rest))
}

/// A statement that was read, and the lexemes behind the sign that has to close it.
pub fn closed_by<'a>(
    kind: StmtKind,
    lexemes: &'a [Lexeme],
    closing: Sign,
) -> Result<(StmtKind, &'a [Lexeme]), Stop<'a>>
    ensures found { IfOk result (λ p. (p.0 ≡ kind) × Begins (sign_at closing) lexemes.now p.1.now) }
    ensures missing { IfErr result (λ stop. StopsFor (sign_at closing) lexemes.now stop) }
{
    match expect_sign(lexemes, closing) {
        Ok(rest) => Ok((kind, rest)),
        Err(stop) => {
            drop(kind);
            Err(stop)
        }
    }
}

// A part and the `;` behind it.
fn closed_part<'a>(
    alloc: Global,
    lexemes: &'a [Lexeme],
) -> Result<(StmtKind, &'a [Lexeme]), Stop<'a>>
    ensures done { IfOk result (λ p. Done (Then IsPart (λ kind. Makes (IsSign Semicolon) (λ _. kind))) Anything lexemes.now p.0 p.1.now) }
    ensures stops { IfErr result (λ stop. Stops (Then IsPart (λ kind. Makes (IsSign Semicolon) (λ _. kind))) Anything lexemes.now stop) }
    ensures shorter { IfOk result (λ p. length p.1.now < length lexemes.now) }
{
    let (kind, rest) = part(alloc, lexemes)?;
    closed_by(kind, rest, Sign::Semicolon)
}

/// A statement without a body.
pub fn flat<'a>(alloc: Global, lexemes: &'a [Lexeme]) -> Result<(StmtKind, &'a [Lexeme]), Stop<'a>>
    ensures done { IfOk result (λ p. Done IsFlat Anything lexemes.now p.0 p.1.now) }
    ensures stops { IfErr result (λ stop. Stops IsFlat Anything lexemes.now stop) }
    ensures shorter { IfOk result (λ p. length p.1.now < length lexemes.now) }
{
    if let Some(rest) = eat_sign(lexemes, Sign::Semicolon) {
        return Ok((StmtKind::Empty, rest));
    }
    if let Some(rest) = eat_word(lexemes, Keyword::Return) {
        return returned(alloc, rest);
    }
    if let Some(rest) = eat_word(lexemes, Keyword::Print) {
        return printed(alloc, rest);
    }
    closed_part(alloc, lexemes)
}
