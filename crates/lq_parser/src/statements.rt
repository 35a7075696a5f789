ghost use Rattle.std.specs.Prelude.{◌≡◌, ◌<◌, ◌≤◌, ◌∷◌, List, length, IfOk, IfErr};
ghost use Rattle.lq_tree.specs.declared.place.Place.{Place};
ghost use Rattle.lq_parser.specs.declared.lexeme.Keyword.TheVariants.{If as IfWord, While as WhileWord, For as ForWord, Cobegin as CobeginWord, Foreach as ForeachWord};
ghost use Rattle.lq_parser.specs.declared.lexeme.Sign.TheVariants.{Semicolon, RightParen};
ghost use Rattle.lq_parser.specs.Lexemes.{word_at, sign_at};
ghost use Rattle.lq_parser.specs.Statements.{IsOptional, Placed, IsPart, IsSimple, IsStep, IsBlock, IsBody, IsGuarded, IsStatement, IsBranch};
ghost use Rattle.lq_parser.specs.Expressions.{IsExpression};
ghost use Rattle.lq_tree.specs.declared.stmt.StmtKind.{For as ForKind, Foreach as ForeachKind};
ghost use Rattle.lq_parser.specs.Sequence.{IsClosed, Makes, IsBehindFirst, IsBehindCondition, IsBehindIndex, IsBehindBounds};
ghost use Rattle.lq_parser.specs.Outcome.{Done, Stops, Anything, NoComma, NoElse, place_of_first};

use crate::expressions::expression;
use crate::lexeme::{Keyword, Lexeme, Sign};
use crate::parts::{closed_by, copy, flat, part, simple};
use crate::stop::Stop;
use crate::terminals::{eat_number, eat_sign, eat_word, expect_name, expect_sign};
use lq_tree::{Arm, Boxed, Expr, Items, Name, Place, Stmt, StmtKind};
use std::alloc::{AllocError, Global};

/// The place of the first lexeme, where there is one.
pub fn place_of_first(lexemes: &[Lexeme]) -> Place
    ensures { result ≡ place_of_first lexemes.now }
{
    match lexemes.first() {
        Some(first) => first.at,
        None => Place { line: 1, col: 1 },
    }
}

/// The statements of a block.
#[cycle(statements)]
pub fn block<'a>(
    alloc: Global,
    lexemes: &'a [Lexeme],
) -> Result<(Items<Stmt>, &'a [Lexeme]), Stop<'a>>
    ensures done { IfOk result (λ p. Done IsBlock Anything lexemes.now p.0 p.1.now) }
    ensures stops { IfErr result (λ stop. Stops IsBlock Anything lexemes.now stop) }
    ensures shorter { IfOk result (λ p. length p.1.now < length lexemes.now) }
{
    let mut rest = expect_sign(lexemes, Sign::LeftBrace)?;
    let mut statements = Items::new(alloc);
    loop {
        if let Some(after) = eat_sign(rest, Sign::RightBrace) {
            return Ok((statements, after));
        }
        let (statement, after) = statement(alloc, rest)?;
        statements.push(statement)?;
        rest = after;
    }
}

// A statement with its place.
#[cycle(statements)]
fn statement<'a>(alloc: Global, lexemes: &'a [Lexeme]) -> Result<(Stmt, &'a [Lexeme]), Stop<'a>>
    ensures done { IfOk result (λ p. Done (Placed IsStatement) NoElse lexemes.now p.0 p.1.now) }
    ensures stops { IfErr result (λ stop. Stops (Placed IsStatement) NoElse lexemes.now stop) }
    ensures shorter { IfOk result (λ p. length p.1.now < length lexemes.now) }
{
    let at = place_of_first(lexemes);
    let (kind, rest) = kind(alloc, lexemes)?;
    Ok((Stmt { at, kind }, rest))
}

// What a statement is.
#[cycle(statements)]
fn kind<'a>(alloc: Global, lexemes: &'a [Lexeme]) -> Result<(StmtKind, &'a [Lexeme]), Stop<'a>>
    ensures done { IfOk result (λ p. Done IsStatement NoElse lexemes.now p.0 p.1.now) }
    ensures stops { IfErr result (λ stop. Stops IsStatement NoElse lexemes.now stop) }
    ensures shorter { IfOk result (λ p. length p.1.now < length lexemes.now) }
{
    if eat_sign(lexemes, Sign::LeftBrace).is_some() {
        let (statements, rest) = block(alloc, lexemes)?;
        return Ok((StmtKind::Block(statements), rest));
    }
    if let Some(rest) = eat_word(lexemes, Keyword::If) {
        return conditional(alloc, rest);
    }
    if let Some(rest) = eat_word(lexemes, Keyword::While) {
        let (cond, body, rest) = guarded(alloc, rest)?;
        return Ok((StmtKind::While(cond, body), rest));
    }
    if let Some(rest) = eat_word(lexemes, Keyword::For) {
        return for_loop(alloc, rest);
    }
    if let Some(rest) = eat_word(lexemes, Keyword::Cobegin) {
        return cobegin(alloc, rest);
    }
    if let Some(rest) = eat_word(lexemes, Keyword::Foreach) {
        return foreach(alloc, rest);
    }
    flat(alloc, lexemes)
}

// A body of an `if` or a loop: a block, or a statement without a body.
#[cycle(statements)]
fn body<'a>(alloc: Global, lexemes: &'a [Lexeme]) -> Result<(Stmt, &'a [Lexeme]), Stop<'a>>
    ensures done { IfOk result (λ p. Done IsBody Anything lexemes.now p.0 p.1.now) }
    ensures stops { IfErr result (λ stop. Stops IsBody Anything lexemes.now stop) }
    ensures shorter { IfOk result (λ p. length p.1.now < length lexemes.now) }
{
    if eat_sign(lexemes, Sign::LeftBrace).is_some() {
        return branch(alloc, lexemes);
    }
    let at = place_of_first(lexemes);
    let (kind, rest) = flat(alloc, lexemes)?;
    Ok((Stmt { at, kind }, rest))
}

// A condition in parentheses, and the body that it guards.
#[cycle(statements)]
fn guarded<'a>(
    alloc: Global,
    lexemes: &'a [Lexeme],
) -> Result<(Expr, Boxed<Stmt>, &'a [Lexeme]), Stop<'a>>
    ensures done { IfOk result (λ p. Done IsGuarded Anything lexemes.now (p.0, p.1) p.2.now) }
    ensures stops { IfErr result (λ stop. Stops IsGuarded Anything lexemes.now stop) }
    ensures shorter { IfOk result (λ p. length p.2.now < length lexemes.now) }
{
    let rest = expect_sign(lexemes, Sign::LeftParen)?;
    let (cond, rest) = expression(alloc, rest)?;
    let rest = expect_sign(rest, Sign::RightParen)?;
    let (body, rest) = body(alloc, rest)?;
    Ok((cond, Boxed::new(alloc, body)?, rest))
}

// What stands behind the word `if`.
#[cycle(statements)]
fn conditional<'a>(
    alloc: Global,
    lexemes: &'a [Lexeme],
) -> Result<(StmtKind, &'a [Lexeme]), Stop<'a>>
    ensures done { (at : Place) → IfOk result (λ p. Done (λ ls k. IsStatement (word_at IfWord at ∷ ls) k) NoElse lexemes.now p.0 p.1.now) }
    ensures stops { (at : Place) → IfErr result (λ stop. Stops (λ ls k. IsStatement (word_at IfWord at ∷ ls) k) NoElse lexemes.now stop) }
    ensures shorter { IfOk result (λ p. length p.1.now < length lexemes.now) }
{
    let mut arms = Items::new(alloc);
    let (cond, body, mut rest) = guarded(alloc, lexemes)?;
    arms.push(Arm { cond, body })?;
    while let Some(after) = eat_word(rest, Keyword::Else) {
        let Some(after) = eat_word(after, Keyword::If) else {
            let (last, after) = body_of(alloc, after)?;
            return Ok((StmtKind::If(arms, Some(last)), after));
        };
        let (cond, body, after) = guarded(alloc, after)?;
        arms.push(Arm { cond, body })?;
        rest = after;
    }
    Ok((StmtKind::If(arms, None), rest))
}

// A body on the heap.
#[cycle(statements)]
fn body_of<'a>(
    alloc: Global,
    lexemes: &'a [Lexeme],
) -> Result<(Boxed<Stmt>, &'a [Lexeme]), Stop<'a>>
    ensures done { IfOk result (λ p. Done IsBody Anything lexemes.now p.0 p.1.now) }
    ensures stops { IfErr result (λ stop. Stops IsBody Anything lexemes.now stop) }
    ensures shorter { IfOk result (λ p. length p.1.now < length lexemes.now) }
{
    let (body, rest) = body(alloc, lexemes)?;
    Ok((Boxed::new(alloc, body)?, rest))
}

// A statement on the heap.
fn boxed_at(alloc: Global, at: Place, kind: StmtKind) -> Result<Boxed<Stmt>, AllocError>
    ensures { IfOk result (λ s. s ≡ record { at = at; kind = kind }) }
{
    Boxed::new(alloc, Stmt { at, kind })
}

// The first part of the head of a `for`, and the `;` behind it.
fn for_first<'a>(
    alloc: Global,
    lexemes: &'a [Lexeme],
) -> Result<(Option<Boxed<Stmt>>, &'a [Lexeme]), Stop<'a>>
    ensures done { IfOk result (λ p. Done (IsClosed (Placed IsPart) (sign_at Semicolon)) Anything lexemes.now p.0 p.1.now) }
    ensures stops { IfErr result (λ stop. Stops (IsClosed (Placed IsPart) (sign_at Semicolon)) Anything lexemes.now stop) }
    ensures shorter { IfOk result (λ p. length p.1.now < length lexemes.now) }
{
    if let Some(rest) = eat_sign(lexemes, Sign::Semicolon) {
        return Ok((None, rest));
    }
    let at = place_of_first(lexemes);
    let (kind, rest) = part(alloc, lexemes)?;
    let (closed, rest) = closed_by(kind, rest, Sign::Semicolon)?;
    Ok((Some(boxed_at(alloc, at, closed)?), rest))
}

// The condition in the head of a `for`, and the `;` behind it.
fn for_condition<'a>(
    alloc: Global,
    lexemes: &'a [Lexeme],
) -> Result<(Option<Expr>, &'a [Lexeme]), Stop<'a>>
    ensures done { IfOk result (λ p. Done (IsClosed IsExpression (sign_at Semicolon)) Anything lexemes.now p.0 p.1.now) }
    ensures stops { IfErr result (λ stop. Stops (IsClosed IsExpression (sign_at Semicolon)) Anything lexemes.now stop) }
    ensures shorter { IfOk result (λ p. length p.1.now < length lexemes.now) }
{
    if let Some(rest) = eat_sign(lexemes, Sign::Semicolon) {
        return Ok((None, rest));
    }
    let (cond, rest) = expression(alloc, lexemes)?;
    let rest = expect_sign(rest, Sign::Semicolon)?;
    Ok((Some(cond), rest))
}

// The third part of the head of a `for`, and the `)` behind it.
fn for_third<'a>(
    alloc: Global,
    lexemes: &'a [Lexeme],
) -> Result<(Option<Boxed<Stmt>>, &'a [Lexeme]), Stop<'a>>
    ensures done { IfOk result (λ p. Done (IsClosed (Placed IsSimple) (sign_at RightParen)) Anything lexemes.now p.0 p.1.now) }
    ensures stops { IfErr result (λ stop. Stops (IsClosed (Placed IsSimple) (sign_at RightParen)) Anything lexemes.now stop) }
    ensures shorter { IfOk result (λ p. length p.1.now < length lexemes.now) }
{
    if let Some(rest) = eat_sign(lexemes, Sign::RightParen) {
        return Ok((None, rest));
    }
    let at = place_of_first(lexemes);
    let (kind, rest) = simple(alloc, lexemes)?;
    let (closed, rest) = closed_by(kind, rest, Sign::RightParen)?;
    Ok((Some(boxed_at(alloc, at, closed)?), rest))
}

// What stands behind the word `for`.
#[cycle(statements)]
fn for_loop<'a>(alloc: Global, lexemes: &'a [Lexeme]) -> Result<(StmtKind, &'a [Lexeme]), Stop<'a>>
    ensures done { (at : Place) → IfOk result (λ p. Done (λ ls k. IsStatement (word_at ForWord at ∷ ls) k) NoElse lexemes.now p.0 p.1.now) }
    ensures stops { (at : Place) → IfErr result (λ stop. Stops (λ ls k. IsStatement (word_at ForWord at ∷ ls) k) NoElse lexemes.now stop) }
    ensures shorter { IfOk result (λ p. length p.1.now < length lexemes.now) }
{
    let rest = expect_sign(lexemes, Sign::LeftParen)?;
    let (first, rest) = for_first(alloc, rest)?;
    for_behind_first(alloc, first, rest)
}

// What stands behind the first part in the head of a `for`.
#[cycle(statements)]
fn for_behind_first<'a>(
    alloc: Global,
    first: Option<Boxed<Stmt>>,
    lexemes: &'a [Lexeme],
) -> Result<(StmtKind, &'a [Lexeme]), Stop<'a>>
    ensures done { IfOk result (λ p. Done (IsBehindFirst first) NoElse lexemes.now p.0 p.1.now) }
    ensures stops { IfErr result (λ stop. Stops (IsBehindFirst first) NoElse lexemes.now stop) }
    ensures shorter { IfOk result (λ p. length p.1.now < length lexemes.now) }
{
    match for_condition(alloc, lexemes) {
        Ok((cond, rest)) => for_behind_condition(alloc, first, cond, rest),
        Err(stop) => {
            drop(first);
            Err(stop)
        }
    }
}

// What stands behind the condition in the head of a `for`.
#[cycle(statements)]
fn for_behind_condition<'a>(
    alloc: Global,
    first: Option<Boxed<Stmt>>,
    cond: Option<Expr>,
    lexemes: &'a [Lexeme],
) -> Result<(StmtKind, &'a [Lexeme]), Stop<'a>>
    ensures done { IfOk result (λ p. Done (IsBehindCondition first cond) NoElse lexemes.now p.0 p.1.now) }
    ensures stops { IfErr result (λ stop. Stops (IsBehindCondition first cond) NoElse lexemes.now stop) }
    ensures shorter { IfOk result (λ p. length p.1.now < length lexemes.now) }
{
    match for_third(alloc, lexemes) {
        Ok((third, rest)) => for_behind_head(alloc, first, cond, third, rest),
        Err(stop) => {
            drop(first);
            drop(cond);
            Err(stop)
        }
    }
}

// The body of a `for` behind its head.
#[cycle(statements)]
fn for_behind_head<'a>(
    alloc: Global,
    first: Option<Boxed<Stmt>>,
    cond: Option<Expr>,
    third: Option<Boxed<Stmt>>,
    lexemes: &'a [Lexeme],
) -> Result<(StmtKind, &'a [Lexeme]), Stop<'a>>
    ensures done { IfOk result (λ p. Done (Makes IsBody (ForKind first cond third)) NoElse lexemes.now p.0 p.1.now) }
    ensures stops { IfErr result (λ stop. Stops (Makes IsBody (ForKind first cond third)) NoElse lexemes.now stop) }
    ensures shorter { IfOk result (λ p. length p.1.now < length lexemes.now) }
{
    match body_of(alloc, lexemes) {
        Ok((body, rest)) => Ok((StmtKind::For(first, cond, third, body), rest)),
        Err(stop) => {
            drop(first);
            drop(cond);
            drop(third);
            Err(stop)
        }
    }
}

// A block as a statement.
#[cycle(statements)]
fn branch<'a>(alloc: Global, lexemes: &'a [Lexeme]) -> Result<(Stmt, &'a [Lexeme]), Stop<'a>>
    ensures done { IfOk result (λ p. Done IsBranch Anything lexemes.now p.0 p.1.now) }
    ensures stops { IfErr result (λ stop. Stops IsBranch Anything lexemes.now stop) }
    ensures shorter { IfOk result (λ p. length p.1.now < length lexemes.now) }
{
    let at = place_of_first(lexemes);
    let (statements, rest) = block(alloc, lexemes)?;
    let kind = StmtKind::Block(statements);
    Ok((Stmt { at, kind }, rest))
}

// What stands behind the word `cobegin`.
#[cycle(statements)]
fn cobegin<'a>(alloc: Global, lexemes: &'a [Lexeme]) -> Result<(StmtKind, &'a [Lexeme]), Stop<'a>>
    ensures done { (at : Place) → IfOk result (λ p. Done (λ ls k. IsStatement (word_at CobeginWord at ∷ ls) k) NoElse lexemes.now p.0 p.1.now) }
    ensures stops { (at : Place) → IfErr result (λ stop. Stops (λ ls k. IsStatement (word_at CobeginWord at ∷ ls) k) NoElse lexemes.now stop) }
    ensures shorter { IfOk result (λ p. length p.1.now < length lexemes.now) }
{
    let mut branches = Items::new(alloc);
    let rest = expect_sign(lexemes, Sign::LeftBrace)?;
    let (first, rest) = branch(alloc, rest)?;
    branches.push(first)?;
    let (second, mut rest) = branch(alloc, rest)?;
    branches.push(second)?;
    loop {
        if let Some(after) = eat_sign(rest, Sign::RightBrace) {
            return Ok((StmtKind::Cobegin(branches), after));
        }
        let (next, after) = branch(alloc, rest)?;
        branches.push(next)?;
        rest = after;
    }
}

// What stands behind the word `foreach`.
#[cycle(statements)]
fn foreach<'a>(alloc: Global, lexemes: &'a [Lexeme]) -> Result<(StmtKind, &'a [Lexeme]), Stop<'a>>
    ensures done { (at : Place) → IfOk result (λ p. Done (λ ls k. IsStatement (word_at ForeachWord at ∷ ls) k) NoElse lexemes.now p.0 p.1.now) }
    ensures stops { (at : Place) → IfErr result (λ stop. Stops (λ ls k. IsStatement (word_at ForeachWord at ∷ ls) k) NoElse lexemes.now stop) }
    ensures shorter { IfOk result (λ p. length p.1.now < length lexemes.now) }
{
    let rest = expect_sign(lexemes, Sign::LeftParen)?;
    let (index, rest) = expect_name(rest)?;
    foreach_behind_index(alloc, index, rest)
}

// What stands behind the index in the head of a `foreach`.
#[cycle(statements)]
fn foreach_behind_index<'a>(
    alloc: Global,
    index: &Name,
    lexemes: &'a [Lexeme],
) -> Result<(StmtKind, &'a [Lexeme]), Stop<'a>>
    ensures done { IfOk result (λ p. Done (IsBehindIndex index.now) NoElse lexemes.now p.0 p.1.now) }
    ensures stops { IfErr result (λ stop. Stops (IsBehindIndex index.now) NoElse lexemes.now stop) }
    ensures shorter { IfOk result (λ p. length p.1.now < length lexemes.now) }
{
    let rest = expect_sign(lexemes, Sign::Comma)?;
    let (low, rest) = expression(alloc, rest)?;
    let rest = expect_sign(rest, Sign::Comma)?;
    let (high, rest) = expression(alloc, rest)?;
    foreach_behind_bounds(alloc, index, low, high, rest)
}

// The step in the head of a `foreach`: the number behind a comma, or 1 where there is no comma.
fn foreach_step(lexemes: &[Lexeme]) -> Result<(i64, &[Lexeme]), Stop<'_>>
    ensures done { IfOk result (λ p. Done IsStep NoComma lexemes.now p.0 p.1.now) }
    ensures stops { IfErr result (λ stop. Stops IsStep NoComma lexemes.now stop) }
    ensures shorter { IfOk result (λ p. length p.1.now ≤ length lexemes.now) }
{
    let Some(after) = eat_sign(lexemes, Sign::Comma) else {
        return Ok((1, lexemes));
    };
    let Some((step, rest)) = eat_number(after) else {
        return Err(Stop::Syntax(after));
    };
    Ok((step, rest))
}

// What stands behind the bounds in the head of a `foreach`.
#[cycle(statements)]
fn foreach_behind_bounds<'a>(
    alloc: Global,
    index: &Name,
    low: Expr,
    high: Expr,
    lexemes: &'a [Lexeme],
) -> Result<(StmtKind, &'a [Lexeme]), Stop<'a>>
    ensures done { IfOk result (λ p. Done (IsBehindBounds index.now low high) NoElse lexemes.now p.0 p.1.now) }
    ensures stops { IfErr result (λ stop. Stops (IsBehindBounds index.now low high) NoElse lexemes.now stop) }
    ensures shorter { IfOk result (λ p. length p.1.now < length lexemes.now) }
{
    let (step, rest) = foreach_step(lexemes)?;
    let rest = expect_sign(rest, Sign::RightParen)?;
    let (body, rest) = branch(alloc, rest)?;
    let body = Boxed::new(alloc, body)?;
    Ok((parallel(alloc, index, low, high, step, body)?, rest))
}

// The tree of a `foreach`.
fn parallel(
    alloc: Global,
    index: &Name,
    low: Expr,
    high: Expr,
    step: i64,
    body: Boxed<Stmt>,
) -> Result<StmtKind, AllocError>
    ensures { IfOk result (λ k. k ≡ ForeachKind index.now low high step body) }
{
    match copy(alloc, index) {
        Ok(index) => Ok(StmtKind::Foreach(index, low, high, step, body)),
        Err(failed) => {
            drop(low);
            drop(high);
            drop(body);
            Err(failed)
        }
    }
}
