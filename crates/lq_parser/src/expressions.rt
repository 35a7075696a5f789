ghost use Rattle.std.specs.Prelude.{◌≡◌, ℕ, suc, ◌-◌, ◌^◌, ◌+◌, ◌<◌, ◌≤◌, ◌∷◌, ◌++◌, length, IfOk, IfErr, IfSome, IfNone};
ghost use Rattle.lq_tree.specs.declared.place.Place.{Place};
ghost use Rattle.lq_tree.specs.declared.expr.Expr.{Expr};
ghost use Rattle.lq_parser.specs.declared.lexeme.Lexeme.{Lexeme};
ghost use Rattle.lq_parser.specs.Lexemes.{name_at, word_at, sign_at, operator, looseness};
ghost use Rattle.lq_parser.specs.Expressions.{IsPrimary, AreMore, IsTail, IsPostfix, IsUnary, IsBinary, IsChain, IsExpression};
ghost use Rattle.lq_parser.specs.declared.lexeme.Keyword.TheVariants.{Calloc as CallocWord};
ghost use Rattle.lq_parser.specs.declared.lexeme.Sign.TheVariants.{RightParen};
ghost use Rattle.lq_parser.specs.Sequence.{IsEnclosed, Then, Makes, IsSign};
ghost use Rattle.lq_parser.specs.Outcome.{Done, Stops, Anything, Ends, NoParen, BeginsOperator, LacksOperator, binds_sign};

use crate::lexeme::{Keyword, Lexeme, Sign, Symbol};
use crate::nodes::{
    allocation, call, element, inverse, item_type, joined, longer, member, negative, single,
    target, through, variable,
};
use crate::stop::Stop;
use crate::terminals::{eat_name, eat_number, eat_sign, eat_word, expect_sign};
use lq_tree::{BinOp, Expr, Items, Name};
use std::alloc::Global;

/// The looseness of `||`, the loosest operator.
const LOOSEST: u32 = 6;

// How loosely an operator binds: C11 6.5.5, 6.5.6, 6.5.8, 6.5.9, 6.5.13 and 6.5.14, in this order.
fn looseness(op: BinOp) -> u32
    ensures { result ≡ looseness op }
{
    match op {
        BinOp::Mul | BinOp::Div | BinOp::Rem => 1,
        BinOp::Add | BinOp::Sub => 2,
        BinOp::Lt | BinOp::Le | BinOp::Gt | BinOp::Ge => 3,
        BinOp::Eq | BinOp::Ne => 4,
        BinOp::And => 5,
        BinOp::Or => 6,
    }
}

// The operator with two operands that a sign stands for.
fn operator(sign: Sign) -> Option<BinOp>
    ensures { result ≡ operator sign }
{
    match sign {
        Sign::Star => Some(BinOp::Mul),
        Sign::Slash => Some(BinOp::Div),
        Sign::Percent => Some(BinOp::Rem),
        Sign::Plus => Some(BinOp::Add),
        Sign::Minus => Some(BinOp::Sub),
        Sign::Less => Some(BinOp::Lt),
        Sign::LessEqual => Some(BinOp::Le),
        Sign::Greater => Some(BinOp::Gt),
        Sign::GreaterEqual => Some(BinOp::Ge),
        Sign::EqualEqual => Some(BinOp::Eq),
        Sign::NotEqual => Some(BinOp::Ne),
        Sign::AndAnd => Some(BinOp::And),
        Sign::OrOr => Some(BinOp::Or),
        _ => None,
    }
}

// An operator of this looseness that the lexemes begin with, and the lexemes behind it.
fn eat_operator<'a>(lexemes: &'a [Lexeme], wanted: u32) -> Option<(BinOp, &'a [Lexeme])>
    ensures some { IfSome result (λ p. BeginsOperator wanted lexemes.now p.0 p.1.now) }
    ensures none { IfNone result (LacksOperator wanted lexemes.now) }
{
    let (found, rest) = lexemes.split_first()?;
    match found.symbol {
        Symbol::Sign(sign) => {
            let op = operator(sign)?;
            (looseness(op) == wanted).then_some((op, rest))
        }
        _ => None,
    }
}

/// An expression.
pub fn expression<'a>(
    alloc: Global,
    lexemes: &'a [Lexeme],
) -> Result<(Expr, &'a [Lexeme]), Stop<'a>>
    ensures done { IfOk result (λ p. Done IsExpression (Ends 6) lexemes.now p.0 p.1.now) }
    ensures stops { IfErr result (λ stop. Stops IsExpression (Ends 6) lexemes.now stop) }
    ensures shorter { IfOk result (λ p. length p.1.now < length lexemes.now) }
{
    binary(alloc, lexemes, LOOSEST)
}

// Operands joined by operators of at most this looseness.
#[cycle(expressions)]
fn binary<'a>(
    alloc: Global,
    lexemes: &'a [Lexeme],
    loosest: u32,
) -> Result<(Expr, &'a [Lexeme]), Stop<'a>>
    ensures done { IfOk result (λ p. Done (λ ls e. IsBinary ls loosest e) (Ends loosest) lexemes.now p.0 p.1.now) }
    ensures stops { IfErr result (λ stop. Stops (λ ls e. IsBinary ls loosest e) (Ends loosest) lexemes.now stop) }
    ensures shorter { IfOk result (λ p. length p.1.now < length lexemes.now) }
{
    if loosest == 0 {
        return unary(alloc, lexemes);
    }
    let (left, rest) = binary(alloc, lexemes, loosest - 1)?;
    chain(alloc, left, rest, loosest - 1)
}

// Operators that are one looser than their operands group to the left.
#[cycle(expressions)]
fn chain<'a>(
    alloc: Global,
    left: Expr,
    lexemes: &'a [Lexeme],
    tighter: u32,
) -> Result<(Expr, &'a [Lexeme]), Stop<'a>>
    requires { tighter < 2 ^ 32 - 1 }
    ensures done { IfOk result (λ p. Done (IsChain (suc tighter) left) (Ends (suc tighter)) lexemes.now p.0 p.1.now) }
    ensures stops { IfErr result (λ stop. Stops (IsChain (suc tighter) left) (Ends (suc tighter)) lexemes.now stop) }
    ensures shorter { IfOk result (λ p. length p.1.now ≤ length lexemes.now) }
{
    let Some((op, rest)) = eat_operator(lexemes, tighter + 1) else {
        return Ok((left, lexemes));
    };
    let (right, rest) = binary(alloc, rest, tighter)?;
    chain(alloc, joined(alloc, op, left, right)?, rest, tighter)
}

/// { "-" | "!" | "*" } postfix
#[cycle(expressions)]
pub fn unary<'a>(alloc: Global, lexemes: &'a [Lexeme]) -> Result<(Expr, &'a [Lexeme]), Stop<'a>>
    ensures done { IfOk result (λ p. Done IsUnary (Ends 0) lexemes.now p.0 p.1.now) }
    ensures stops { IfErr result (λ stop. Stops IsUnary (Ends 0) lexemes.now stop) }
    ensures shorter { IfOk result (λ p. length p.1.now < length lexemes.now) }
{
    if let Some(rest) = eat_sign(lexemes, Sign::Minus) {
        let (operand, rest) = unary(alloc, rest)?;
        return Ok((negative(alloc, operand)?, rest));
    }
    if let Some(rest) = eat_sign(lexemes, Sign::Not) {
        let (operand, rest) = unary(alloc, rest)?;
        return Ok((inverse(alloc, operand)?, rest));
    }
    if let Some(rest) = eat_sign(lexemes, Sign::Star) {
        let (operand, rest) = unary(alloc, rest)?;
        return Ok((target(alloc, operand)?, rest));
    }
    postfix(alloc, lexemes)
}

/// A primary and its tail.
#[cycle(expressions)]
pub fn postfix<'a>(alloc: Global, lexemes: &'a [Lexeme]) -> Result<(Expr, &'a [Lexeme]), Stop<'a>>
    ensures done { IfOk result (λ p. Done IsPostfix (Ends 0) lexemes.now p.0 p.1.now) }
    ensures stops { IfErr result (λ stop. Stops IsPostfix (Ends 0) lexemes.now stop) }
    ensures shorter { IfOk result (λ p. length p.1.now < length lexemes.now) }
{
    let (primary, rest) = primary(alloc, lexemes)?;
    tail(alloc, primary, rest)
}

/// What stands behind a primary makes another expression of it.
#[cycle(expressions)]
pub fn tail<'a>(
    alloc: Global,
    before: Expr,
    lexemes: &'a [Lexeme],
) -> Result<(Expr, &'a [Lexeme]), Stop<'a>>
    ensures done { IfOk result (λ p. Done (IsTail before) (Ends 0) lexemes.now p.0 p.1.now) }
    ensures stops { IfErr result (λ stop. Stops (IsTail before) (Ends 0) lexemes.now stop) }
    ensures shorter { IfOk result (λ p. length p.1.now ≤ length lexemes.now) }
{
    if let Some(rest) = eat_sign(lexemes, Sign::LeftBracket) {
        let (index, rest) = closed(alloc, rest, Sign::RightBracket)?;
        return tail(alloc, element(alloc, before, index)?, rest);
    }
    if let Some(rest) = eat_sign(lexemes, Sign::Arrow) {
        let (field, rest) = through(alloc, before, rest)?;
        return tail(alloc, field, rest);
    }
    if let Some(rest) = eat_sign(lexemes, Sign::Dot) {
        let (field, rest) = member(alloc, before, rest)?;
        return tail(alloc, field, rest);
    }
    Ok((before, lexemes))
}

// An expression, and the bracket that closes it.
#[cycle(expressions)]
fn closed<'a>(
    alloc: Global,
    lexemes: &'a [Lexeme],
    bracket: Sign,
) -> Result<(Expr, &'a [Lexeme]), Stop<'a>>
    requires { 6 < binds_sign bracket }
    ensures done { IfOk result (λ p. Done (Then IsExpression (λ e. Makes (IsSign bracket) (λ _. e))) Anything lexemes.now p.0 p.1.now) }
    ensures stops { IfErr result (λ stop. Stops (Then IsExpression (λ e. Makes (IsSign bracket) (λ _. e))) Anything lexemes.now stop) }
    ensures shorter { IfOk result (λ p. length p.1.now < length lexemes.now) }
{
    let (inside, rest) = binary(alloc, lexemes, LOOSEST)?;
    let rest = expect_sign(rest, bracket)?;
    Ok((inside, rest))
}

// NUMBER | NAME | a call | a `calloc` | "(" expr ")"
#[cycle(expressions)]
fn primary<'a>(alloc: Global, lexemes: &'a [Lexeme]) -> Result<(Expr, &'a [Lexeme]), Stop<'a>>
    ensures done { IfOk result (λ p. Done IsPrimary NoParen lexemes.now p.0 p.1.now) }
    ensures stops { IfErr result (λ stop. Stops IsPrimary NoParen lexemes.now stop) }
    ensures shorter { IfOk result (λ p. length p.1.now < length lexemes.now) }
{
    if let Some((number, rest)) = eat_number(lexemes) {
        return Ok((Expr::Num(number), rest));
    }
    if let Some((name, rest)) = eat_name(lexemes) {
        return named(alloc, name, rest);
    }
    if let Some(rest) = eat_word(lexemes, Keyword::Calloc) {
        return calloc(alloc, rest);
    }
    let rest = expect_sign(lexemes, Sign::LeftParen)?;
    closed(alloc, rest, Sign::RightParen)
}

/// What stands behind a name makes a call of it, or it is a variable.
#[cycle(expressions)]
pub fn named<'a>(
    alloc: Global,
    name: &Name,
    lexemes: &'a [Lexeme],
) -> Result<(Expr, &'a [Lexeme]), Stop<'a>>
    ensures done { (at : Place) → IfOk result (λ p. Done (λ ls e. IsPrimary (name_at name.now at ∷ ls) e) NoParen lexemes.now p.0 p.1.now) }
    ensures stops { (at : Place) → IfErr result (λ stop. Stops (λ ls e. IsPrimary (name_at name.now at ∷ ls) e) NoParen lexemes.now stop) }
    ensures shorter { IfOk result (λ p. length p.1.now ≤ length lexemes.now) }
{
    let Some(rest) = eat_sign(lexemes, Sign::LeftParen) else {
        return Ok((variable(alloc, name)?, lexemes));
    };
    let (arguments, rest) = arguments(alloc, rest)?;
    Ok((call(alloc, name, arguments)?, rest))
}

// What stands behind the word `calloc`.
#[cycle(expressions)]
fn calloc<'a>(alloc: Global, lexemes: &'a [Lexeme]) -> Result<(Expr, &'a [Lexeme]), Stop<'a>>
    ensures done { (at : Place) → IfOk result (λ p. Done (λ ls e. IsPrimary (word_at CallocWord at ∷ ls) e) Anything lexemes.now p.0 p.1.now) }
    ensures stops { (at : Place) → IfErr result (λ stop. Stops (λ ls e. IsPrimary (word_at CallocWord at ∷ ls) e) Anything lexemes.now stop) }
    ensures shorter { IfOk result (λ p. length p.1.now < length lexemes.now) }
{
    let rest = expect_sign(lexemes, Sign::LeftParen)?;
    let (count, rest) = binary(alloc, rest, LOOSEST)?;
    let (ctype, rest) = item_type(alloc, rest)?;
    Ok((allocation(alloc, count, ctype)?, rest))
}

/// The arguments of a call behind its `(`, and the `)`.
#[cycle(expressions)]
pub fn arguments<'a>(
    alloc: Global,
    lexemes: &'a [Lexeme],
) -> Result<(Items<Expr>, &'a [Lexeme]), Stop<'a>>
    ensures done { IfOk result (λ p. Done IsEnclosed Anything lexemes.now p.0 p.1.now) }
    ensures stops { IfErr result (λ stop. Stops IsEnclosed Anything lexemes.now stop) }
    ensures shorter { IfOk result (λ p. length p.1.now < length lexemes.now) }
{
    if let Some(rest) = eat_sign(lexemes, Sign::RightParen) {
        return Ok((Items::new(alloc), rest));
    }
    let (first, rest) = binary(alloc, lexemes, LOOSEST)?;
    more_arguments(alloc, single(alloc, first)?, rest)
}

// The arguments behind those that were read, and the `)`.
#[cycle(expressions)]
fn more_arguments<'a>(
    alloc: Global,
    read: Items<Expr>,
    lexemes: &'a [Lexeme],
) -> Result<(Items<Expr>, &'a [Lexeme]), Stop<'a>>
    ensures done { IfOk result (λ p. Done (Then AreMore (λ more. Makes (IsSign RightParen) (λ _. read ++ more))) Anything lexemes.now p.0 p.1.now) }
    ensures stops { IfErr result (λ stop. Stops (Then AreMore (λ more. Makes (IsSign RightParen) (λ _. read ++ more))) Anything lexemes.now stop) }
    ensures shorter { IfOk result (λ p. length p.1.now < length lexemes.now) }
{
    let Some(rest) = eat_sign(lexemes, Sign::Comma) else {
        let rest = expect_sign(lexemes, Sign::RightParen)?;
        return Ok((read, rest));
    };
    let (next, rest) = binary(alloc, rest, LOOSEST)?;
    more_arguments(alloc, longer(read, next)?, rest)
}
