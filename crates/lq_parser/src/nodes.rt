ghost use Rattle.std.specs.Prelude.{◌≡◌, ◌++◌, ◌∷◌, [], ◌<◌, length, IfOk, IfErr};
ghost use Rattle.lq_tree.specs.declared.expr.Expr.{Neg, Not, Deref, Bin, Index, Arrow, Dot, Var, Call, Calloc};
ghost use Rattle.lq_parser.specs.declared.lexeme.Sign.TheVariants.{LeftParen, RightParen, Comma};
ghost use Rattle.lq_parser.specs.declared.lexeme.Keyword.TheVariants.{Sizeof};
ghost use Rattle.lq_parser.specs.Types.{IsType};
ghost use Rattle.lq_parser.specs.Sequence.{Then, Makes, IsSign, IsWord, IsName};
ghost use Rattle.lq_parser.specs.Outcome.{Done, Stops, Anything};

use crate::lexeme::{Keyword, Lexeme, Sign};
use crate::stop::Stop;
use crate::terminals::{expect_name, expect_sign, expect_word};
use crate::types::ctype;
use lq_tree::{BinOp, Boxed, CType, Expr, Items, Name};
use std::alloc::{AllocError, Global};

/// `- operand`
pub fn negative(alloc: Global, operand: Expr) -> Result<Expr, AllocError>
    ensures { IfOk result (λ e. e ≡ Neg operand) }
{
    Ok(Expr::Neg(Boxed::new(alloc, operand)?))
}

/// `! operand`
pub fn inverse(alloc: Global, operand: Expr) -> Result<Expr, AllocError>
    ensures { IfOk result (λ e. e ≡ Not operand) }
{
    Ok(Expr::Not(Boxed::new(alloc, operand)?))
}

/// `* operand`
pub fn target(alloc: Global, operand: Expr) -> Result<Expr, AllocError>
    ensures { IfOk result (λ e. e ≡ Deref operand) }
{
    Ok(Expr::Deref(Boxed::new(alloc, operand)?))
}

/// Two operands and their operator.
pub fn joined(alloc: Global, op: BinOp, left: Expr, right: Expr) -> Result<Expr, AllocError>
    ensures { IfOk result (λ e. e ≡ Bin op left right) }
{
    let left = Boxed::new(alloc, left)?;
    let right = Boxed::new(alloc, right)?;
    Ok(Expr::Bin(op, left, right))
}

/// `before [ at ]`
pub fn element(alloc: Global, before: Expr, at: Expr) -> Result<Expr, AllocError>
    ensures { IfOk result (λ e. e ≡ Index before at) }
{
    let before = Boxed::new(alloc, before)?;
    let at = Boxed::new(alloc, at)?;
    Ok(Expr::Index(before, at))
}

/// A name as an expression.
pub fn variable(alloc: Global, name: &Name) -> Result<Expr, AllocError>
    ensures { IfOk result (λ e. e ≡ Var name.now) }
{
    Ok(Expr::Var(Name::from_slice(alloc, name.as_bytes())?))
}

/// `name ( arguments )`
pub fn call(alloc: Global, name: &Name, arguments: Items<Expr>) -> Result<Expr, AllocError>
    ensures { IfOk result (λ e. e ≡ Call name.now arguments) }
{
    let name = Name::from_slice(alloc, name.as_bytes())?;
    Ok(Expr::Call(name, arguments))
}

/// `calloc ( count , sizeof ( ctype ) )`
pub fn allocation(alloc: Global, count: Expr, ctype: CType) -> Result<Expr, AllocError>
    ensures { IfOk result (λ e. e ≡ Calloc count ctype) }
{
    Ok(Expr::Calloc(Boxed::new(alloc, count)?, ctype))
}

/// One item.
pub fn single(alloc: Global, first: Expr) -> Result<Items<Expr>, AllocError>
    ensures { IfOk result (λ items. items ≡ first ∷ []) }
{
    let mut items = Items::new(alloc);
    items.push(first)?;
    Ok(items)
}

/// These items and one more.
pub fn longer(mut items: Items<Expr>, next: Expr) -> Result<Items<Expr>, AllocError>
    ensures { IfOk result (λ all. all ≡ items ++ (next ∷ [])) }
{
    items.push(next)?;
    Ok(items)
}

/// The name of a field behind `->`.
pub fn through<'a>(
    alloc: Global,
    before: Expr,
    lexemes: &'a [Lexeme],
) -> Result<(Expr, &'a [Lexeme]), Stop<'a>>
    ensures done { IfOk result (λ p. Done (Makes IsName (Arrow before)) Anything lexemes.now p.0 p.1.now) }
    ensures stops { IfErr result (λ stop. Stops (Makes IsName (Arrow before)) Anything lexemes.now stop) }
    ensures shorter { IfOk result (λ p. length p.1.now < length lexemes.now) }
{
    let (field, rest) = expect_name(lexemes)?;
    let field = Name::from_slice(alloc, field.as_bytes())?;
    Ok((Expr::Arrow(Boxed::new(alloc, before)?, field), rest))
}

/// The name of a field behind `.`.
pub fn member<'a>(
    alloc: Global,
    before: Expr,
    lexemes: &'a [Lexeme],
) -> Result<(Expr, &'a [Lexeme]), Stop<'a>>
    ensures done { IfOk result (λ p. Done (Makes IsName (Dot before)) Anything lexemes.now p.0 p.1.now) }
    ensures stops { IfErr result (λ stop. Stops (Makes IsName (Dot before)) Anything lexemes.now stop) }
    ensures shorter { IfOk result (λ p. length p.1.now < length lexemes.now) }
{
    let (field, rest) = expect_name(lexemes)?;
    let field = Name::from_slice(alloc, field.as_bytes())?;
    Ok((Expr::Dot(Boxed::new(alloc, before)?, field), rest))
}

/// What stands behind the number of items of a `calloc`: their type and its brackets.
pub fn item_type<'a>(
    alloc: Global,
    lexemes: &'a [Lexeme],
) -> Result<(CType, &'a [Lexeme]), Stop<'a>>
    ensures done { IfOk result (λ p. Done (Then (IsSign Comma) (λ _. Then (IsWord Sizeof) (λ _. Then (IsSign LeftParen) (λ _. Then IsType (λ type. Then (IsSign RightParen) (λ _. Makes (IsSign RightParen) (λ _. type))))))) Anything lexemes.now p.0 p.1.now) }
    ensures stops { IfErr result (λ stop. Stops (Then (IsSign Comma) (λ _. Then (IsWord Sizeof) (λ _. Then (IsSign LeftParen) (λ _. Then IsType (λ type. Then (IsSign RightParen) (λ _. Makes (IsSign RightParen) (λ _. type))))))) Anything lexemes.now stop) }
    ensures shorter { IfOk result (λ p. length p.1.now < length lexemes.now) }
{
    let rest = expect_sign(lexemes, Sign::Comma)?;
    let rest = expect_word(rest, Keyword::Sizeof)?;
    let rest = expect_sign(rest, Sign::LeftParen)?;
    let (ctype, rest) = ctype(alloc, rest)?;
    let rest = expect_sign(rest, Sign::RightParen)?;
    let rest = expect_sign(rest, Sign::RightParen)?;
    Ok((ctype, rest))
}
