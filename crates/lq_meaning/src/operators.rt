//! Operators of two words (docs/LANGUAGE.md, "Words" and "Pointer words").

ghost use Rattle.std.specs.Prelude.{◌≡◌, IfSome, IfNone, Ok, Err};
ghost use Rattle.lq_tree.specs.declared.expr.BinOp.TheVariants.{Div, Rem};
ghost use Rattle.lq_tree.specs.declared.trap.TrapKind.TheVariants.{Overflow};
ghost use Rattle.lq_meaning.specs.Operators as spec;
ghost use Rattle.lq_meaning.specs.Value.{says};

use crate::pointer::{block_of, offset_of};
use lq_tree::{BinOp, TrapKind};

/// 1 for true, 0 for false.
#[inline]
pub fn truth(holds: bool) -> i64
    ensures { result ≡ spec.truth holds }
{
    if holds { 1 } else { 0 }
}

/// Whether a word is 0, which is false, or null.
#[inline]
pub fn is_zero(word: i64) -> bool
    ensures { result ≡ spec.is_zero word }
{
    word == 0
}

// A quotient that is a word.
fn quotient(x: i64, y: i64) -> Result<i64, TrapKind>
    ensures { says result ≡ spec.arithmetic Div x y }
{
    if y == 0 {
        return Err(TrapKind::Zero);
    }
    match x.checked_div(y) {
        Some(word) => Ok(word),
        None => Err(TrapKind::Overflow),
    }
}

// What is left by a division whose quotient is a word.
fn remainder(x: i64, y: i64) -> Result<i64, TrapKind>
    ensures { says result ≡ spec.arithmetic Rem x y }
{
    if y == 0 {
        return Err(TrapKind::Zero);
    }
    match x.checked_rem(y) {
        Some(word) => Ok(word),
        None => Err(TrapKind::Overflow),
    }
}

// A result that is a word.
#[inline]
fn fitting(word: Option<i64>) -> Result<i64, TrapKind>
    ensures some { IfSome word (λ x. result ≡ Ok x) }
    ensures none { IfNone word (result ≡ Err Overflow) }
{
    match word {
        Some(word) => Ok(word),
        None => Err(TrapKind::Overflow),
    }
}

/// The opposite number.
#[inline]
pub fn negation(x: i64) -> Result<i64, TrapKind>
    ensures { says result ≡ spec.negation x }
{
    fitting(x.checked_neg())
}

/// An operator of two ints; of `&&` and `||` here both sides are known.
#[inline(always)]
pub fn arithmetic(op: BinOp, x: i64, y: i64) -> Result<i64, TrapKind>
    ensures { says result ≡ spec.arithmetic op x y }
{
    match op {
        BinOp::Mul => fitting(x.checked_mul(y)),
        BinOp::Div => quotient(x, y),
        BinOp::Rem => remainder(x, y),
        BinOp::Add => fitting(x.checked_add(y)),
        BinOp::Sub => fitting(x.checked_sub(y)),
        BinOp::Lt => Ok(truth(x < y)),
        BinOp::Le => Ok(truth(x <= y)),
        BinOp::Gt => Ok(truth(x > y)),
        BinOp::Ge => Ok(truth(x >= y)),
        BinOp::Eq => Ok(truth(x == y)),
        BinOp::Ne => Ok(truth(x != y)),
        BinOp::And => Ok(truth(x != 0 && y != 0)),
        BinOp::Or => Ok(truth(!(x == 0 && y == 0))),
    }
}

/// A pointer so many elements further on; null goes nowhere.
#[inline]
pub fn shifted(pointer: i64, n: i64) -> Result<i64, TrapKind>
    ensures { says result ≡ spec.shifted pointer n }
{
    if pointer == 0 {
        return if n == 0 { Ok(0) } else { Err(TrapKind::Offset) };
    }
    match (offset_of(pointer) as i64).checked_add(n) {
        Some(offset) if 0 <= offset && offset < 1 << 31 => {
            Ok(block_of(pointer) as i64 * (1 << 32) + offset)
        }
        _ => Err(TrapKind::Offset),
    }
}
