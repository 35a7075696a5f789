//! The values of plain expressions (docs/LANGUAGE.md, "Evaluation").

ghost use Rattle.std.specs.Prelude.{◌≡◌, IfOk, IfErr, IfSome, IfNone};
ghost use Rattle.lq_meaning.specs.Operators.{Computed, Computes, Fails, then_compute, arithmetic as arithmetic_of};
ghost use Rattle.lq_meaning.specs.PlainMeaning as spec;

use crate::operators::{arithmetic, is_zero, negation, shifted, truth};
use lq_tree::{BinOp, PExpr, TrapKind};

/// The word of a slot, and 0 where there is none.
#[inline]
pub fn word_of(slots: &[i64], slot: u32) -> i64
    ensures { result ≡ spec.word_of slots.now slot }
{
    match slots.get(slot as usize) {
        Some(word) => *word,
        None => 0,
    }
}

// What an operator gives where its left side decides it (C11 6.5.13, 6.5.14).
#[inline]
fn decided(op: BinOp, left: i64) -> Option<i64>
    ensures some { IfSome result (λ word. (right : Computed) → spec.operated op (Computes left) right ≡ Computes word) }
    ensures none { IfNone result ((right : Computed) → spec.operated op (Computes left) right ≡ then_compute right (arithmetic_of op left)) }
{
    match op {
        BinOp::And if left == 0 => Some(0),
        BinOp::Or if left != 0 => Some(1),
        _ => None,
    }
}

/// The value of an expression over these slots, or the trap that it meets first. Numbers and slots, of which there are
/// most, take no call.
#[cycle(values)]
#[inline(always)]
pub fn value(slots: &[i64], e: &PExpr) -> Result<i64, TrapKind>
    ensures ok { IfOk result (λ x. spec.value slots.now e.now ≡ Computes x) }
    ensures err { IfErr result (λ kind. spec.value slots.now e.now ≡ Fails kind) }
{
    match e {
        PExpr::Num(word) => Ok(*word),
        PExpr::Slot(slot) => Ok(word_of(slots, *slot)),
        _ => computed(slots, e),
    }
}

// The value of an expression of any form.
#[cycle(values)]
#[tactic(auto, using(crate::proofs::Values::value_neg, crate::proofs::Values::value_not, crate::proofs::Values::value_is_null, crate::proofs::Values::ok_of, crate::proofs::Values::err_of))]
fn computed(slots: &[i64], e: &PExpr) -> Result<i64, TrapKind>
    ensures ok { IfOk result (λ x. spec.value slots.now e.now ≡ Computes x) }
    ensures err { IfErr result (λ kind. spec.value slots.now e.now ≡ Fails kind) }
{
    match e {
        PExpr::Num(word) => Ok(*word),
        PExpr::Null => Ok(0),
        PExpr::Slot(slot) => Ok(word_of(slots, *slot)),
        PExpr::Neg(e) => negation(value(slots, e.get())?),
        PExpr::Not(e) | PExpr::IsNull(e) => Ok(truth(is_zero(value(slots, e.get())?))),
        PExpr::Bin(op, left, right) => {
            let left = value(slots, left.get())?;
            match decided(*op, left) {
                Some(word) => Ok(word),
                None => arithmetic(*op, left, value(slots, right.get())?),
            }
        }
        PExpr::Shift(pointer, n) => {
            let pointer = value(slots, pointer.get())?;
            shifted(pointer, value(slots, n.get())?)
        }
    }
}
