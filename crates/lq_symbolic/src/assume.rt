//! What a condition that is known to be true or false tells (docs/CHECKING.md, "Assuming").

ghost use Rattle.std.specs.Prelude.{◌≡◌, OnOk};
ghost use Rattle.lq_tree.specs.declared.expr.BinOp.TheVariants.{Lt};
ghost use Rattle.lq_symbolic.specs.State.{with_rows};
ghost use Rattle.lq_symbolic.specs.Value as expressions;
ghost use Rattle.lq_symbolic.specs.Assume as spec;
ghost use Rattle.lq_symbolic.specs.Told as told_of;

use crate::forms::{one, symbol, zero};
use crate::state::SymState;
use lq_linear::Form;
use lq_tree::{BinOp, PExpr};
use std::alloc::{AllocError, Global};

// What the value of an operator tells.
#[derive(Clone, Copy)]
enum Told {
    // Both operands have this truth.
    Both,
    Nothing,
    // The operands compare so, or not so.
    Compared,
    // Only what the int itself tells.
    Whole,
}

// What it tells that an operator's value is true, or that it is false.
fn told_by(op: BinOp, truth: bool) -> Told
    ensures { result ≡ told_of.told op truth }
{
    match op {
        BinOp::Lt | BinOp::Le | BinOp::Gt | BinOp::Ge => Told::Compared,
        BinOp::Eq if truth => Told::Compared,
        BinOp::Ne if !truth => Told::Compared,
        BinOp::Eq | BinOp::Ne => Told::Nothing,
        BinOp::And if truth => Told::Both,
        BinOp::Or if !truth => Told::Both,
        BinOp::And | BinOp::Or => Told::Nothing,
        _ => Told::Whole,
    }
}

impl SymState {
    // `a < b` becomes known, or that it isn't so.
    fn learn_less(
        &mut self,
        alloc: Global,
        truth: bool,
        a: &Form,
        b: &Form,
    ) -> Result<(), AllocError>
        ensures { OnOk result (self.new ≡ with_rows (spec.compared Lt truth a.now b.now) self.old) }
    {
        if truth {
            self.learn_below(alloc, a, b)
        } else {
            self.learn_at_most(alloc, b, a)
        }
    }

    // The rows of a comparison that holds, or that doesn't, become known.
    fn learn_compared(
        &mut self,
        alloc: Global,
        op: BinOp,
        truth: bool,
        a: &Form,
        b: &Form,
    ) -> Result<(), AllocError>
        ensures { OnOk result (self.new ≡ with_rows (spec.compared op truth a.now b.now) self.old) }
    {
        match op {
            BinOp::Lt => self.learn_less(alloc, truth, a, b),
            BinOp::Ge => self.learn_less(alloc, !truth, a, b),
            BinOp::Gt => self.learn_less(alloc, truth, b, a),
            BinOp::Le => self.learn_less(alloc, !truth, b, a),
            BinOp::Eq if truth => self.learn_equal(alloc, a, b),
            BinOp::Ne if !truth => self.learn_equal(alloc, a, b),
            _ => Ok(()),
        }
    }

    // An int is known to be true or false: one that is false is 0.
    fn assume_int(&mut self, alloc: Global, e: &PExpr, truth: bool) -> Result<(), AllocError>
        ensures { OnOk result (self.new ≡ spec.with_int truth (expressions.value e.now) self.old) }
    {
        if truth {
            return Ok(());
        }
        let form = self.value(alloc, e)?.into_form(alloc)?;
        let zero = zero(alloc)?;
        self.learn_equal(alloc, &form, &zero)
    }

    // A pointer is known to be null, or not to be.
    fn assume_null(&mut self, alloc: Global, e: &PExpr, truth: bool) -> Result<(), AllocError>
        ensures { OnOk result (self.new ≡ spec.with_null truth (expressions.value e.now self.old)) }
    {
        let pointer = self.value(alloc, e)?.into_pointer(alloc)?;
        let length = symbol(alloc, pointer.block)?;
        if truth {
            let zero = zero(alloc)?;
            self.learn_at_most(alloc, &length, &zero)
        } else {
            let one = one(alloc)?;
            self.learn_at_most(alloc, &one, &length)
        }
    }

    // A comparison is known to be true or false.
    fn assume_compared(
        &mut self,
        alloc: Global,
        op: BinOp,
        truth: bool,
        left: &PExpr,
        right: &PExpr,
    ) -> Result<(), AllocError>
        ensures { OnOk result (self.new
            ≡ spec.with_compared op truth (expressions.value left.now) (expressions.value right.now) self.old) }
    {
        let a = self.value(alloc, left)?.into_form(alloc)?;
        let b = self.value(alloc, right)?.into_form(alloc)?;
        self.learn_compared(alloc, op, truth, &a, &b)
    }

    /// An expression is known to be true, or to be false.
    pub fn assume(&mut self, alloc: Global, e: &PExpr, truth: bool) -> Result<(), AllocError>
        ensures { OnOk result (self.new ≡ spec.assumed truth e.now self.old) }
    {
        match e {
            PExpr::Not(operand) => self.assume(alloc, operand.get(), !truth),
            PExpr::IsNull(operand) => self.assume_null(alloc, operand.get(), truth),
            PExpr::Bin(op, left, right) => match told_by(*op, truth) {
                Told::Both => {
                    self.assume(alloc, left.get(), truth)?;
                    self.assume(alloc, right.get(), truth)
                }
                Told::Nothing => Ok(()),
                Told::Compared => self.assume_compared(alloc, *op, truth, left.get(), right.get()),
                Told::Whole => self.assume_int(alloc, e, truth),
            },
            PExpr::Num(_) | PExpr::Null | PExpr::Slot(_) | PExpr::Neg(_) | PExpr::Shift(_, _) => {
                self.assume_int(alloc, e, truth)
            }
        }
    }
}
