//! The values of expressions (docs/CHECKING.md, "Values").

ghost use Rattle.std.specs.Prelude.{◌≡◌, IfOk, negsuc};
ghost use Rattle.lq_linear.specs.Form.{sum_of, multiple_of};
ghost use Rattle.lq_symbolic.specs.declared.value.SymValue.TheVariants.{Int as OfInt};
ghost use Rattle.lq_symbolic.specs.State.{Gives, GiveAll};
ghost use Rattle.lq_symbolic.specs.Told.{is_arithmetic as is_arithmetic_of};
ghost use Rattle.lq_symbolic.specs.Value as spec;

use crate::forms::{
    constant, copy_form, difference, divisor_of, factor_of, multiple, number_of, sum, symbol,
};
use crate::state::SymState;
use crate::value::{SymPtr, SymValue};
use lq_linear::{Form, Item};
use lq_templates::Given;
use lq_tree::{BinOp, Items, PExpr};
use std::alloc::{AllocError, Global};

// Whether the operands of an operator are looked at.
fn is_arithmetic(op: BinOp) -> bool
    ensures { result ≡ is_arithmetic_of op }
{
    match op {
        BinOp::Mul | BinOp::Div | BinOp::Rem | BinOp::Add | BinOp::Sub => true,
        _ => false,
    }
}

impl SymState {
    // The form, or a new int where there is none.
    fn known_or_new(&mut self, alloc: Global, form: Option<Form>) -> Result<SymValue, AllocError>
        ensures { IfOk result (λ value. Gives (spec.known_or_new form self.old) value self.new) }
    {
        match form {
            Some(form) => Ok(SymValue::Int(form)),
            None => self.new_int(alloc),
        }
    }

    // A number, or a new int where it passes the bounds of a form.
    fn number(&mut self, alloc: Global, number: i64) -> Result<SymValue, AllocError>
        ensures { IfOk result (λ value. Gives (spec.number number self.old) value self.new) }
    {
        let form = constant(alloc, number);
        self.known_or_new(alloc, form)
    }

    /// A sum of forms, or a new int where it passes the bounds of a form.
    pub fn sum(&mut self, alloc: Global, a: &Form, b: &Form) -> Result<SymValue, AllocError>
        ensures { IfOk result (λ value. Gives (spec.bounded_or_new (sum_of a.now b.now) self.old) value self.new) }
    {
        let form = sum(alloc, a, b)?;
        self.known_or_new(alloc, form)
    }

    // What a form is more than another, or a new int where it passes the bounds of a form.
    fn difference(&mut self, alloc: Global, a: &Form, b: &Form) -> Result<SymValue, AllocError>
        ensures { IfOk result
            (λ value. Gives (spec.bounded_or_new (sum_of a.now (multiple_of (negsuc 0) b.now)) self.old) value self.new) }
    {
        let form = difference(alloc, a, b)?;
        self.known_or_new(alloc, form)
    }

    // The multiple of a form, or a new int where it passes the bounds of a form.
    fn multiple(&mut self, alloc: Global, a: &Form, by: i64) -> Result<SymValue, AllocError>
        ensures { IfOk result (λ value. Gives (spec.bounded_or_new (multiple_of by a.now) self.old) value self.new) }
    {
        let form = multiple(alloc, a, by)?;
        self.known_or_new(alloc, form)
    }

    // A product in which one form is a factor is a multiple of the other.
    fn product(&mut self, alloc: Global, a: &Form, b: &Form) -> Result<SymValue, AllocError>
        ensures { IfOk result (λ value. Gives (spec.product a.now b.now self.old) value self.new) }
    {
        match factor_of(number_of(a)) {
            Some(first) => self.multiple(alloc, b, first),
            None => match factor_of(number_of(b)) {
                Some(second) => self.multiple(alloc, a, second),
                None => self.new_int(alloc),
            },
        }
    }

    // A new quotient, with its division where the divisor is a known one.
    fn quotient(&mut self, alloc: Global, a: &Form, b: &Form) -> Result<SymValue, AllocError>
        ensures { IfOk result (λ value. Gives (spec.quotient a.now b.now self.old) value self.new) }
    {
        let Some(divisor) = divisor_of(number_of(b)) else {
            return self.new_int(alloc);
        };
        let quotient = self.take(1)?;
        let dividend = copy_form(alloc, a)?;
        self.learn(Given::Fixed(Item::Division {
            quotient,
            dividend,
            divisor,
        }))?;
        Ok(SymValue::Int(symbol(alloc, quotient)?))
    }

    // A new remainder, with its item where the divisor is a known one.
    fn remainder(&mut self, alloc: Global, a: &Form, b: &Form) -> Result<SymValue, AllocError>
        ensures { IfOk result (λ value. Gives (spec.remainder a.now b.now self.old) value self.new) }
    {
        let Some(divisor) = divisor_of(number_of(b)) else {
            return self.new_int(alloc);
        };
        let remainder = self.take(1)?;
        let dividend = copy_form(alloc, a)?;
        self.learn(Given::Fixed(Item::Remainder {
            remainder,
            dividend,
            divisor,
        }))?;
        Ok(SymValue::Int(symbol(alloc, remainder)?))
    }

    // What an operator makes of two ints.
    fn operated(
        &mut self,
        alloc: Global,
        op: BinOp,
        a: &Form,
        b: &Form,
    ) -> Result<SymValue, AllocError>
        ensures { IfOk result (λ value. Gives
            (spec.operated op (spec.known (OfInt a.now)) (spec.known (OfInt b.now)) self.old) value self.new) }
    {
        match op {
            BinOp::Add => self.sum(alloc, a, b),
            BinOp::Sub => self.difference(alloc, a, b),
            BinOp::Mul => self.product(alloc, a, b),
            BinOp::Div => self.quotient(alloc, a, b),
            BinOp::Rem => self.remainder(alloc, a, b),
            _ => self.new_int(alloc),
        }
    }

    // A pointer so many elements further on. Its offset isn't negative.
    fn shifted(
        &mut self,
        alloc: Global,
        pointer: SymPtr,
        distance: &Form,
    ) -> Result<SymValue, AllocError>
        ensures { IfOk result (λ value. Gives (spec.shifted pointer distance.now self.old) value self.new) }
    {
        let offset = self.sum(alloc, &pointer.offset, distance)?;
        let offset = offset.into_form(alloc)?;
        self.learn_not_negative(alloc, &offset)?;
        Ok(SymValue::Ptr(SymPtr {
            class: pointer.class,
            block: pointer.block,
            offset,
        }))
    }

    /// The value of an expression, behind which more symbols and items are known.
    pub fn value(&mut self, alloc: Global, e: &PExpr) -> Result<SymValue, AllocError>
        ensures { IfOk result (λ value. Gives (spec.value e.now self.old) value self.new) }
    {
        match e {
            PExpr::Num(number) => self.number(alloc, *number),
            PExpr::Null => self.new_null(alloc),
            PExpr::Slot(slot) => self.value_at(alloc, *slot),
            PExpr::Neg(operand) => {
                let a = self.value(alloc, operand.get())?.into_form(alloc)?;
                self.multiple(alloc, &a, -1)
            }
            PExpr::Bin(op, left, right) => {
                if is_arithmetic(*op) {
                    let a = self.value(alloc, left.get())?.into_form(alloc)?;
                    let b = self.value(alloc, right.get())?.into_form(alloc)?;
                    self.operated(alloc, *op, &a, &b)
                } else {
                    self.new_int(alloc)
                }
            }
            PExpr::Shift(left, right) => {
                let pointer = self.value(alloc, left.get())?.into_pointer(alloc)?;
                let distance = self.value(alloc, right.get())?.into_form(alloc)?;
                self.shifted(alloc, pointer, &distance)
            }
            PExpr::Not(_) | PExpr::IsNull(_) => self.new_int(alloc),
        }
    }

    /// The values of expressions, from left to right.
    pub fn all_values(
        &mut self,
        alloc: Global,
        list: &[PExpr],
    ) -> Result<Items<SymValue>, AllocError>
        ensures { IfOk result (λ values. GiveAll (spec.all_values list.now self.old) values self.new) }
    {
        let mut values = Items::new(alloc);
        let mut rest = list;
        while let Some((e, later)) = rest.split_first() {
            values.push(self.value(alloc, e)?)?;
            rest = later;
        }
        Ok(values)
    }
}
