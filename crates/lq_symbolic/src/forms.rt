//! Forms and rows as they are collected from sums.

ghost use Rattle.std.specs.Prelude.{◌≡◌, ◌++◌, pos, negsuc, ◌-ℤ◌, Some, IfOk};
ghost use Rattle.lq_linear.specs.Terms.{times};
ghost use Rattle.lq_linear.specs.Form as form;
ghost use Rattle.lq_linear.specs.Collect as collect;
ghost use Rattle.lq_linear.specs.Sides as sides;
ghost use Rattle.lq_symbolic.specs.Value as spec;

use lq_linear::{Divisor, Form, MOST_COEFFICIENT, Row, add, scale};
use std::alloc::{AllocError, Global};

/// The same form once more.
pub fn copy_form(alloc: Global, form: &Form) -> Result<Form, AllocError>
    ensures { IfOk result (λ f. f ≡ form.now) }
{
    let terms = Vec::from_slice(alloc, form.terms())?;
    Form::of(terms, form.constant()).ok_or(AllocError)
}

/// The form that is a number, where that is within the bounds.
pub(crate) fn constant(alloc: Global, number: i64) -> Option<Form>
    ensures { result ≡ collect.as_form (collect.constant number) }
{
    Form::of(Vec::new(alloc), number)
}

/// The form that is 0.
pub fn zero(alloc: Global) -> Result<Form, AllocError>
    ensures { IfOk result (λ f. f ≡ collect.constant (pos 0)) }
{
    Form::of(Vec::new(alloc), 0).ok_or(AllocError)
}

/// The form that is 1.
pub(crate) fn one(alloc: Global) -> Result<Form, AllocError>
    ensures { IfOk result (λ f. f ≡ collect.constant (pos 1)) }
{
    Form::of(Vec::new(alloc), 1).ok_or(AllocError)
}

/// The form that is a symbol.
pub fn symbol(alloc: Global, symbol: u32) -> Result<Form, AllocError>
    ensures { IfOk result (λ f. f ≡ collect.symbol symbol) }
{
    let mut terms = Vec::new(alloc);
    terms.push((symbol, 1))?;
    Form::of(terms, 0).ok_or(AllocError)
}

/// The sum of two forms, where it is within the bounds.
pub(crate) fn sum(alloc: Global, a: &Form, b: &Form) -> Result<Option<Form>, AllocError>
    ensures { IfOk result (λ f. f ≡ collect.as_form (form.sum_of a.now b.now)) }
{
    add(alloc, a, b)
}

/// The multiple of a form, where it is within the bounds.
pub(crate) fn multiple(alloc: Global, a: &Form, by: i64) -> Result<Option<Form>, AllocError>
    ensures { IfOk result (λ f. f ≡ collect.as_form (form.multiple_of by a.now)) }
{
    scale(alloc, a, by)
}

/// What a form is more than another, where it is within the bounds.
pub(crate) fn difference(alloc: Global, a: &Form, b: &Form) -> Result<Option<Form>, AllocError>
    ensures { IfOk result (λ f. f ≡ collect.as_form (form.sum_of a.now (form.multiple_of (negsuc 0) b.now))) }
{
    let turned = multiple(alloc, b, -1)?.ok_or(AllocError)?;
    sum(alloc, a, &turned)
}

/// The terms of a form, with 0 for its constant.
fn without_constant(alloc: Global, form: &Form) -> Result<Form, AllocError>
    ensures { IfOk result (λ f. f ≡ record { terms = form.now.terms; constant = pos 0 }) }
{
    let terms = Vec::from_slice(alloc, form.terms())?;
    Form::of(terms, 0).ok_or(AllocError)
}

/// The row that the terms of a form less those of another are at most a number, where it is within the bounds.
fn row(alloc: Global, a: &Form, b: &Form, most: i64) -> Result<Option<Row>, AllocError>
    ensures { IfOk result (λ row. row ≡ collect.as_row (record {
      terms = a.now.terms ++ times (negsuc 0) b.now.terms;
      most = most;
    })) }
{
    let a = without_constant(alloc, a)?;
    let b = without_constant(alloc, b)?;
    match difference(alloc, &a, &b)? {
        Some(form) => Ok(Row::of(form, most)),
        None => Ok(None),
    }
}

/// The row `a <= b`, where it is within the bounds.
pub(crate) fn at_most(alloc: Global, a: &Form, b: &Form) -> Result<Option<Row>, AllocError>
    ensures { IfOk result (λ row. row ≡ collect.as_row (sides.at_most a.now b.now)) }
{
    row(alloc, a, b, b.constant() - a.constant())
}

/// The row `a + 1 <= b`, where it is within the bounds.
pub(crate) fn below(alloc: Global, a: &Form, b: &Form) -> Result<Option<Row>, AllocError>
    ensures { IfOk result (λ row. row ≡ collect.as_row (sides.below a.now b.now)) }
{
    row(alloc, a, b, b.constant() - (a.constant() + 1))
}

/// The number that a form without symbols is.
pub(crate) fn number_of(form: &Form) -> Option<i64>
    ensures { result ≡ spec.number_of form.now }
{
    if form.terms().is_empty() {
        Some(form.constant())
    } else {
        None
    }
}

/// A number by which a form may be multiplied.
pub(crate) fn factor_of(number: Option<i64>) -> Option<i64>
    ensures { result ≡ spec.factor_of number }
{
    match number {
        Some(number) if number.unsigned_abs() <= MOST_COEFFICIENT => Some(number),
        _ => None,
    }
}

/// The divisor that a number is.
pub(crate) fn divisor_of(number: Option<i64>) -> Option<Divisor>
    ensures { result ≡ spec.divisor_of number }
{
    match number {
        Some(number) => Divisor::of(number),
        None => None,
    }
}
