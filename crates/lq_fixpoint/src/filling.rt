//! Rows of templates with forms in the place of their names.

ghost use Rattle.std.specs.Prelude.{◌≡◌, ◌+ℤ◌, ◌*ℤ◌, IfOk, OnOk};
ghost use Rattle.lq_linear.specs.Terms.{times, IsPlaceOf, IsCollected};
ghost use Rattle.lq_linear.specs.Collect.{collected, with_term, as_row};
ghost use Rattle.lq_templates.specs.Conditions.{filled, filled_terms, filled_constant, row_of};
ghost use Rattle.lq_fixpoint.specs.Filling.{with_terms};

use lq_linear::{Form, Item, Row};
use std::alloc::{AllocError, Global};

/// A sum whose terms are collected, within the bounds of a form or not.
#[derive(Drop)]
struct Sum {
    terms: Vec<(u32, i64)>,
    constant: i64,
}

/// A row over names with forms in the place of the names, where that is within the bounds of a row. A name without a
/// form stands for 0.
pub fn filled_row(alloc: Global, values: &[Form], row: &Row) -> Result<Option<Row>, AllocError>
    ensures { IfOk result (λ r. r ≡ as_row (filled values.now row.now)) }
{
    let sum = filled_sum(alloc, values, row.form.terms())?;
    let most = row.most.checked_sub(sum.constant).ok_or(AllocError)?;
    Ok(row_of_terms(sum.terms, most))
}

// The terms and the constant of a sum over names with forms in the place of the names.
fn filled_sum(alloc: Global, values: &[Form], terms: &[(u32, i64)]) -> Result<Sum, AllocError>
    ensures terms { IfOk result (λ sum. sum.terms.items ≡ collected (filled_terms values.now terms.now)) }
    ensures constant { IfOk result (λ sum. sum.constant ≡ filled_constant values.now terms.now) }
{
    let Some((term, rest)) = terms.split_first() else {
        return Ok(Sum {
            terms: Vec::new(alloc),
            constant: 0,
        });
    };
    let sum = filled_sum(alloc, values, rest)?;
    match values.get(term.0 as usize) {
        Some(form) => add_multiple(term.1, form, sum),
        None => Ok(sum),
    }
}

// The multiple of a form and a sum.
fn add_multiple(factor: i64, form: &Form, sum: Sum) -> Result<Sum, AllocError>
    ensures terms { IfOk result (λ s. s.terms.items ≡ with_terms (times factor form.now.terms) sum.terms.items) }
    ensures constant { IfOk result (λ s. s.constant ≡ (factor *ℤ form.now.constant) +ℤ sum.constant) }
{
    let multiple = factor.checked_mul(form.constant()).ok_or(AllocError)?;
    let constant = multiple.checked_add(sum.constant).ok_or(AllocError)?;
    let terms = add_multiples(factor, form.terms(), sum.terms)?;
    Ok(Sum { terms, constant })
}

// Multiples of terms among collected ones.
fn add_multiples(
    factor: i64,
    more: &[(u32, i64)],
    terms: Vec<(u32, i64)>,
) -> Result<Vec<(u32, i64)>, AllocError>
    ensures { IfOk result (λ r. r.items ≡ with_terms (times factor more.now) terms.items) }
{
    let Some(((symbol, coefficient), rest)) = more.split_first() else {
        return Ok(terms);
    };
    let number = factor.checked_mul(*coefficient).ok_or(AllocError)?;
    let mut sum = add_multiples(factor, rest, terms)?;
    add_term(&mut sum, *symbol, number)?;
    Ok(sum)
}

// A term among collected ones.
fn add_term(terms: &mut Vec<(u32, i64)>, symbol: u32, number: i64) -> Result<(), AllocError>
    ensures { OnOk result (terms.new.items ≡ with_term (symbol, number) terms.old.items) }
{
    let place = place_of(terms, symbol);
    if place < terms.len() && terms[place].0 == symbol {
        let sum = number.checked_add(terms[place].1).ok_or(AllocError)?;
        if sum == 0 {
            terms.remove(place);
        } else {
            terms[place] = (symbol, sum);
        }
    } else if number != 0 {
        terms.insert(place, (symbol, number))?;
    }
    Ok(())
}

// The first place with this symbol or a later one, or the end.
fn place_of(terms: &[(u32, i64)], symbol: u32) -> usize
    ensures { IsPlaceOf symbol terms.now result }
{
    for (place, term) in terms.iter().enumerate() {
        if symbol <= term.0 {
            return place;
        }
    }
    terms.len()
}

// The row with these collected terms, where it is within the bounds of a row.
fn row_of_terms(terms: Vec<(u32, i64)>, most: i64) -> Option<Row>
    requires { IsCollected terms.items }
    ensures { result ≡ as_row (record { terms = terms.items; most = most }) }
{
    Row::of(Form::of(terms, 0)?, most)
}

/// The row that a fixed goal is, collected: of an item that is no row it is `0 <= 0`.
pub(crate) fn fixed_row(alloc: Global, item: &Item) -> Result<Option<Row>, AllocError>
    ensures { IfOk result (λ r. r ≡ as_row (row_of item.now)) }
{
    match item {
        Item::Holds(row) => {
            let terms = Vec::from_slice(alloc, row.form.terms())?;
            Ok(row_of_terms(terms, row.most))
        }
        _ => Ok(row_of_terms(Vec::new(alloc), 0)),
    }
}

/// The same row once more.
pub(crate) fn copy_row(alloc: Global, row: &Row) -> Result<Row, AllocError>
    ensures { IfOk result (λ r. r ≡ row.now) }
{
    let form = copy_form(alloc, &row.form)?;
    Row::of(form, row.most).ok_or(AllocError)
}

// The same form once more.
fn copy_form(alloc: Global, form: &Form) -> Result<Form, AllocError>
    ensures { IfOk result (λ f. f ≡ form.now) }
{
    let terms = Vec::from_slice(alloc, form.terms())?;
    Form::of(terms, form.constant()).ok_or(AllocError)
}

/// The same item once more.
pub(crate) fn copy_item(alloc: Global, item: &Item) -> Result<Item, AllocError>
    ensures { IfOk result (λ copy. copy ≡ item.now) }
{
    Ok(match item {
        Item::Holds(row) => Item::Holds(copy_row(alloc, row)?),
        Item::Division {
            quotient,
            dividend,
            divisor,
        } => Item::Division {
            quotient: *quotient,
            dividend: copy_form(alloc, dividend)?,
            divisor: *divisor,
        },
        Item::Remainder {
            remainder,
            dividend,
            divisor,
        } => Item::Remainder {
            remainder: *remainder,
            dividend: copy_form(alloc, dividend)?,
            divisor: *divisor,
        },
    })
}
