//! Forms.

ghost use Rattle.std.specs.Prelude.{◌≡◌, ℕ, ◌↔◌, ℤ, pos, ◌+ℤ◌, ◌*ℤ◌, ◌≤ℤ◌, IsTrue, IsSome, IfSome, IfNone, IfOk, OnOk, ◌^◌};
ghost use Rattle.std.specs.List.{AllByRecursion};
ghost use Rattle.lq_linear.specs.Form.{value_of, IsForm, IsFormOf, HasForm, sum_of, multiple_of};
ghost use Rattle.lq_linear.specs.Terms.{IsCoefficient, IsWithin, AreTerms, AddsTerm, IsPlaceOf};

use std::alloc::{AllocError, Global};
use std::marker::Model;

/// How many symbols a form may have.
pub const MOST_SYMBOLS: usize = 16;

/// How large a coefficient of a form may be, its sign put aside.
pub const MOST_COEFFICIENT: u64 = 65_536;

/// How large the constant of a form may be, its sign put aside.
pub const MOST_CONSTANT: u64 = 1_099_511_627_776;

/// A sum of whole multiples of symbols and a constant (docs/CHECKING.md, "Forms and rows"): at most
/// 16 symbols, which ascend, coefficients within 2^16 and none of them 0, a constant within 2^40.
/// Contracts see its terms, pairs of a symbol and its coefficient, and its constant.
#[derive(Debug, Drop)]
pub struct Form {
    terms: Vec<(u32, i64)>,
    constant: i64,
}

impl Model for Form {
    ghost use Rattle.lq_linear.specs.Form.{Linear, IsForm};

    ghost Value = { Linear };

    ghost view = { λ f. record { terms = f.terms.items; constant = f.constant } };

    ghost invariant = { λ f. IsForm (record { terms = f.terms.items; constant = f.constant }) };
}

impl Form {
    /// The form with these terms and this constant, or `None` where they aren't those of a form.
    pub fn of(terms: Vec<(u32, i64)>, constant: i64) -> Option<Form>
        ensures form { IfSome result (λ f. f ≡ record { terms = terms.items; constant = constant }) }
        ensures bounds { IsSome result ↔ IsForm (record { terms = terms.items; constant = constant }) }
    {
        if are_terms(&terms) && is_within(constant, MOST_CONSTANT) {
            Some(Form { terms, constant })
        } else {
            None
        }
    }

    /// The symbols and their coefficients, in ascending order of the symbols.
    pub fn terms(&self) -> &[(u32, i64)]
        ensures terms { result.now ≡ self.now.terms }
        ensures bounds { IsForm self.now }
    {
        &self.terms
    }

    /// The constant.
    pub fn constant(&self) -> i64
        ensures constant { result ≡ self.now.constant }
        ensures bounds { IsForm self.now }
    {
        self.constant
    }
}

/// Tells whether a number is at most `most`, its sign put aside.
pub(crate) fn is_within(number: i64, most: u64) -> bool
    ensures { IsTrue result ↔ IsWithin most number }
{
    number.unsigned_abs() <= most
}

/// Tells whether terms are those of a form.
fn are_terms(terms: &[(u32, i64)]) -> bool
    ensures { IsTrue result ↔ AreTerms terms.now }
{
    if terms.len() > MOST_SYMBOLS {
        return false;
    }
    let mut least = 0;
    for (symbol, coefficient) in terms {
        if u64::from(*symbol) < least || !is_coefficient(*coefficient) {
            return false;
        }
        least = u64::from(*symbol) + 1;
    }
    true
}

/// Tells whether a number may be a coefficient of a form.
fn is_coefficient(number: i64) -> bool
    ensures { IsTrue result ↔ IsCoefficient number }
{
    number != 0 && is_within(number, MOST_COEFFICIENT)
}

/// The sum of two forms, or `None` exactly where it passes the bounds of a form.
pub fn add(alloc: Global, a: &Form, b: &Form) -> Result<Option<Form>, AllocError>
    ensures form { IfOk result (λ r. IfSome r (IsFormOf (sum_of a.now b.now))) }
    ensures none { IfOk result (λ r. IfNone r (¬ HasForm (sum_of a.now b.now))) }
    ensures value { IfOk result (λ r. IfSome r
        (λ f. (v : ℕ → ℤ) → value_of v f ≡ value_of v a.now +ℤ value_of v b.now)) }
{
    let mut terms = Vec::from_slice(alloc, a.terms.as_slice())?;
    for (symbol, coefficient) in b.terms.as_slice() {
        put_term(&mut terms, *symbol, *coefficient)?;
    }
    Ok(Form::of(terms, a.constant + b.constant))
}

/// The multiple of a form, or `None` exactly where it passes the bounds of a form.
pub fn scale(alloc: Global, a: &Form, by: i64) -> Result<Option<Form>, AllocError>
    ensures form { IfOk result (λ r. IfSome r (IsFormOf (multiple_of by a.now))) }
    ensures none { IfOk result (λ r. IfNone r (¬ HasForm (multiple_of by a.now))) }
    ensures value { IfOk result (λ r. IfSome r
        (λ f. (v : ℕ → ℤ) → value_of v f ≡ by *ℤ value_of v a.now)) }
{
    let mut terms = Vec::new(alloc);
    if by != 0 {
        for (symbol, coefficient) in a.terms.as_slice() {
            match coefficient.checked_mul(by) {
                Some(product) => terms.push((*symbol, product))?,
                None => return Ok(None),
            }
        }
    }
    match a.constant.checked_mul(by) {
        Some(constant) => Ok(Form::of(terms, constant)),
        None => Ok(None),
    }
}

/// Adds a term to collected ones, which stay collected.
fn put_term(terms: &mut Vec<(u32, i64)>, symbol: u32, coefficient: i64) -> Result<(), AllocError>
    requires near { AllByRecursion (λ t. IsWithin (2 ^ 40) t.1) terms.old.items }
    requires small { IsCoefficient coefficient }
    ensures { OnOk result (AddsTerm symbol coefficient terms.old.items terms.new.items) }
{
    let place = place_of(terms, symbol);
    if place < terms.len() && terms[place].0 == symbol {
        let sum = terms[place].1 + coefficient;
        if sum == 0 {
            terms.remove(place);
        } else {
            terms[place] = (symbol, sum);
        }
    } else {
        terms.insert(place, (symbol, coefficient))?;
    }
    Ok(())
}

/// The first place with this symbol or a later one, or the end.
fn place_of(terms: &[(u32, i64)], symbol: u32) -> usize
    ensures { IsPlaceOf symbol terms.now result }
{
    for (place, term) in terms.iter().enumerate() {
        if symbol <= term.0 {
            return place;
        }
    }
    terms.len()
}
