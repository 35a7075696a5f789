//! Rows as items give them, before equal symbols are collected.

ghost use Rattle.std.specs.Prelude.{◌≡◌, ℕ, ◌↔◌, ◌^◌, pos, negsuc, ◌*ℤ◌, IsTrue, if◌then◌else◌, [], ◌∷◌};
ghost use Rattle.lq_linear.specs.Terms.{IsWithin, IsCoefficient, coefficient, AreTerms};
ghost use Rattle.lq_linear.specs.Weight.{weight_of};
ghost use Rattle.lq_linear.specs.Row.{IsBounded, nothing, not_negative, loose_terms};

use crate::form::{Form, MOST_COEFFICIENT, MOST_CONSTANT, MOST_SYMBOLS, is_within};
use crate::row::Row;
use crate::weight::{weight_of_lead, weight_of_signed};
use std::marker::Model;

/// A row as an item gives it: at most one term, and the terms of a form or what is opposite to
/// them, are at most a number. A symbol may stand in both parts.
#[derive(Drop)]
pub struct LooseRow<'a> {
    pub(crate) lead: Option<(u32, i64)>,
    pub(crate) negated: bool,
    pub(crate) rest: &'a [(u32, i64)],
    pub(crate) most: i64,
}

impl<'a> Model for LooseRow<'a> {
    ghost use Rattle.lq_linear.specs.Row.{Inequality, loose_terms, IsLoose};

    ghost Value = { Inequality };

    ghost view = { λ r. record { terms = loose_terms r.lead r.negated r.rest.now; most = r.most } };

    ghost invariant = { λ r. IsLoose r.lead r.rest.now r.most };
}

impl<'a> LooseRow<'a> {
    /// A row as it is.
    pub fn of(row: &'a Row) -> LooseRow<'a>
        ensures { result ≡ row.now }
    {
        LooseRow {
            lead: None,
            negated: false,
            rest: row.form.terms(),
            most: row.most,
        }
    }

    /// The row that says that a form isn't negative.
    pub fn not_negative(form: &'a Form) -> LooseRow<'a>
        ensures { result ≡ not_negative form.now }
    {
        LooseRow {
            lead: None,
            negated: true,
            rest: form.terms(),
            most: form.constant(),
        }
    }

    /// A row with one term in front of the terms of a form, or of what is opposite to them.
    pub(crate) fn led(
        symbol: u32,
        number: i64,
        negated: bool,
        form: &'a Form,
        most: i64,
    ) -> LooseRow<'a>
        requires coefficient { IsCoefficient number }
        requires small { IsWithin (2 ^ 41) most }
        ensures { result ≡ record {
          terms = loose_terms (Some (symbol, number)) negated form.now.terms;
          most = most;
        } }
    {
        LooseRow {
            lead: Some((symbol, number)),
            negated,
            rest: form.terms(),
            most,
        }
    }

    /// The same row once more.
    pub(crate) fn again(&self) -> LooseRow<'a>
        ensures { result ≡ self.now }
    {
        LooseRow {
            lead: self.lead,
            negated: self.negated,
            rest: self.rest,
            most: self.most,
        }
    }

    /// The row `0 <= 0`.
    pub(crate) fn nothing() -> LooseRow<'a>
        ensures { result ≡ nothing }
    {
        LooseRow {
            lead: None,
            negated: false,
            rest: &[],
            most: 0,
        }
    }

    /// A row with one symbol.
    pub(crate) fn single(symbol: u32, number: i64, most: i64) -> LooseRow<'a>
        requires coefficient { IsCoefficient number }
        requires small { IsWithin (2 ^ 40) most }
        ensures { result ≡ record { terms = (symbol, number) ∷ []; most = most } }
    {
        LooseRow {
            lead: Some((symbol, number)),
            negated: false,
            rest: &[],
            most,
        }
    }

    /// What the symbol is multiplied by.
    pub fn coefficient(&self, symbol: u32) -> i64
        ensures value { result ≡ coefficient self.now.terms symbol }
        ensures within { IsWithin (2 ^ 17) result }
    {
        let signed = opposite_if(self.negated, coefficient_in(self.rest, symbol));
        match self.lead {
            Some((first, number)) if first == symbol => number + signed,
            _ => signed,
        }
    }

    /// The number that the sum is at most.
    pub fn most(&self) -> i64
        ensures value { result ≡ self.now.most }
        ensures within { IsWithin (2 ^ 41) result }
    {
        self.most
    }

    /// What the form weighs: the same for equal forms, and as good as always another number for
    /// others, so that a comparison of two numbers can stand before one of two forms.
    pub fn weight(&self) -> i128
        ensures value { result ≡ weight_of self.now }
        ensures within { IsWithin (2 ^ 82) result }
    {
        weight_of_lead(self.lead) + weight_of_signed(self.negated, self.rest)
    }

    /// Tells whether this is within the bounds of a row.
    pub fn is_bounded(&self) -> bool
        ensures { IsTrue result ↔ IsBounded self.now }
    {
        if !is_within(self.most, MOST_CONSTANT) {
            return false;
        }
        let Some((symbol, _)) = self.lead else {
            return true;
        };
        if coefficient_in(self.rest, symbol) == 0 {
            self.rest.len() < MOST_SYMBOLS
        } else {
            is_within(self.coefficient(symbol), MOST_COEFFICIENT)
        }
    }
}

/// What the terms of a form multiply a symbol by.
fn coefficient_in(terms: &[(u32, i64)], symbol: u32) -> i64
    requires { AreTerms terms.now }
    ensures value { result ≡ coefficient terms.now symbol }
    ensures within { IsWithin (2 ^ 16) result }
{
    for (other, number) in terms {
        if *other == symbol {
            return *number;
        }
    }
    0
}

/// The number, or its opposite where `negated` is true.
fn opposite_if(negated: bool, number: i64) -> i64
    requires { IsWithin (2 ^ 16) number }
    ensures value { result ≡ (if negated then negsuc 0 *ℤ number else number) }
    ensures within { IsWithin (2 ^ 16) result }
{
    if negated { -number } else { number }
}
