//! Rows.

ghost use Rattle.std.specs.Prelude.{◌≡◌, ◌↔◌, ◌^◌, pos, IsSome, IfSome};
ghost use Rattle.lq_linear.specs.Terms.{IsWithin};

use crate::form::{Form, MOST_CONSTANT, is_within};
use std::marker::Model;

/// Says that a form is at most a number (docs/CHECKING.md, "Forms and rows"). The form's own
/// constant is 0, and the number is within 2^40. Contracts see the terms and the number.
#[derive(Debug, Drop)]
pub struct Row {
    pub form: Form,
    pub most: i64,
}

impl Model for Row {
    ghost use Rattle.std.specs.Prelude.{◌≡◌, ◌^◌, pos};
    ghost use Rattle.lq_linear.specs.Terms.{AreTerms, IsWithin};
    ghost use Rattle.lq_linear.specs.Row.{Inequality};

    ghost Value = { Inequality };

    ghost view = { λ r. record { terms = r.form.terms; most = r.most } };

    ghost invariant = { λ r. (r.form.constant ≡ pos 0) × IsWithin (2 ^ 40) r.most × AreTerms r.form.terms };
}

impl Row {
    /// The row with this form and this number, or `None` where they pass the bounds of a row.
    pub fn of(form: Form, most: i64) -> Option<Row>
        ensures row { IfSome result (λ r. r ≡ record { terms = form.terms; most = most }) }
        ensures bounds { IsSome result ↔ ((form.constant ≡ pos 0) × IsWithin (2 ^ 40) most) }
    {
        if form.constant() == 0 && is_within(most, MOST_CONSTANT) {
            Some(Row { form, most })
        } else {
            None
        }
    }
}
