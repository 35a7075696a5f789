//! The rule of the table of claims. Word 1 is the next number, word 2 says how many were given back, and word 0 holds nothing.
use crate::stages::Stages;
use crate::view::{Round, View};
use atomic_table::TableRule;
use std::marker::PhantomData;

/// The numbers below word 1 that are numbers of chunks were claimed, each by one view; a slot is out with the view that claimed its
/// number until it is given back.
pub struct Claims<T> {
    stages: PhantomData<T>,
}

impl<S, T: Stages<S>> TableRule<S, View, Round> for Claims<T> {
    ghost use Rattle.lq_claims.specs.Claims.{IsKept, opening_view};

    ghost holds = { IsKept T.waiting T.finished };

    ghost first = { opening_view };
}
