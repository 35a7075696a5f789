//! The kinds of step: claim, give back, split and join.
use crate::stages::Stages;
use crate::view::View;
use atomic_table::{Join, Play, Split};
use std::marker::{Brand, PhantomData};

/// A claim, which adds 1 to word 1.
pub struct Claim<T> {
    stages: PhantomData<T>,
}

impl<S, T: Stages<S>> Play<S, View> for Claim<T> {
    ghost use Rattle.lq_claims.specs.Steps.{Claims};

    ghost then = { Claims T.waiting };
}

/// A chunk given back, which adds 1 to word 2.
pub struct GiveBack;

impl<S> Play<S, View> for GiveBack {
    ghost use Rattle.lq_claims.specs.Steps.{GivesBack};

    ghost then = { GivesBack };
}

/// How many draws a split gives to the new seat. A call that passes `Brand` picks it in its proof.
pub trait Draws {
    ghost use Rattle.std.specs.Prelude.{ℕ};

    ghost draws: { ℕ };
}

impl Draws for Brand {
    ghost draws = { 0 };
}

/// A split: the new seat has these draws, one stake, and no number.
pub struct Cut<D> {
    draws: PhantomData<D>,
}

impl<D: Draws> Split<View> for Cut<D> {
    ghost use Rattle.lq_claims.specs.Steps.{kept_part, given_part};

    ghost left = { kept_part D.draws };

    ghost right = { given_part D.draws };
}

/// A join: the numbers of both come together, and their draws and stakes are added.
pub struct Merge;

impl Join<View> for Merge {
    ghost use Rattle.lq_claims.specs.Steps.{joined_view};
    ghost use Rattle.lq_claims.specs.View.{spent};

    ghost both = { joined_view };

    ghost spent = { spent };
}
