//! The kinds of step: load, store, split and join. A join is a load that puts two views into one, and a second load that looks at both.
use crate::foot::Foot;
use crate::view::View;
use atomic_table::{Join, Play, Split};
use std::marker::PhantomData;

/// A load of a cell of which the seat has a unit.
pub struct Load;

impl Play<(), View> for Load {
    ghost use Rattle.lq_rule.specs.Steps.{Loads};

    ghost then = { Loads };
}

/// A store to a cell of which the seat has all units.
pub struct Store;

impl Play<(), View> for Store {
    ghost use Rattle.lq_rule.specs.Steps.{Stores};

    ghost then = { Stores };
}

/// A split: the units of the foot stay, and the new seat has the others.
pub struct Cut<F> {
    foot: PhantomData<F>,
}

impl<F: Foot> Split<View> for Cut<F> {
    ghost use Rattle.lq_rule.specs.Steps.{foot_part, rest_part};

    ghost left = { foot_part F.foot };

    ghost right = { rest_part F.foot };
}

/// The first load of a join: the other seat's units and words come in beside one's own.
pub struct Merge;

impl Join<View> for Merge {
    ghost use Rattle.lq_rule.specs.Steps.{joined_view};
    ghost use Rattle.lq_rule.specs.View.{spent};

    ghost both = { joined_view };

    ghost spent = { spent };
}

/// The second load of a join: what came in becomes one's own.
pub struct Look;

impl Play<(), View> for Look {
    ghost use Rattle.lq_rule.specs.Steps.{Looks};

    ghost then = { Looks };
}
