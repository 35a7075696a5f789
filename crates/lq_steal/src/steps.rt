//! The kinds of step, and the calls of `crossbeam_deque` that carry them.
use crate::dealing::Dealing;
use crate::view::View;
use crossbeam_deque::protocol::{Join, Lesson, Outcome, Split};
use std::marker::PhantomData;

/// A push of the caller, while it has all stakes: `Worker::push_as`. A push that is refused hands the task back, and nothing changes.
pub struct Push<D> {
    dealing: PhantomData<D>,
}

impl<T, D: Dealing<T>> Outcome<T, View> for Push<D> {
    ghost use Rattle.lq_steal.specs.Steps.{Pushed};

    ghost then = { Pushed D.number };
}

/// A pop of the owner of a deque: `Worker::pop_as`, which takes the first task of a deque whose first task is the oldest. Where it finds the deque empty
/// and has all stakes, it knows that what was put was taken.
pub struct Pop<D> {
    dealing: PhantomData<D>,
}

impl<T, D: Dealing<T>> Outcome<T, View> for Pop<D> {
    ghost use Rattle.lq_steal.specs.Steps.{Taken, FoundEmpty};

    ghost then = { Taken D.number D.waiting };

    ghost empty = { FoundEmpty };
}

/// A steal by another worker: `Stealer::steal_as`, with a pass of the deque. One that lost to another thread took nothing.
pub struct Steal<D> {
    dealing: PhantomData<D>,
}

impl<T, D: Dealing<T>> Outcome<T, View> for Steal<D> {
    ghost use Rattle.lq_steal.specs.Steps.{Taken};

    ghost then = { Taken D.number D.waiting };
}

/// A pass split: `Worker::another`. The new pass has one stake, and no number.
pub struct Cut;

impl Split<View> for Cut {
    ghost use Rattle.lq_steal.specs.Steps.{kept_part, given_part};

    ghost left = { kept_part };

    ghost right = { given_part };
}

/// A pass join: `Worker::absorb`. The numbers of both come together, and the stakes are added.
pub struct Merge;

impl Join<View> for Merge {
    ghost use Rattle.lq_steal.specs.Steps.{joined_view};
    ghost use Rattle.lq_steal.specs.View.{spent};

    ghost both = { joined_view };

    ghost spent = { spent };
}

/// What a pass with all stakes learns: `Worker::len_as`.
pub struct Total<D> {
    dealing: PhantomData<D>,
}

impl<T, D: Dealing<T>> Lesson<T, View> for Total<D> {
    ghost use Rattle.lq_steal.specs.Steps.{KnowsAll};

    ghost fact = { KnowsAll D.number };
}
