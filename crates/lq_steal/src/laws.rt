//! What the rule means, and that each kind of step keeps it.
ghost use Rattle.lq_steal.specs.Laws.{HasOnePlace, OpensHanded, PushesKeep, TakesKeep, EmptyTells, SplitsKeep, JoinsKeep, TotalTells};
ghost use Rattle.crossbeam_deque.specs.Tasks.{Admits};

use crate::dealing::Dealing;
use crate::handed::Handed;
use crate::steps::{Cut, Merge, Pop, Push, Steal, Total};
use crate::view::View;
use crossbeam_deque::protocol::{Join, Lesson, Outcome, Protocol, Split};

/// A chunk that a pass took, no other pass took, and it is not in the deque.
pub fn one_place<T, D: Dealing<T>>()
    ensures { HasOnePlace D.number ⟦<Handed<D> as Protocol<T, View>>⟧.holds }
{}

/// Whoever has all stakes knows what was put, what was taken and what is left, and on an empty deque that all that was put was taken.
pub fn caller_knows_all<T, D: Dealing<T>>()
    ensures total { TotalTells
        ⟦<Handed<D> as Protocol<T, View>>⟧.holds
        ⟦<Total<D> as Lesson<T, View>>⟧.fact }
    ensures empty { EmptyTells
        ⟦<Handed<D> as Protocol<T, View>>⟧.holds
        ⟦<Pop<D> as Outcome<T, View>>⟧.empty }
{}

/// An empty deque meets the rule, and each kind of step keeps it.
pub fn each_step_keeps<T, D: Dealing<T>>()
    ensures opening { OpensHanded
        ⟦<Handed<D> as Protocol<T, View>>⟧.holds
        ⟦<Handed<D> as Protocol<T, View>>⟧.first }
    ensures guest { Admits
        ⟦<Handed<D> as Protocol<T, View>>⟧.holds
        ⟦<Handed<D> as Protocol<T, View>>⟧.guest }
    ensures push { PushesKeep
        D.number
        D.deques
        D.waiting
        ⟦<Handed<D> as Protocol<T, View>>⟧.holds
        ⟦<Push<D> as Outcome<T, View>>⟧.then }
    ensures pop { TakesKeep
        ⟦<Handed<D> as Protocol<T, View>>⟧.holds
        ⟦<Pop<D> as Outcome<T, View>>⟧.then }
    ensures steal { TakesKeep
        ⟦<Handed<D> as Protocol<T, View>>⟧.holds
        ⟦<Steal<D> as Outcome<T, View>>⟧.then }
    ensures split { SplitsKeep
        ⟦<Handed<D> as Protocol<T, View>>⟧.holds
        ⟦<Cut as Split<View>>⟧.left
        ⟦<Cut as Split<View>>⟧.right }
    ensures join { JoinsKeep
        ⟦<Handed<D> as Protocol<T, View>>⟧.holds
        ⟦<Merge as Join<View>>⟧.both
        ⟦<Merge as Join<View>>⟧.spent }
{}
