//! What the rule means, and that each kind of step keeps it.
ghost use Rattle.lq_claims.specs.Laws.{HasOneClaimer, KnowsAllAreBack, OpensKept, ClaimsKeep, ReturnsKeep, SplitsKeep, JoinsKeep, DividesStakes, AddsStakes};

use crate::claims::Claims;
use crate::stages::Stages;
use crate::steps::{Claim, Cut, Draws, GiveBack, Merge};
use crate::view::{Round, View};
use atomic_table::{Join, Play, Split, TableRule};

/// No two seats claim one number.
pub fn one_claimer<S, T: Stages<S>>()
    ensures { HasOneClaimer ⟦<Claims<T> as TableRule<S, View, Round>>⟧.holds }
{}

/// A seat with all stakes that is marked and holds nothing knows that every chunk was claimed and given back, finished.
pub fn all_are_back<S, T: Stages<S>>()
    ensures { KnowsAllAreBack T.finished ⟦<Claims<T> as TableRule<S, View, Round>>⟧.holds }
{}

/// A split divides draws and stakes, and a join adds them up.
pub fn stakes_move<D: Draws>()
    ensures split { DividesStakes D.draws ⟦<Cut<D> as Split<View>>⟧.left ⟦<Cut<D> as Split<View>>⟧.right }
    ensures join { AddsStakes ⟦<Merge as Join<View>>⟧.both ⟦<Merge as Join<View>>⟧.spent }
{}

/// The opening table meets the rule, and each kind of step keeps it.
pub fn each_step_keeps<S, T: Stages<S>, D: Draws>()
    ensures opening { OpensKept
        T.waiting
        ⟦<Claims<T> as TableRule<S, View, Round>>⟧.holds
        ⟦<Claims<T> as TableRule<S, View, Round>>⟧.first }
    ensures claim { ClaimsKeep
        ⟦<Claims<T> as TableRule<S, View, Round>>⟧.holds
        ⟦<Claim<T> as Play<S, View>>⟧.then }
    ensures give_back { ReturnsKeep
        T.finished
        ⟦<Claims<T> as TableRule<S, View, Round>>⟧.holds
        ⟦<GiveBack as Play<S, View>>⟧.then }
    ensures split { SplitsKeep
        ⟦<Claims<T> as TableRule<S, View, Round>>⟧.holds
        D.draws
        ⟦<Cut<D> as Split<View>>⟧.left
        ⟦<Cut<D> as Split<View>>⟧.right }
    ensures join { JoinsKeep
        ⟦<Claims<T> as TableRule<S, View, Round>>⟧.holds
        ⟦<Merge as Join<View>>⟧.both
        ⟦<Merge as Join<View>>⟧.spent }
{}
