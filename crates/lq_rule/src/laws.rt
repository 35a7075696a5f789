//! What the rule means, and that each kind of step keeps it.
ghost use Rattle.lq_rule.specs.Laws.{HasOneHolder, DividesUnits, AddsUnits, OpensKept, LoadsKeep, StoresKeep, SplitsKeep, JoinsKeep, LooksKeep};

use crate::foot::Foot;
use crate::steps::{Cut, Load, Look, Merge, Store};
use crate::units::Units;
use crate::view::{Supply, View};
use atomic_table::{Join, Play, Split, TableRule};

/// While a seat has all units of a cell, no other seat has a unit of it.
pub fn one_holder()
    ensures { HasOneHolder ⟦<Units as TableRule<(), View, Supply>>⟧.holds }
{}

/// A split divides the units by the foot, and a join adds them up.
pub fn units_move<F: Foot>()
    ensures split { DividesUnits F.foot ⟦<Cut<F> as Split<View>>⟧.left ⟦<Cut<F> as Split<View>>⟧.right }
    ensures join { AddsUnits ⟦<Merge as Join<View>>⟧.both ⟦<Merge as Join<View>>⟧.spent }
{}

/// The opening table meets the rule, and each kind of step keeps it.
pub fn each_step_keeps<F: Foot>()
    ensures opening { OpensKept
        ⟦<Units as TableRule<(), View, Supply>>⟧.holds
        ⟦<Units as TableRule<(), View, Supply>>⟧.first }
    ensures load { LoadsKeep
        ⟦<Units as TableRule<(), View, Supply>>⟧.holds
        ⟦<Load as Play<(), View>>⟧.then }
    ensures store { StoresKeep
        ⟦<Units as TableRule<(), View, Supply>>⟧.holds
        ⟦<Store as Play<(), View>>⟧.then }
    ensures split { SplitsKeep
        ⟦<Units as TableRule<(), View, Supply>>⟧.holds
        F.foot
        ⟦<Cut<F> as Split<View>>⟧.left
        ⟦<Cut<F> as Split<View>>⟧.right }
    ensures join { JoinsKeep
        ⟦<Units as TableRule<(), View, Supply>>⟧.holds
        ⟦<Merge as Join<View>>⟧.both
        ⟦<Merge as Join<View>>⟧.spent }
    ensures look { LooksKeep
        ⟦<Units as TableRule<(), View, Supply>>⟧.holds
        ⟦<Look as Play<(), View>>⟧.then }
{}
