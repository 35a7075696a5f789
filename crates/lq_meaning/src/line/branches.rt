//! The branches of a fork.

ghost use Rattle.std.specs.Prelude.{◌≡◌, ◌<◌, ◌≤◌, ◌*◌, ◌+ℤ◌, pos, ℕ, List, IfOk, IfSome, IfNone, OnOk};
ghost use Rattle.lq_tree.specs.declared.plain.PProgram.{PProgram};
ghost use Rattle.lq_meaning.specs.Ending.{Unruled};
ghost use Rattle.lq_meaning.specs.Task.{Ended};
ghost use Rattle.lq_meaning.specs.Line.{all_branches, context_from, iteration, task_at, task_of, IsBelow};
ghost use Rattle.lq_meaning.specs.Moves.{Branching};

use super::slots::put;
use super::{Line, Stop};
use crate::Action;
use lq_tree::{Branch, Items, PProgram, Place};
use sqlite_items::at;
use std::alloc::AllocError;

// The index of the iteration with this number, of so many from the low end in these steps, if there is one.
pub(super) fn index_of(
    number: u64,
    count: u32,
    low: i64,
    step: u64,
) -> Result<Option<i64>, AllocError>
    ensures none { IfOk result (λ found. IfNone found (count ≤ number)) }
    ensures below { IfOk result (λ found. IfSome found (λ _. number < count)) }
    ensures some { IfOk result (λ found. IfSome found (λ index. index ≡ low +ℤ pos (number * step))) }
{
    if number >= u64::from(count) {
        return Ok(None);
    }
    let ahead = number.checked_mul(step).ok_or(AllocError)?;
    match low.checked_add_unsigned(ahead) {
        Some(index) => Ok(Some(index)),
        None => Err(AllocError),
    }
}

impl<'a> Line<'a> {
    // Can't go on.
    pub(super) fn nowhere(&mut self)
        ensures task { (p : PProgram) (turns : ℕ) (branch : List ℕ) (passed : ℕ) → task_of p turns branch passed self.new ≡ Ended Unruled }
        ensures below { (turns : ℕ) → 0 < turns → IsBelow turns self.new }
    {
        self.restart(0, false, &[], Items::new(self.alloc));
    }

    // Begins with the block with this number, of a fork of a function with these slots, above which so many more may become active.
    pub(super) fn begin_block(
        &mut self,
        p: &'a PProgram,
        most: u32,
        slots: &[i64],
        blocks: &'a [Branch],
        number: u64,
    ) -> Result<(), AllocError>
        ensures task { OnOk result ((turns : ℕ) (branch : List ℕ) (passed : ℕ) → 0 < turns
            → Branching p.now turns branch passed number self.new (task_at (all_branches (context_from p.now turns branch most) passed 0 blocks.now slots.now) number)) }
        ensures below { OnOk result ((turns : ℕ) → 0 < turns → IsBelow turns self.new) }
    {
        let Some(block) = at(blocks, number as usize) else {
            self.nowhere();
            return Ok(());
        };
        let slots = Items::from_slice(self.alloc, slots)?;
        self.restart(most, true, block.body.as_slice(), slots);
        self.settle(p)
    }

    // Begins in front of the start of an iteration.
    pub(super) fn begin_iteration(
        &mut self,
        most: u32,
        slots: &[i64],
        at: Place,
        slot: u32,
        index: i64,
        branch: &'a Branch,
    ) -> Result<(), AllocError>
        ensures task { OnOk result ((p : PProgram) (turns : ℕ) (branches : List ℕ) (passed number : ℕ)
            → Branching p turns branches passed number self.new (iteration (context_from p turns branches most) passed at slot branch.now slots.now number index)) }
        ensures below { OnOk result ((turns : ℕ) → 0 < turns → IsBelow turns self.new) }
    {
        let mut slots = Items::from_slice(self.alloc, slots)?;
        put(&mut slots, Some(slot), index);
        self.restart(most, true, branch.body.as_slice(), slots);
        self.stop = Stop::Word {
            action: Action::Start,
            at,
            to: None,
        };
        Ok(())
    }
}
