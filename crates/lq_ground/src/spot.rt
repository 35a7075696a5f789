//! The template of an If or a While.

ghost use Rattle.std.specs.Prelude.{◌≡◌, ℕ, Bool, List, filter, length, IfOk, OnOk};
ghost use Rattle.std.specs.List.{range_with_len};
ghost use Rattle.lq_tree.specs.declared.plain.PKind.{PKind as Kind};
ghost use Rattle.lq_tree.specs.PlainScopes.{is_among};
ghost use Rattle.lq_templates.specs.Accesses.{Access};
ghost use Rattle.lq_templates.specs.Spots.{Walk, spot_at, changed as changed_slots};
ghost use Rattle.lq_ground.specs.Ground as spec;
ghost use Rattle.lq_ground.specs.Standing.{seen, StandsAt, Changes};
ghost use Rattle.lq_ground.specs.Spots.{has_spot};

use crate::ground::Ground;
use crate::locals::values_of;
use crate::position::Position;
use crate::scopes::{next, sum};
use lq_linear::Form;
use lq_symbolic::{Start, SymState};
use lq_templates::{Given, is_marked, list_lives, marks_of};
use lq_tree::{PFunc, PKind};
use sqlite_items::Items;
use std::alloc::{AllocError, Global};

/// What a statement changes: the slots in scope that are assigned inside it, ascending, and how many templates it has
/// itself, one or none.
#[derive(Drop)]
pub struct Change {
    pub slots: Items<u32>,
    pub spots: u32,
}

// Whether a statement has a template where it changes a slot: an If of which both lists live, and a While.
fn may_be_spot(kind: &PKind) -> bool
    ensures { result ≡ has_spot kind.now }
{
    match kind {
        PKind::If(_, body, other) => {
            let first_lives = list_lives(body.as_slice());
            first_lives & list_lives(other.as_slice())
        }
        PKind::While(_, _, _) => true,
        _ => false,
    }
}

// How many templates a statement has itself, where it changes these slots.
fn count_spots(kind: &PKind, changed: &[u32]) -> u32
    ensures { (scope : List ℕ) → changed.now ≡ changed_slots scope kind.now → result ≡ length (spot_at scope kind.now) }
{
    let is_empty = changed.is_empty();
    if may_be_spot(kind) & !is_empty { 1 } else { 0 }
}

// How many slots a function has. Where the number doesn't fit there is no room for so many.
fn slot_count(function: &PFunc) -> Result<u32, AllocError>
    ensures { IfOk result (λ count. count ≡ length function.now.slots) }
{
    let count = function.slots.len();
    if count > u32::MAX as usize {
        return Err(AllocError);
    }
    Ok(count as u32)
}

// Those of the first slots, so many, that are among these, ascending.
fn ascending(alloc: Global, count: u32, slots: &[u32]) -> Result<Items<u32>, AllocError>
    ensures { IfOk result (λ some. some ≡ filter (is_among slots.now) (range_with_len 0 count)) }
{
    let mut some = Items::new(alloc);
    if slots.is_empty() {
        return Ok(some);
    }
    let marks = marks_of(alloc, slots)?;
    let marks = marks.as_slice();
    for slot in 0..count {
        if is_marked(marks, slot as usize) {
            some.push(slot)?;
        }
    }
    Ok(some)
}

impl<'a> Ground<'a> {
    /// What a statement changes where the walk stands.
    pub fn changes(&self, alloc: Global, kind: &PKind, at: &Position) -> Result<Change, AllocError>
        ensures { IfOk result (λ change. (by : ℕ → Access → Bool) (w : Walk) → StandsAt (seen by self.now) at.now w
            → Changes (seen by self.now) kind.now w change) }
    {
        let changed = self.tables.changed(alloc, self.number, kind, at.scope())?;
        let count = slot_count(self.func)?;
        let slots = ascending(alloc, count, changed.as_slice())?;
        let spots = count_spots(kind, changed.as_slice());
        Ok(Change { slots, spots })
    }

    /// What the names of the source locals in scope stand for.
    pub fn local_values(
        &self,
        alloc: Global,
        at: &Position,
        state: &SymState,
    ) -> Result<Items<Form>, AllocError>
        ensures { IfOk result (λ values. (by : ℕ → Access → Bool) (w : Walk) → StandsAt (seen by self.now) at.now w
            → values ≡ spec.local_values (seen by self.now) w state.now) }
    {
        let in_scope = marks_of(alloc, at.scope())?;
        let slots = self.func.slots.as_slice();
        values_of(alloc, slots, in_scope.as_slice(), state.slots.as_slice())
    }

    // The number of the template of the statement that is next.
    fn spot_number(&self, at: &Position) -> Result<u32, AllocError>
        ensures { IfOk result (λ number. (by : ℕ → Access → Bool) (w : Walk) → StandsAt (seen by self.now) at.now w
            → number ≡ spec.spot_number (seen by self.now) w) }
    {
        next(sum(self.before, at.templates)?)
    }

    /// The rows of the template of a statement that changes this, at the values of the locals; none where it changes nothing.
    pub fn spot_rows(
        &self,
        alloc: Global,
        change: &Change,
        at: &Position,
        state: &SymState,
    ) -> Result<Items<Given>, AllocError>
        ensures { IfOk result (λ rows. (by : ℕ → Access → Bool) (w : Walk) (kind : Kind) → StandsAt (seen by self.now) at.now w
            → Changes (seen by self.now) kind w change.now → rows ≡ spec.spot_rows (seen by self.now) kind w state.now) }
    {
        let mut rows = Items::new(alloc);
        if !change.slots.is_empty() {
            let values = self.local_values(alloc, at, state)?;
            let template = self.spot_number(at)?;
            rows.push(Given::Of { template, values })?;
        }
        Ok(rows)
    }

    /// Slots get new values, one after the other.
    pub fn renew(
        &self,
        alloc: Global,
        slots: &[u32],
        state: &mut SymState,
    ) -> Result<(), AllocError>
        ensures { OnOk result ((by : ℕ → Access → Bool) → state.new ≡ spec.renewed (seen by self.now) slots.now state.old) }
    {
        for slot in slots {
            state.renew(alloc, self.class_of_slot(*slot), *slot, self.slot(*slot))?;
        }
        Ok(())
    }

    /// Behind an If or at the head of a While that changes this: the changed slots are new, and the rows are known.
    pub fn at_spot(
        &self,
        alloc: Global,
        change: &Change,
        at: &Position,
        state: &mut SymState,
    ) -> Result<(), AllocError>
        ensures { OnOk result ((by : ℕ → Access → Bool) (w : Walk) (kind : Kind) → StandsAt (seen by self.now) at.now w
            → Changes (seen by self.now) kind w change.now → state.new ≡ spec.at_spot (seen by self.now) kind w state.old) }
    {
        self.renew(alloc, change.slots.as_slice(), state)?;
        let mut rows = self.spot_rows(alloc, change, at, state)?;
        match rows.pop() {
            Some(row) => state.learn(row),
            None => Ok(()),
        }
    }

    /// A branch begins: the values of its scope's names are kept.
    pub fn start_of(
        &self,
        alloc: Global,
        at: &Position,
        state: &SymState,
    ) -> Result<Start, AllocError>
        ensures { IfOk result (λ start. (by : ℕ → Access → Bool) (w : Walk) → StandsAt (seen by self.now) at.now w
            → start ≡ spec.start_of (seen by self.now) w state.now) }
    {
        Ok(Start {
            scope: at.next_scope(self)?,
            values: self.local_values(alloc, at, state)?,
        })
    }
}
