//! Where the walk over a function's body stands.

ghost use Rattle.std.specs.Prelude.{◌≡◌, ℕ, suc, ◌+◌, ◌==◌, ◌||◌, Bool, List, [], length, take, IfOk, OnOk};
ghost use Rattle.std.specs.List.{range_with_len};
ghost use Rattle.lq_tree.specs.declared.plain.Branch.{Branch};
ghost use Rattle.lq_tree.specs.declared.plain.PKind.{PKind as Kind};
ghost use Rattle.lq_tree.specs.declared.plain.PStmt.{PStmt as Statement};
ghost use Rattle.lq_tree.specs.PlainWalk.{targets};
ghost use Rattle.lq_templates.specs.Accesses.{Access};
ghost use Rattle.lq_templates.specs.Names.{marked};
ghost use Rattle.lq_templates.specs.Spots as spots;
ghost use Rattle.lq_templates.specs.Spots.{Walk};
ghost use Rattle.lq_ground.specs.Ground as spec;
ghost use Rattle.lq_ground.specs.Standing.{seen, IsGround, StandsAt, Follows, Changes};

use crate::ground::Ground;
use crate::locals::first_marks;
use crate::scopes::{next, sum};
use crate::spot::Change;
use lq_templates::{is_marked, target};
use lq_tree::{PFunc, PKind};
use sqlite_items::Items;
use std::alloc::{AllocError, Global};

/// Where the walk over a function's body stands: which slots have been assigned and which are in scope, and how many
/// scopes and templates inside the text were passed.
#[derive(Drop)]
pub struct Position {
    pub assigned: Items<bool>,
    pub scope: Items<u32>,
    pub scopes: u32,
    pub templates: u32,
}

// Marks a slot.
fn mark(marks: &mut Items<bool>, slot: u32) -> Result<(), AllocError>
    ensures { OnOk result ((n : ℕ) → marked marks.new n ≡ (marked marks.old n || slot == n)) }
{
    while marks.len() <= slot as usize {
        marks.push(false)?;
    }
    marks.set(slot as usize, true);
    Ok(())
}

// The first slots, so many.
fn first_slots(alloc: Global, count: u32) -> Result<Items<u32>, AllocError>
    ensures { IfOk result (λ slots. slots ≡ range_with_len 0 count) }
{
    let mut slots = Items::new(alloc);
    for slot in 0..count {
        slots.push(slot)?;
    }
    Ok(slots)
}

// Keeps the first slots, so many.
fn truncate(slots: &mut Items<u32>, count: usize)
    ensures { slots.new ≡ take count slots.old }
{
    while count < slots.len() {
        let _ = slots.pop();
    }
}

impl Position {
    /// In front of the body of a function: its parameters have been assigned and are in scope.
    pub fn before_body(alloc: Global, function: &PFunc) -> Result<Position, AllocError>
        ensures { IfOk result (λ at. (g : spec.Ground) → StandsAt g at
            (record { assigned = spots.params_of function.now; scope = spots.params_of function.now; spots = [] })) }
    {
        Ok(Position {
            assigned: first_marks(alloc, function.params)?,
            scope: first_slots(alloc, function.params)?,
            scopes: 0,
            templates: 0,
        })
    }

    /// The same position once more.
    pub fn copy(&self, alloc: Global) -> Result<Position, AllocError>
        ensures { IfOk result (λ copy. copy ≡ self.now) }
    {
        Ok(Position {
            assigned: Items::from_slice(alloc, self.assigned.as_slice())?,
            scope: Items::from_slice(alloc, self.scope.as_slice())?,
            scopes: self.scopes,
            templates: self.templates,
        })
    }

    /// The slots in scope.
    pub fn scope(&self) -> &[u32]
        ensures { (g : spec.Ground) (w : Walk) → StandsAt g self.now w → result.now ≡ w.scope }
    {
        self.scope.as_slice()
    }

    /// How many slots are in scope.
    pub fn width(&self) -> usize
        ensures { (g : spec.Ground) (w : Walk) → StandsAt g self.now w → result ≡ length w.scope }
    {
        self.scope.len()
    }

    /// The slot of a statement is assigned, if there is one.
    pub fn assign(&mut self, kind: &PKind) -> Result<(), AllocError>
        ensures { OnOk result ((g : spec.Ground) (w : Walk) → StandsAt g self.old w → StandsAt g self.new (spots.assign (targets kind.now) w)) }
    {
        let Some(slot) = target(kind) else {
            return Ok(());
        };
        if is_marked(self.assigned.as_slice(), slot as usize) {
            return Ok(());
        }
        mark(&mut self.assigned, slot)?;
        self.scope.push(slot)
    }

    /// Passes a statement that may be a spot, and stands in front of its first list.
    pub fn enter_first(&mut self, change: &Change) -> Result<(), AllocError>
        ensures { OnOk result ((g : spec.Ground) (w : Walk) (kind : Kind) → StandsAt g self.old w → Changes g kind w change.now
            → StandsAt g self.new (spec.in_first kind w)) }
    {
        self.templates = sum(self.templates, change.spots)?;
        Ok(())
    }

    /// Behind a list: what came into scope in it is in scope no more. Before it so many slots were in scope.
    pub fn leave(&mut self, width: usize)
        ensures { (g : spec.Ground) (w : Walk) (list : List Statement) → StandsAt g self.old (spots.walked_all list w) → width ≡ length w.scope
            → StandsAt g self.new (spots.closed w (spots.walked_all list w)) }
    {
        truncate(&mut self.scope, width);
    }

    /// An index comes into scope.
    pub fn enter_index(&mut self, index: u32) -> Result<(), AllocError>
        ensures { OnOk result ((g : spec.Ground) (w : Walk) → StandsAt g self.old w → StandsAt g self.new (spots.with_index index w)) }
    {
        self.scope.push(index)
    }

    /// Behind the branch of a Foreach: its index is in scope no more.
    pub fn leave_index(&mut self)
        ensures { (g : spec.Ground) (w : Walk) (branch : Branch) (index : ℕ) → StandsAt g self.old (spots.walked_branch branch (spots.with_index index w))
            → StandsAt g self.new (spots.closed w (spots.walked_branch branch (spots.with_index index w))) }
    {
        let before = self.scope.len().saturating_sub(1);
        truncate(&mut self.scope, before);
    }

    /// Passes the spot of a branch, the next one of the text, and stands in front of its list.
    pub fn enter_branch(&mut self, ground: &Ground<'_>) -> Result<(), AllocError>
        ensures { OnOk result ((by : ℕ → Access → Bool) (w : Walk) (b : Branch) → IsGround (seen by ground.now)
            → Follows (seen by ground.now) (spec.in_branch b w) → StandsAt (seen by ground.now) self.old w
            → StandsAt (seen by ground.now) self.new (spec.in_branch b w)) }
    {
        let scope = self.next_scope(ground)?;
        let effects = ground.tables.count_effects(scope);
        self.templates = sum(self.templates, effects)?;
        self.scopes = next(self.scopes)?;
        Ok(())
    }

    // The number of the next scope.
    pub(crate) fn next_scope(&self, ground: &Ground<'_>) -> Result<u32, AllocError>
        ensures { IfOk result (λ scope. scope ≡ suc (ground.now.scope + self.now.scopes)) }
    {
        next(sum(ground.scope, self.scopes)?)
    }
}
