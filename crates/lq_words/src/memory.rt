//! The memory.
ghost use Rattle.std.specs.Prelude.{◌≡◌, ◌≢◌, ◌↔◌, ℕ, ◌+◌, ◌<◌, ◌≤◌, pos, IfOk, IsTrue, vec_len, vec_capacity, slice_index, slice_index_or};
ghost use Rattle.std.specs.Int.{w64, cast_signed};
ghost use Rattle.std.specs.Slots.{slots_items, slots_len, IsFull};
ghost use Rattle.std.specs.Bool.{OnTrue, OnFalse};
ghost use Rattle.lq_words.specs.Part.{units_at, value_at, HasUnit, HasAll, HasAllOf, KeepsValues, IsBeside, KeepsUnits};

use crate::part::Part;
use atomic_table::{Closed, Table};
use lq_rule::{Cut, Foot, Load, Look, Merge, Store, Supply, Units, View};
use std::alloc::{AllocError, Global};
use std::marker::Model;

/// The most cells that a memory has.
pub const MOST_CELLS: u32 = 1_048_576;

/// The most units of a cell.
pub const MOST_UNITS: u32 = 256;

/// Words that threads share with no lock.
#[derive(Drop)]
pub struct WordMemory {
    table: Table<(), View, Supply, Units, Global>,
    taken: u32,
}

impl Model for WordMemory {
    ghost use Rattle.lq_words.specs.Memory.{Space, FitsTable};

    ghost Value = { Space };

    ghost view = { λ m. record { home = m.table.shared.table_id; cells = m.table.shared.key.cells; taken = m.taken } };

    ghost invariant = { λ m. FitsTable m.table.shared.table_id m.table.shared.key m.taken };
}

impl WordMemory {
    /// A memory whose words are 0, and a part with all units of each cell, `workers` of them.
    pub fn make(alloc: Global, cells: u32, workers: u32) -> Result<(WordMemory, Part), AllocError>
        requires cells { cells ≤ MOST_CELLS }
        requires workers { (1 ≤ workers) × (workers ≤ MOST_UNITS) }
        ensures cells { IfOk result (λ r. r.0.cells ≡ cells) }
        ensures taken { IfOk result (λ r. r.0.taken ≡ 0) }
        ensures home { IfOk result (λ r. r.1.home ≡ r.0.home) }
        ensures all { IfOk result (λ r. r.1.all ≡ workers) }
        ensures units { IfOk result (λ r. HasAllOf r.1 cells) }
        ensures past { IfOk result (λ r. (cell : ℕ) → cells ≤ cell → units_at r.1 cell ≡ 0) }
        ensures zeros { IfOk result (λ r. (cell : ℕ) → value_at r.1 cell ≡ pos 0) }
    {
        let words = vec![in alloc; 0; cells as usize + 1]?;
        let supply = Supply {
            cells,
            units: workers,
        };
        let (table, seat) = Table::of_words(alloc, words.as_slice(), &supply)?;
        Ok((WordMemory { table, taken: 0 }, Part { seat }))
    }

    /// The part's value of a cell of which it has a unit.
    pub fn load(&self, part: &mut Part, cell: u32) -> i64
        requires home { part.old.home ≡ self.now.home }
        requires unit { HasUnit part.old cell }
        ensures value { result ≡ value_at part.old cell }
        ensures same { part.new ≡ part.old }
    {
        let shared = &self.table.shared;
        shared
            .load::<Load>(&mut part.seat, cell as usize + 1)
            .cast_signed()
    }

    /// Writes a cell of which the part has all units.
    pub fn store(&self, part: &mut Part, cell: u32, value: i64)
        requires home { part.old.home ≡ self.now.home }
        requires all { HasAll part.old cell }
        ensures value { value_at part.new cell ≡ value }
        ensures others { (other : ℕ) → other ≢ cell → value_at part.new other ≡ value_at part.old other }
        ensures units { KeepsUnits part.old part.new }
    {
        let shared = &self.table.shared;
        shared.store::<Store>(&mut part.seat, cell as usize + 1, value.cast_unsigned());
    }

    /// Splits a part in two. The first has as many units of each cell as the foot says, and the second has the others.
    pub fn part<F: Foot>(&self, whole: Part) -> (Part, Part)
        requires home { whole.home ≡ self.now.home }
        requires within { (cell : ℕ) → F.foot cell ≤ units_at whole cell }
        ensures first { (cell : ℕ) → units_at result.0 cell ≡ F.foot cell }
        ensures second { (cell : ℕ) → F.foot cell + units_at result.1 cell ≡ units_at whole cell }
        ensures values { KeepsValues whole result.0 × KeepsValues whole result.1 }
        ensures same { IsBeside whole result.0 × IsBeside whole result.1 }
    {
        let Part { mut seat } = whole;
        let rest = self.table.shared.split_seat::<Cut<F>>(&mut seat);
        (Part { seat }, Part { seat: rest })
    }

    /// Puts two parts together. Of each cell the result has the units of both.
    pub fn rejoin(&self, a: Part, b: Part) -> Part
        requires first { a.home ≡ self.now.home }
        requires second { b.home ≡ self.now.home }
        ensures units { (cell : ℕ) → units_at result cell ≡ units_at a cell + units_at b cell }
        ensures within { (cell : ℕ) → units_at result cell ≤ result.all }
        ensures values { KeepsValues result a × KeepsValues result b }
        ensures same { IsBeside a result }
    {
        let Part { mut seat } = a;
        let Part { seat: other } = b;
        let shared = &self.table.shared;
        shared.join_seat::<Merge>(&mut seat, other);
        shared.load::<Look>(&mut seat, 0);
        Part { seat }
    }

    /// Takes the next cells for a block. The answer is false exactly where fewer are left.
    pub fn grow(&mut self, cells: u32) -> bool
        ensures enough { IsTrue result ↔ (self.old.taken + cells ≤ self.old.cells) }
        ensures taken { OnTrue result (self.new ≡ record self.old { taken = self.old.taken + cells }) }
        ensures refused { OnFalse result (self.new ≡ self.old) }
    {
        let left = self.table.word_count() - 1 - self.taken as usize;
        if cells as usize <= left {
            self.taken += cells;
            true
        } else {
            false
        }
    }

    /// How many cells blocks have taken. The next block begins there.
    pub fn taken(&self) -> u32
        ensures { result ≡ self.now.taken }
    {
        self.taken
    }

    /// The values of a part that has all units of each cell. A refusal drops the memory and the part.
    pub fn close(self, alloc: Global, part: Part) -> Result<Vec<i64>, AllocError>
        requires home { part.home ≡ self.home }
        requires all { HasAllOf part self.cells }
        ensures count { IfOk result (λ v. vec_len v ≡ self.cells) }
        ensures values { IfOk result (λ v. (cell : ℕ) → slice_index_or v.items cell (pos 0) ≡ value_at part cell) }
    {
        let cells = self.table.word_count() - 1;
        let values = Vec::with_capacity(alloc, cells)?;
        let WordMemory { table, taken: _ } = self;
        let Part { seat } = part;
        Ok(values_of(table.close_with(seat), cells, values))
    }
}

// The words of the cells as signed numbers, in a list that has room for them.
fn values_of(closed: Closed<(), Global>, cells: usize, mut values: Vec<i64>) -> Vec<i64>
    requires words { IsFull closed.words × (slots_len closed.words ≡ cells + 1) }
    requires slots { slots_len closed.slots ≡ 0 }
    requires room { (vec_len values ≡ 0) × (cells ≤ vec_capacity values) }
    ensures count { vec_len result ≡ cells }
    ensures values { (cell : ℕ) → cell < cells → slice_index_or result.items cell (pos 0) ≡ cast_signed w64 (slice_index (slots_items closed.words) (cell + 1)) }
{
    for cell in 0..cells {
        values.push_reserved(closed.word(cell + 1).cast_signed());
    }
    closed.free();
    values
}
