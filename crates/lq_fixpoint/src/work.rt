//! What is left of the work on an assignment.

ghost use Rattle.std.specs.Prelude.{◌≡◌, true, false, [], ◌<◌, length, replicate, slice_index_or, slice_set, IfOk};
ghost use Rattle.lq_fixpoint.specs.Work.{marked};

use lq_linear::Row;
use lq_templates::Assign;
use sqlite_items::Items;
use std::alloc::{AllocError, Global};

/// The rows that aren't dropped so far, and for each condition whether it is due to be tested.
#[derive(Drop)]
pub(crate) struct Work {
    pub(crate) assign: Assign,
    pub(crate) due: Vec<bool>,
}

impl Work {
    /// All rows are there, and each of so many conditions is due.
    pub(crate) fn new(alloc: Global, assign: Assign, conditions: usize) -> Result<Work, AllocError>
        ensures assign { IfOk result (λ work. work.assign ≡ assign) }
        ensures due { IfOk result (λ work. work.due.items ≡ replicate conditions true) }
    {
        let due = vec![in alloc; true; conditions]?;
        Ok(Work { assign, due })
    }

    /// The condition with this number isn't due any more.
    pub(crate) fn settle(&mut self, number: usize)
        requires { number < length self.old.due.items }
        ensures assign { self.new.assign ≡ self.old.assign }
        ensures due { self.new.due.items ≡ slice_set self.old.due.items number false }
    {
        self.due[number] = false;
    }

    /// Leaves a template only these rows. The conditions that stand on it are due.
    pub(crate) fn keep_rows(&mut self, place: usize, rows: Items<Row>, users: &[Items<usize>])
        requires { place < length self.old.assign.rows }
        ensures rows { self.new.assign ≡ record { rows = slice_set self.old.assign.rows place rows } }
        ensures due { self.new.due.items ≡ marked (slice_index_or users.now place []) self.old.due.items }
    {
        self.assign.rows.set(place, rows);
        if let Some(numbers) = users.get(place) {
            mark(numbers.as_slice(), &mut self.due);
        }
    }
}

// Marks the places with these numbers.
fn mark(numbers: &[usize], due: &mut [bool])
    ensures { due.new ≡ marked numbers.now due.old }
{
    let mut rest = numbers;
    while let Some((number, later)) = rest.split_first() {
        if *number < due.len() {
            due[*number] = true;
        }
        rest = later;
    }
}
