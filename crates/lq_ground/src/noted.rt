//! Tables that keep the first number that is noted at each place.

ghost use Rattle.std.specs.Prelude.{◌≡◌, ℕ, ◌==◌, if◌then◌else◌, [], slice_get, IfOk, OnOk};
ghost use Rattle.lq_ground.specs.Noted as spec;

use sqlite_items::Items;
use std::alloc::{AllocError, Global};

// A table with a number, or none, at each place.
pub(crate) type Table = Items<Option<u32>>;

// The number at a place of a table.
pub(crate) fn noted(table: &[Option<u32>], place: usize) -> Option<u32>
    ensures { result ≡ spec.noted table.now place }
{
    match table.get(place) {
        Some(number) => *number,
        None => None,
    }
}

// Notes a number at a place, unless there is one.
pub(crate) fn note(table: &mut Table, at: u32, number: u32) -> Result<(), AllocError>
    ensures { OnOk result ((place : ℕ) → spec.noted table.new place ≡ spec.first_of (spec.noted table.old place) (spec.number_for at number place)) }
{
    let at = at as usize;
    while table.len() <= at {
        table.push(None)?;
    }
    if noted(table.as_slice(), at).is_none() {
        table.set(at, Some(number));
    }
    Ok(())
}

// The table with this number among tables.
pub(crate) fn row_at(alloc: Global, rows: &[Table], row: u32) -> Result<Table, AllocError>
    ensures { IfOk result (λ found. found ≡ spec.row_of (slice_get rows.now row)) }
{
    match rows.get(row as usize) {
        Some(row) => Items::from_slice(alloc, row.as_slice()),
        None => Ok(Items::new(alloc)),
    }
}

// Puts a table among tables, in place of the one with its number.
fn put_row(alloc: Global, rows: &mut Items<Table>, at: u32, row: Table) -> Result<(), AllocError>
    ensures { OnOk result ((n : ℕ) → spec.row_of (slice_get rows.new n) ≡ (if at == n then row else spec.row_of (slice_get rows.old n))) }
{
    let at = at as usize;
    while rows.len() <= at {
        rows.push(Items::new(alloc))?;
    }
    rows.set(at, row);
    Ok(())
}

// Notes a number at a place of one of several tables, unless there is one.
pub(crate) fn note_in(
    alloc: Global,
    rows: &mut Items<Table>,
    at: u32,
    place: u32,
    number: u32,
) -> Result<(), AllocError>
    ensures { OnOk result ((n m : ℕ) → spec.noted_in rows.new n m
        ≡ spec.first_of (spec.noted_in rows.old n m) (if at == n then spec.number_for place number m else None)) }
{
    let mut row = row_at(alloc, rows.as_slice(), at)?;
    note(&mut row, place, number)?;
    put_row(alloc, rows, at, row)
}
