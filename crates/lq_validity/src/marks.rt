//! Marks on the rows that are facts.

ghost use Rattle.std.specs.Prelude.{◌↔◌, ◌^◌, ◌<◌, IsTrue, IfOk, OnOk, length};
ghost use Rattle.lq_validity.specs.Marks.{AddsMarks, IsMarked, AreEither, AreBoth};

use lq_linear::{Item, is_row_fact};
use std::alloc::{AllocError, Global};

/// Marks the rows of one item, the third only where it is exact.
pub(crate) fn mark_item(marks: &mut Vec<bool>, item: &Item, exact: bool) -> Result<(), AllocError>
    ensures { OnOk result (AddsMarks item.now exact marks.old.items marks.new.items) }
{
    for place in 0..item.count() {
        marks.push(is_row_fact(item, place, exact))?;
    }
    Ok(())
}

/// Whether the row with this number, from 1, is marked.
pub(crate) fn is_marked(marks: &[bool], number: u32) -> bool
    ensures { IsTrue result ↔ IsMarked marks.now number }
{
    number != 0 && marks.get(number as usize - 1).copied().unwrap_or(false)
}

/// Marks what is marked in either list.
pub(crate) fn either_marked(
    alloc: Global,
    first: &[bool],
    second: &[bool],
) -> Result<Vec<bool>, AllocError>
    requires { length first.now < 2 ^ 32 }
    ensures { IfOk result (λ both. AreEither first.now second.now both.items) }
{
    let mut both = Vec::new(alloc);
    for (place, mark) in first.iter().enumerate() {
        both.push(*mark || is_marked(second, place as u32 + 1))?;
    }
    Ok(both)
}

/// Marks what is marked in both lists.
pub(crate) fn both_marked(
    alloc: Global,
    first: &[bool],
    second: &[bool],
) -> Result<Vec<bool>, AllocError>
    requires { length first.now < 2 ^ 32 }
    ensures { IfOk result (λ both. AreBoth first.now second.now both.items) }
{
    let mut both = Vec::new(alloc);
    for (place, mark) in first.iter().enumerate() {
        both.push(*mark && is_marked(second, place as u32 + 1))?;
    }
    Ok(both)
}
