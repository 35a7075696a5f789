//! How many facts conditions have under an assignment.

ghost use Rattle.std.specs.Prelude.{◌≡◌, ◌≤◌, IsFalse, max, length, IfOk};
ghost use Rattle.std.specs.List.{filter_map, sum_by};
ghost use Rattle.lq_linear.specs.Collect.{as_row};
ghost use Rattle.lq_templates.specs.Conditions.{filled, rows_at, items_of};
ghost use Rattle.lq_full.specs.Full.{weight, count_facts, most_facts};

use lq_fixpoint::filled_row;
use lq_linear::{Form, Row};
use lq_templates::{Assign, Condition, Given};
use lq_tree::Quantity;
use std::alloc::{AllocError, Global};

/// The most facts that one of these conditions has, or 512 where none has more.
pub(crate) fn most_facts(
    alloc: Global,
    list: &[Condition],
    assign: &Assign,
) -> Result<u64, AllocError>
    ensures { IfOk result (λ most. most ≡ max 512 (most_facts assign.now list.now)) }
{
    let mut most = Quantity::Facts.allowed();
    let mut rest = list;
    // From the back: later conditions mostly have the facts of earlier ones and more, so that few have to be counted.
    while let Some((c, before)) = rest.split_last() {
        most = larger_count(alloc, c, assign, most)?;
        rest = before;
    }
    Ok(most)
}

// The number of facts of a condition, or this number where it is larger.
fn larger_count(alloc: Global, c: &Condition, assign: &Assign, most: u64) -> Result<u64, AllocError>
    ensures { IfOk result (λ larger. larger ≡ max most (count_facts assign.now c.now)) }
{
    if may_have_more(c, assign, most) {
        Ok(most.max(count_facts(alloc, c, assign)?))
    } else {
        Ok(most)
    }
}

// Whether a condition may have more facts than this number, as far as that shows without forms in the place of names.
fn may_have_more(c: &Condition, assign: &Assign, most: u64) -> bool
    ensures { IsFalse result → count_facts assign.now c.now ≤ most }
{
    let mut room = most;
    for given in c.facts.iter() {
        let bound = most_items(given, assign);
        if bound > room {
            return true;
        }
        room -= bound;
    }
    false
}

// What a fact counts at most.
fn most_items(given: &Given, assign: &Assign) -> u64
    ensures { sum_by weight (items_of assign.now given.now) ≤ result }
{
    match given {
        Given::Fixed(item) => item.count() as u64,
        Given::Of { template, .. } => rows_at(assign, *template).len() as u64,
    }
}

// How many facts a condition has. More than a `u64` holds are taken for want of memory.
fn count_facts(alloc: Global, c: &Condition, assign: &Assign) -> Result<u64, AllocError>
    ensures { IfOk result (λ count. count ≡ count_facts assign.now c.now) }
{
    let mut count: u64 = 0;
    for given in c.facts.iter() {
        let more = count_items(alloc, given, assign)?;
        count = count.checked_add(more).ok_or(AllocError)?;
    }
    Ok(count)
}

// What a fact counts.
fn count_items(alloc: Global, given: &Given, assign: &Assign) -> Result<u64, AllocError>
    ensures { IfOk result (λ count. count ≡ sum_by weight (items_of assign.now given.now)) }
{
    match given {
        Given::Fixed(item) => Ok(item.count() as u64),
        Given::Of { template, values } => {
            let rows = rows_at(assign, *template);
            Ok(count_held(alloc, values.as_slice(), rows)? as u64)
        }
    }
}

// How many rows of a template are within the bounds at these forms.
fn count_held(alloc: Global, values: &[Form], rows: &[Row]) -> Result<usize, AllocError>
    ensures { IfOk result (λ count. count ≡ length (filter_map (λ row. as_row (filled values.now row)) rows.now)) }
{
    let mut count = 0;
    let mut rest = rows;
    while let Some((row, later)) = rest.split_first() {
        if filled_row(alloc, values, row)?.is_some() {
            count += 1;
        }
        rest = later;
    }
    Ok(count)
}

// The rows that an assignment gives the template with this number, from 1.
fn rows_at(assign: &Assign, template: u32) -> &[Row]
    ensures { result.now ≡ rows_at assign.now template }
{
    match assign.rows.get(template.saturating_sub(1) as usize) {
        Some(rows) => rows.as_slice(),
        None => &[],
    }
}
