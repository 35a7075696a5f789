//! The facts and goals of a condition under an assignment.

ghost use Rattle.std.specs.Prelude.{◌≡◌, ◌++◌, ◌^◌, ◌<◌, [], ◌∷◌, None, Some, reverse, map, length, IfOk, OnOk, MatchOption};
ghost use Rattle.std.specs.List.{filter_map, flat_map};
ghost use Rattle.lq_linear.specs.Collect.{as_row};
ghost use Rattle.lq_templates.specs.Conditions.{filled, rows_at, items_of, facts_of, row_of, rows_of, goals_of};
ghost use Rattle.lq_fixpoint.specs.Goals.{AreRowsOf};

use crate::filling::{copy_item, filled_row, fixed_row};
use lq_linear::{Facts, Form, Item, Row};
use lq_templates::{Assign, Condition, Given};
use sqlite_items::Items;
use std::alloc::{AllocError, Global};

// More facts than this are taken for want of memory.
const MOST_FACTS: usize = 1_073_741_823;

/// The facts of a condition, in their order. Where there would be 2^30 or more, the answer is want of memory.
pub fn facts_under(alloc: Global, c: &Condition, assign: &Assign) -> Result<Facts, AllocError>
    ensures facts { IfOk result (λ facts. reverse facts.items ≡ facts_of assign.now c.now) }
    ensures few { IfOk result (λ facts. length facts.items < 2 ^ 30) }
{
    let mut items = Items::new(alloc);
    for given in c.facts.iter() {
        put_items(alloc, given, assign, &mut items)?;
    }
    if items.len() > MOST_FACTS {
        return Err(AllocError);
    }
    Ok(Facts { items })
}

// Puts down the items that a fact is.
fn put_items(
    alloc: Global,
    given: &Given,
    assign: &Assign,
    items: &mut Items<Item>,
) -> Result<(), AllocError>
    ensures { OnOk result (items.new ≡ items.old ++ items_of assign.now given.now) }
{
    match given {
        Given::Fixed(item) => items.push(copy_item(alloc, item)?),
        Given::Of { template, values } => {
            let rows = rows_at(assign, *template);
            items.append(held_rows(alloc, values.as_slice(), rows)?)
        }
    }
}

// The rows of a template at forms, those within the bounds, as items.
fn held_rows(alloc: Global, values: &[Form], rows: &[Row]) -> Result<Items<Item>, AllocError>
    ensures { IfOk result (λ items. items ≡ map (λ r. Item.Holds r) (filter_map (λ row. as_row (filled values.now row)) rows.now)) }
{
    let mut items = Items::new(alloc);
    let mut rest = rows;
    while let Some((row, later)) = rest.split_first() {
        if let Some(row) = filled_row(alloc, values, row)? {
            items.push(Item::Holds(row))?;
        }
        rest = later;
    }
    Ok(items)
}

/// The rows that an assignment gives the template with this number, from 1.
pub(crate) fn rows_at(assign: &Assign, template: u32) -> &[Row]
    ensures { result.now ≡ rows_at assign.now template }
{
    match assign.rows.get(template.saturating_sub(1) as usize) {
        Some(rows) => rows.as_slice(),
        None => &[],
    }
}

/// The goals of a condition in their order, or `None` where one of them passes the bounds of a row, so that it isn't
/// derived.
pub fn goals_under(
    alloc: Global,
    c: &Condition,
    assign: &Assign,
) -> Result<Option<Items<Row>>, AllocError>
    ensures { IfOk result (AreRowsOf (goals_of assign.now c.now)) }
{
    let mut goals = Items::new(alloc);
    let mut rest = c.goals.as_slice();
    while let Some((given, later)) = rest.split_first() {
        let Some(more) = rows_of(alloc, given, assign)? else {
            return Ok(None);
        };
        goals.append(more)?;
        rest = later;
    }
    Ok(Some(goals))
}

// What a goal is, or `None` where one of its rows passes the bounds of a row.
fn rows_of(alloc: Global, given: &Given, assign: &Assign) -> Result<Option<Items<Row>>, AllocError>
    ensures { IfOk result (AreRowsOf (rows_of assign.now given.now)) }
{
    match given {
        Given::Fixed(item) => only_row(alloc, fixed_row(alloc, item)?),
        Given::Of { template, values } => {
            all_filled(alloc, values.as_slice(), rows_at(assign, *template))
        }
    }
}

// One row, if it is there.
fn only_row(alloc: Global, row: Option<Row>) -> Result<Option<Items<Row>>, AllocError>
    ensures { IfOk result (λ rows. MatchOption row (rows ≡ None) (λ row. rows ≡ Some (row ∷ []))) }
{
    let Some(row) = row else {
        return Ok(None);
    };
    let mut rows = Items::new(alloc);
    rows.push(row)?;
    Ok(Some(rows))
}

// The rows of a template at forms, or `None` where one of them passes the bounds of a row.
fn all_filled(
    alloc: Global,
    values: &[Form],
    rows: &[Row],
) -> Result<Option<Items<Row>>, AllocError>
    ensures { IfOk result (AreRowsOf (map (filled values.now) rows.now)) }
{
    let mut goals = Items::new(alloc);
    let mut rest = rows;
    while let Some((row, later)) = rest.split_first() {
        let Some(goal) = filled_row(alloc, values, row)? else {
            return Ok(None);
        };
        goals.push(goal)?;
        rest = later;
    }
    Ok(Some(goals))
}
