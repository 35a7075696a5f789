//! The rows of templates that the facts of a condition derive.

ghost use Rattle.std.specs.Prelude.{◌≡◌, reverse, IfOk, Contains};
ghost use Rattle.std.specs.List.{flat_map, filter_map};
ghost use Rattle.lq_linear.specs.Row.{Inequality};
ghost use Rattle.lq_linear.specs.Collect.{as_row};
ghost use Rattle.lq_templates.specs.Conditions.{filled, IsDerived};
ghost use Rattle.lq_fixpoint.specs.Goals.{bounded_of};
ghost use Rattle.lq_fixpoint.specs.Sifting.{IsSifted};

use crate::facts::rows_at;
use crate::filling::{copy_row, filled_row};
use crate::met::is_row_derived;
use lq_linear::{Form, Row};
use lq_templates::{Assign, Given};
use lq_validity::GoalIndex;
use sqlite_items::Items;
use std::alloc::{AllocError, Global};

/// Those rows that the facts of an index derive, with the forms in the place of the names.
pub(crate) fn derived_rows(
    alloc: Global,
    index: &GoalIndex<'_>,
    values: &[Form],
    rows: &[Row],
) -> Result<Items<Row>, AllocError>
    requires { (goal : Inequality) → Contains (filter_map (λ row. as_row (filled values.now row)) rows.now) goal → Contains index.now.goals goal }
    ensures { IfOk result (IsSifted (λ row. IsDerived index.now.multipliers (reverse index.now.items) (filled values.now row)) rows.now) }
{
    let mut derived = Items::new(alloc);
    let mut rest = rows;
    while let Some((row, later)) = rest.split_first() {
        if is_row_derived(alloc, index, values, row)? {
            derived.push(copy_row(alloc, row)?)?;
        }
        rest = later;
    }
    Ok(derived)
}

/// The rows of templates among some goals, those within the bounds.
pub(crate) fn bounded_goals(
    alloc: Global,
    goals: &[Given],
    assign: &Assign,
) -> Result<Items<Row>, AllocError>
    ensures { IfOk result (λ rows. rows ≡ flat_map (bounded_of assign.now) goals.now) }
{
    let mut rows = Items::new(alloc);
    let mut rest = goals;
    while let Some((given, later)) = rest.split_first() {
        rows.append(bounded_of(alloc, given, assign)?)?;
        rest = later;
    }
    Ok(rows)
}

// The rows of a template, if that is the goal, those within the bounds.
fn bounded_of(alloc: Global, given: &Given, assign: &Assign) -> Result<Items<Row>, AllocError>
    ensures { IfOk result (λ rows. rows ≡ bounded_of assign.now given.now) }
{
    match given {
        Given::Fixed(_) => Ok(Items::new(alloc)),
        Given::Of { template, values } => {
            bounded_rows(alloc, values.as_slice(), rows_at(assign, *template))
        }
    }
}

// The rows with the forms in the place of the names, those within the bounds.
fn bounded_rows(alloc: Global, values: &[Form], rows: &[Row]) -> Result<Items<Row>, AllocError>
    ensures { IfOk result (λ goals. goals ≡ filter_map (λ row. as_row (filled values.now row)) rows.now) }
{
    let mut goals = Items::new(alloc);
    let mut rest = rows;
    while let Some((row, later)) = rest.split_first() {
        if let Some(goal) = filled_row(alloc, values, row)? {
            goals.push(goal)?;
        }
        rest = later;
    }
    Ok(goals)
}
