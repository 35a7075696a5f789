//! Whether a condition is met.

ghost use Rattle.std.specs.Prelude.{◌≡◌, ℕ, ◌↔◌, IsTrue, IfOk, reverse, Some, Contains};
ghost use Rattle.std.specs.List.{AllByRecursion};
ghost use Rattle.lq_linear.specs.Row.{Inequality};
ghost use Rattle.lq_linear.specs.Collect.{as_row};
ghost use Rattle.lq_linear.specs.Derivation.{Derives};
ghost use Rattle.lq_templates.specs.Conditions.{filled, IsDerived, IsMet};

use crate::facts::{facts_under, goals_under};
use crate::filling::filled_row;
use lq_linear::{Form, Row};
use lq_templates::{Assign, Condition};
use lq_validity::{GoalIndex, Mults};
use std::alloc::{AllocError, Global};

/// Tells whether an assignment meets a condition: its facts derive each of its goals (docs/CHECKING.md, "Verdict").
pub fn is_met(
    alloc: Global,
    c: &Condition,
    assign: &Assign,
    mults: &Mults,
) -> Result<bool, AllocError>
    ensures { IfOk result (λ met. IsTrue met ↔ IsMet mults.now assign.now c.now) }
{
    let Some(goals) = goals_under(alloc, c, assign)? else {
        return Ok(false);
    };
    let facts = facts_under(alloc, c, assign)?;
    let index = GoalIndex::of(alloc, &facts, goals.as_slice(), mults)?;
    are_derived(&index, goals.as_slice())
}

// Tells whether the facts of an index derive these of its goals.
fn are_derived(index: &GoalIndex<'_>, goals: &[Row]) -> Result<bool, AllocError>
    requires { (goal : Inequality) → Contains goals.now goal → Contains index.now.goals goal }
    ensures { IfOk result (λ derived. IsTrue derived
        ↔ AllByRecursion (Derives index.now.multipliers (reverse index.now.items)) goals.now) }
{
    let Some((goal, rest)) = goals.split_first() else {
        return Ok(true);
    };
    if is_derived(index, goal)? {
        are_derived(index, rest)
    } else {
        Ok(false)
    }
}

// Tells whether the facts of an index derive one of its goals.
fn is_derived(index: &GoalIndex<'_>, goal: &Row) -> Result<bool, AllocError>
    requires { Contains index.now.goals goal.now }
    ensures { IfOk result (λ derived. IsTrue derived ↔ Derives index.now.multipliers (reverse index.now.items) goal.now) }
{
    Ok(index.find(goal)?.is_some())
}

/// Tells whether the facts of an index derive a row over names at forms, which is one of its goals if it is within the
/// bounds.
pub(crate) fn is_row_derived(
    alloc: Global,
    index: &GoalIndex<'_>,
    values: &[Form],
    row: &Row,
) -> Result<bool, AllocError>
    requires { (goal : Inequality) → as_row (filled values.now row.now) ≡ Some goal → Contains index.now.goals goal }
    ensures { IfOk result (λ derived. IsTrue derived
        ↔ IsDerived index.now.multipliers (reverse index.now.items) (filled values.now row.now)) }
{
    match filled_row(alloc, values, row)? {
        Some(goal) => is_derived(index, &goal),
        None => Ok(false),
    }
}
