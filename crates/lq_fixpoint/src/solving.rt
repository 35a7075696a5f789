//! The greatest assignment.

ghost use Rattle.std.specs.Prelude.{◌≡◌, ◌<◌, length, reverse, IsTrue, IfOk, Contains};
ghost use Rattle.std.specs.List.{AllByRecursion, list_all, flat_map};
ghost use Rattle.lq_linear.specs.Row.{Inequality};
ghost use Rattle.lq_templates.specs.Conditions.{is_rows, asks_rows, facts_of, rows_of, IsDerived, IsGreatest};
ghost use Rattle.lq_fixpoint.specs.Goals.{bounded_of};
ghost use Rattle.lq_fixpoint.specs.Thinning.{AreDerived, IsServedBy};
ghost use Rattle.lq_fixpoint.specs.Users.{AreUsers};
ghost use Rattle.lq_fixpoint.specs.Work.{IsKept, Drops, IsTested, AreTested};
ghost use Rattle.lq_fixpoint.specs.Asking.{AsksAlike};

use crate::facts::facts_under;
use crate::sifting::{bounded_goals, derived_rows};
use crate::users::users_of;
use crate::work::Work;
use lq_templates::{Assign, Condition, Conditions, Given};
use lq_validity::{GoalIndex, Mults};
use sqlite_items::Items;
use std::alloc::{AllocError, Global};

/// The greatest assignment within the full one: rows that aren't derived are dropped until none is left to drop
/// (docs/CHECKING.md, "Verdict"). A condition is tested at first, and again only where a template among its facts lost
/// rows since.
pub fn solve(
    alloc: Global,
    c: &Conditions,
    full: Assign,
    mults: &Mults,
) -> Result<Assign, AllocError>
    requires { AllByRecursion AsksAlike c.now.list }
    ensures { IfOk result (λ assign. IsGreatest mults.now full c.now.list assign) }
{
    let list = c.list.as_slice();
    let table = users_of(alloc, list, full.rows.len())?;
    let users = table.as_slice();
    let mut work = Work::new(alloc, full, list.len())?;
    'rounds: loop {
        if !serve_all(alloc, list, mults, users, &mut work)? {
            return Ok(work.assign);
        }
    }
}

// Tests each condition that is due. Tells whether any row was dropped: if not, no condition is due any more.
fn serve_all(
    alloc: Global,
    list: &[Condition],
    mults: &Mults,
    users: &[Items<usize>],
    work: &mut Work,
) -> Result<bool, AllocError>
    requires alike { AllByRecursion AsksAlike list.now }
    requires users { AreUsers list.now users.now }
    requires kept { IsKept mults.now list.now users.now work.old }
    ensures { IfOk result (λ dropped. AreTested mults.now list.now users.now (length list.now) dropped work.old work.new) }
{
    let mut dropped = false;
    for number in 0..list.len() {
        let some = serve(alloc, list, number, mults, users, work)?;
        dropped = dropped || some;
    }
    Ok(dropped)
}

// Tests the condition with this number, where it is due. Tells whether any row was dropped.
fn serve(
    alloc: Global,
    list: &[Condition],
    number: usize,
    mults: &Mults,
    users: &[Items<usize>],
    work: &mut Work,
) -> Result<bool, AllocError>
    requires alike { AllByRecursion AsksAlike list.now }
    requires there { number < length list.now }
    requires users { AreUsers list.now users.now }
    requires kept { IsKept mults.now list.now users.now work.old }
    ensures { IfOk result (λ dropped. IsTested mults.now list.now users.now number dropped work.old work.new) }
{
    if !work.due[number] {
        return Ok(false);
    }
    work.settle(number);
    thin(alloc, &list[number], mults, users, work)
}

// Drops the rows that a condition asks for and that aren't derived. Tells whether any was dropped.
fn thin(
    alloc: Global,
    c: &Condition,
    mults: &Mults,
    users: &[Items<usize>],
    work: &mut Work,
) -> Result<bool, AllocError>
    requires { AsksAlike c.now }
    ensures { IfOk result (λ dropped. Drops (IsServedBy mults.now (facts_of work.old.assign c.now) c.now) users.now dropped work.old work.new) }
{
    if !asks_rows(c) {
        return Ok(false);
    }
    let goals = c.goals.as_slice();
    let facts = facts_under(alloc, c, &work.assign)?;
    let rows = bounded_goals(alloc, goals, &work.assign)?;
    let index = GoalIndex::of(alloc, &facts, rows.as_slice(), mults)?;
    thin_goals(alloc, &index, goals, users, work)
}

// Drops the rows for which some goals ask and that the facts of an index for them don't derive. Tells whether any was
// dropped.
fn thin_goals(
    alloc: Global,
    index: &GoalIndex<'_>,
    goals: &[Given],
    users: &[Items<usize>],
    work: &mut Work,
) -> Result<bool, AllocError>
    requires rows { IsTrue (list_all is_rows goals.now) }
    requires bounded { (row : Inequality) → Contains (flat_map (bounded_of work.old.assign) goals.now) row → Contains index.now.goals row }
    ensures { IfOk result (λ dropped. Drops (AreDerived index.now.multipliers (reverse index.now.items) goals.now) users.now dropped work.old work.new) }
{
    let Some((goal, rest)) = goals.split_first() else {
        return Ok(false);
    };
    let first = thin_goal(alloc, index, goal, users, work)?;
    let later = thin_goals(alloc, index, rest, users, work)?;
    Ok(first || later)
}

// Drops the rows for which a goal asks and that the facts of an index for it don't derive. Tells whether any was
// dropped.
fn thin_goal(
    alloc: Global,
    index: &GoalIndex<'_>,
    goal: &Given,
    users: &[Items<usize>],
    work: &mut Work,
) -> Result<bool, AllocError>
    requires rows { IsTrue (is_rows goal.now) }
    requires bounded { (row : Inequality) → Contains (bounded_of work.old.assign goal.now) row → Contains index.now.goals row }
    ensures { IfOk result (λ dropped. Drops (λ a. AllByRecursion (IsDerived index.now.multipliers (reverse index.now.items)) (rows_of a goal.now))
        users.now dropped work.old work.new) }
{
    let Given::Of { template, values } = goal else {
        return Ok(false);
    };
    let place = template.saturating_sub(1) as usize;
    let Some(rows) = work.assign.rows.get(place) else {
        return Ok(false);
    };
    let derived = derived_rows(alloc, index, values.as_slice(), rows.as_slice())?;
    if rows.len() <= derived.len() {
        return Ok(false);
    }
    work.keep_rows(place, derived, users);
    Ok(true)
}

// Tells whether a condition asks for the rows of templates.
fn asks_rows(c: &Condition) -> bool
    ensures { result ≡ asks_rows c.now }
{
    c.goals.as_slice().iter().any(|goal| is_rows(goal))
}

// Tells whether a goal is the rows of a template.
fn is_rows(goal: &Given) -> bool
    ensures { result ≡ is_rows goal.now }
{
    matches!(goal, Given::Of { .. })
}
