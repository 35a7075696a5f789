//! What is known of items.

ghost use Rattle.std.specs.Prelude.{◌≡◌, ◌*◌, ◌+◌, ◌^◌, ◌<◌, ◌∷◌, true, false, IfOk, IfSome, length, reverse};
ghost use Rattle.std.specs.List.{AllByRecursion};
ghost use Rattle.lq_linear.specs.Ascend.{Ascend};
ghost use Rattle.lq_linear.specs.Item.{rows, dividend_row};
ghost use Rattle.lq_validity.specs.Marks.{IsMarked, AreBoth};
ghost use Rattle.lq_validity.specs.Families.{WithFew, FindsFirst};
ghost use Rattle.lq_validity.specs.Narrow.{AreWeighed, IsPool};
ghost use Rattle.lq_validity.specs.Spare.{LeavesFor};
ghost use Rattle.lq_validity.specs.Known.{IsKnown, Notes};

use crate::marks::{both_marked, mark_item};
use crate::narrow::keep_consequences;
use crate::pool::Pool;
use crate::search::Search;
use crate::sum::Sum;
use lq_linear::{Combo, Exact, Item, LooseRow, WIDTH};
use sqlite_items::Items;
use std::alloc::{AllocError, Global};

/// What is known of items: which of their rows are facts, which of these are left, for which
/// divisions and remainders it was shown that the dividend isn't negative, and the sums of the
/// facts that are left.
#[derive(Drop)]
pub(crate) struct Known {
    pub(crate) marks: Vec<bool>,
    pub(crate) left: Vec<bool>,
    pub(crate) exacts: Items<Exact>,
    pub(crate) pool: Pool,
}

/// What stands before an item: items, their rows, the sums of these, and of those that are facts
/// and left the marks and the pool.
#[derive(Clone, Copy)]
struct Before<'a> {
    items: &'a [Item],
    rows: &'a [LooseRow<'a>],
    sums: &'a [Sum],
    marks: &'a [bool],
    pool: &'a Pool,
}

/// What is known of the items, whose rows and sums are given. Rows that aren't left are never
/// tried.
pub(crate) fn known_of(
    alloc: Global,
    items: &[Item],
    fetched: &[LooseRow],
    sums: &[Sum],
    left: &[bool],
    multipliers: &[u32],
) -> Result<Known, AllocError>
    requires few { length items.now < 2 ^ 30 }
    requires ascending { Ascend (0 ∷ multipliers.now) }
    requires rows { fetched.now ≡ rows (reverse items.now) }
    requires weighed { AreWeighed sums.now fetched.now }
    requires dividends { AllByRecursion (λ item. LeavesFor fetched.now left.now (dividend_row item)) items.now }
    ensures known { IfOk result (λ known. IsKnown multipliers.now (reverse items.now) known.marks.items known.exacts) }
    ensures left { IfOk result (λ known. AreBoth known.marks.items left.now known.left.items) }
    ensures pool { IfOk result (λ known. IsPool multipliers.now known.left.items fetched.now known.pool.multiples.items known.pool.table) }
{
    let mut marks = Vec::new(alloc);
    let mut exacts = Items::new(alloc);
    let mut pool = Pool::new(alloc)?;
    let mut divisions = 0;
    for (place, item) in items.iter().enumerate() {
        let count = marks.len();
        let facts = marks.as_slice();
        let current = both_marked(alloc, facts, left)?;
        let used = current.as_slice();
        let before = Before {
            items: &items[..place],
            rows: &fetched[..count],
            sums: &sums[..count],
            marks: used,
            pool: &pool,
        };
        let found = exact_of(alloc, &before, multipliers, item)?;
        mark_item(&mut marks, item, found.is_some())?;
        let more_facts = marks.as_slice();
        let next = both_marked(alloc, more_facts, left)?;
        let more = next.as_slice();
        pool.put_facts(sums, multipliers, more, count)?;
        divisions = note(&mut exacts, divisions, item, found)?;
    }
    let all_facts = marks.as_slice();
    let both = both_marked(alloc, all_facts, left)?;
    Ok(Known {
        marks,
        left: both,
        exacts,
        pool,
    })
}

/// The first combination that shows that the item's dividend isn't negative.
fn exact_of(
    alloc: Global,
    before: &Before,
    multipliers: &[u32],
    item: &Item,
) -> Result<Option<Combo>, AllocError>
    requires marks { length before.now.marks.now < 3 * 2 ^ 30 }
    requires ascending { Ascend (0 ∷ multipliers.now) }
    requires rows { before.now.rows.now ≡ rows (reverse before.now.items.now) }
    requires weighed { AreWeighed before.now.sums.now before.now.rows.now }
    requires pool { IsPool multipliers.now before.now.marks.now before.now.rows.now before.now.pool.now.multiples.items before.now.pool.now.table }
    ensures { IfOk result (FindsFirst (WithFew multipliers.now (IsMarked before.now.marks.now)
        (rows (reverse before.now.items.now)) (dividend_row item.now) true (WIDTH + 1))) }
{
    let goal = item.dividend_row();
    let search = Search {
        alloc,
        items: before.items,
        marks: before.marks,
        multipliers,
        direct: true,
        sums: before.sums,
        weight: goal.weight(),
    };
    if let Some(combo) = search.first_alone(&goal)? {
        return Ok(Some(combo));
    }
    let useful = keep_consequences(
        alloc,
        before.rows,
        before.pool,
        before.marks,
        multipliers,
        &goal,
        terms_of(item),
    )?;
    Search {
        marks: useful.as_slice(),
        ..search
    }
    .first(&goal)
}

/// The terms of the dividend; of a row none.
fn terms_of(item: &Item) -> &[(u32, i64)] {
    match item {
        Item::Holds(_) => &[],
        Item::Division { dividend, .. } | Item::Remainder { dividend, .. } => dividend.terms(),
    }
}

/// Notes what was found for an item that is a division or remainder, and tells how many there are
/// up to it.
fn note(
    exacts: &mut Items<Exact>,
    divisions: u32,
    item: &Item,
    found: Option<Combo>,
) -> Result<u32, AllocError>
    requires few { divisions < 2 ^ 30 }
    requires direct { IfSome found (λ combo. combo.void ≡ false) }
    ensures { IfOk result (Notes item.now found divisions exacts.old exacts.new) }
{
    if let Item::Holds(_) = item {
        return Ok(divisions);
    }
    if let Some(combo) = found {
        exacts.push(Exact {
            item: divisions + 1,
            combo,
        })?;
    }
    Ok(divisions + 1)
}
