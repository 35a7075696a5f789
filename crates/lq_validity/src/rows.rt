//! The rows of items, fetched once.

ghost use Rattle.std.specs.Prelude.{◌≡◌, ◌++◌, ◌^◌, map, IfOk, OnOk, reverse};
ghost use Rattle.std.specs.List.{AllByRecursion};
ghost use Rattle.lq_linear.specs.Item.{rows, rows_of};
ghost use Rattle.lq_validity.specs.Narrow.{AreRowsWith, AreWeighed};

use crate::sum::Sum;
use lq_linear::{Item, LooseRow};
use std::alloc::{AllocError, Global};

/// The rows of the items in their order.
pub(crate) fn fetch_rows<'a>(
    alloc: Global,
    items: &'a [Item],
) -> Result<Vec<LooseRow<'a>>, AllocError>
    ensures { IfOk result (λ fetched. fetched.items ≡ rows (reverse items.now)) }
{
    let mut fetched = Vec::new(alloc);
    for item in items {
        push_rows(&mut fetched, item)?;
    }
    Ok(fetched)
}

/// Puts the rows of an item behind the others.
fn push_rows<'a>(fetched: &mut Vec<LooseRow<'a>>, item: &'a Item) -> Result<(), AllocError>
    ensures { OnOk result (fetched.new.items ≡ fetched.old.items ++ rows_of item.now) }
{
    for place in 0..item.count() {
        fetched.push(item.row(place))?;
    }
    Ok(())
}

/// The rows as sums.
pub(crate) fn sums_of(alloc: Global, rows: &[LooseRow]) -> Result<Vec<Sum>, AllocError>
    ensures { IfOk result (λ sums. AreWeighed sums.items rows.now) }
{
    let mut sums = Vec::new(alloc);
    for row in rows {
        sums.push(Sum::of(row))?;
    }
    Ok(sums)
}

/// Marks the rows in which the symbol stands.
pub(crate) fn rows_with(
    alloc: Global,
    rows: &[LooseRow],
    symbol: u32,
) -> Result<Vec<bool>, AllocError>
    ensures { IfOk result (λ marks. AreRowsWith symbol rows.now marks.items) }
{
    let mut marks = Vec::new(alloc);
    for row in rows {
        marks.push(row.coefficient(symbol) != 0)?;
    }
    Ok(marks)
}
