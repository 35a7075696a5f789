//! Rows that can be spared.

ghost use Rattle.std.specs.Prelude.{◌≡◌, ℕ, ◌↔◌, ◌++◌, ◌^◌, ◌<◌, map, IsTrue, IfOk, Contains, length};
ghost use Rattle.lq_linear.specs.Terms.{coefficient};
ghost use Rattle.lq_linear.specs.Row.{Inequality};
ghost use Rattle.lq_linear.specs.Item.{row_numbered, dividend_row};
ghost use Rattle.lq_validity.specs.Marks.{IsMarked};
ghost use Rattle.lq_validity.specs.Spare.{AreOpposite, AreAligned, IsSpare, LeavesFor, Leaves, Unmarks};

use crate::marks::is_marked;
use lq_linear::{Item, LooseRow, Row};
use std::alloc::{AllocError, Global};

/// A symbol of the row with this number.
#[derive(Clone, Copy)]
struct Place {
    number: u32,
    symbol: u32,
}

/// Marks all rows.
pub(crate) fn all_left(alloc: Global, rows: &[LooseRow]) -> Result<Vec<bool>, AllocError>
    ensures { IfOk result (λ left. (goal : Inequality) → LeavesFor rows.now left.items goal) }
{
    let mut left = Vec::new(alloc);
    for _ in rows {
        left.push(true)?;
    }
    Ok(left)
}

/// Marks the rows without those that no combination can take that gives a goal or contradicts. A
/// row can't where it has a symbol that no other row that is left has with the other sign, and no
/// goal with the same one. So rows are left out again and again.
pub(crate) fn leave_out(
    alloc: Global,
    items: &[Item],
    rows: &[LooseRow],
    goals: &[LooseRow],
) -> Result<Vec<bool>, AllocError>
    requires { length rows.now < 2 ^ 32 }
    ensures { IfOk result (λ left. Leaves rows.now goals.now left.items) }
{
    let mut left = all_left(alloc, rows)?;
    let places = places_of(alloc, items)?;
    let mut waiting = places_of(alloc, items)?;
    for _ in 0..u64::MAX {
        let Some(place) = waiting.pop() else {
            break;
        };
        if is_marked(left.as_slice(), place.number)
            && is_spare(rows, left.as_slice(), goals, place)
        {
            unmark(&mut left, place.number);
            wait_again(&mut waiting, places.as_slice(), rows, place.number)?;
        }
    }
    Ok(left)
}

/// The symbols of all rows of the items. No contract speaks of them: that rows are left out tells
/// `is_spare`, and these are only where it looks.
fn places_of(alloc: Global, items: &[Item]) -> Result<Vec<Place>, AllocError> {
    let mut places = Vec::new(alloc);
    let mut number = 0_u32;
    for item in items {
        for _ in 0..item.count() {
            number = number.saturating_add(1);
            put_places(&mut places, item, number)?;
        }
    }
    Ok(places)
}

/// Puts the symbols of a row of the item behind the others.
fn put_places(places: &mut Vec<Place>, item: &Item, number: u32) -> Result<(), AllocError> {
    match item {
        Item::Holds(row) => put_terms(places, row.form.terms(), number),
        Item::Division {
            quotient,
            dividend,
            ..
        } => {
            places.push(Place {
                number,
                symbol: *quotient,
            })?;
            put_terms(places, dividend.terms(), number)
        }
        Item::Remainder { remainder, .. } => {
            places.push(Place {
                number,
                symbol: *remainder,
            })?;
            Ok(())
        }
    }
}

/// Puts the symbols of these terms behind the others.
fn put_terms(places: &mut Vec<Place>, terms: &[(u32, i64)], number: u32) -> Result<(), AllocError> {
    for (symbol, _) in terms {
        places.push(Place {
            number,
            symbol: *symbol,
        })?;
    }
    Ok(())
}

/// Puts the places back at which a symbol of the row stands.
fn wait_again(
    waiting: &mut Vec<Place>,
    places: &[Place],
    rows: &[LooseRow],
    number: u32,
) -> Result<(), AllocError> {
    for place in places {
        if coefficient_at(rows, number, place.symbol) != 0 {
            waiting.push(*place)?;
        }
    }
    Ok(())
}

/// Takes the mark off the row with this number.
fn unmark(left: &mut Vec<bool>, number: u32)
    requires { IsMarked left.old.items number }
    ensures { Unmarks number left.old.items left.new.items }
{
    left[number as usize - 1] = false;
}

/// Whether no combination can take the row, since this symbol of it can't cancel.
fn is_spare(rows: &[LooseRow], left: &[bool], goals: &[LooseRow], place: Place) -> bool
    requires { length rows.now < 2 ^ 32 }
    ensures { IsTrue result → IsSpare rows.now goals.now left.now place.number }
{
    let multiple = coefficient_at(rows, place.number, place.symbol);
    multiple != 0
        && !has_partner(rows, left, place.symbol, multiple)
        && !is_wanted(goals, place.symbol, multiple)
}

/// What the row with this number multiplies the symbol by.
fn coefficient_at(rows: &[LooseRow], number: u32, symbol: u32) -> i64
    ensures { result ≡ coefficient (row_numbered rows.now number).terms symbol }
{
    match rows.get((number as usize).saturating_sub(1)) {
        None => 0,
        Some(row) => row.coefficient(symbol),
    }
}

/// Whether a row that is left multiplies the symbol by a number with the other sign.
fn has_partner(rows: &[LooseRow], left: &[bool], symbol: u32, multiple: i64) -> bool
    requires { length rows.now < 2 ^ 32 }
    ensures { (other : ℕ) → IsMarked left.now other
        → AreOpposite (coefficient (row_numbered rows.now other).terms symbol) multiple → IsTrue result }
{
    for (place, row) in rows.iter().enumerate() {
        if is_marked(left, place as u32 + 1) && are_opposite(row.coefficient(symbol), multiple) {
            return true;
        }
    }
    false
}

/// Whether a goal multiplies the symbol by a number with the same sign.
fn is_wanted(goals: &[LooseRow], symbol: u32, multiple: i64) -> bool
    ensures { (goal : Inequality) → Contains goals.now goal
        → AreAligned (coefficient goal.terms symbol) multiple → IsTrue result }
{
    for goal in goals {
        if are_aligned(goal.coefficient(symbol), multiple) {
            return true;
        }
    }
    false
}

/// Whether both are numbers with different signs.
fn are_opposite(a: i64, b: i64) -> bool
    ensures { IsTrue result ↔ AreOpposite a b }
{
    if a < 0 { 0 < b } else { 0 < a && b < 0 }
}

/// Whether both are numbers with the same sign.
fn are_aligned(a: i64, b: i64) -> bool
    ensures { IsTrue result ↔ AreAligned a b }
{
    if a < 0 { b < 0 } else { 0 < a && 0 < b }
}

/// The rows that combinations have to give: the goals, and that dividends aren't negative.
pub(crate) fn wanted_rows<'a>(
    alloc: Global,
    items: &'a [Item],
    goals: &'a [Row],
) -> Result<Vec<LooseRow<'a>>, AllocError>
    ensures { IfOk result (λ rows. rows.items ≡ goals.now ++ map dividend_row items.now) }
{
    let mut rows = Vec::new(alloc);
    for goal in goals {
        rows.push(LooseRow::of(goal))?;
    }
    for item in items {
        rows.push(item.dividend_row())?;
    }
    Ok(rows)
}
