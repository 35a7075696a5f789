//! Items.

ghost use Rattle.std.specs.Prelude.{◌≡◌, ◌↔◌, IsTrue, true, length, reverse, slice_index_or};
ghost use Rattle.lq_linear.specs.Row.{IsBounded, nothing};
ghost use Rattle.lq_linear.specs.Item.{rows_of, rows, row_numbered, dividend_row};

use crate::divisor::Divisor;
use crate::form::Form;
use crate::loose::LooseRow;
use crate::row::Row;
use sqlite_items::Items;

/// What is known of symbols (docs/CHECKING.md, "Items as facts").
#[derive(Debug, Drop)]
pub enum Item {
    /// The row holds.
    Holds(Row),
    /// The symbol is the quotient of the dividend and the divisor, cut toward zero.
    Division {
        quotient: u32,
        dividend: Form,
        divisor: Divisor,
    },
    /// The symbol is what the division of the dividend by the divisor leaves over: it is 0 or has
    /// the dividend's sign.
    Remainder {
        remainder: u32,
        dividend: Form,
        divisor: Divisor,
    },
}

/// Items in the order in which they became known.
#[derive(Debug, Drop)]
pub struct Facts {
    pub items: Items<Item>,
}

impl Item {
    /// How many rows the item stands for.
    pub fn count(&self) -> usize
        ensures { result ≡ length (rows_of self.now) }
    {
        match self {
            Item::Holds(_) => 1,
            _ => 3,
        }
    }

    /// The row that says that the dividend isn't negative; for a row it is `0 <= 0`.
    pub fn dividend_row(&self) -> LooseRow<'_>
        ensures { result ≡ dividend_row self.now }
    {
        match self {
            Item::Holds(_) => LooseRow::nothing(),
            Item::Division { dividend, .. } | Item::Remainder { dividend, .. } => {
                LooseRow::not_negative(dividend)
            }
        }
    }

    /// The row at this place among those of the item, from 0, or the row `0 <= 0` where there are
    /// no more.
    pub fn row(&self, place: usize) -> LooseRow<'_>
        ensures { result ≡ slice_index_or (rows_of self.now) place nothing }
    {
        match self {
            Item::Holds(row) => held_row(row, place),
            Item::Division {
                quotient,
                dividend,
                divisor,
            } => division_row(*quotient, dividend, *divisor, place),
            Item::Remainder {
                remainder,
                dividend,
                divisor,
            } => remainder_row(*remainder, dividend, *divisor, place),
        }
    }
}

/// The row of an item that is a row.
fn held_row(row: &Row, place: usize) -> LooseRow<'_>
    ensures { result ≡ slice_index_or (rows_of (Item.Holds row.now)) place nothing }
{
    if place == 0 {
        LooseRow::of(row)
    } else {
        LooseRow::nothing()
    }
}

/// A row of a division.
fn division_row(quotient: u32, dividend: &Form, divisor: Divisor, place: usize) -> LooseRow<'_>
    ensures { result ≡ slice_index_or (rows_of (Item.Division quotient dividend.now divisor)) place nothing }
{
    let value = divisor.value;
    let constant = dividend.constant();
    match place {
        0 => LooseRow::led(quotient, value, true, dividend, constant + (value - 1)),
        1 => LooseRow::led(quotient, -value, false, dividend, (value - 1) - constant),
        2 => LooseRow::led(quotient, value, true, dividend, constant),
        _ => LooseRow::nothing(),
    }
}

/// A row of a remainder.
fn remainder_row<'a>(
    remainder: u32,
    dividend: &'a Form,
    divisor: Divisor,
    place: usize,
) -> LooseRow<'a>
    ensures { result ≡ slice_index_or (rows_of (Item.Remainder remainder dividend.now divisor)) place nothing }
{
    let _ = dividend;
    match place {
        0 => LooseRow::single(remainder, 1, divisor.value - 1),
        1 => LooseRow::single(remainder, -1, divisor.value - 1),
        2 => LooseRow::single(remainder, -1, 0),
        _ => LooseRow::nothing(),
    }
}

/// Whether the row at this place of the item is a fact, where `exact` says whether a third row may be
/// one (docs/CHECKING.md, "Items as facts").
pub fn is_row_fact(item: &Item, place: usize, exact: bool) -> bool
    ensures { IsTrue result ↔ (IsBounded (slice_index_or (rows_of item.now) place nothing)
        × (place ≡ 2 → exact ≡ true)) }
{
    if place == 2 && !exact {
        return false;
    }
    item.row(place).is_bounded()
}

/// The row with this number among those of all items, from 1, or the row `0 <= 0` where there are
/// no more.
pub(crate) fn row_at(items: &[Item], number: u32) -> LooseRow<'_>
    ensures { result ≡ row_numbered (rows (reverse items.now)) number }
{
    let mut place = number.saturating_sub(1) as usize;
    for item in items {
        let count = item.count();
        if place < count {
            return item.row(place);
        }
        place -= count;
    }
    LooseRow::nothing()
}
