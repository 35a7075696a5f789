//! Rows and divisions by their numbers.

ghost use Rattle.std.specs.Prelude.{◌≡◌, ◌+◌, ◌<◌, ◌≤◌, MatchOption, length, reverse, take};
ghost use Rattle.lq_linear.specs.Item.{rows};
ghost use Rattle.lq_cert.specs.Located.{IsRowAt, NoRow, IsDivisionAt, NoDivision};
ghost use Rattle.lq_validity.specs.Derives.{division_count as division_count_of, divisions};

use lq_linear::Item;

// The item that the row with this number, from 1, belongs to, and the row's place in it.
pub(crate) fn locate(items: &[Item], number: u32) -> Option<(usize, usize)>
    ensures { MatchOption result (NoRow items.now number) (λ found. IsRowAt items.now number found.0 found.1) }
{
    if number == 0 {
        return None;
    }
    let mut place = number as usize - 1;
    for (index, item) in items.iter().enumerate() {
        let count = item.count();
        if place < count {
            return Some((index, place));
        }
        place -= count;
    }
    None
}

// How many divisions and remainders there are.
pub(crate) fn count_divisions(items: &[Item]) -> usize
    ensures { result ≡ divisions (reverse items.now) }
{
    let mut count = 0;
    for item in items {
        count += division_count(item);
    }
    count
}

// How many divisions and remainders an item is.
pub(crate) fn division_count(item: &Item) -> usize
    ensures { result ≡ division_count_of item.now }
{
    match item {
        Item::Holds(_) => 0,
        _ => 1,
    }
}

// The place of the division or remainder with this number, from 1.
pub(crate) fn division_at(items: &[Item], number: u32) -> Option<usize>
    ensures { MatchOption result (NoDivision items.now number) (IsDivisionAt items.now number) }
{
    let mut count = 0usize;
    for (index, item) in items.iter().enumerate() {
        if division_count(item) == 1 {
            count += 1;
            if count == number as usize {
                return Some(index);
            }
        }
    }
    None
}
