//! Combinations of rows.

ghost use Rattle.std.specs.Prelude.{◌≡◌, ℕ, ◌↔◌, ◌^◌, ◌≤◌, ◌<◌, IsTrue, pos, ◌*ℤ◌, [], length, reverse};
ghost use Rattle.lq_linear.specs.Terms.{IsWithin, AreAlike, coefficient, times};
ghost use Rattle.lq_linear.specs.Item.{rows};
ghost use Rattle.std.specs.List.{AllByRecursion};
ghost use Rattle.lq_linear.specs.Derivation.{combined, floor as floor_of, Agree, IsConsequence, IsContradiction};

use crate::item::{Item, row_at};
use crate::loose::LooseRow;

/// How many facts a derivation may combine.
pub const WIDTH: usize = 4;

/// How many facts any combination may have.
pub const MOST_PARTS: usize = 256;

/// What the multiples of the rows multiply a symbol by, added up. A part is a multiplier and the
/// number of a row.
fn total_coefficient(items: &[Item], parts: &[(u32, u32)], symbol: u32) -> i64
    requires { length parts.now ≤ MOST_PARTS }
    ensures value { result ≡ coefficient (combined (rows (reverse items.now)) parts.now).terms symbol }
    ensures within { IsWithin (2 ^ 57) result }
{
    let mut total = 0;
    for (multiplier, number) in parts {
        total += multiplied_coefficient(*multiplier, &row_at(items, *number), symbol);
    }
    total
}

/// What a multiple of a row multiplies a symbol by.
fn multiplied_coefficient(multiplier: u32, row: &LooseRow, symbol: u32) -> i64
    ensures value { result ≡ pos multiplier *ℤ coefficient row.now.terms symbol }
    ensures within { IsWithin (2 ^ 49) result }
{
    i64::from(multiplier) * row.coefficient(symbol)
}

/// What the multiples of the rows are at most, added up.
fn total_most(items: &[Item], parts: &[(u32, u32)]) -> i128
    requires { length parts.now ≤ MOST_PARTS }
    ensures value { result ≡ (combined (rows (reverse items.now)) parts.now).most }
    ensures within { IsWithin (2 ^ 81) result }
{
    let mut total = 0;
    for (multiplier, number) in parts {
        total += multiplied_most(*multiplier, &row_at(items, *number));
    }
    total
}

/// What a multiple of a row is at most.
fn multiplied_most(multiplier: u32, row: &LooseRow) -> i128
    ensures value { result ≡ pos multiplier *ℤ row.now.most }
    ensures within { IsWithin (2 ^ 73) result }
{
    i128::from(multiplier) * i128::from(row.most())
}

/// Tells whether the multiples of the rows and the divisor times the goal multiply a symbol by the
/// same number.
fn agree(items: &[Item], parts: &[(u32, u32)], divisor: u32, goal: &LooseRow, symbol: u32) -> bool
    requires { length parts.now ≤ MOST_PARTS }
    ensures { IsTrue result ↔ Agree (rows (reverse items.now)) parts.now divisor goal.now symbol }
{
    total_coefficient(items, parts, symbol) == multiplied_coefficient(divisor, goal, symbol)
}

/// The same, for each symbol of a row.
fn agree_on(
    items: &[Item],
    parts: &[(u32, u32)],
    divisor: u32,
    goal: &LooseRow,
    row: &LooseRow,
) -> bool
    requires { length parts.now ≤ MOST_PARTS }
    ensures { IsTrue result
        ↔ AllByRecursion (λ t. Agree (rows (reverse items.now)) parts.now divisor goal.now t.0) row.now.terms }
{
    for (symbol, _) in row.rest {
        if !agree(items, parts, divisor, goal, *symbol) {
            return false;
        }
    }
    match row.lead {
        None => true,
        Some((symbol, _)) => agree(items, parts, divisor, goal, symbol),
    }
}

/// Tells whether the multiples of the rows have the form of the divisor times the goal.
fn is_multiple(items: &[Item], parts: &[(u32, u32)], divisor: u32, goal: &LooseRow) -> bool
    requires { length parts.now ≤ MOST_PARTS }
    ensures { IsTrue result
        ↔ AreAlike (combined (rows (reverse items.now)) parts.now).terms (times (pos divisor) goal.now.terms) }
{
    for (_, number) in parts {
        if !agree_on(items, parts, divisor, goal, &row_at(items, *number)) {
            return false;
        }
    }
    agree_on(items, parts, divisor, goal, &goal.again())
}

/// The sum divided by the divisor and rounded down.
fn floor(sum: i128, divisor: u32) -> i128
    requires { 0 < divisor }
    ensures { result ≡ floor_of sum divisor }
{
    sum.div_euclid(i128::from(divisor))
}

/// Tells whether the multiples of the rows give the goal as a consequence.
pub fn is_consequence(items: &[Item], parts: &[(u32, u32)], divisor: u32, goal: &LooseRow) -> bool
    requires few { length parts.now ≤ MOST_PARTS }
    requires positive { 0 < divisor }
    ensures { IsTrue result ↔ IsConsequence (rows (reverse items.now)) parts.now divisor goal.now }
{
    floor(total_most(items, parts), divisor) <= i128::from(goal.most())
        && is_multiple(items, parts, divisor, goal)
}

/// Tells whether the multiples of the rows contradict each other.
pub fn is_contradiction(items: &[Item], parts: &[(u32, u32)]) -> bool
    requires { length parts.now ≤ MOST_PARTS }
    ensures { IsTrue result ↔ IsContradiction (rows (reverse items.now)) parts.now }
{
    total_most(items, parts) < 0 && is_multiple(items, parts, 1, &LooseRow::nothing())
}
