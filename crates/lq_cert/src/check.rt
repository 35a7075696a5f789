//! The test of a certificate.

ghost use Rattle.std.specs.Prelude.{◌≡◌, ◌↔◌, ◌≤◌, ◌<◌, ◌^◌, ◌+◌, IsTrue, true, length, reverse, slice_index_or};
ghost use Rattle.std.specs.List.{AllByRecursion};
ghost use Rattle.lq_linear.specs.Row.{nothing, IsBounded};
ghost use Rattle.lq_linear.specs.Item.{rows, rows_of};
ghost use Rattle.lq_linear.specs.Derivation.{Proves};
ghost use Rattle.lq_cert.specs.Right.{IsAllowed, HasEntry, MayUse, IsRight, IsRightEntry, EntriesAscend, IsRightCertificate};
ghost use Rattle.lq_cert.specs.Located.{AreRightParts};

use crate::locate::{count_divisions, division_at, locate};
use lq_linear::{
    Cert, Combo, Exact, Facts, Item, LooseRow, MOST_PARTS, Row, is_consequence, is_contradiction,
    is_row_fact,
};

/// How large a multiplier or divisor of a certificate may be.
pub const MOST_MULTIPLIER: u32 = 1_048_576;

/// Whether a certificate is right: whether it shows that the facts give the goal
/// (docs/PROOF-FILE.md, "Combinations" and "Exact lines").
pub fn check_cert(facts: &Facts, goal: &Row, cert: &Cert) -> bool
    ensures { IsTrue result ↔ IsRightCertificate facts.now.items goal.now cert.now }
{
    let items = facts.items.as_slice();
    let exacts = cert.exacts.as_slice();
    are_right_entries(items, exacts) && is_right(items, exacts, &cert.goal, &LooseRow::of(goal))
}

// Whether the entries ascend by their item, and each is right.
fn are_right_entries(items: &[Item], exacts: &[Exact]) -> bool
    ensures { IsTrue result ↔ (EntriesAscend exacts.now
        × AllByRecursion (IsRightEntry exacts.now items.now) exacts.now) }
{
    let mut least = 0u64;
    for exact in exacts {
        if item_of(exact) < least || !is_right_entry(items, exacts, exact) {
            return false;
        }
        least = item_of(exact) + 1;
    }
    true
}

// The number of the entry's item.
fn item_of(exact: &Exact) -> u64
    ensures item { result ≡ exact.now.item }
    ensures within { result < 2 ^ 32 }
{
    u64::from(exact.item)
}

// Whether an entry is right.
fn is_right_entry(items: &[Item], exacts: &[Exact], exact: &Exact) -> bool
    ensures { IsTrue result ↔ IsRightEntry exacts.now items.now exact.now }
{
    match division_at(items, exact.item) {
        None => false,
        Some(index) => is_right(
            &items[..index],
            exacts,
            &exact.combo,
            &items[index].dividend_row(),
        ),
    }
}

// Whether a combination is right.
fn is_right(items: &[Item], exacts: &[Exact], combo: &Combo, goal: &LooseRow) -> bool
    ensures { IsTrue result ↔ IsRight exacts.now items.now goal.now combo.now }
{
    let parts = combo.parts.as_slice();
    let divisor = combo.divisor;
    parts.len() <= MOST_PARTS
        && is_allowed(divisor)
        && are_right_parts(items, exacts, parts)
        && proves(items, parts, divisor, combo.void, goal)
}

// Whether the numbers of the parts ascend, their multipliers are allowed, and their rows may
// be used.
fn are_right_parts(items: &[Item], exacts: &[Exact], parts: &[(u32, u32)]) -> bool
    ensures { IsTrue result ↔ AreRightParts exacts.now items.now parts.now }
{
    let mut least = 0u64;
    for (multiplier, number) in parts {
        if u64::from(*number) < least
            || !is_allowed(*multiplier)
            || !may_use(items, exacts, *number)
        {
            return false;
        }
        least = u64::from(*number) + 1;
    }
    true
}

// Whether a number may be a multiplier or divisor.
fn is_allowed(number: u32) -> bool
    ensures { IsTrue result ↔ IsAllowed number }
{
    1 <= number && number <= MOST_MULTIPLIER
}

// Whether the multiples of the rows give the goal.
fn proves(items: &[Item], parts: &[(u32, u32)], divisor: u32, void: bool, goal: &LooseRow) -> bool
    requires few { length parts.now ≤ 256 }
    requires positive { 1 ≤ divisor }
    ensures { IsTrue result ↔ Proves (rows (reverse items.now)) goal.now
        (record { void = void; divisor = divisor; parts = parts.now }) }
{
    if void {
        divisor == 1 && is_contradiction(items, parts)
    } else {
        is_consequence(items, parts, divisor, goal)
    }
}

// Whether the row with this number may be used.
fn may_use(items: &[Item], exacts: &[Exact], number: u32) -> bool
    ensures { IsTrue result ↔ MayUse exacts.now items.now number }
{
    match locate(items, number) {
        None => false,
        Some((index, place)) => {
            let exact = has_entry(exacts, count_divisions(&items[..index]) + 1);
            is_row_fact(&items[index], place, exact)
        }
    }
}

// Whether there is an entry for the division or remainder with this number.
fn has_entry(exacts: &[Exact], number: usize) -> bool
    ensures { IsTrue result ↔ HasEntry exacts.now number }
{
    for exact in exacts {
        if item_of(exact) == number as u64 {
            return true;
        }
    }
    false
}
