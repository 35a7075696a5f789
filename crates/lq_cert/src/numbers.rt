//! Numbers in lines of proof files.

ghost use Rattle.std.specs.Prelude.{◌≡◌, ◌↔◌, ◌^◌, ◌<◌, ℤ, IsTrue, pos};
ghost use Rattle.lq_text.specs.Numeral.{decimal_of, IsShort};
ghost use Rattle.lq_linear.specs.Terms.{IsCoefficient, IsWithin};
ghost use Rattle.lq_cert.specs.Numeral.{numeral};
ghost use Rattle.lq_text.specs.Reads.{Reads};
ghost use Rattle.lq_cert.specs.Right.{IsAllowed};

use crate::check::MOST_MULTIPLIER;
use crate::numeral::is_natural;
use lq_linear::{MOST_COEFFICIENT, MOST_CONSTANT};
use lq_text::read_number;

// The multiplier or divisor that a text is (docs/PROOF-FILE.md, "Combinations").
pub(crate) fn read_multiplier(text: &[u8]) -> Option<u32>
    ensures { Reads IsAllowed numeral text.now result }
{
    if !is_natural(text) {
        return None;
    }
    let number = u32::try_from(read_number(text)?).ok()?;
    if number <= MOST_MULTIPLIER {
        Some(number)
    } else {
        None
    }
}

// The coefficient that a text is (docs/PROOF-FILE.md, "Rows").
pub(crate) fn read_coefficient(text: &[u8]) -> Option<i64>
    ensures { Reads IsCoefficient decimal_of text.now result }
{
    let number = read_within(text, MOST_COEFFICIENT)?;
    if number == 0 { None } else { Some(number) }
}

// The constant of a row that a text is (docs/PROOF-FILE.md, "Rows").
pub(crate) fn read_constant(text: &[u8]) -> Option<i64>
    ensures { Reads (IsWithin (2 ^ 40)) decimal_of text.now result }
{
    read_within(text, MOST_CONSTANT)
}

// The number that a text is, where it is at most `most`, its sign put aside.
fn read_within(text: &[u8], most: u64) -> Option<i64>
    requires { most < 2 ^ 63 }
    ensures { Reads (IsWithin most) decimal_of text.now result }
{
    if !is_short(text) {
        return None;
    }
    let number = read_number(text)?;
    if number.unsigned_abs() <= most {
        Some(number)
    } else {
        None
    }
}

// Whether a number has no needless zeros, and no sign at 0.
fn is_short(text: &[u8]) -> bool
    ensures { IsTrue result ↔ IsShort text.now }
{
    match text {
        [b'0', _, ..] | [b'-', b'0', ..] => false,
        _ => true,
    }
}
