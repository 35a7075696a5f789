//! The decimal text of one number.

ghost use Rattle.std.specs.Prelude.{◌≡◌, ◌++◌, ℤ, IfSome, IfNone, OnOk, OnErr};
ghost use Rattle.lq_text.specs.Numeral.{IsNumeral, decimal_of};

use std::alloc::AllocError;
use std::str;

/// The number that a text is: an optional `-` and one or more digits, leading zeros allowed, with a
/// value from -2^63 to 2^63-1, where `-0` is 0 (docs/COMMANDS.md, "Files of numbers"). None exactly
/// where the text is anything else. Takes no memory.
pub fn read_number(text: &[u8]) -> Option<i64>
    ensures some { IfSome result (λ z. IsNumeral text.now z) }
    ensures none { IfNone result ((z : ℤ) → ¬ IsNumeral text.now z) }
{
    // `parse` takes a leading `+`, which no numeral has.
    if text.starts_with(b"+") {
        return None;
    }
    str::from_utf8(text).ok()?.parse().ok()
}

/// Appends the decimal text of a number. Where memory runs out the buffer stays as it was.
pub fn put_number(out: &mut Vec<u8>, value: i64) -> Result<(), AllocError>
    ensures ok { OnOk result (out.new.items ≡ out.old.items ++ decimal_of value) }
    ensures err { OnErr result (out.new.items ≡ out.old.items) }
{
    let text = value.to_string(*out.allocator())?;
    out.extend_from_slice(text.as_bytes())
}
