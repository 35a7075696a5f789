//! Numbers of sources and qualifiers.

ghost use Rattle.std.specs.Prelude.{◌≡◌, ◌↔◌, ◌<◌, IsTrue, length, slice_index, pos};
ghost use Rattle.std.specs.Char.{is_ascii_digit};
ghost use Rattle.std.specs.List.{list_all};
ghost use Rattle.std.specs.Option.{SomeIff};
ghost use Rattle.lq_text.specs.Literal.{IsLiteral};
ghost use Rattle.lq_text.specs.Numeral.{place_value};

use crate::numeral::read_number;

/// The number of a source or a qualifier that a text is: digits without a needless zero, of a value
/// of at most 2^63-1 (docs/LANGUAGE.md, "Tokens"). None exactly where the text is anything else.
/// Takes no memory.
pub fn read_literal(text: &[u8]) -> Option<i64>
    ensures { SomeIff result (IsLiteral text.now) (pos (place_value text.now)) }
{
    if has_needless_zero(text) || !are_digits(text) {
        return None;
    }
    read_number(text)
}

// Whether a text begins with a `0` that does not stand alone.
fn has_needless_zero(text: &[u8]) -> bool
    ensures { IsTrue result ↔ ((slice_index text.now 0 ≡ 48) × (1 < length text.now)) }
{
    text.len() > 1 && text[0] == b'0'
}

// Whether a text has no byte but digits.
fn are_digits(text: &[u8]) -> bool
    ensures { result ≡ list_all is_ascii_digit text.now }
{
    text.iter().all(|byte| byte.is_ascii_digit())
}
