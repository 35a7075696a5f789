//! Sides of a comparison.

ghost use Rattle.std.specs.Prelude.{IfOk};
ghost use Rattle.lq_quals.specs.Reading.{Tells};
ghost use Rattle.lq_quals.specs.Side.{IsSide};

use crate::split::before_sign;
use crate::term::{Addend, read_term};
use sqlite_items::Items;
use std::alloc::{AllocError, Global};

// What a side adds, or subtracts where it is negated; None where the text is no side.
pub(crate) fn read_side(
    alloc: Global,
    text: &[u8],
    negated: bool,
) -> Result<Option<Items<Addend>>, AllocError>
    ensures { IfOk result (Tells (IsSide negated text.now)) }
{
    let mut addends = Items::new(alloc);
    let (mut minus, mut rest) = match text.strip_prefix(b"-") {
        Some(rest) => (true, rest),
        None => (false, text),
    };
    loop {
        let (term, behind) = before_sign(rest);
        let Some(addend) = read_term(alloc, term, minus != negated)? else {
            return Ok(None);
        };
        addends.push(addend)?;
        let Some((sign, later)) = behind.split_first() else {
            return Ok(Some(addends));
        };
        minus = *sign == b'-';
        rest = later;
    }
}
