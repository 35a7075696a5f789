//! The slots of a function.

ghost use Rattle.std.specs.Prelude.{◌≡◌, ◌++◌, ◌-◌, pos, length, replicate, IfOk};
ghost use Rattle.lq_meaning.specs.PlainMeaning as spec;

use lq_tree::Items;
use std::alloc::AllocError;

// Puts a word into the slot for it, if there is one.
pub(super) fn put(slots: &mut Items<i64>, to: Option<u32>, word: i64)
    ensures { slots.new ≡ spec.into to slots.old word }
{
    if let Some(to) = to
        && (to as usize) < slots.len()
    {
        slots.set(to as usize, word);
    }
}

// These words, and behind them zeros, so that there are so many words if there are not more.
pub(super) fn filled(words: Items<i64>, count: usize) -> Result<Items<i64>, AllocError>
    ensures { IfOk result (λ slots. slots ≡ words ++ replicate (count - length words) (pos 0)) }
{
    let more = count.saturating_sub(words.len());
    let mut slots = words;
    for _i in 0..more {
        slots.push(0)?;
    }
    Ok(slots)
}
