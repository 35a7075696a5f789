//! Bytes cut at a byte.

ghost use Rattle.std.specs.Prelude.{◌≡◌, ◌==◌, MatchOption, IfOk, map};
ghost use Rattle.std.specs.List.{position, slice_split};
ghost use Rattle.lq_cert.specs.Split.{Avoids, IsSplitAt};

use std::alloc::{AllocError, Global};

// The place of the first such byte.
fn place_of(bytes: &[u8], byte: u8) -> Option<usize>
    ensures { result ≡ position (λ each. each == byte) bytes.now }
{
    bytes.iter().position(|each| *each == byte)
}

// What stands before the first such byte and behind it, or `None` where there is none.
pub(crate) fn split_once(bytes: &[u8], byte: u8) -> Option<(&[u8], &[u8])>
    ensures { MatchOption result (Avoids byte bytes.now)
        (λ parts. IsSplitAt byte bytes.now parts.0.now parts.1.now) }
{
    let at = place_of(bytes, byte)?;
    Some((&bytes[..at], &bytes[at + 1..]))
}

// What stands between spaces.
pub(crate) fn words_of(alloc: Global, line: &[u8]) -> Result<Vec<&[u8]>, AllocError>
    ensures { IfOk result (λ words. map (λ word. word.now) words.items ≡ slice_split (λ byte. byte == 32) line.now) }
{
    line.split(|byte| *byte == b' ').collect(alloc)
}
