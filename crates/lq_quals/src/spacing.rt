//! The blanks of a line, and its end.

ghost use Rattle.std.specs.Prelude.{◌≡◌, ◌↔◌, IsTrue, IfOk};
ghost use Rattle.lq_quals.specs.Spacing.{without_return, without_blanks, is_blank, are_joined, IsTorn, is_skipped};

use crate::split::is_relation_byte;
use lq_text::is_name_byte;
use std::alloc::{AllocError, Global};

// The line without a carriage return at its end.
pub(crate) fn without_return(line: &[u8]) -> &[u8]
    ensures { result.now ≡ without_return line.now }
{
    if !line.is_empty() && line[line.len() - 1] == b'\r' {
        &line[..line.len() - 1]
    } else {
        line
    }
}

// The bytes of a line that are no blanks.
pub(crate) fn without_blanks(alloc: Global, line: &[u8]) -> Result<Vec<u8>, AllocError>
    ensures { IfOk result (λ text. text.items ≡ without_blanks line.now) }
{
    line.iter()
        .copied()
        .filter(|byte| !is_blank(*byte))
        .collect(alloc)
}

// Whether blanks part two bytes of one token.
pub(crate) fn is_torn(line: &[u8]) -> bool
    ensures { IsTrue result ↔ IsTorn line.now }
{
    let mut last = 0;
    let mut parted = false;
    let mut rest = line;
    while let Some((byte, later)) = rest.split_first() {
        rest = later;
        if is_blank(*byte) {
            parted = true;
            continue;
        }
        if parted && are_joined(last, *byte) {
            return true;
        }
        last = *byte;
        parted = false;
    }
    false
}

// Whether a line with these bytes, its blanks put aside, says nothing.
pub(crate) fn is_skipped(text: &[u8]) -> bool
    ensures { result ≡ is_skipped text.now }
{
    match text.split_first() {
        None => true,
        Some((first, _)) => *first == b'#',
    }
}

// Whether a byte is a space or a tab.
fn is_blank(byte: u8) -> bool
    ensures { result ≡ is_blank byte }
{
    byte == b' ' || byte == b'\t'
}

// Whether two bytes side by side are of one token.
fn are_joined(byte: u8, next: u8) -> bool
    ensures { result ≡ are_joined byte next }
{
    is_name_byte(byte) && is_name_byte(next) || is_relation_byte(byte) && next == b'='
}
