//! One line of a file of numbers.

ghost use Rattle.std.specs.Prelude.{◌≡◌, ◌↔◌, ◌≤ℤ◌, false, IsTrue, IfSome, IfOk, OnErr};
ghost use Rattle.lq_text.specs.Line.{IsBlank, IsGoodLine, Says, LeavesFront, LeavesBack};

use crate::numeral::read_number;

/// A line is neither blank nor a number that is allowed.
#[derive(Drop)]
pub struct BadLine;

/// The number that a line says, which is not below `least`, or None where the line is blank.
pub fn read_line(line: &[u8], least: i64) -> Result<Option<i64>, BadLine>
    ensures says { IfOk result (λ said. Says line.now said) }
    ensures allowed { IfOk result (λ said. IfSome said (λ number. least ≤ℤ number)) }
    ensures bad { OnErr result (¬ IsGoodLine least line.now) }
{
    let text = without_back(without_front(line));
    if text.is_empty() {
        return Ok(None);
    }
    let Some(number) = read_number(text) else {
        return Err(BadLine);
    };
    if number < least {
        return Err(BadLine);
    }
    Ok(Some(number))
}

// Whether a margin goes on over a byte; `has_return` says that its one carriage return was there.
fn goes_on(byte: u8, has_return: bool) -> bool
    ensures { IsTrue result ↔ (IsBlank byte × (byte ≡ 13 → has_return ≡ false)) }
{
    match byte {
        b' ' | b'\t' => true,
        b'\r' => !has_return,
        _ => false,
    }
}

// The line without the margin at its front.
fn without_front(line: &[u8]) -> &[u8]
    ensures { LeavesFront line.now result.now }
{
    let mut rest = line;
    let mut has_return = false;
    while let Some((first, after)) = rest.split_first() {
        if !goes_on(*first, has_return) {
            return rest;
        }
        has_return = has_return || *first == b'\r';
        rest = after;
    }
    rest
}

// The line without the margin at its back.
fn without_back(line: &[u8]) -> &[u8]
    ensures { LeavesBack line.now result.now }
{
    let mut rest = line;
    let mut has_return = false;
    while let Some((last, before)) = rest.split_last() {
        if !goes_on(*last, has_return) {
            return rest;
        }
        has_return = has_return || *last == b'\r';
        rest = before;
    }
    rest
}
