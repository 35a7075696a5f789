//! Files of numbers.

ghost use Rattle.std.specs.Prelude.{◌≡◌, ℕ, ◌⊎◌, List, ℤ, IfOk, IsErrOf, IsOkUnless};
ghost use Rattle.lq_text.specs.Numbers.{IsNumbersFile, IsFirstBadLine};

use crate::line::{BadLine, read_line};
use std::alloc::{AllocFailed, Global};
use thiserror::Error;

/// Why a file of numbers was not read.
#[derive(Debug, Drop, Error)]
pub enum NumbersFault {
    /// The first line, counted from 1, that is neither blank nor a number that is allowed.
    #[error("bad line {line}")]
    BadLine { line: u64 },
    /// Memory ran out.
    #[error("out of memory")]
    NoMemory,
}

impl<T: Drop> From<AllocFailed<T>> for NumbersFault {
    ghost use Rattle.lq_text.specs.declared.numbers.NumbersFault.TheVariants.{NoMemory};

    ghost from_gives = { λ _ fault. fault ≡ NoMemory };

    fn from(_failed: AllocFailed<T>) -> NumbersFault {
        NumbersFault::NoMemory
    }
}

/// The numbers of a file with one number on a line, or its first bad line. At each end of a line
/// spaces, tabs and one carriage return are dropped, blank lines are skipped, and the last line
/// feed may be missing (docs/COMMANDS.md, "Files of numbers").
pub fn read_numbers(alloc: Global, text: &[u8]) -> Result<Vec<i64>, NumbersFault>
    ensures numbers { IfOk result (λ read. IsNumbersFile i64.MIN text.now read.items) }
    ensures bad_line { (line : ℕ) → IsErrOf result (NumbersFault.BadLine line)
        → IsFirstBadLine i64.MIN text.now line }
    ensures reads { (numbers : List ℤ) → IsNumbersFile i64.MIN text.now numbers
        → IsOkUnless result NumbersFault.NoMemory }
    ensures refuses { (line : ℕ) → IsFirstBadLine i64.MIN text.now line
        → IsErrOf result (NumbersFault.BadLine line) ⊎ IsErrOf result NumbersFault.NoMemory }
{
    read_numbers_from(alloc, text, i64::MIN)
}

/// The same, where a line with a number below `least` is bad too: with 0 it reads picks.
pub fn read_numbers_from(alloc: Global, text: &[u8], least: i64) -> Result<Vec<i64>, NumbersFault>
    ensures numbers { IfOk result (λ read. IsNumbersFile least text.now read.items) }
    ensures bad_line { (line : ℕ) → IsErrOf result (NumbersFault.BadLine line)
        → IsFirstBadLine least text.now line }
    ensures reads { (numbers : List ℤ) → IsNumbersFile least text.now numbers
        → IsOkUnless result NumbersFault.NoMemory }
    ensures refuses { (line : ℕ) → IsFirstBadLine least text.now line
        → IsErrOf result (NumbersFault.BadLine line) ⊎ IsErrOf result NumbersFault.NoMemory }
{
    let mut numbers = Vec::new(alloc);
    let mut line = 0;
    for bytes in text.split(|byte| *byte == b'\n') {
        line += 1;
        match read_line(bytes, least) {
            Ok(None) => {}
            Ok(Some(number)) => numbers.push(number)?,
            Err(BadLine) => return Err(NumbersFault::BadLine { line }),
        }
    }
    Ok(numbers)
}
