ghost use Rattle.std.specs.Prelude.{◌≤◌, ⊤, length, IfOk, MatchResult};
ghost use Rattle.lq_text.specs.Numbers.{IsNumbersFile};
ghost use Rattle.lq_cli.specs.Lines.{most};
ghost use Rattle.lq_cli.specs.Numbers.{least_of, count_of, AreNumbers, NumbersAnswers};
ghost use Rattle.lq_cli.specs.Seen.{shelf_state};
ghost use Rattle.lq_cli.specs.Stop.{OnTold, Reading};
ghost use Rattle.lq_cli.specs.Readers.{TellsNumbers};

use crate::answer::Answer;
use crate::files::fetch;
use crate::stop::Stop;
use lq_shelf::Shelf;
use lq_text::{NumbersFault, read_numbers_from};
use lq_tree::Quantity;
use std::alloc::Global;

/// A kind of file of numbers (docs/COMMANDS.md, "Files of numbers").
#[derive(Clone, Copy, Debug, PartialEq, Eq)]
pub enum NumbersFile {
    Input,
    Picks,
}

impl NumbersFile {
    ghost use Rattle.std.specs.Prelude.{◌≡◌};
    ghost use Rattle.lq_cli.specs.Numbers as spec;

    /// What one of its numbers is called.
    pub fn word(self) -> &'static str
        ensures { result.now ≡ spec.word_of self }
    {
        match self {
            NumbersFile::Input => "input",
            NumbersFile::Picks => "pick",
        }
    }

    /// The least number that may stand in it.
    fn least(self) -> i64
        ensures { result ≡ spec.least_of self }
    {
        match self {
            NumbersFile::Input => i64::MIN,
            NumbersFile::Picks => 0,
        }
    }

    /// Its size.
    fn size(self) -> Quantity
        ensures { result ≡ spec.size_of self }
    {
        match self {
            NumbersFile::Input => Quantity::InputBytes,
            NumbersFile::Picks => Quantity::PickBytes,
        }
    }

    /// How many numbers stand in it.
    fn count(self) -> Quantity
        ensures { result ≡ spec.count_of self }
    {
        match self {
            NumbersFile::Input => Quantity::InputNumbers,
            NumbersFile::Picks => Quantity::PickNumbers,
        }
    }
}

// The numbers that the lines of a text say.
fn read_lines<'a>(alloc: Global, kind: NumbersFile, text: &[u8]) -> Result<Vec<i64>, Stop<'a>>
    ensures numbers { IfOk result (λ numbers. IsNumbersFile (least_of kind) text.now numbers.items) }
    ensures told { MatchResult result (λ _. ⊤) (λ stop. OnTold stop (TellsNumbers kind text.now)) }
{
    match read_numbers_from(alloc, text, kind.least()) {
        Ok(numbers) => Ok(numbers),
        Err(NumbersFault::BadLine { line }) => Err(Stop::Told(Answer::BadLine(kind, line))),
        Err(NumbersFault::NoMemory) => Err(Stop::NoMemory),
    }
}

// Tests how many numbers a text says.
fn test_count<'a>(kind: NumbersFile, text: &[u8], numbers: &[i64]) -> Result<(), Stop<'a>>
    requires { IsNumbersFile (least_of kind) text.now numbers.now }
    ensures within { IfOk result (λ _. length numbers.now ≤ most (count_of kind)) }
    ensures told { MatchResult result (λ _. ⊤) (λ stop. OnTold stop (TellsNumbers kind text.now)) }
{
    Ok(kind.count().check(numbers.len() as u64)?)
}

// The numbers of a text.
fn read_text<'a>(alloc: Global, kind: NumbersFile, text: &[u8]) -> Result<Vec<i64>, Stop<'a>>
    ensures numbers { IfOk result (λ numbers. IsNumbersFile (least_of kind) text.now numbers.items) }
    ensures within { IfOk result (λ numbers. length numbers.items ≤ most (count_of kind)) }
    ensures told { MatchResult result (λ _. ⊤) (λ stop. OnTold stop (TellsNumbers kind text.now)) }
{
    let numbers = read_lines(alloc, kind, text)?;
    test_count(kind, text, &numbers)?;
    Ok(numbers)
}

/// The numbers of the file of this name.
pub fn fetch_numbers<'a, H: Shelf>(
    alloc: Global,
    shelf: &mut H,
    kind: NumbersFile,
    name: &'a str,
) -> Result<Vec<i64>, Stop<'a>>
    ensures { Reading (λ numbers. AreNumbers (H.holding shelf.old) kind name.now numbers.items) (NumbersAnswers kind name.now)
        (shelf_state H.holding H.faults H.failed_name shelf.old) (shelf_state H.holding H.faults H.failed_name shelf.new) result }
{
    let text = fetch(shelf, name, kind.size())?;
    read_text(alloc, kind, &text)
}
