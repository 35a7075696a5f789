ghost use Rattle.std.specs.Prelude.{◌≡◌};
ghost use Rattle.lq_shelf.specs.Faults.{Rose};
ghost use Rattle.lq_shelf.specs.Sink.{Appends, AppendsPrefix};
ghost use Rattle.lq_cli.specs.Answer.{lost_of};

use crate::numbers::NumbersFile;
use lq_shelf::{Put, Sink};
use lq_tree::{Limit, Place, Quantity, TrapKind};
use std::alloc::Global;
use std::fmt;

/// The status where the sink failed.
pub const SINK_FAULT: u8 = 10;
/// The status where memory ran out.
pub const NO_MEMORY: u8 = 11;

/// An answer that a line tells (docs/COMMANDS.md, "Statuses").
#[derive(Clone, Copy, Debug, PartialEq, Eq)]
pub enum Answer<'a> {
    BadWords,
    /// A file can't be read.
    ReadFault(&'a str),
    /// More of a quantity was found than is allowed.
    Limit(Limit),
    /// Where the source has no tokens.
    Lexical(Place),
    /// The first word of an annotation.
    Annotation(Place),
    /// Where no tree can be spelled any more.
    Syntax(Place),
    /// The name rule that is broken first, and where.
    Names(u8, Place),
    /// The number, from 1, of the first bad line of a file of numbers.
    BadLine(NumbersFile, u64),
    /// The run trapped.
    Trap(TrapKind, Place),
    /// The run left a block.
    Stray(Place),
    /// The numbers, from 1, of the entries of the least race, and their places.
    Race(u64, u64, Place, Place),
    /// The run is out of fuel.
    Fuel,
}

impl fmt::Display for Answer<'_> {
    ghost use Rattle.std.specs.Prelude.{Some};
    ghost use Rattle.lq_cli.specs.Answer.{line_of};

    ghost output = { λ answer. Some (line_of answer) };

    fn fmt<W: fmt::Write>(&self, f: &mut fmt::Formatter<W>) -> fmt::Result {
        match self {
            Answer::BadWords => writeln!(f, "bad words"),
            Answer::ReadFault(name) => writeln!(f, "read fault {name}"),
            Answer::Limit(limit) => {
                write!(f, "limit ")?;
                if let Some(quantity) = Quantity::numbered(limit.which) {
                    write!(f, "{quantity}")?;
                }
                writeln!(f, " {} {}", limit.found, limit.allowed)
            }
            Answer::Lexical(at) => writeln!(f, "lexical fault at {at}"),
            Answer::Annotation(at) => writeln!(f, "annotation at {at}"),
            Answer::Syntax(at) => writeln!(f, "syntax fault near {at}"),
            Answer::Names(rule, at) => writeln!(f, "names N{rule} at {at}"),
            Answer::BadLine(kind, line) => writeln!(f, "bad {} line {line}", kind.word()),
            Answer::Trap(kind, at) => writeln!(f, "trap {kind} at {at}"),
            Answer::Stray(at) => writeln!(f, "stray at {at}"),
            Answer::Race(i, j, first, second) => {
                writeln!(f, "race {i} {j} at {first} and {second}")
            }
            Answer::Fuel => writeln!(f, "out of fuel"),
        }
    }
}

impl Answer<'_> {
    ghost use Rattle.std.specs.Prelude.{◌≡◌, OnOk, IsErrOf};
    ghost use Rattle.lq_cli.specs.Answer.{status_of, line_of, LineAnswers};
    ghost use Rattle.lq_cli.specs.Answered.{Told};
    ghost use Rattle.lq_cli.specs.Seen.{sink_state};

    /// The status that goes with the line.
    fn status(&self) -> u8
        ensures { result ≡ status_of self.now }
    {
        match self {
            Answer::BadWords => 12,
            Answer::ReadFault(_) => 9,
            Answer::Limit(_) => 7,
            Answer::Lexical(_) | Answer::Syntax(_) => 3,
            Answer::Annotation(_) | Answer::Names(..) => 4,
            Answer::BadLine(..) => 6,
            Answer::Trap(..) => 1,
            Answer::Stray(_) => 13,
            Answer::Race(..) => 14,
            Answer::Fuel => 8,
        }
    }

    // Writes the line as one piece.
    fn put<K: Sink>(&self, alloc: Global, out: &mut K) -> Result<(), Put>
        ensures ok { OnOk result (Appends (K.written out.old) (K.written out.new) (line_of self.now)) }
        ensures prefix { AppendsPrefix (K.written out.old) (K.written out.new) (line_of self.now) }
        ensures failed { IsErrOf result Put.Failed → Rose (K.faults out.old) (K.faults out.new) }
        ensures other { (IsErrOf result Put.Failed → ⊥) → K.faults out.new ≡ K.faults out.old }
    {
        let line = self.to_string(alloc)?;
        out.put(line.as_bytes())
    }

    /// Writes the line, and gives the status: that of the answer where all was written.
    pub fn tell<K: Sink>(&self, alloc: Global, out: &mut K) -> u8
        ensures { Told (LineAnswers self.now) (sink_state K.written K.faults out.old) (sink_state K.written K.faults out.new) result }
    {
        match self.put(alloc, out) {
            Ok(()) => self.status(),
            Err(put) => lost(put),
        }
    }
}

/// The status where the sink or memory ended a command.
pub fn lost(put: Put) -> u8
    ensures { result ≡ lost_of put }
{
    match put {
        Put::Failed => SINK_FAULT,
        Put::NoMemory => NO_MEMORY,
    }
}
