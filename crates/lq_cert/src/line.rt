//! Lines of proof files.

ghost use Rattle.std.specs.Prelude.{◌≡◌};
ghost use Rattle.lq_cert.specs.Line.{fact_count};

use crate::numeral::Numeral;
use lq_text::Term;
use sqlite_items::Items;

/// A multiple of a fact.
#[derive(Debug, Drop)]
pub struct Part {
    pub multiplier: u32,
    /// The number of the fact, from 1.
    pub fact: Numeral,
}

/// A version of proof files (docs/PROOF-FILE.md, "Versions").
#[derive(Clone, Copy, Debug, PartialEq, Eq)]
pub enum FileVersion {
    One,
    Two,
}

/// A line of a proof file (docs/PROOF-FILE.md, "Lines"). Templates, conditions, divisions, goals
/// and facts are numbered from 1.
#[derive(Debug, Drop)]
pub enum Line {
    /// The version of the file.
    Version(FileVersion),
    /// The template keeps the row that the sum of the terms is at most this.
    Row {
        template: Numeral,
        terms: Items<Term>,
        most: i64,
    },
    /// A condition begins.
    Condition(Numeral),
    /// The dividend of a division or remainder of the condition is not negative.
    Exact {
        item: Numeral,
        divisor: u32,
        parts: Items<Part>,
    },
    /// A goal follows as a consequence.
    Goal {
        goal: Numeral,
        divisor: u32,
        parts: Items<Part>,
    },
    /// A goal follows from a contradiction.
    Void {
        goal: Numeral,
        parts: Items<Part>,
    },
    /// The last line.
    End,
}

// How many facts a line combines.
pub(crate) fn fact_count(line: &Line) -> usize
    ensures { result ≡ fact_count line.now }
{
    match line {
        Line::Exact { parts, .. } | Line::Goal { parts, .. } | Line::Void { parts, .. } =>
            parts.len(),
        _ => 0,
    }
}
