use std::fmt;

/// Why a run traps (docs/LANGUAGE.md, "Traps").
#[derive(Clone, Copy, Debug, PartialEq, Eq)]
pub enum TrapKind {
    /// A sum, difference, product, negation, quotient or remainder is no word.
    Overflow,
    /// A divisor is 0.
    Zero,
    /// A pointer leaves the offsets.
    Offset,
    /// A `calloc` asks for less than one element.
    Count,
    /// A `calloc` asks for more words than are left.
    Words,
    /// A call would make more active functions than are allowed.
    Depth,
    /// A `foreach` has too many iterations.
    Range,
}

impl fmt::Display for TrapKind {
    ghost use Rattle.std.specs.Prelude.{Some};
    ghost use Rattle.lq_tree.specs.Trap.{kind_text};

    ghost output = { λ kind. Some (kind_text kind) };

    fn fmt<W: fmt::Write>(&self, f: &mut fmt::Formatter<W>) -> fmt::Result {
        let name = match self {
            TrapKind::Overflow => "overflow",
            TrapKind::Zero => "zero",
            TrapKind::Offset => "offset",
            TrapKind::Count => "count",
            TrapKind::Words => "words",
            TrapKind::Depth => "depth",
            TrapKind::Range => "range",
        };
        f.write_str(name)
    }
}
