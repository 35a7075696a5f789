//! A broken rule and its place.

use lq_tree::Place;
use std::alloc::AllocError;

/// A broken rule, by its number, and where it is broken.
#[derive(Clone, Copy, Debug, PartialEq, Eq)]
pub struct Fault {
    pub rule: u8,
    pub at: Place,
}

/// Why the names of a program are refused.
#[derive(Clone, Copy, Debug, PartialEq, Eq)]
pub enum NamesFault {
    /// A rule, from 1 to 13, is broken at this place (docs/LANGUAGE.md, "Name rules").
    Rule { rule: u8, at: Place },
    /// There was no memory for the check.
    NoMemory,
}

impl From<AllocError> for NamesFault {
    ghost use Rattle.std.specs.Prelude.{◌≡◌};
    ghost use Rattle.lq_names.specs.declared.fault.NamesFault.TheVariants.{NoMemory};

    ghost from_gives = { λ _ fault. fault ≡ NoMemory };

    fn from(_error: AllocError) -> NamesFault {
        NamesFault::NoMemory
    }
}
