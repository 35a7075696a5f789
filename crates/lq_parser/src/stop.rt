ghost use Rattle.std.specs.Prelude.{◌≡◌};
ghost use Rattle.lq_parser.specs.declared.stop.Stop.TheVariants.{NoMemory};

use crate::lexeme::Lexeme;
use std::alloc::{AllocError, AllocFailed};

/// Why a rule of the grammar read nothing: the lexemes from the first on that no continuation mends, or want of memory.
#[derive(Clone, Copy)]
pub enum Stop<'a> {
    Syntax(&'a [Lexeme]),
    NoMemory,
}

impl From<AllocError> for Stop<'_> {
    ghost from_gives = { λ _ stop. stop ≡ NoMemory };

    fn from(_error: AllocError) -> Self {
        Stop::NoMemory
    }
}

impl<T: Drop> From<AllocFailed<T>> for Stop<'_> {
    ghost from_gives = { λ _ stop. stop ≡ NoMemory };

    fn from(_failed: AllocFailed<T>) -> Self {
        Stop::NoMemory
    }
}
