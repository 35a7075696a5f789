//! Terms of a line.

ghost use Rattle.std.specs.Prelude.{◌≡◌, ◌≤ℤ◌, ◌∷◌, ◌++◌, pos, IfOk};
ghost use Rattle.lq_quals.specs.Reading.{Tells};
ghost use Rattle.lq_quals.specs.Term.{signed, IsTerm};

use crate::split::before_times;
use lq_text::{Atom, read_atom, read_literal};
use std::alloc::{AllocError, Global};

// A multiple of an atom, or a number where there is no atom.
#[derive(Drop)]
pub(crate) struct Addend {
    pub(crate) coefficient: i64,
    pub(crate) atom: Option<Atom>,
}

// What a term adds, or subtracts where it is negated; None where the text is no term.
pub(crate) fn read_term(
    alloc: Global,
    text: &[u8],
    negated: bool,
) -> Result<Option<Addend>, AllocError>
    ensures { IfOk result (Tells (IsTerm negated text.now)) }
{
    let (number, rest) = before_times(text);
    if let Some((_, atom)) = rest.split_first() {
        return read_multiple(alloc, number, atom, negated);
    }
    if let Some(number) = read_literal(text) {
        return Ok(Some(Addend {
            coefficient: signed(number, negated),
            atom: None,
        }));
    }
    let Some(atom) = read_atom(alloc, text)? else {
        return Ok(None);
    };
    Ok(Some(Addend {
        coefficient: signed(1, negated),
        atom: Some(atom),
    }))
}

// The term of a number and an atom with `*` between them.
fn read_multiple(
    alloc: Global,
    number: &[u8],
    atom: &[u8],
    negated: bool,
) -> Result<Option<Addend>, AllocError>
    ensures { IfOk result (Tells (IsTerm negated (number.now ++ 42 ∷ atom.now))) }
{
    let Some(number) = read_literal(number) else {
        return Ok(None);
    };
    let Some(atom) = read_atom(alloc, atom)? else {
        return Ok(None);
    };
    Ok(Some(Addend {
        coefficient: signed(number, negated),
        atom: Some(atom),
    }))
}

// The number, or what is opposite to it.
fn signed(number: i64, negated: bool) -> i64
    requires { pos 0 ≤ℤ number }
    ensures { result ≡ signed negated number }
{
    if negated { -number } else { number }
}
