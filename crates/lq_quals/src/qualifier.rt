//! The rows of a line.

ghost use Rattle.std.specs.Prelude.{◌≡◌, ◌↔◌, ◌^◌, IsTrue, IfOk, MatchOption, slice_get};
ghost use Rattle.lq_linear.specs.Terms.{AreTerms, IsWithin};
ghost use Rattle.lq_quals.specs.Term.{signed};
ghost use Rattle.lq_quals.specs.Collect.{terms_of};
ghost use Rattle.lq_quals.specs.Qualifier.{most_of, row_of, qualifier_of, subject_kind, kind_of, is_same_kind, is_kind_at, has_kind, AreTogether, IsGoodRow, IsGood};

use crate::collect::{coefficient_of, constant_of, plus};
use crate::comparison::{Comparison, Relation};
use crate::term::Addend;
use lq_linear::{Form, MOST_CONSTANT, Row};
use lq_text::{Atom, Subject};
use std::alloc::{AllocError, Global};

/// What a line of a qualifier file says, as one or two rows in which symbol k is atom k of the file
/// (docs/CHECKING.md, "Qualifier text").
#[derive(Debug, Drop)]
pub enum Qualifier {
    /// A sum is at most a number.
    AtMost(Row),
    /// A sum is a number: it is at most that, and what is opposite to it at most the opposite.
    Equal(Row, Row),
}

// What an atom speaks of.
#[derive(Clone, Copy)]
enum Kind {
    Element,
    Field,
    // A local, or what stands for one.
    Local,
    Returned,
}

// The qualifier of a comparison whose atoms are among these, or None where a row isn't good.
pub(crate) fn qualifier_of(
    alloc: Global,
    comparison: &Comparison,
    atoms: &[Atom],
) -> Result<Option<Qualifier>, AllocError>
    ensures { IfOk result (λ r. MatchOption r (¬ IsGood comparison.now atoms.now)
        (λ q. IsGood comparison.now atoms.now × (q ≡ qualifier_of comparison.now atoms.now))) }
{
    let Some(row) = row_of(alloc, comparison, atoms, false)? else {
        return Ok(None);
    };
    match comparison.relation {
        Relation::Equal => {
            let opposite = row_of(alloc, comparison, atoms, true)?;
            Ok(opposite.map(|opposite| Qualifier::Equal(row, opposite)))
        }
        _ => Ok(Some(Qualifier::AtMost(row))),
    }
}

// The row of a comparison, or what is opposite to it, or None where it isn't good.
fn row_of(
    alloc: Global,
    comparison: &Comparison,
    atoms: &[Atom],
    negated: bool,
) -> Result<Option<Row>, AllocError>
    ensures { IfOk result (λ r. MatchOption r (¬ IsGoodRow atoms.now (row_of negated comparison.now atoms.now))
        (λ row. IsGoodRow atoms.now row × (row ≡ row_of negated comparison.now atoms.now))) }
{
    let Some(most) = most_of(comparison, negated)? else {
        return Ok(None);
    };
    let Some(terms) = terms_of(alloc, comparison.addends.as_slice(), atoms, negated)? else {
        return Ok(None);
    };
    if terms.is_empty() || !may_be_together(&terms, atoms) {
        return Ok(None);
    }
    let Some(form) = Form::of(terms, 0) else {
        return Ok(None);
    };
    Ok(Row::of(form, most))
}

// What the multiples are at most, or what is opposite to it; None where it passes the bounds of a row.
fn most_of(comparison: &Comparison, negated: bool) -> Result<Option<i64>, AllocError>
    ensures { IfOk result (λ r. MatchOption r (¬ IsWithin (2 ^ 40) (signed negated (most_of comparison.now)))
        (λ most. most ≡ signed negated (most_of comparison.now))) }
{
    let constant = constant_of(comparison.addends.as_slice())?;
    let sum = if comparison.relation.is_strict() {
        plus(constant, 1)?
    } else {
        constant
    };
    Ok(small(sum, !negated))
}

// Each of the atoms that stays, with the sum of its multiples or what is opposite to it; None where
// that passes the bounds of a form.
fn terms_of(
    alloc: Global,
    addends: &[Addend],
    atoms: &[Atom],
    negated: bool,
) -> Result<Option<Vec<(u32, i64)>>, AllocError>
    ensures { IfOk result (λ r. MatchOption r (¬ AreTerms (terms_of negated addends.now 0 atoms.now))
        (λ terms. terms.items ≡ terms_of negated addends.now 0 atoms.now)) }
{
    let mut terms = Vec::new(alloc);
    for (number, atom) in atoms.iter().enumerate() {
        let sum = coefficient_of(atom, addends)?;
        if sum == 0 {
            continue;
        }
        let Some(coefficient) = small(sum, negated) else {
            return Ok(None);
        };
        terms.push((symbol_of(number)?, coefficient))?;
    }
    Ok(Some(terms))
}

// The symbol of the atom with this number. No memory holds so many atoms that their numbers pass 32
// bits.
fn symbol_of(number: usize) -> Result<u32, AllocError>
    ensures { IfOk result (λ symbol. symbol ≡ number) }
{
    if number > u32::MAX as usize {
        return Err(AllocError);
    }
    Ok(number as u32)
}

// The number, or what is opposite to it, where it is within the bounds of a row.
fn small(number: i128, negated: bool) -> Option<i64>
    ensures { MatchOption result (¬ IsWithin (2 ^ 40) (signed negated number)) (λ z. z ≡ signed negated number) }
{
    if number.unsigned_abs() > u128::from(MOST_CONSTANT) {
        return None;
    }
    let number = number as i64;
    Some(if negated { -number } else { number })
}

// Whether the atoms of a row may stand in one line.
fn may_be_together(terms: &[(u32, i64)], atoms: &[Atom]) -> bool
    ensures { IsTrue result ↔ AreTogether atoms.now terms.now }
{
    let has_element = has_kind(Kind::Element, terms, atoms);
    let has_field = has_kind(Kind::Field, terms, atoms);
    let has_local = has_kind(Kind::Local, terms, atoms);
    let has_returned = has_kind(Kind::Returned, terms, atoms);
    let is_mixed = has_field && (has_element || has_local || has_returned);
    !is_mixed && !(has_element && has_returned)
}

// Whether one of the terms is a multiple of an atom of this kind.
fn has_kind(kind: Kind, terms: &[(u32, i64)], atoms: &[Atom]) -> bool
    ensures { result ≡ has_kind kind atoms.now terms.now }
{
    terms.iter().any(|term| is_kind_at(kind, atoms, term.0))
}

// Whether the atom of a symbol is of this kind.
fn is_kind_at(kind: Kind, atoms: &[Atom], symbol: u32) -> bool
    ensures { result ≡ is_kind_at kind (slice_get atoms.now symbol) }
{
    match atoms.get(symbol as usize) {
        None => false,
        Some(atom) => is_same_kind(kind, kind_of(atom)),
    }
}

// Whether two kinds are the same.
fn is_same_kind(kind: Kind, other: Kind) -> bool
    ensures { result ≡ is_same_kind kind other }
{
    matches!(
        (kind, other),
        (Kind::Element, Kind::Element)
            | (Kind::Field, Kind::Field)
            | (Kind::Local, Kind::Local)
            | (Kind::Returned, Kind::Returned)
    )
}

// The kind of an atom.
fn kind_of(atom: &Atom) -> Kind
    ensures { result ≡ kind_of atom.now }
{
    match atom {
        Atom::Element => Kind::Element,
        Atom::Value(subject) | Atom::Offset(subject) | Atom::Length(subject) => {
            subject_kind(subject)
        }
    }
}

// The kind of the atoms of a subject.
fn subject_kind(subject: &Subject) -> Kind
    ensures { result ≡ subject_kind subject.now }
{
    match subject {
        Subject::Field(_) => Kind::Field,
        Subject::Local(_) | Subject::Placeholder(_) => Kind::Local,
        Subject::Returned => Kind::Returned,
    }
}
