//! The order of the atoms of a row.

ghost use Rattle.std.specs.Prelude.{◌≡◌, ◌↔◌, ◌⊎◌, IsTrue, map};
ghost use Rattle.std.specs.List.{AllByRecursion};
ghost use Rattle.std.specs.Option.{option_copied};
ghost use Rattle.lq_text.specs.Order.{rank, subject_of, ArePair, MayPrecede, MayStandBefore, AreInOrder};

use crate::atom::{Atom, Subject};

/// A multiple of an atom.
#[derive(Debug, Drop)]
pub struct Term {
    pub coefficient: i64,
    pub atom: Atom,
}

/// Whether the atoms of a row stand in their order: `@`, then fields, then locals, a pointer's `off`
/// directly before its `len`, then `result`, and each once (docs/PROOF-FILE.md, "Rows").
pub fn are_in_order(terms: &[Term]) -> bool
    ensures { IsTrue result ↔ AreInOrder (map (λ term. term.atom) terms.now) }
{
    let mut rest = terms;
    while let Some((first, later)) = rest.split_first() {
        if !may_stand_before(&first.atom, later) {
            return false;
        }
        rest = later;
    }
    true
}

// Whether an atom may stand before those of the terms.
fn may_stand_before(atom: &Atom, terms: &[Term]) -> bool
    ensures { IsTrue result ↔ MayStandBefore atom.now (map (λ term. term.atom) terms.now) }
{
    match terms.split_first() {
        None => true,
        Some((next, later)) => may_come_next(atom, &next.atom) && may_precede_all(atom, later),
    }
}

// Whether an atom may stand directly before another.
fn may_come_next(atom: &Atom, next: &Atom) -> bool
    ensures { IsTrue result ↔ (MayPrecede atom.now next.now ⊎ ArePair atom.now next.now) }
{
    may_precede(atom, next) || are_pair(atom, next)
}

// Whether an atom may stand before each of those of the terms.
fn may_precede_all(atom: &Atom, terms: &[Term]) -> bool
    ensures { IsTrue result ↔ AllByRecursion (λ term. MayPrecede atom.now term.atom) terms.now }
{
    terms.iter().all(|term| may_precede(atom, &term.atom))
}

// Whether an atom may stand before another.
fn may_precede(atom: &Atom, other: &Atom) -> bool
    ensures { IsTrue result ↔ MayPrecede atom.now other.now }
{
    rank(atom) <= rank(other) && !have_same_subject(atom, other)
}

// Whether two atoms are `off(w)` and `len(w)`.
fn are_pair(atom: &Atom, next: &Atom) -> bool
    ensures { IsTrue result ↔ ArePair atom.now next.now }
{
    match (atom, next) {
        (Atom::Offset(subject), Atom::Length(other)) => is_same(subject, other),
        _ => false,
    }
}

// Whether two atoms speak of the same.
fn have_same_subject(atom: &Atom, other: &Atom) -> bool
    ensures { IsTrue result ↔ (subject_of atom.now ≡ subject_of other.now) }
{
    match (subject(atom), subject(other)) {
        (None, None) => true,
        (Some(subject), Some(other)) => is_same(subject, other),
        _ => false,
    }
}

// Whether two subjects are the same.
fn is_same(subject: &Subject, other: &Subject) -> bool
    ensures { IsTrue result ↔ (subject.now ≡ other.now) }
{
    match (subject, other) {
        (Subject::Field(name), Subject::Field(other)) => name.as_slice() == other.as_slice(),
        (Subject::Local(name), Subject::Local(other)) => name.as_slice() == other.as_slice(),
        (Subject::Placeholder(name), Subject::Placeholder(other)) => {
            name.as_slice() == other.as_slice()
        }
        (Subject::Returned, Subject::Returned) => true,
        _ => false,
    }
}

// What an atom speaks of.
fn subject(atom: &Atom) -> Option<&Subject>
    ensures { option_copied result ≡ subject_of atom.now }
{
    match atom {
        Atom::Element => None,
        Atom::Value(subject) | Atom::Offset(subject) | Atom::Length(subject) => Some(subject),
    }
}

// The place of an atom's kind among the kinds.
fn rank(atom: &Atom) -> u8
    ensures { result ≡ rank atom.now }
{
    match subject(atom) {
        None => 0,
        Some(Subject::Field(_)) => 1,
        Some(Subject::Local(_) | Subject::Placeholder(_)) => 2,
        Some(Subject::Returned) => 3,
    }
}
