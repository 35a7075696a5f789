//! Addends collected, and atoms numbered.

ghost use Rattle.std.specs.Prelude.{◌≡◌, ◌+ℤ◌, IfOk, OnOk};
ghost use Rattle.std.specs.List.{list_any};
ghost use Rattle.lq_quals.specs.Collect.{multiple_in, number_in, same_subject, same_atom, coefficient_of, constant_of, numbered, with_atom, stays};

use crate::term::Addend;
use lq_text::{Atom, Subject};
use sqlite_items::Items;
use std::alloc::{AllocError, Global};

// The multiples of an atom added up.
pub(crate) fn coefficient_of(atom: &Atom, addends: &[Addend]) -> Result<i128, AllocError>
    ensures { IfOk result (λ sum. sum ≡ coefficient_of atom.now addends.now) }
{
    let mut sum = 0i128;
    for addend in addends {
        sum = plus(sum, multiple_in(atom, addend))?;
    }
    Ok(sum)
}

// The numbers added up.
pub(crate) fn constant_of(addends: &[Addend]) -> Result<i128, AllocError>
    ensures { IfOk result (λ sum. sum ≡ constant_of addends.now) }
{
    let mut sum = 0i128;
    for addend in addends {
        sum = plus(sum, number_in(addend))?;
    }
    Ok(sum)
}

// The sum of two numbers. No memory holds so many addends that their sum passes 128 bits.
pub(crate) fn plus(sum: i128, number: i64) -> Result<i128, AllocError>
    ensures { IfOk result (λ total. total ≡ sum +ℤ number) }
{
    sum.checked_add(i128::from(number)).ok_or(AllocError)
}

// How much of an atom an addend is.
fn multiple_in(atom: &Atom, addend: &Addend) -> i64
    ensures { result ≡ multiple_in atom.now addend.now }
{
    match &addend.atom {
        Some(other) if same_atom(atom, other) => addend.coefficient,
        _ => 0,
    }
}

// The number that an addend is; a multiple of an atom is none.
fn number_in(addend: &Addend) -> i64
    ensures { result ≡ number_in addend.now }
{
    match &addend.atom {
        None => addend.coefficient,
        Some(_) => 0,
    }
}

// Puts the atoms that stay behind those that are there, each once, in the order in which they come.
pub(crate) fn number_atoms(
    alloc: Global,
    addends: &[Addend],
    atoms: &mut Items<Atom>,
) -> Result<(), AllocError>
    ensures { OnOk result (atoms.new ≡ numbered addends.now atoms.old addends.now) }
{
    for addend in addends {
        number_atom(alloc, addends, addend, atoms)?;
    }
    Ok(())
}

// Puts the atom of an addend, if it stays, behind those that are there, if it isn't among them.
fn number_atom(
    alloc: Global,
    addends: &[Addend],
    addend: &Addend,
    atoms: &mut Items<Atom>,
) -> Result<(), AllocError>
    ensures { OnOk result (atoms.new ≡ with_atom addends.now atoms.old addend.now.atom) }
{
    let Some(atom) = &addend.atom else {
        return Ok(());
    };
    if is_among(atom, atoms.as_slice()) || !stays(addends, atom)? {
        return Ok(());
    }
    atoms.push(atom.copy(alloc)?)
}

// Whether the multiples of an atom don't add up to 0.
fn stays(addends: &[Addend], atom: &Atom) -> Result<bool, AllocError>
    ensures { IfOk result (λ answer. answer ≡ stays addends.now atom.now) }
{
    Ok(coefficient_of(atom, addends)? != 0)
}

// Whether an atom is one of these.
fn is_among(atom: &Atom, atoms: &[Atom]) -> bool
    ensures { result ≡ list_any (λ other. same_atom atom.now other) atoms.now }
{
    atoms.iter().any(|other| same_atom(atom, other))
}

// Whether two atoms are the same.
fn same_atom(atom: &Atom, other: &Atom) -> bool
    ensures { result ≡ same_atom atom.now other.now }
{
    match (atom, other) {
        (Atom::Element, Atom::Element) => true,
        (Atom::Value(subject), Atom::Value(other)) => same_subject(subject, other),
        (Atom::Offset(subject), Atom::Offset(other)) => same_subject(subject, other),
        (Atom::Length(subject), Atom::Length(other)) => same_subject(subject, other),
        _ => false,
    }
}

// Whether two subjects are the same.
fn same_subject(subject: &Subject, other: &Subject) -> bool
    ensures { result ≡ same_subject subject.now other.now }
{
    match (subject, other) {
        (Subject::Field(name), Subject::Field(other)) => name.as_slice() == other.as_slice(),
        (Subject::Local(name), Subject::Local(other)) => name.as_slice() == other.as_slice(),
        (Subject::Placeholder(name), Subject::Placeholder(other)) => {
            name.as_slice() == other.as_slice()
        }
        (Subject::Returned, Subject::Returned) => true,
        _ => false,
    }
}
