//! Atoms: the numbers that rows and qualifiers speak of.

ghost use Rattle.std.specs.Prelude.{◌≡◌, ◌↔◌, ◌++◌, List, ℕ, codes, IsTrue, MatchOption, IfOk, OnOk};
ghost use Rattle.lq_text.specs.Atom.{IsSubject, IsAtom, IsLocalName, subject_text, atom_text, has_placeholder};
ghost use Rattle.lq_text.specs.Reads.{Reads};

use crate::name::{is_name, read_name};
use sqlite_items::Items;
use std::alloc::{AllocError, Global};

/// What an atom speaks of.
#[derive(Debug, Drop)]
pub enum Subject {
    /// A field of a record.
    Field(Items<u8>),
    /// A local.
    Local(Items<u8>),
    /// A local that is still to be chosen; only qualifiers have it.
    Placeholder(Items<u8>),
    /// What a function returns.
    Returned,
}

/// A number that a row or a qualifier names (docs/CHECKING.md, "Qualifier text").
#[derive(Debug, Drop)]
pub enum Atom {
    /// The element that is accessed, counted from the start of its block.
    Element,
    /// The value of an int.
    Value(Subject),
    /// The offset of a pointer in its block, in elements.
    Offset(Subject),
    /// The length of a pointer's block, in elements.
    Length(Subject),
}

impl Atom {
    /// Whether the atom speaks of a local that is still to be chosen.
    pub fn has_placeholder(&self) -> bool
        ensures { result ≡ has_placeholder self.now }
    {
        match self {
            Atom::Value(Subject::Placeholder(_))
            | Atom::Offset(Subject::Placeholder(_))
            | Atom::Length(Subject::Placeholder(_)) => true,
            _ => false,
        }
    }

    /// The same atom once more.
    pub fn copy(&self, alloc: Global) -> Result<Atom, AllocError>
        ensures { IfOk result (λ atom. atom ≡ self.now) }
    {
        Ok(match self {
            Atom::Element => Atom::Element,
            Atom::Value(subject) => Atom::Value(subject.copy(alloc)?),
            Atom::Offset(subject) => Atom::Offset(subject.copy(alloc)?),
            Atom::Length(subject) => Atom::Length(subject.copy(alloc)?),
        })
    }
}

impl Subject {
    // The same subject once more.
    fn copy(&self, alloc: Global) -> Result<Subject, AllocError>
        ensures { IfOk result (λ subject. subject ≡ self.now) }
    {
        Ok(match self {
            Subject::Field(name) => Subject::Field(Items::from_slice(alloc, name.as_slice())?),
            Subject::Local(name) => Subject::Local(Items::from_slice(alloc, name.as_slice())?),
            Subject::Placeholder(name) => {
                Subject::Placeholder(Items::from_slice(alloc, name.as_slice())?)
            }
            Subject::Returned => Subject::Returned,
        })
    }
}

/// The atom that a text spells, which holds no space then (docs/CHECKING.md, "Qualifier text"). The
/// names in it are names, and no local in it is called `off`, `len` or `result`.
pub fn read_atom(alloc: Global, text: &[u8]) -> Result<Option<Atom>, AllocError>
    ensures { IfOk result (Reads IsAtom atom_text text.now) }
{
    if text == b"@".as_slice() {
        return Ok(Some(Atom::Element));
    }
    if let Some(inner) = inside(text, b"off(") {
        let subject = read_subject(alloc, inner)?;
        return Ok(subject.map(Atom::Offset));
    }
    if let Some(inner) = inside(text, b"len(") {
        let subject = read_subject(alloc, inner)?;
        return Ok(subject.map(Atom::Length));
    }
    let subject = read_subject(alloc, text)?;
    Ok(subject.map(Atom::Value))
}

// What stands between this front and `)`.
fn inside<'a>(text: &'a [u8], front: &[u8]) -> Option<&'a [u8]>
    ensures { MatchOption result ((inner : List ℕ) → ¬ (text.now ≡ front.now ++ (inner ++ codes ")")))
        (λ inner. text.now ≡ front.now ++ (inner.now ++ codes ")")) }
{
    text.strip_prefix(front)?.strip_suffix(b")")
}

// The subject that a text spells.
fn read_subject(alloc: Global, text: &[u8]) -> Result<Option<Subject>, AllocError>
    ensures { IfOk result (Reads IsSubject subject_text text.now) }
{
    if text == b"result".as_slice() {
        return Ok(Some(Subject::Returned));
    }
    if let Some(field) = text.strip_prefix(b".") {
        let name = read_name(alloc, field)?;
        return Ok(name.map(Subject::Field));
    }
    if let Some(placeholder) = text.strip_prefix(b"?") {
        let name = read_name(alloc, placeholder)?;
        return Ok(name.map(Subject::Placeholder));
    }
    let name = read_local(alloc, text)?;
    Ok(name.map(Subject::Local))
}

// The name of a local that a text is.
fn read_local(alloc: Global, text: &[u8]) -> Result<Option<Items<u8>>, AllocError>
    ensures { IfOk result (Reads IsLocalName (λ name. name) text.now) }
{
    if !is_local_name(text) {
        return Ok(None);
    }
    let name = Items::from_slice(alloc, text)?;
    Ok(Some(name))
}

/// Whether a text is the name of a local that an atom may name: a name, but none of `off`, `len` and
/// `result` (docs/CHECKING.md, "Templates"). Takes no memory.
pub fn is_local_name(text: &[u8]) -> bool
    ensures { IsTrue result ↔ IsLocalName text.now }
{
    match text {
        b"off" | b"len" | b"result" => false,
        _ => is_name(text),
    }
}

/// Appends the text of an atom. Where memory runs out, some of it may stand behind the bytes that
/// were there.
pub fn put_atom(out: &mut Vec<u8>, atom: &Atom) -> Result<(), AllocError>
    ensures { OnOk result (out.new.items ≡ out.old.items ++ atom_text atom.now) }
{
    match atom {
        Atom::Element => out.extend_from_slice(b"@"),
        Atom::Value(subject) => put_subject(out, subject),
        Atom::Offset(subject) => {
            out.extend_from_slice(b"off(")?;
            put_subject(out, subject)?;
            out.extend_from_slice(b")")
        }
        Atom::Length(subject) => {
            out.extend_from_slice(b"len(")?;
            put_subject(out, subject)?;
            out.extend_from_slice(b")")
        }
    }
}

// Appends the text of a subject.
fn put_subject(out: &mut Vec<u8>, subject: &Subject) -> Result<(), AllocError>
    ensures { OnOk result (out.new.items ≡ out.old.items ++ subject_text subject.now) }
{
    match subject {
        Subject::Field(name) => {
            out.push(b'.')?;
            out.extend_from_slice(name.as_slice())
        }
        Subject::Local(name) => out.extend_from_slice(name.as_slice()),
        Subject::Placeholder(name) => {
            out.push(b'?')?;
            out.extend_from_slice(name.as_slice())
        }
        Subject::Returned => out.extend_from_slice(b"result"),
    }
}
