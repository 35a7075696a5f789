//! How the atoms of qualifiers match the names of templates.

ghost use Rattle.std.specs.Prelude.{◌≡◌, slice_get, IfOk};
ghost use Rattle.std.specs.Option.{option_copied};
ghost use Rattle.lq_text.specs.Order.{subject_of};
ghost use Rattle.lq_quals.specs.Qualifier.{rows_of};
ghost use Rattle.lq_instances.specs.Instances as instances;
ghost use Rattle.lq_instances.specs.Search as search;

use lq_quals::Qualifier;
use lq_templates::{NamePart, Named, TemplateKind};
use lq_text::{Atom, Subject};
use std::alloc::{AllocError, Global};

// Whether two parts are the same.
pub(crate) fn is_part(a: NamePart, b: NamePart) -> bool
    ensures { result ≡ instances.is_part a b }
{
    matches!(
        (a, b),
        (NamePart::Value, NamePart::Value)
            | (NamePart::Off, NamePart::Off)
            | (NamePart::Len, NamePart::Len)
    )
}

// Which part of what it speaks of an atom is.
pub(crate) fn part_of(atom: &Atom) -> NamePart
    ensures { result ≡ instances.part_of atom.now }
{
    match atom {
        Atom::Element | Atom::Value(_) => NamePart::Value,
        Atom::Offset(_) => NamePart::Off,
        Atom::Length(_) => NamePart::Len,
    }
}

// Whether a text names a local, and no field, `@` or `result`.
pub(crate) fn is_local(text: &[u8]) -> bool
    ensures { result ≡ instances.is_local text.now }
{
    match text.first() {
        None => false,
        Some(byte) => *byte != b'.' && *byte != b'@' && text != b"result".as_slice(),
    }
}

// Whether a row of a template of this kind has to mention such a name.
pub(crate) fn is_wanted(kind: TemplateKind, named: &Named) -> bool
    ensures { result ≡ instances.is_wanted kind named.now }
{
    match kind {
        TemplateKind::Rec { .. } | TemplateKind::Pre { .. } => true,
        TemplateKind::Post { .. } => named.text.as_bytes() == b"result".as_slice(),
        TemplateKind::Join | TemplateKind::Loop => named.changed,
        TemplateKind::Effect { .. } => named.text.as_bytes() == b"@".as_slice(),
    }
}

// Whether this part of a local is a name.
pub(crate) fn has_part(names: &[Named], part: NamePart, local: &[u8]) -> bool
    ensures { result ≡ search.has_part names.now part local.now }
{
    names.iter().any(|named| is_part(part, named.part) && named.text.as_bytes() == local)
}

// What an atom speaks of.
pub(crate) fn subject_of(atom: &Atom) -> Option<&Subject>
    ensures { option_copied result ≡ subject_of atom.now }
{
    match atom {
        Atom::Element => None,
        Atom::Value(subject) | Atom::Offset(subject) | Atom::Length(subject) => Some(subject),
    }
}

// Whether a subject is this placeholder.
fn is_placeholder_of(placeholder: &[u8], subject: Option<&Subject>) -> bool
    ensures { result ≡ search.is_placeholder_of placeholder.now (option_copied subject.entry) }
{
    match subject {
        Some(Subject::Placeholder(name)) => placeholder == name.as_slice(),
        _ => false,
    }
}

// Whether an atom is this part of this placeholder.
fn is_atom_of(part: NamePart, placeholder: &[u8], atom: Option<&Atom>) -> bool
    ensures { result ≡ search.is_atom_of part placeholder.now (option_copied atom.entry) }
{
    match atom {
        None => false,
        Some(atom) => {
            is_part(part_of(atom), part) && is_placeholder_of(placeholder, subject_of(atom))
        }
    }
}

// Whether the atom of a symbol is this part of this placeholder.
fn is_atom_at(part: NamePart, placeholder: &[u8], atoms: &[Atom], symbol: u32) -> bool
    ensures { result ≡ search.is_atom_of part placeholder.now (slice_get atoms.now symbol) }
{
    is_atom_of(part, placeholder, atoms.get(symbol as usize))
}

// In which multiples this part of a placeholder stands in terms.
fn multiples(
    alloc: Global,
    atoms: &[Atom],
    terms: &[(u32, i64)],
    part: NamePart,
    placeholder: &[u8],
) -> Result<Vec<i64>, AllocError>
    ensures { IfOk result (λ found. found.items ≡ search.multiples atoms.now terms.now part placeholder.now) }
{
    terms
        .iter()
        .filter(|term| is_atom_at(part, placeholder, atoms, term.0))
        .map(|term| term.1)
        .collect(alloc)
}

// Whether two placeholders stand in the same multiples in terms, as this part.
fn are_alike_as(
    alloc: Global,
    atoms: &[Atom],
    terms: &[(u32, i64)],
    part: NamePart,
    first: &[u8],
    second: &[u8],
) -> Result<bool, AllocError>
    ensures { IfOk result (λ is. is ≡ search.are_alike_as atoms.now terms.now part first.now second.now) }
{
    let of_first = multiples(alloc, atoms, terms, part, first)?;
    let of_second = multiples(alloc, atoms, terms, part, second)?;
    Ok(of_first.as_slice() == of_second.as_slice())
}

// Whether they do as each part.
fn are_alike_in(
    alloc: Global,
    atoms: &[Atom],
    terms: &[(u32, i64)],
    first: &[u8],
    second: &[u8],
) -> Result<bool, AllocError>
    ensures { IfOk result (λ is. is ≡ search.are_alike_in atoms.now first.now second.now terms.now) }
{
    let as_value = are_alike_as(alloc, atoms, terms, NamePart::Value, first, second)?;
    let as_off = are_alike_as(alloc, atoms, terms, NamePart::Off, first, second)?;
    let as_len = are_alike_as(alloc, atoms, terms, NamePart::Len, first, second)?;
    Ok(as_value && (as_off && as_len))
}

// Whether they do in each row of a qualifier.
pub(crate) fn are_alike(
    alloc: Global,
    atoms: &[Atom],
    qualifier: &Qualifier,
    first: &[u8],
    second: &[u8],
) -> Result<bool, AllocError>
    ensures { IfOk result (λ is. is ≡ search.are_alike atoms.now (rows_of qualifier.now) first.now second.now) }
{
    match qualifier {
        Qualifier::AtMost(row) => are_alike_in(alloc, atoms, row.form.terms(), first, second),
        Qualifier::Equal(row, opposite) => {
            let in_row = are_alike_in(alloc, atoms, row.form.terms(), first, second)?;
            let in_opposite = are_alike_in(alloc, atoms, opposite.form.terms(), first, second)?;
            Ok(in_row && in_opposite)
        }
    }
}

// Whether a placeholder stands as this part in terms.
fn stands_in(atoms: &[Atom], terms: &[(u32, i64)], part: NamePart, placeholder: &[u8]) -> bool
    ensures { result ≡ search.stands_in atoms.now terms.now part placeholder.now }
{
    terms
        .iter()
        .any(|term| is_atom_at(part, placeholder, atoms, term.0))
}

// Whether a placeholder doesn't stand as this part in terms, or that part of a local is a name.
fn fits_part(
    atoms: &[Atom],
    names: &[Named],
    terms: &[(u32, i64)],
    part: NamePart,
    placeholder: &[u8],
    local: &[u8],
) -> bool
    ensures { result ≡ search.fits_part atoms.now names.now terms.now part placeholder.now local.now }
{
    !stands_in(atoms, terms, part, placeholder) || has_part(names, part, local)
}

// Whether a local is of the type that a placeholder wants in terms.
fn fits_in(
    atoms: &[Atom],
    names: &[Named],
    terms: &[(u32, i64)],
    placeholder: &[u8],
    local: &[u8],
) -> bool
    ensures { result ≡ search.fits_in atoms.now names.now placeholder.now local.now terms.now }
{
    fits_part(atoms, names, terms, NamePart::Value, placeholder, local)
        && fits_part(atoms, names, terms, NamePart::Off, placeholder, local)
        && fits_part(atoms, names, terms, NamePart::Len, placeholder, local)
}

// Whether it is in a row of a qualifier.
pub(crate) fn fits(
    atoms: &[Atom],
    names: &[Named],
    qualifier: &Qualifier,
    placeholder: &[u8],
    local: &[u8],
) -> bool
    ensures { result ≡ search.fits atoms.now names.now (rows_of qualifier.now) placeholder.now local.now }
{
    match qualifier {
        Qualifier::AtMost(row) => fits_in(atoms, names, row.form.terms(), placeholder, local),
        Qualifier::Equal(row, opposite) => {
            fits_in(atoms, names, row.form.terms(), placeholder, local)
                || fits_in(atoms, names, opposite.form.terms(), placeholder, local)
        }
    }
}
