//! The instances of a template.

ghost use Rattle.std.specs.Prelude.{◌≡◌, ◌++◌, ◌≤◌, Bool, not, ◌&&◌, [], ◌∷◌, length, map, slice_get, IfOk, OnOk, IfErr, if◌then◌else◌};
ghost use Rattle.std.specs.List.{list_any, flat_map};
ghost use Rattle.lq_tree.specs.Lookup.{same};
ghost use Rattle.lq_quals.specs.Qualifier.{rows_of};
ghost use Rattle.lq_templates.specs.Rows.{same_row};
ghost use Rattle.lq_instances.specs.Instances as spec;
ghost use Rattle.lq_instances.specs.Search as search;
ghost use Rattle.lq_instances.specs.Cuts as cuts;
ghost use Rattle.lq_instances.specs.Faults.{Tells};

use crate::TemplateFault;
use crate::matching::{are_alike, fits, is_local, is_part, is_wanted, subject_of};
use crate::row::{mentioned_first, stands};
use crate::search::Search;
use crate::table::{Candidate, Wanting};
use lq_linear::Row;
use lq_quals::{Qualifier, Quals};
use lq_templates::{NamePart, Named, Template};
use lq_text::{Atom, Subject};
use lq_tree::Name;
use sqlite_items::Items;
use std::alloc::{AllocError, Global};

/// The instances of a template: the rows that it may keep (docs/CHECKING.md, "Instances"). For each qualifier in order,
/// and for each choice of locals for its placeholders, the last placeholder changing fastest, its one or two rows; of equal
/// rows the first. Symbol k of a row is name k of the template, from 0. More than 256 of them are refused, and told as 257.
pub fn instances(
    alloc: Global,
    template: &Template,
    quals: &Quals,
) -> Result<Items<Row>, TemplateFault>
    ensures rows { IfOk result (λ rows. rows ≡ spec.instances template.now quals.now) }
    ensures few { IfOk result (λ rows. length rows ≤ 256) }
    ensures fault { IfErr result (λ fault. Tells fault (spec.instances template.now quals.now)) }
{
    all_rows(
        alloc,
        quals.atoms.as_slice(),
        template,
        quals.list.as_slice(),
    )
}

// The rows of all qualifiers.
fn all_rows(
    alloc: Global,
    atoms: &[Atom],
    template: &Template,
    list: &[Qualifier],
) -> Result<Items<Row>, TemplateFault>
    ensures rows { IfOk result (λ rows. rows ≡ search.gathered same_row [] (flat_map (cuts.found_rows atoms.now template.now) list.now)) }
    ensures few { IfOk result (λ rows. length rows ≤ 256) }
    ensures fault { IfErr result (λ fault. Tells fault (search.gathered same_row [] (flat_map (cuts.found_rows atoms.now template.now) list.now))) }
{
    let mut found = Items::new(alloc);
    for qualifier in list {
        put_found(alloc, atoms, template, qualifier, &mut found)?;
    }
    Ok(found)
}

// Puts down the rows of a qualifier.
fn put_found(
    alloc: Global,
    atoms: &[Atom],
    template: &Template,
    qualifier: &Qualifier,
    found: &mut Items<Row>,
) -> Result<(), TemplateFault>
    requires { length found.old ≤ 256 }
    ensures rows { OnOk result (found.new ≡ search.gathered same_row found.old (cuts.found_rows atoms.now template.now qualifier.now)) }
    ensures few { OnOk result (length found.new ≤ 256) }
    ensures limit { IfErr result (λ fault. Tells fault (search.gathered same_row found.old (cuts.found_rows atoms.now template.now qualifier.now))) }
{
    let all = candidates(alloc, atoms, template, qualifier)?;
    let placeholders = placeholders(alloc, atoms, qualifier)?;
    let names = placeholders.as_slice();
    let wanting = wanting(alloc, atoms, qualifier, names)?;
    let table = table(alloc, atoms, template, qualifier, all.as_slice(), names)?;
    let mentioned = mentioned_first(atoms, template, qualifier);
    let search = Search {
        alloc,
        atoms,
        template,
        qualifier,
        all: all.as_slice(),
        stands: stands(atoms, template, qualifier),
    };
    search.put_below(&[], mentioned, wanting.as_slice(), table.as_slice(), found)
}

// Whether the atom of a symbol speaks of this local.
fn is_local_at(atoms: &[Atom], symbol: u32, local: &[u8]) -> bool
    ensures { result ≡ list_any (same local.now) (spec.named_local (spec.subject_at (slice_get atoms.now symbol))) }
{
    match atoms.get(symbol as usize) {
        None => false,
        Some(atom) => match subject_of(atom) {
            Some(Subject::Local(name)) => local == name.as_slice(),
            _ => false,
        },
    }
}

// Whether a row names this local.
fn is_named_in(atoms: &[Atom], row: &Row, local: &[u8]) -> bool
    ensures { result ≡ list_any (λ term. list_any (same local.now) (spec.named_local (spec.subject_at (slice_get atoms.now term.0)))) row.now.terms }
{
    row.form
        .terms()
        .iter()
        .any(|term| is_local_at(atoms, term.0, local))
}

// Whether the rows of a qualifier name this local.
fn is_named(atoms: &[Atom], qualifier: &Qualifier, local: &[u8]) -> bool
    ensures { result ≡ list_any (same local.now) (spec.named_locals atoms.now (spec.all_terms (rows_of qualifier.now))) }
{
    match qualifier {
        Qualifier::AtMost(row) => is_named_in(atoms, row, local),
        Qualifier::Equal(row, opposite) => {
            is_named_in(atoms, row, local) || is_named_in(atoms, opposite, local)
        }
    }
}

// Whether a name tells of a local that may be chosen.
fn is_free(atoms: &[Atom], qualifier: &Qualifier, named: &Named) -> bool
    ensures { result ≡ (spec.is_local named.now.text && not (spec.is_part named.now.part NamePart.Len))
        && not (list_any (same named.now.text) (spec.named_locals atoms.now (spec.all_terms (rows_of qualifier.now)))) }
{
    let text = named.text.as_bytes();
    (is_local(text) && !is_part(named.part, NamePart::Len)) && !is_named(atoms, qualifier, text)
}

// Whether a local is a name that has to be mentioned.
fn is_wanted_local(template: &Template, local: &[u8]) -> bool
    ensures { result ≡ cuts.is_wanted_local template.now local.now }
{
    let kind = template.kind;
    template.names.as_slice().iter().any(|named| is_wanted(kind, named)
        && named.text.as_bytes() == local)
}

// Puts down the local that a name tells of, if it may be chosen.
fn push_candidate(
    alloc: Global,
    atoms: &[Atom],
    template: &Template,
    qualifier: &Qualifier,
    named: &Named,
    all: &mut Items<Candidate>,
) -> Result<(), AllocError>
    ensures { OnOk result (all.new ≡ all.old ++ cuts.candidates template.now (cuts.free_among atoms.now (spec.all_terms (rows_of qualifier.now)) (named.now ∷ []))) }
{
    if !is_free(atoms, qualifier, named) {
        return Ok(());
    }
    let text = named.text.as_bytes();
    let name = Name::from_slice(alloc, text)?;
    let wanted = is_wanted_local(template, text);
    all.push(Candidate { name, wanted })
}

// The locals among which is chosen.
fn candidates(
    alloc: Global,
    atoms: &[Atom],
    template: &Template,
    qualifier: &Qualifier,
) -> Result<Items<Candidate>, AllocError>
    ensures { IfOk result (λ all. all ≡ cuts.candidates template.now (spec.free_locals atoms.now template.now (spec.all_terms (rows_of qualifier.now)))) }
{
    let mut all = Items::new(alloc);
    for named in template.names.as_slice() {
        push_candidate(alloc, atoms, template, qualifier, named, &mut all)?;
    }
    Ok(all)
}

// Whether a name is one of these.
fn is_among(names: &[Name], name: &[u8]) -> bool
    ensures { result ≡ list_any (λ y. same y name.now) names.now }
{
    names.iter().any(|other| other.as_bytes() == name)
}

// Puts down a placeholder, unless it is there already.
fn push_once(alloc: Global, names: &mut Items<Name>, name: &[u8]) -> Result<(), AllocError>
    ensures { OnOk result (names.new ≡ search.gathered same names.old (name.now ∷ [])) }
{
    if is_among(names.as_slice(), name) {
        return Ok(());
    }
    names.push(Name::from_slice(alloc, name)?)
}

// Puts down the placeholder of the atom of a symbol, if it speaks of one.
fn push_placeholder(
    alloc: Global,
    atoms: &[Atom],
    symbol: u32,
    names: &mut Items<Name>,
) -> Result<(), AllocError>
    ensures { OnOk result (names.new ≡ search.gathered same names.old (spec.placeholder (spec.subject_at (slice_get atoms.now symbol)))) }
{
    match atoms.get(symbol as usize) {
        None => Ok(()),
        Some(atom) => match subject_of(atom) {
            Some(Subject::Placeholder(name)) => push_once(alloc, names, name.as_slice()),
            _ => Ok(()),
        },
    }
}

// Puts down the placeholders of terms.
fn push_placeholders(
    alloc: Global,
    atoms: &[Atom],
    terms: &[(u32, i64)],
    names: &mut Items<Name>,
) -> Result<(), AllocError>
    ensures { OnOk result (names.new ≡ search.gathered same names.old (cuts.told_placeholders atoms.now terms.now)) }
{
    for term in terms {
        push_placeholder(alloc, atoms, term.0, names)?;
    }
    Ok(())
}

// Puts down the placeholders of a row.
fn push_row(
    alloc: Global,
    atoms: &[Atom],
    row: &Row,
    names: &mut Items<Name>,
) -> Result<(), AllocError>
    ensures { OnOk result (names.new ≡ search.gathered same names.old (cuts.told_placeholders atoms.now row.now.terms)) }
{
    push_placeholders(alloc, atoms, row.form.terms(), names)
}

// The placeholders of the rows of a qualifier, each once.
fn placeholders(
    alloc: Global,
    atoms: &[Atom],
    qualifier: &Qualifier,
) -> Result<Items<Name>, AllocError>
    ensures { IfOk result (λ names. names ≡ spec.placeholders atoms.now (spec.all_terms (rows_of qualifier.now))) }
{
    let mut names = Items::new(alloc);
    match qualifier {
        Qualifier::AtMost(row) => {
            push_row(alloc, atoms, row, &mut names)?;
            Ok(names)
        }
        Qualifier::Equal(row, opposite) => {
            push_row(alloc, atoms, row, &mut names)?;
            push_row(alloc, atoms, opposite, &mut names)?;
            Ok(names)
        }
    }
}

// Which of these placeholders are alike to one.
fn alike_to(
    alloc: Global,
    atoms: &[Atom],
    qualifier: &Qualifier,
    placeholder: &Name,
    others: &[Name],
) -> Result<Items<bool>, AllocError>
    ensures { IfOk result (λ marks. marks ≡ map (search.are_alike atoms.now (rows_of qualifier.now) placeholder.now) others.now) }
{
    let mut marks = Items::new(alloc);
    for other in others {
        let (first, second) = (placeholder.as_bytes(), other.as_bytes());
        marks.push(are_alike(alloc, atoms, qualifier, first, second)?)?;
    }
    Ok(marks)
}

// Placeholders, each with which later ones are alike to it.
fn wanting(
    alloc: Global,
    atoms: &[Atom],
    qualifier: &Qualifier,
    placeholders: &[Name],
) -> Result<Items<Wanting>, AllocError>
    ensures { IfOk result (λ all. all ≡ cuts.wanting (search.are_alike atoms.now (rows_of qualifier.now)) placeholders.now) }
{
    let mut all = Items::new(alloc);
    let mut rest = placeholders;
    while let Some((first, later)) = rest.split_first() {
        all.push(Wanting {
            placeholder: Name::from_slice(alloc, first.as_bytes())?,
            alike: alike_to(alloc, atoms, qualifier, first, later)?,
        })?;
        rest = later;
    }
    Ok(all)
}

// Which candidates a placeholder may get.
fn fitting(
    alloc: Global,
    atoms: &[Atom],
    template: &Template,
    qualifier: &Qualifier,
    all: &[Candidate],
    placeholder: &[u8],
) -> Result<Vec<bool>, AllocError>
    ensures { IfOk result (λ marks. marks.items ≡ map (λ c. search.fits atoms.now template.now.names (rows_of qualifier.now) placeholder.now c.name) all.now) }
{
    let names = template.names.as_slice();
    all.iter()
        .map(|candidate| fits(
            atoms,
            names,
            qualifier,
            placeholder,
            candidate.name.as_bytes(),
        ))
        .collect(alloc)
}

// The same, of a name.
fn fitting_to(
    alloc: Global,
    atoms: &[Atom],
    template: &Template,
    qualifier: &Qualifier,
    all: &[Candidate],
    placeholder: &Name,
) -> Result<Items<bool>, AllocError>
    ensures { IfOk result (λ marks. marks ≡ map (λ c. search.fits atoms.now template.now.names (rows_of qualifier.now) placeholder.now c.name) all.now) }
{
    let marks = fitting(
        alloc,
        atoms,
        template,
        qualifier,
        all,
        placeholder.as_bytes(),
    )?;
    Ok(Items::from_vec(marks))
}

// Which candidates placeholders may get.
fn table(
    alloc: Global,
    atoms: &[Atom],
    template: &Template,
    qualifier: &Qualifier,
    all: &[Candidate],
    placeholders: &[Name],
) -> Result<Items<Items<bool>>, AllocError>
    ensures { IfOk result (λ table. table ≡ cuts.table_of (search.fits atoms.now template.now.names (rows_of qualifier.now)) all.now placeholders.now) }
{
    let mut table = Items::new(alloc);
    for placeholder in placeholders {
        let row = fitting_to(alloc, atoms, template, qualifier, all, placeholder)?;
        table.push(row)?;
    }
    Ok(table)
}
