//! The rows of a choice.

ghost use Rattle.std.specs.Prelude.{◌≡◌, ◌||◌, ◌++◌, ◌≤◌, [], ◌∷◌, length, slice_get, IfOk, OnOk, IfErr};
ghost use Rattle.std.specs.List.{list_any};
ghost use Rattle.std.specs.Option.{option_copied};
ghost use Rattle.std.specs.Cmp.Lexicographic.{pointwise};
ghost use Rattle.lq_tree.specs.Lookup.{same};
ghost use Rattle.lq_quals.specs.Qualifier.{rows_of};
ghost use Rattle.lq_templates.specs.Rows.{same_row, same_term};
ghost use Rattle.lq_instances.specs.Instances as spec;
ghost use Rattle.lq_instances.specs.Search.{gathered};
ghost use Rattle.lq_instances.specs.Faults.{Tells};
ghost use Rattle.lq_instances.specs.Cuts as cuts;

use crate::TemplateFault;
use crate::matching::{is_part, is_wanted, part_of, subject_of};
use lq_linear::{Form, Row};
use lq_quals::Qualifier;
use lq_templates::{Named, Template};
use lq_text::{Atom, Subject};
use lq_tree::{Name, Quantity};
use sqlite_items::Items;
use std::alloc::{AllocError, Global};

// The local that was chosen for a placeholder; no text where none was.
fn chosen<'a>(choice: &'a [(Name, Name)], name: &[u8]) -> &'a [u8]
    ensures { result.now ≡ spec.chosen choice.now name.now }
{
    for pair in choice {
        if pair.0.as_bytes() == name {
            return pair.1.as_bytes();
        }
    }
    b"".as_slice()
}

// Whether this is the text of a subject, a placeholder's being that of the local that was chosen for it.
fn is_text(choice: &[(Name, Name)], subject: Option<&Subject>, text: &[u8]) -> bool
    ensures { result ≡ same text.now (spec.text_in choice.now (option_copied subject.entry)) }
{
    match subject {
        None => text == b"@".as_slice(),
        Some(Subject::Placeholder(name)) => text == chosen(choice, name.as_slice()),
        Some(Subject::Local(name)) => text == name.as_slice(),
        Some(Subject::Returned) => text == b"result".as_slice(),
        Some(Subject::Field(name)) => match text.split_first() {
            None => false,
            Some((dot, rest)) => *dot == b'.' && rest == name.as_slice(),
        },
    }
}

// Whether an atom is this name.
fn is_name(choice: &[(Name, Name)], atom: &Atom, named: &Named) -> bool
    ensures { result ≡ spec.is_name choice.now atom.now named.now }
{
    is_part(part_of(atom), named.part) && is_text(choice, subject_of(atom), named.text.as_bytes())
}

// Whether the atom of a symbol is this name.
fn is_name_at(choice: &[(Name, Name)], atoms: &[Atom], symbol: u32, named: &Named) -> bool
    ensures { result ≡ spec.is_name_at choice.now (slice_get atoms.now symbol) named.now }
{
    match atoms.get(symbol as usize) {
        None => false,
        Some(atom) => is_name(choice, atom, named),
    }
}

// Whether the atom of a symbol is one of these names.
fn is_named(choice: &[(Name, Name)], atoms: &[Atom], names: &[Named], symbol: u32) -> bool
    ensures { result ≡ list_any (λ n. spec.is_name_at choice.now (slice_get atoms.now symbol) n) names.now }
{
    names
        .iter()
        .any(|named| is_name_at(choice, atoms, symbol, named))
}

// Whether one of the terms is a multiple of this name.
fn is_told(choice: &[(Name, Name)], atoms: &[Atom], terms: &[(u32, i64)], named: &Named) -> bool
    ensures { result ≡ list_any (spec.is_of choice.now atoms.now named.now) terms.now }
{
    terms
        .iter()
        .any(|term| is_name_at(choice, atoms, term.0, named))
}

// Whether every term is a multiple of a name of the template.
fn are_named(
    choice: &[(Name, Name)],
    atoms: &[Atom],
    template: &Template,
    terms: &[(u32, i64)],
) -> bool
    ensures { result ≡ spec.are_named choice.now atoms.now template.now terms.now }
{
    terms.iter().all(|term| is_named(choice, atoms, template.names.as_slice(), term.0))
}

// Whether the terms mention a name that is wanted.
fn mentions(
    choice: &[(Name, Name)],
    atoms: &[Atom],
    template: &Template,
    terms: &[(u32, i64)],
) -> bool
    ensures { result ≡ spec.mentions choice.now atoms.now template.now terms.now }
{
    let kind = template.kind;
    template.names.as_slice().iter().any(|named| is_wanted(kind, named)
        && is_told(choice, atoms, terms, named))
}

// Whether a row may stand at the template.
fn is_instance(choice: &[(Name, Name)], atoms: &[Atom], template: &Template, row: &Row) -> bool
    ensures { result ≡ spec.is_instance choice.now atoms.now template.now row.now }
{
    let terms = row.form.terms();
    are_named(choice, atoms, template, terms) && mentions(choice, atoms, template, terms)
}

// The multiples of a name in terms, as multiples of its number.
fn multiples_of(
    alloc: Global,
    choice: &[(Name, Name)],
    atoms: &[Atom],
    terms: &[(u32, i64)],
    number: u32,
    named: &Named,
) -> Result<Vec<(u32, i64)>, AllocError>
    ensures { IfOk result (λ made. made.items ≡ cuts.multiples_of choice.now atoms.now terms.now number named.now) }
{
    terms
        .iter()
        .filter(|term| is_name_at(choice, atoms, term.0, named))
        .map(|term| (number, term.1))
        .collect(alloc)
}

// The terms of a row over the names, in their order.
fn named_terms(
    alloc: Global,
    choice: &[(Name, Name)],
    atoms: &[Atom],
    terms: &[(u32, i64)],
    names: &[Named],
) -> Result<Vec<(u32, i64)>, AllocError>
    ensures { IfOk result (λ made. made.items ≡ spec.named_terms choice.now atoms.now terms.now 0 names.now) }
{
    let mut made = Vec::new(alloc);
    let mut number = 0u32;
    for named in names {
        let mut more = multiples_of(alloc, choice, atoms, terms, number, named)?;
        made.append(&mut more)?;
        // No memory holds so many names that their numbers pass 32 bits.
        if number == u32::MAX {
            return Err(AllocError);
        }
        number += 1;
    }
    Ok(made)
}

// The terms of a row over the names.
fn terms_of(
    alloc: Global,
    choice: &[(Name, Name)],
    atoms: &[Atom],
    names: &[Named],
    row: &Row,
) -> Result<Vec<(u32, i64)>, AllocError>
    ensures { IfOk result (λ made. made.items ≡ spec.named_terms choice.now atoms.now row.now.terms 0 names.now) }
{
    named_terms(alloc, choice, atoms, row.form.terms(), names)
}

// What the form of a row is at most.
fn most_of(row: &Row) -> i64
    ensures { result ≡ row.now.most }
{
    row.most
}

// The row of these terms; None where they are those of none.
fn row_of(terms: Vec<(u32, i64)>, most: i64) -> Option<Row>
    ensures { cuts.IsKept (record { terms = terms.items; most = most }) result }
{
    let Some(form) = Form::of(terms, 0) else {
        return None;
    };
    Row::of(form, most)
}

// A row over the atoms of a file as a row over the names; None where that is none.
fn named_row(
    alloc: Global,
    choice: &[(Name, Name)],
    atoms: &[Atom],
    names: &[Named],
    row: &Row,
) -> Result<Option<Row>, AllocError>
    ensures { IfOk result (λ made. cuts.IsKept (spec.named_row choice.now atoms.now names.now row.now) made) }
{
    let terms = terms_of(alloc, choice, atoms, names, row)?;
    let most = most_of(row);
    Ok(row_of(terms, most))
}

// Whether two sums have the same terms.
fn are_same_terms(first: &[(u32, i64)], second: &[(u32, i64)]) -> bool
    ensures { result ≡ pointwise same_term first.now second.now }
{
    first == second
}

// Whether two rows are the same.
fn are_same(first: &Row, second: &Row) -> bool
    ensures { result ≡ same_row first.now second.now }
{
    are_same_terms(first.form.terms(), second.form.terms()) && first.most == second.most
}

// Puts a row behind those that were found, unless it is there already.
fn put_row(found: &mut Items<Row>, row: Row) -> Result<(), TemplateFault>
    requires { length found.old ≤ 256 }
    ensures rows { OnOk result (found.new ≡ gathered same_row found.old (row ∷ [])) }
    ensures few { OnOk result (length found.new ≤ 256) }
    ensures limit { IfErr result (λ fault. Tells fault (gathered same_row found.old (row ∷ []))) }
{
    if is_there(found, &row) {
        return Ok(());
    }
    if found.len() == 256 {
        return Err(TemplateFault::Limit(Quantity::Instances.passed(257)));
    }
    found.push(row)?;
    Ok(())
}

// Whether a row was found before.
fn is_there(found: &Items<Row>, row: &Row) -> bool
    ensures { result ≡ list_any (λ y. same_row y row.now) found.now }
{
    found.as_slice().iter().any(|other| are_same(other, row))
}

// Puts down what comes of one row under a choice.
fn put_chosen(
    alloc: Global,
    choice: &[(Name, Name)],
    atoms: &[Atom],
    template: &Template,
    row: &Row,
    found: &mut Items<Row>,
) -> Result<(), TemplateFault>
    requires { length found.old ≤ 256 }
    ensures rows { OnOk result (found.new ≡ gathered same_row found.old (spec.chosen_rows atoms.now template.now (row.now ∷ []) choice.now)) }
    ensures few { OnOk result (length found.new ≤ 256) }
    ensures limit { IfErr result (λ fault. Tells fault (gathered same_row found.old (spec.chosen_rows atoms.now template.now (row.now ∷ []) choice.now))) }
{
    if !is_instance(choice, atoms, template, row) {
        return Ok(());
    }
    match named_row(alloc, choice, atoms, template.names.as_slice(), row)? {
        None => Ok(()),
        Some(made) => put_row(found, made),
    }
}

// Puts down what comes of the rows of a qualifier under a choice.
pub(crate) fn put_rows(
    alloc: Global,
    choice: &[(Name, Name)],
    atoms: &[Atom],
    template: &Template,
    qualifier: &Qualifier,
    found: &mut Items<Row>,
) -> Result<(), TemplateFault>
    requires { length found.old ≤ 256 }
    ensures rows { OnOk result (found.new ≡ gathered same_row found.old (spec.chosen_rows atoms.now template.now (rows_of qualifier.now) choice.now)) }
    ensures few { OnOk result (length found.new ≤ 256) }
    ensures limit { IfErr result (λ fault. Tells fault (gathered same_row found.old (spec.chosen_rows atoms.now template.now (rows_of qualifier.now) choice.now))) }
{
    match qualifier {
        Qualifier::AtMost(row) => put_chosen(alloc, choice, atoms, template, row, found),
        Qualifier::Equal(row, opposite) => {
            put_chosen(alloc, choice, atoms, template, row, found)?;
            put_chosen(alloc, choice, atoms, template, opposite, found)
        }
    }
}

// Whether the atom of a symbol speaks of a placeholder.
pub(crate) fn is_placed(atoms: &[Atom], symbol: u32) -> bool
    ensures { result ≡ cuts.is_placed (spec.subject_at (slice_get atoms.now symbol)) }
{
    match atoms.get(symbol as usize) {
        None => false,
        Some(atom) => matches!(subject_of(atom), Some(Subject::Placeholder(_))),
    }
}

// Whether a term is a multiple of this name, whatever is chosen.
fn is_fixed(atoms: &[Atom], symbol: u32, named: &Named) -> bool
    ensures { result ≡ cuts.is_fixed_at (slice_get atoms.now symbol) named.now }
{
    !is_placed(atoms, symbol) && is_name_at(&[], atoms, symbol, named)
}

// Whether a term is a multiple of one of these names, whatever is chosen.
fn is_fixed_among(atoms: &[Atom], names: &[Named], symbol: u32) -> bool
    ensures { result ≡ list_any (λ n. cuts.is_fixed_at (slice_get atoms.now symbol) n) names.now }
{
    names.iter().any(|named| is_fixed(atoms, symbol, named))
}

// Whether a term speaks of a placeholder, or is a multiple of a name whatever is chosen.
fn is_placed_or_fixed(atoms: &[Atom], names: &[Named], symbol: u32) -> bool
    ensures { result ≡ (cuts.is_placed (spec.subject_at (slice_get atoms.now symbol)) || list_any (λ n. cuts.is_fixed_at (slice_get atoms.now symbol) n) names.now) }
{
    is_placed(atoms, symbol) || is_fixed_among(atoms, names, symbol)
}

// Whether each term of a row that speaks of no placeholder is a multiple of a name.
fn is_standing(atoms: &[Atom], names: &[Named], row: &Row) -> bool
    ensures { result ≡ cuts.is_standing atoms.now names.now row.now.terms }
{
    row.form
        .terms()
        .iter()
        .all(|term| is_placed_or_fixed(atoms, names, term.0))
}

// Whether a term of a row is a multiple of this name, whatever is chosen.
fn is_fixed_in(atoms: &[Atom], row: &Row, named: &Named) -> bool
    ensures { result ≡ list_any (cuts.is_fixed atoms.now named.now) row.now.terms }
{
    row.form
        .terms()
        .iter()
        .any(|term| is_fixed(atoms, term.0, named))
}

// Whether a row mentions what has to be mentioned, whatever is chosen.
fn is_mentioned(atoms: &[Atom], template: &Template, row: &Row) -> bool
    ensures { result ≡ cuts.is_mentioned atoms.now template.now row.now.terms }
{
    let kind = template.kind;
    template.names.as_slice().iter().any(|named| is_wanted(kind, named)
        && is_fixed_in(atoms, row, named))
}

// Whether one of the rows of a qualifier can stand at a template.
pub(crate) fn stands(atoms: &[Atom], template: &Template, qualifier: &Qualifier) -> bool
    ensures { result ≡ cuts.stands atoms.now template.now (rows_of qualifier.now) }
{
    let names = template.names.as_slice();
    match qualifier {
        Qualifier::AtMost(row) => is_standing(atoms, names, row),
        Qualifier::Equal(row, opposite) => {
            is_standing(atoms, names, row) || is_standing(atoms, names, opposite)
        }
    }
}

// Whether one of them mentions what has to be mentioned, whatever is chosen.
pub(crate) fn mentioned_first(atoms: &[Atom], template: &Template, qualifier: &Qualifier) -> bool
    ensures { result ≡ cuts.mentioned_first atoms.now template.now (rows_of qualifier.now) }
{
    match qualifier {
        Qualifier::AtMost(row) => is_mentioned(atoms, template, row),
        Qualifier::Equal(row, opposite) => {
            is_mentioned(atoms, template, row) || is_mentioned(atoms, template, opposite)
        }
    }
}
