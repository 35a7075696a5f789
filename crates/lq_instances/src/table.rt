//! Which locals placeholders may get, and whether enough are left.

ghost use Rattle.std.specs.Prelude.{◌≡◌, ◌||◌, IfOk};
ghost use Rattle.lq_instances.specs.Cuts as spec;

use lq_tree::Name;
use sqlite_items::Items;
use std::alloc::{AllocError, Global};

// A local that may be chosen, and whether it is one that rows have to mention.
#[derive(Drop)]
pub(crate) struct Candidate {
    pub(crate) name: Name,
    pub(crate) wanted: bool,
}

// A placeholder, and which of those behind it are alike to it.
#[derive(Drop)]
pub(crate) struct Wanting {
    pub(crate) placeholder: Name,
    pub(crate) alike: Items<bool>,
}

// Marks the candidates of the name of one.
pub(crate) fn marks_of(
    alloc: Global,
    all: &[Candidate],
    candidate: &Candidate,
) -> Result<Items<bool>, AllocError>
    ensures { IfOk result (λ marks. marks ≡ spec.marks_of all.now candidate.now.name) }
{
    let marks = called(alloc, all, candidate.name.as_bytes())?;
    Ok(Items::from_vec(marks))
}

// Marks the candidates of a name.
fn called(alloc: Global, all: &[Candidate], local: &[u8]) -> Result<Vec<bool>, AllocError>
    ensures { IfOk result (λ marks. marks.items ≡ spec.marks_of all.now local.now) }
{
    all.iter()
        .map(|candidate| candidate.name.as_bytes() == local)
        .collect(alloc)
}

// Marks no candidate.
pub(crate) fn no_marks(alloc: Global, all: &[Candidate]) -> Result<Items<bool>, AllocError>
    ensures { IfOk result (λ marks. marks ≡ spec.no_marks all.now) }
{
    let marks = unmarked(alloc, all)?;
    Ok(Items::from_vec(marks))
}

// A mark that isn't set for each candidate.
fn unmarked(alloc: Global, all: &[Candidate]) -> Result<Vec<bool>, AllocError>
    ensures { IfOk result (λ marks. marks.items ≡ spec.no_marks all.now) }
{
    all.iter().map(|_| false).collect(alloc)
}

// Marks those that one of two marks.
pub(crate) fn either(
    alloc: Global,
    first: &Items<bool>,
    second: &Items<bool>,
) -> Result<Items<bool>, AllocError>
    ensures { IfOk result (λ marks. marks ≡ spec.either first.now second.now) }
{
    let marks = joined(alloc, first.as_slice(), second.as_slice())?;
    Ok(Items::from_vec(marks))
}

// The same, of slices.
fn joined(alloc: Global, first: &[bool], second: &[bool]) -> Result<Vec<bool>, AllocError>
    ensures { IfOk result (λ marks. marks.items ≡ spec.either first.now second.now) }
{
    first
        .iter()
        .zip(second)
        .map(|(a, b)| *a || *b)
        .collect(alloc)
}

// Marks those that the first marks and the second doesn't.
fn except(alloc: Global, first: &[bool], second: &[bool]) -> Result<Vec<bool>, AllocError>
    ensures { IfOk result (λ marks. marks.items ≡ spec.except first.now second.now) }
{
    first
        .iter()
        .zip(second)
        .map(|(a, b)| *a && !*b)
        .collect(alloc)
}

// Whether the second marks all that the first marks.
fn is_inside(first: &[bool], second: &[bool]) -> bool
    ensures { result ≡ spec.is_inside first.now second.now }
{
    first.iter().zip(second).all(|(a, b)| !*a || *b)
}

// What placeholders may still get once one before them has got a candidate.
pub(crate) fn narrowed(
    alloc: Global,
    alike: &[bool],
    gone: &Items<bool>,
    here: &Items<bool>,
    table: &[Items<bool>],
) -> Result<Items<Items<bool>>, AllocError>
    ensures { IfOk result (λ narrow. narrow ≡ spec.narrowed alike.now gone.now here.now table.now) }
{
    let mut narrow = Items::new(alloc);
    let mut marks = alike;
    let mut rows = table;
    while let Some((is_alike, later)) = marks.split_first() {
        let Some((row, rest)) = rows.split_first() else {
            return Ok(narrow);
        };
        let row = less(alloc, row.as_slice(), *is_alike, gone, here)?;
        narrow.push(row)?;
        marks = later;
        rows = rest;
    }
    Ok(narrow)
}

// What one of them may still get.
fn less(
    alloc: Global,
    row: &[bool],
    is_alike: bool,
    gone: &Items<bool>,
    here: &Items<bool>,
) -> Result<Items<bool>, AllocError>
    ensures { IfOk result (λ less. less ≡ spec.less row.now is_alike gone.now here.now) }
{
    if is_alike {
        return Ok(Items::from_vec(except(alloc, row, gone.as_slice())?));
    }
    Ok(Items::from_vec(except(alloc, row, here.as_slice())?))
}

// How many placeholders may only get what these marks hold.
fn needed(table: &[Items<bool>], row: &[bool]) -> usize
    ensures { result ≡ spec.needed table.now row.now }
{
    table
        .iter()
        .filter(|other| is_inside(other.as_slice(), row))
        .count()
}

// How many are marked.
fn marked(row: &[bool]) -> usize
    ensures { result ≡ spec.marked row.now }
{
    row.iter().filter(|mark| **mark).count()
}

// Whether no placeholders have fewer candidates than they are.
fn has_room(table: &[Items<bool>]) -> bool
    ensures { result ≡ spec.has_room table.now }
{
    table.iter().all(|row| needed(table, row.as_slice()) <= marked(row.as_slice()))
}

// Whether a candidate that has to be mentioned is marked.
fn has_wanted(all: &[Candidate], row: &[bool]) -> bool
    ensures { result ≡ spec.has_wanted all.now row.now }
{
    row.iter()
        .zip(all)
        .any(|(mark, candidate)| *mark && candidate.wanted)
}

// Whether a placeholder may get a candidate that has to be mentioned.
fn may_mention(all: &[Candidate], table: &[Items<bool>]) -> bool
    ensures { result ≡ spec.may_mention all.now table.now }
{
    table.iter().any(|row| has_wanted(all, row.as_slice()))
}

// Whether something may come of a part of a choice.
pub(crate) fn goes_on(
    stands: bool,
    mentioned: bool,
    all: &[Candidate],
    table: &[Items<bool>],
) -> bool
    ensures { result ≡ spec.goes_on stands mentioned all.now table.now }
{
    stands && (has_room(table) && (mentioned || may_mention(all, table)))
}
