//! The sets of the variables of a program that are of one class.
//!
//! Beside the variables there is a place for each field behind each variable: what is loaded from the field or stored to it
//! through the variable is joined with this place. Where two variables are joined, the places behind them are too.

ghost use Rattle.std.specs.Prelude.{◌≡◌, ℕ, ◌+◌, ◌*◌, ◌^◌, ◌<◌, ◌≤◌, ◌++◌, [], ◌∷◌, List, OnOk, IfOk, IfSome, IfNone, Contains, length, slice_set};
ghost use Rattle.std.specs.List.{flat_map};
ghost use Rattle.lq_classes.specs.declared.var.Var.{Var as Held};
ghost use Rattle.lq_classes.specs.declared.links.Link.TheVariants.{Access};
ghost use Rattle.lq_classes.specs.declared.joins.Pair.{Pair as Pairing};
ghost use Rattle.lq_classes.specs.Layout.{IsSmall, AreStarts, total};
ghost use Rattle.lq_classes.specs.Joins.{pairs_of, AreSets, AreOnWay, IsStep, PutsFields, AreLabelsOf};

use crate::forest::{apart, labels_of, least_of};
use crate::layout::number_of;
use crate::links::Link;
use crate::places::Places;
use lq_tree::PProgram;
use std::alloc::{AllocError, Global};

// How many fields must have a place for what a link loads or stores.
fn fields_in(link: &Link) -> usize
    ensures enough { (base : Held) (field : ℕ) (value : Held) → link.now ≡ Access base field value → field < result }
    ensures few { result ≤ 2 ^ 32 }
{
    match link {
        Link::Flow(_, _) => 0,
        Link::Access(_, field, _) => *field as usize + 1,
    }
}

/// How many fields have a place behind each variable: enough for those that are loaded or stored.
pub(crate) fn fields_of(links: &[Link]) -> usize
    ensures enough { (base : Held) (field : ℕ) (value : Held) → Contains links.now (Access base field value) → field < result }
    ensures few { result ≤ 2 ^ 32 }
{
    let mut fields = 0;
    for link in links {
        fields = fields.max(fields_in(link));
    }
    fields
}

/// Two numbers that are to be joined.
#[derive(Clone, Copy)]
pub(crate) struct Pair {
    a: usize,
    b: usize,
}

/// What a link asks to be joined, where all that it speaks of are variables.
fn pair_of(program: &PProgram, starts: &[usize], places: Places, link: &Link) -> Option<Pair>
    requires program { IsSmall program.now }
    requires starts { AreStarts program.now.funcs starts.now }
    requires count { places.count ≡ total program.now.funcs }
    requires fields { (base : Held) (field : ℕ) (value : Held) → link.now ≡ Access base field value → field < places.fields }
    ensures some { IfSome result (λ pair. pairs_of program.now places.count link.now ≡ pair ∷ []) }
    ensures none { IfNone result (pairs_of program.now places.count link.now ≡ []) }
{
    match link {
        Link::Flow(from, to) => {
            let a = number_of(program, starts, *from)?;
            let b = number_of(program, starts, *to)?;
            Some(Pair { a, b })
        }
        Link::Access(base, field, value) => {
            let base = number_of(program, starts, *base)?;
            let b = number_of(program, starts, *value)?;
            let a = places.place(base, *field as usize);
            Some(Pair { a, b })
        }
    }
}

/// Puts down that the places behind one variable are to be joined with those behind another.
fn put_fields(
    places: Places,
    first: usize,
    second: usize,
    waiting: &mut Vec<Pair>,
) -> Result<(), AllocError>
    requires first { first < places.count }
    requires second { second < places.count }
    ensures { OnOk result (PutsFields places.count places.fields first second waiting.old.items waiting.new.items) }
{
    for field in 0..places.fields {
        let a = places.place(first, field);
        let b = places.place(second, field);
        waiting.push(Pair { a, b })?;
    }
    Ok(())
}

/// Joins the set of the second number with that of the first, each the least of its set.
fn lead(
    places: Places,
    first: usize,
    second: usize,
    parents: &mut Vec<usize>,
    waiting: &mut Vec<Pair>,
) -> Result<(), AllocError>
    requires below { first < second }
    requires within { second < length parents.old.items }
    ensures set { OnOk result (parents.new.items ≡ slice_set parents.old.items second first) }
    ensures fields { OnOk result (second < places.count → PutsFields places.count places.fields first second waiting.old.items waiting.new.items) }
    ensures none { OnOk result (places.count ≤ second → waiting.new.items ≡ waiting.old.items) }
{
    parents[second] = first;
    if second < places.count {
        put_fields(places, first, second, waiting)?;
    }
    Ok(())
}

/// Joins the sets of two numbers.
fn join(
    places: Places,
    next: Pair,
    parents: &mut Vec<usize>,
    waiting: &mut Vec<Pair>,
) -> Result<(), AllocError>
    requires sets { AreSets places.count places.fields parents.old.items (waiting.old.items ++ next ∷ []) }
    ensures { OnOk result (IsStep places.count places.fields next.a next.b parents.old.items waiting.old.items parents.new.items waiting.new.items) }
{
    let a = least_of(parents, next.a);
    let b = least_of(parents, next.b);
    if a == b {
        return Ok(());
    }
    lead(places, a.min(b), a.max(b), parents, waiting)
}

/// Joins until nothing waits.
fn settle(
    places: Places,
    parents: &mut Vec<usize>,
    waiting: &mut Vec<Pair>,
) -> Result<(), AllocError>
    requires sets { AreSets places.count places.fields parents.old.items waiting.old.items }
    ensures forest { OnOk result (AreSets places.count places.fields parents.new.items []) }
    ensures joined { OnOk result ((pairs : List Pairing) → AreOnWay pairs places.count places.fields parents.old.items waiting.old.items → AreOnWay pairs places.count places.fields parents.new.items []) }
{
    'joining: while let Some(next) = waiting.pop() {
        join(places, next, parents, waiting)?;
    }
    Ok(())
}

/// What waits at first.
fn waiting_of(
    alloc: Global,
    program: &PProgram,
    starts: &[usize],
    places: Places,
    links: &[Link],
) -> Result<Vec<Pair>, AllocError>
    requires program { IsSmall program.now }
    requires starts { AreStarts program.now.funcs starts.now }
    requires count { places.count ≡ total program.now.funcs }
    requires fields { (base : Held) (field : ℕ) (value : Held) → Contains links.now (Access base field value) → field < places.fields }
    ensures { IfOk result (λ waiting. waiting.items ≡ flat_map (pairs_of program.now places.count) links.now) }
{
    let mut waiting = Vec::new(alloc);
    for link in links {
        if let Some(pair) = pair_of(program, starts, places, link) {
            waiting.push(pair)?;
        }
    }
    Ok(waiting)
}

/// For each number the least one of its class.
pub(crate) fn joined(
    alloc: Global,
    program: &PProgram,
    starts: &[usize],
    places: Places,
    links: &[Link],
) -> Result<Vec<usize>, AllocError>
    requires program { IsSmall program.now }
    requires starts { AreStarts program.now.funcs starts.now }
    requires count { places.count ≡ total program.now.funcs }
    requires fields { (base : Held) (field : ℕ) (value : Held) → Contains links.now (Access base field value) → field < places.fields }
    ensures { IfOk result (λ labels. AreLabelsOf (flat_map (pairs_of program.now places.count) links.now) places.count places.fields labels.items) }
{
    let mut waiting = waiting_of(alloc, program, starts, places, links)?;
    let mut parents = apart(alloc, places.len())?;
    settle(places, &mut parents, &mut waiting)?;
    labels_of(alloc, parents.as_slice())
}
