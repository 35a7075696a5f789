//! The statements at which a line stands, and why.

ghost use Rattle.std.specs.Prelude.{◌≡◌, IfOk, IfErr, MatchOption};
ghost use Rattle.std.specs.Option.{option_copied};
ghost use Rattle.lq_tree.specs.Layout as layout;
ghost use Rattle.lq_tree.specs.Lookup as lookup;
ghost use Rattle.lq_tree.specs.declared.plain.PProgram.{PProgram};
ghost use Rattle.lq_tree.specs.declared.plain.PKind.TheVariants as of_kind;
ghost use Rattle.lq_meaning.specs.Operators.{Computes, Fails, then_compute};
ghost use Rattle.lq_meaning.specs.Control as control;
ghost use Rattle.lq_meaning.specs.PlainMeaning as meaning;
ghost use Rattle.lq_meaning.specs.Moves.{StandsFor, TestsFor, Passes};

use super::{Repeat, Stop};
use crate::Action;
use crate::value::{value, word_of};
use lq_tree::{
    Base, Branch, CType, Items, Name, PExpr, PProgram, Place, StructDef, TrapKind, same,
};
use std::alloc::{AllocError, Global};

// A load, whose word goes into a slot.
pub(super) fn load<'a>(
    slots: &[i64],
    at: Place,
    to: u32,
    base: u32,
    index: &PExpr,
    field: u32,
) -> Stop<'a>
    ensures { (p : PProgram) → StandsFor p at (of_kind.Load to base index.now field) slots.now result }
{
    match value(slots, index) {
        Ok(index) => Stop::Word {
            action: Action::Load {
                pointer: word_of(slots, base),
                index,
                field,
            },
            at,
            to: Some(to),
        },
        Err(kind) => Stop::Trapped { kind, at },
    }
}

// A store.
pub(super) fn store<'a>(
    slots: &[i64],
    at: Place,
    base: u32,
    index: &PExpr,
    field: u32,
    e: &PExpr,
) -> Stop<'a>
    ensures { (p : PProgram) → StandsFor p at (of_kind.Store base index.now field e.now) slots.now result }
{
    match both(slots, index, e) {
        Ok((index, word)) => Stop::Word {
            action: Action::Store {
                pointer: word_of(slots, base),
                index,
                field,
                word,
            },
            at,
            to: None,
        },
        Err(kind) => Stop::Trapped { kind, at },
    }
}

// The values of two expressions, from left to right.
fn both(slots: &[i64], left: &PExpr, right: &PExpr) -> Result<(i64, i64), TrapKind>
    ensures left { IfOk result (λ words. meaning.value slots.now left.now ≡ Computes words.0) }
    ensures right { IfOk result (λ words. meaning.value slots.now right.now ≡ Computes words.1) }
    ensures err { IfErr result (λ kind. then_compute (meaning.value slots.now left.now) (λ _. meaning.value slots.now right.now) ≡ Fails kind) }
{
    let left = value(slots, left)?;
    let right = value(slots, right)?;
    Ok((left, right))
}

// A print.
pub(super) fn print<'a>(slots: &[i64], at: Place, e: &PExpr) -> Stop<'a>
    ensures { (p : PProgram) → StandsFor p at (of_kind.Print e.now) slots.now result }
{
    match value(slots, e) {
        Ok(number) => Stop::Word {
            action: Action::Print { number },
            at,
            to: None,
        },
        Err(kind) => Stop::Trapped { kind, at },
    }
}

// The struct of a name; of two the first.
fn struct_of<'p>(p: &'p PProgram, name: &Name) -> Option<&'p StructDef>
    ensures { option_copied result ≡ lookup.struct_of p.now.structs name.now }
{
    p.structs
        .as_slice()
        .iter()
        .find(|item| same(&item.name, name))
}

// How many fields an element of a base has.
fn fields_of_base(p: &PProgram, base: &Base) -> usize
    ensures { result ≡ layout.fields_of_base p.now.structs base.now }
{
    match base {
        Base::Int => 1,
        Base::Struct(name) => match struct_of(p, name) {
            Some(item) => item.fields.len(),
            None => 0,
        },
    }
}

// How many fields an element of a type has.
fn fields_of(p: &PProgram, ctype: &CType) -> Result<u32, AllocError>
    ensures { IfOk result (λ n. n ≡ layout.fields_of p.now.structs ctype.now) }
{
    let fields = match ctype.stars {
        0 => fields_of_base(p, &ctype.base),
        _ => 1,
    };
    u32::try_from(fields).map_err(|_| AllocError)
}

// A calloc, whose pointer goes into a slot.
pub(super) fn calloc<'a>(
    p: &PProgram,
    slots: &[i64],
    at: Place,
    to: u32,
    count: &PExpr,
    ctype: &CType,
) -> Result<Stop<'a>, AllocError>
    ensures { IfOk result (λ stop. StandsFor p.now at (of_kind.Calloc to count.now ctype.now) slots.now stop) }
{
    match value(slots, count) {
        Ok(count) => {
            let fields = fields_of(p, ctype)?;
            Ok(Stop::Word {
                action: Action::Allocate { count, fields },
                at,
                to: Some(to),
            })
        }
        Err(kind) => Ok(Stop::Trapped { kind, at }),
    }
}

// A call, whose word goes into a slot, if there is one for it.
pub(super) fn call<'a>(
    alloc: Global,
    slots: &[i64],
    at: Place,
    to: Option<u32>,
    function: u32,
    args: &[PExpr],
) -> Result<Stop<'a>, AllocError>
    ensures { IfOk result (λ stop. (p : PProgram) → StandsFor p at (of_kind.Call to function args.now) slots.now stop) }
{
    let mut words = Items::new(alloc);
    for e in args {
        match value(slots, e) {
            Ok(word) => words.push(word)?,
            Err(kind) => return Ok(Stop::Trapped { kind, at }),
        }
    }
    Ok(Stop::Call {
        at,
        function,
        words,
        to,
    })
}

// The test of a loop.
pub(super) fn test<'a>(slots: &[i64], repeat: Repeat<'a>, made: u64) -> Stop<'a>
    ensures { (p : PProgram) → TestsFor p repeat.entry made slots.now result }
{
    match value(slots, repeat.condition) {
        Ok(word) => Stop::Test {
            repeat,
            made,
            holds: word != 0,
        },
        Err(kind) => Stop::Trapped {
            kind,
            at: repeat.at,
        },
    }
}

// How many iterations a `foreach` has.
fn iteration_count(low: i64, high: i64, step: u64) -> u64
    ensures { result ≡ control.iteration_count low high step }
{
    if high <= low {
        return 0;
    }
    if step == 0 {
        return 0;
    }
    (high.abs_diff(low) - 1) / step + 1
}

// The fork of a `foreach`, unless it has no iterations.
pub(super) fn each<'a>(
    slots: &[i64],
    at: Place,
    slot: u32,
    low: &PExpr,
    high: &PExpr,
    step: i64,
    branch: &'a Branch,
) -> Option<Stop<'a>>
    ensures { (p : PProgram) → MatchOption result
        (Passes p at (of_kind.Foreach slot low.now high.now step branch.now) slots.now)
        (λ stop. StandsFor p at (of_kind.Foreach slot low.now high.now step branch.now) slots.now stop) }
{
    let (low, high) = match both(slots, low, high) {
        Ok(ends) => ends,
        Err(kind) => return Some(Stop::Trapped { kind, at }),
    };
    let step = step.unsigned_abs();
    let count = iteration_count(low, high, step);
    if count == 0 {
        return None;
    }
    if count > MOST_ITERATIONS {
        let kind = TrapKind::Range;
        return Some(Stop::Trapped { kind, at });
    }
    Some(Stop::Iterations {
        at,
        slot,
        low,
        step,
        count: count as u32,
        branch,
    })
}

// A `foreach` with more iterations traps.
const MOST_ITERATIONS: u64 = 1 << 20;
