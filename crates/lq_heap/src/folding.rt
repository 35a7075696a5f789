//! Folding records.

ghost use Rattle.std.specs.Prelude.{◌≡◌, [], ◌∷◌, ◌++◌, IfOk, OnOk};
ghost use Rattle.std.specs.List.{flat_map};
ghost use Rattle.lq_tally.specs.Tally.{tallied};
ghost use Rattle.lq_heap.specs.Records as spec;

use lq_chain::Chain;
use lq_linear::Form;
use lq_symbolic::{FieldType, OpenRecords, Opened, SymState, all_parts, zero};
use lq_tally::Tally;
use lq_templates::{Given, Rule, Site};
use lq_tree::Items;
use std::alloc::{AllocError, Global};

/// Asks that the values of a record meet the record template, which has the number of its class. Where conditions are
/// counted only, their numbers aren't looked at.
pub(crate) fn ask_fold(
    alloc: Global,
    site: Site,
    facts: &Chain<Given>,
    open: &Opened,
    out: &mut Tally,
) -> Result<(), AllocError>
    ensures { OnOk result (out.new ≡ tallied (spec.fold_of site facts.now open.now ∷ []) out.old) }
{
    if out.is_full() {
        return out.count_more(1);
    }
    let values = all_parts(alloc, open.fields.as_slice())?;
    let goal = Given::Of {
        template: open.class,
        values,
    };
    out.ask(alloc, Rule::Fold, site, facts, goal)
}

/// Asks for the folds of all open records, in order of class.
pub fn ask_folds(
    alloc: Global,
    state: &SymState,
    site: Site,
    out: &mut Tally,
) -> Result<(), AllocError>
    ensures { OnOk result (out.new ≡ tallied (spec.fold_all site state.now) out.old) }
{
    let mut rest = state.opened.as_slice();
    while let Some((open, later)) = rest.split_first() {
        ask_fold(alloc, site, &state.items, open, out)?;
        rest = later;
    }
    Ok(())
}

/// Folds all open records, in order of class: their folds are asked for, and none is open behind that.
pub fn fold(
    alloc: Global,
    state: &mut SymState,
    site: Site,
    out: &mut Tally,
) -> Result<(), AllocError>
    ensures state { OnOk result (state.new ≡ spec.folded state.old) }
    ensures asked { OnOk result (out.new ≡ tallied (spec.fold_all site state.old) out.old) }
{
    ask_folds(alloc, state, site, out)?;
    state.opened = OpenRecords::new(alloc);
    Ok(())
}

// Puts down what the name or names of a field of a fresh block stand for.
fn push_zeros(alloc: Global, field: &FieldType, parts: &mut Items<Form>) -> Result<(), AllocError>
    ensures { OnOk result (parts.new ≡ parts.old ++ spec.zero_parts field.now) }
{
    parts.push(zero(alloc)?)?;
    if field.ctype.stars == 0 {
        return Ok(());
    }
    parts.push(zero(alloc)?)
}

/// What the names of the fields of a fresh block stand for: 0 for an int, offset and length 0 for a pointer.
pub fn zero_parts(alloc: Global, fields: &[FieldType]) -> Result<Items<Form>, AllocError>
    ensures { IfOk result (λ parts. parts ≡ flat_map spec.zero_parts fields.now) }
{
    let mut parts = Items::new(alloc);
    let mut rest = fields;
    while let Some((field, later)) = rest.split_first() {
        push_zeros(alloc, field, &mut parts)?;
        rest = later;
    }
    Ok(parts)
}
