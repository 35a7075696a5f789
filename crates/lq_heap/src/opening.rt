//! Opening records.

ghost use Rattle.std.specs.Prelude.{◌≡◌, IfOk, OnOk};
ghost use Rattle.lq_tally.specs.Tally.{tallied};
ghost use Rattle.lq_heap.specs.Records as spec;

use crate::folding::ask_fold;
use crate::opened::{opened_of, put_opened};
use crate::same::is_at;
use lq_symbolic::{FieldType, Opened, SymPtr, SymState, all_parts};
use lq_tally::Tally;
use lq_templates::{Given, Site};
use std::alloc::{AllocError, Global};

// A record of a class is opened with new values, of which the record template's rows are known.
fn open_new(
    alloc: Global,
    state: &mut SymState,
    class: u32,
    fields: &[FieldType],
    at: &SymPtr,
) -> Result<(), AllocError>
    ensures { OnOk result (state.new ≡ spec.open_new class fields.now at.now state.old) }
{
    let fields = state.new_values(alloc, fields)?;
    let values = all_parts(alloc, fields.as_slice())?;
    state.learn(Given::Of {
        template: class,
        values,
    })?;
    let opened = Opened {
        class,
        at: at.copy(alloc)?,
        fields,
    };
    put_opened(&mut state.opened, opened)
}

// Tells whether the record at this block and element is the open one of the class. If it isn't, the one that is open is
// folded.
fn fold_other(
    alloc: Global,
    state: &SymState,
    site: Site,
    class: u32,
    at: &SymPtr,
    out: &mut Tally,
) -> Result<bool, AllocError>
    ensures there { IfOk result (λ there. there ≡ spec.is_at at.now (spec.opened_of class state.now.opened)) }
    ensures asked { OnOk result (out.new ≡ tallied (spec.asked_opening site class at.now state.now) out.old) }
{
    let Some(open) = opened_of(state.opened.as_slice(), class) else {
        return Ok(false);
    };
    if is_at(at, open) {
        return Ok(true);
    }
    ask_fold(alloc, site, &state.items, open, out)?;
    Ok(false)
}

/// Opens a class at a block and an element (docs/CHECKING.md, "Opening and folding"). The record of the class that is
/// open is used as it is where it is the one that is wanted. Any other is folded first.
pub fn open_record(
    alloc: Global,
    state: &mut SymState,
    site: Site,
    class: u32,
    fields: &[FieldType],
    at: &SymPtr,
    out: &mut Tally,
) -> Result<(), AllocError>
    ensures state { OnOk result (state.new ≡ spec.open_record class fields.now at.now state.old) }
    ensures asked { OnOk result (out.new ≡ tallied (spec.asked_opening site class at.now state.old) out.old) }
{
    if fold_other(alloc, state, site, class, at, out)? {
        return Ok(());
    }
    open_new(alloc, state, class, fields, at)
}
