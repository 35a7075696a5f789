//! The element that is reached.

ghost use Rattle.std.specs.Prelude.{IfOk};
ghost use Rattle.lq_heap.specs.Records as spec;

use lq_linear::Form;
use lq_symbolic::{SymPtr, SymState};
use std::alloc::{AllocError, Global};

/// The block and the element that a pointer and an index name (docs/CHECKING.md, "Statements"): the element is the offset
/// and the index added up, or a new symbol where that passes the bounds of a form.
pub fn reach(
    alloc: Global,
    state: &mut SymState,
    pointer: &SymPtr,
    index: &Form,
) -> Result<SymPtr, AllocError>
    ensures { IfOk result (λ at. spec.Reaches (spec.reached pointer.now index.now state.old) at state.new) }
{
    let element = state.sum(alloc, &pointer.offset, index)?;
    Ok(SymPtr {
        class: pointer.class,
        block: pointer.block,
        offset: element.into_form(alloc)?,
    })
}
