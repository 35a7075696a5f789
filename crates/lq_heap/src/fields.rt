//! Reading and writing the fields of open records.

ghost use Rattle.std.specs.Prelude.{◌≡◌, IfOk};
ghost use Rattle.lq_heap.specs.Records as spec;

use crate::opened::{fields_in, place_of};
use lq_symbolic::{SymState, SymValue, zero};
use std::alloc::{AllocError, Global};

/// The value of a field of the open record of a class, and 0 where there is none.
pub fn read_field(
    alloc: Global,
    state: &SymState,
    class: u32,
    field: u32,
) -> Result<SymValue, AllocError>
    ensures { IfOk result (λ v. v ≡ spec.read_field class field state.now) }
{
    match fields_in(state.opened.as_slice(), class).get(field as usize) {
        Some(value) => value.copy(alloc),
        None => Ok(SymValue::Int(zero(alloc)?)),
    }
}

/// A field of the open record of a class gets a value. Nothing changes where there is none.
pub fn write_field(state: &mut SymState, class: u32, field: u32, value: SymValue)
    ensures { state.new ≡ spec.write_field class field value state.old }
{
    if let Some(at) = place_of(state.opened.as_slice(), class) {
        state.opened.put(at, field, value);
    }
}
