//! The ground of a walk over a function.

ghost use Rattle.std.specs.Prelude.{◌≡◌, ℕ, Bool, slice_get, IfOk};
ghost use Rattle.std.specs.Option.{option_copied};
ghost use Rattle.lq_templates.specs.Accesses.{Access};
ghost use Rattle.lq_ground.specs.Ground as spec;
ghost use Rattle.lq_ground.specs.Standing.{seen};

use crate::locals::param_values;
use crate::tables::Tables;
use lq_linear::Form;
use lq_symbolic::{FieldType, SymState, SymValue};
use lq_templates::Given;
use lq_tree::{PFunc, Slot};
use sqlite_items::Items;
use std::alloc::{AllocError, Global};

/// What the walk over a function's body rests on: the program with its classes and templates, the function and its
/// number, how many templates come before those inside its text, and the number of its scope.
#[derive(Drop)]
pub struct Ground<'a> {
    pub tables: &'a Tables<'a>,
    pub func: &'a PFunc,
    pub number: u32,
    pub before: u32,
    pub scope: u32,
}

impl<'a> Ground<'a> {
    /// The class of a pointer slot.
    pub fn class_of_slot(&self, slot: u32) -> u32
        ensures { (by : ℕ → Access → Bool) → result ≡ spec.class_of_slot (seen by self.now) slot }
    {
        self.tables.class_at(self.number, slot)
    }

    /// The slot with this number.
    pub fn slot(&self, slot: u32) -> Option<&Slot>
        ensures { (by : ℕ → Access → Bool) → option_copied result ≡ slice_get (spec.slots_of (seen by self.now)) slot }
    {
        self.func.slots.get(slot as usize)
    }

    /// A slot gets a value.
    pub fn put_slot(&self, slot: u32, value: SymValue, state: &mut SymState)
        ensures { (by : ℕ → Access → Bool) → state.new ≡ spec.put_slot (seen by self.now) slot value state.old }
    {
        state.put(self.class_of_slot(slot), slot, value);
    }

    /// The fields of the class of a pointer slot, with the classes of the pointers in them.
    pub fn fields_of(&self, alloc: Global, slot: u32) -> Result<Items<FieldType>, AllocError>
        ensures { IfOk result (λ fields. (by : ℕ → Access → Bool) → fields ≡ spec.fields_of (seen by self.now) slot) }
    {
        match self.slot(slot) {
            None => Ok(Items::new(alloc)),
            Some(declared) => {
                let class = self.class_of_slot(slot);
                self.tables.fields_of(alloc, class, &declared.ctype)
            }
        }
    }

    /// The number of the scope of the function with this number.
    pub fn function_scope(&self, func: u32) -> u32
        ensures { (by : ℕ → Access → Bool) → result ≡ spec.function_scope (seen by self.now).env.program.funcs func }
    {
        self.tables.function_scope(func)
    }

    /// The pre rows of a function at these values, if it has them.
    pub fn pre_rows(
        &self,
        alloc: Global,
        func: u32,
        values: Items<Form>,
    ) -> Result<Items<Given>, AllocError>
        ensures { IfOk result (λ rows. (by : ℕ → Access → Bool) → rows ≡ spec.pre_rows (seen by self.now) func values) }
    {
        self.tables.pre_rows(alloc, func, values)
    }

    /// The post rows of a function at these values, if it has them.
    pub fn post_rows(
        &self,
        alloc: Global,
        func: u32,
        values: Items<Form>,
    ) -> Result<Items<Given>, AllocError>
        ensures { IfOk result (λ rows. (by : ℕ → Access → Bool) → rows ≡ spec.post_rows (seen by self.now) func values) }
    {
        self.tables.post_rows(alloc, func, values)
    }
}

/// What the names of a callee's parameters stand for, where these are the arguments.
pub fn argument_values(
    alloc: Global,
    callee: &PFunc,
    arguments: &[SymValue],
) -> Result<Items<Form>, AllocError>
    ensures { IfOk result (λ values. values ≡ spec.argument_values callee.now arguments.now) }
{
    param_values(alloc, callee, arguments)
}
