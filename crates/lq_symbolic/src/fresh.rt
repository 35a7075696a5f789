//! New values.

ghost use Rattle.std.specs.Prelude.{◌≡◌, IfOk, OnOk};
ghost use Rattle.std.specs.Option.{option_copied};
ghost use Rattle.lq_symbolic.specs.State as spec;

use crate::forms::{symbol, zero};
use crate::state::{FieldType, SymState};
use crate::value::{SymPtr, SymValue};
use lq_tree::{CType, Items, Slot};
use std::alloc::{AllocError, Global};

impl SymState {
    /// A new int.
    pub fn new_int(&mut self, alloc: Global) -> Result<SymValue, AllocError>
        ensures { IfOk result (λ value. spec.Gives (spec.new_int self.old) value self.new) }
    {
        let number = self.take(1)?;
        Ok(SymValue::Int(symbol(alloc, number)?))
    }

    /// A new pointer of this class: a new block with a new offset, neither of which is negative.
    pub fn new_pointer(&mut self, alloc: Global, class: u32) -> Result<SymValue, AllocError>
        ensures { IfOk result (λ value. spec.Gives (spec.new_pointer class self.old) value self.new) }
    {
        let block = self.take(2)?;
        let length = symbol(alloc, block)?;
        let offset = symbol(alloc, block + 1)?;
        self.learn_not_negative(alloc, &length)?;
        self.learn_not_negative(alloc, &offset)?;
        Ok(SymValue::Ptr(SymPtr {
            class,
            block,
            offset,
        }))
    }

    /// Null: a new block of length 0 with offset 0.
    pub fn new_null(&mut self, alloc: Global) -> Result<SymValue, AllocError>
        ensures { IfOk result (λ value. spec.Gives (spec.new_null self.old) value self.new) }
    {
        let block = self.take(1)?;
        let length = symbol(alloc, block)?;
        let offset = zero(alloc)?;
        self.learn_equal(alloc, &offset, &length)?;
        Ok(SymValue::Ptr(SymPtr {
            class: 0,
            block,
            offset,
        }))
    }

    /// A new value of a type, a pointer of this class.
    pub fn new_of(
        &mut self,
        alloc: Global,
        class: u32,
        ctype: &CType,
    ) -> Result<SymValue, AllocError>
        ensures { IfOk result (λ value. spec.Gives (spec.new_of class ctype.now self.old) value self.new) }
    {
        if ctype.stars == 0 {
            self.new_int(alloc)
        } else {
            self.new_pointer(alloc, class)
        }
    }

    /// New values of fields, one after the other.
    pub fn new_values(
        &mut self,
        alloc: Global,
        fields: &[FieldType],
    ) -> Result<Items<SymValue>, AllocError>
        ensures { IfOk result (λ values. spec.GiveAll (spec.new_values fields.now self.old) values self.new) }
    {
        let mut values = Items::new(alloc);
        let mut rest = fields;
        while let Some((field, later)) = rest.split_first() {
            values.push(self.new_of(alloc, field.class, &field.ctype)?)?;
            rest = later;
        }
        Ok(values)
    }

    /// The slot with this number, whose class this is, gets a new value, if there is such a slot.
    pub fn renew(
        &mut self,
        alloc: Global,
        class: u32,
        slot: u32,
        declared: Option<&Slot>,
    ) -> Result<(), AllocError>
        ensures { OnOk result (self.new ≡ spec.renew class slot (option_copied declared.entry) self.old) }
    {
        if let Some(declared) = declared {
            let value = self.new_of(alloc, class, &declared.ctype)?;
            self.put(class, slot, value);
        }
        Ok(())
    }
}
