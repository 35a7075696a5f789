//! What the checker knows at a point of the text.

ghost use Rattle.std.specs.Prelude.{◌≡◌, ◌+◌, ◌^◌, ◌<◌, [], ◌∷◌, slice_set, IfOk, OnOk};
ghost use Rattle.lq_linear.specs.Sides as sides;
ghost use Rattle.lq_symbolic.specs.State as spec;

use crate::forms::{at_most, below, zero};
use crate::records::OpenRecords;
use crate::value::{SymPtr, SymValue, copy_forms, copy_values};
use lq_chain::Chain;
use lq_linear::{Form, Item, Row};
use lq_templates::Given;
use lq_tree::{CType, Items};
use std::alloc::{AllocError, Global};

/// A field of a class: its type, and the class of a pointer in it.
#[derive(Drop)]
pub struct FieldType {
    pub ctype: CType,
    pub class: u32,
}

/// The open record of a class: its block and element, and the values of its fields.
#[derive(Drop)]
pub struct Opened {
    pub class: u32,
    pub at: SymPtr,
    pub fields: Items<SymValue>,
}

/// A scope that has begun: its number, and what its names stood for at its start.
#[derive(Drop)]
pub struct Start {
    pub scope: u32,
    pub values: Items<Form>,
}

/// What is known at a point of the text (docs/CHECKING.md, "State"): the values of the slots, the items in the order in
/// which they came about, the open records in order of class, the scopes around, innermost first, and the symbol that is
/// taken next.
#[derive(Drop)]
pub struct SymState {
    pub slots: Items<SymValue>,
    pub items: Chain<Given>,
    pub opened: OpenRecords,
    pub scopes: Items<Start>,
    pub next: u32,
}

impl Opened {
    /// The same record once more.
    pub fn copy(&self, alloc: Global) -> Result<Opened, AllocError>
        ensures { IfOk result (λ copy. copy ≡ self.now) }
    {
        Ok(Opened {
            class: self.class,
            at: self.at.copy(alloc)?,
            fields: copy_values(alloc, self.fields.as_slice())?,
        })
    }

    /// A field gets a value. Nothing changes where there is no such field.
    pub fn put(&mut self, field: u32, value: SymValue)
        ensures { self.new ≡ record self.old { fields = slice_set self.old.fields field value } }
    {
        let field = field as usize;
        if field < self.fields.len() {
            self.fields.set(field, value);
        }
    }
}

impl Start {
    /// The same scope once more.
    pub fn copy(&self, alloc: Global) -> Result<Start, AllocError>
        ensures { IfOk result (λ copy. copy ≡ self.now) }
    {
        Ok(Start {
            scope: self.scope,
            values: copy_forms(alloc, self.values.as_slice())?,
        })
    }
}

// The same scopes once more.
fn copy_starts(alloc: Global, starts: &[Start]) -> Result<Items<Start>, AllocError>
    ensures { IfOk result (λ copy. copy ≡ starts.now) }
{
    let mut copy = Items::new(alloc);
    for start in starts {
        copy.push(start.copy(alloc)?)?;
    }
    Ok(copy)
}

impl SymState {
    /// The same state once more. Its items are not copied.
    pub fn copy(&self, alloc: Global) -> Result<SymState, AllocError>
        ensures { IfOk result (λ copy. copy ≡ self.now) }
    {
        Ok(SymState {
            slots: copy_values(alloc, self.slots.as_slice())?,
            items: self.items.copy()?,
            opened: self.opened.copy(alloc)?,
            scopes: copy_starts(alloc, self.scopes.as_slice())?,
            next: self.next,
        })
    }

    /// The value of the slot with this number, and 0 where there is none.
    pub fn value_at(&self, alloc: Global, slot: u32) -> Result<SymValue, AllocError>
        ensures { IfOk result (λ value. value ≡ spec.value_at self.now slot) }
    {
        match self.slots.get(slot as usize) {
            Some(value) => value.copy(alloc),
            None => Ok(SymValue::Int(zero(alloc)?)),
        }
    }

    /// A slot, whose class this is, gets a value. Nothing changes where there is no such slot.
    pub fn put(&mut self, class: u32, slot: u32, value: SymValue)
        ensures { self.new ≡ spec.put class slot value self.old }
    {
        let slot = slot as usize;
        if slot < self.slots.len() {
            self.slots.set(slot, value.of_class(class));
        }
    }

    /// An item becomes known.
    pub fn learn(&mut self, given: Given) -> Result<(), AllocError>
        ensures { OnOk result (self.new ≡ spec.with_items (given ∷ []) self.old) }
    {
        self.items.push(given)
    }

    /// A row becomes known, unless it passed the bounds.
    pub fn learn_row(&mut self, row: Option<Row>) -> Result<(), AllocError>
        ensures { OnOk result (self.new ≡ spec.with_bounded row self.old) }
    {
        match row {
            Some(row) => self.learn(Given::Fixed(Item::Holds(row))),
            None => Ok(()),
        }
    }

    /// It becomes known that a form is at most another.
    pub fn learn_at_most(&mut self, alloc: Global, a: &Form, b: &Form) -> Result<(), AllocError>
        ensures { OnOk result (self.new ≡ spec.with_row (sides.at_most a.now b.now) self.old) }
    {
        let row = at_most(alloc, a, b)?;
        self.learn_row(row)
    }

    /// It becomes known that a form is below another.
    pub fn learn_below(&mut self, alloc: Global, a: &Form, b: &Form) -> Result<(), AllocError>
        ensures { OnOk result (self.new ≡ spec.with_row (sides.below a.now b.now) self.old) }
    {
        let row = below(alloc, a, b)?;
        self.learn_row(row)
    }

    /// It becomes known that two forms are equal, as two rows.
    pub fn learn_equal(&mut self, alloc: Global, a: &Form, b: &Form) -> Result<(), AllocError>
        ensures { OnOk result (self.new ≡ spec.with_rows (sides.equal a.now b.now) self.old) }
    {
        self.learn_at_most(alloc, a, b)?;
        self.learn_at_most(alloc, b, a)
    }

    /// It becomes known that a form isn't negative.
    pub fn learn_not_negative(&mut self, alloc: Global, form: &Form) -> Result<(), AllocError>
        ensures { OnOk result (self.new ≡ spec.with_row (spec.not_below_zero form.now) self.old) }
    {
        let zero = zero(alloc)?;
        self.learn_at_most(alloc, &zero, form)
    }

    /// Takes so many symbols, of which this is the first. Where their numbers would pass 2^32 - 1, the answer is want of
    /// memory.
    pub fn take(&mut self, count: u32) -> Result<u32, AllocError>
        ensures first { IfOk result (λ first. first ≡ self.old.next) }
        ensures taken { OnOk result (self.new ≡ spec.taken count self.old) }
        ensures room { IfOk result (λ first. first + count < 2 ^ 32) }
    {
        let first = self.next;
        self.next = first.checked_add(count).ok_or(AllocError)?;
        Ok(first)
    }
}
