//! The values of slots and fields.

ghost use Rattle.std.specs.Prelude.{◌≡◌, ◌++◌, IfOk, OnOk};
ghost use Rattle.lq_symbolic.specs.State as spec;

use crate::forms::{copy_form, symbol, zero};
use lq_linear::Form;
use lq_tree::Items;
use std::alloc::{AllocError, Global};

/// A block and a form: the value of a pointer, the form being its offset, or an element of the block. The symbol of the
/// block stands for its length. The class is 0 for null, and for what comes from a field that no variable is loaded from
/// or stored to (docs/CHECKING.md, "State").
#[derive(Drop)]
pub struct SymPtr {
    pub class: u32,
    pub block: u32,
    pub offset: Form,
}

/// The value of an int or of a pointer.
#[derive(Drop)]
pub enum SymValue {
    Int(Form),
    Ptr(SymPtr),
}

impl SymPtr {
    /// The same pointer once more.
    pub fn copy(&self, alloc: Global) -> Result<SymPtr, AllocError>
        ensures { IfOk result (λ p. p ≡ self.now) }
    {
        Ok(SymPtr {
            class: self.class,
            block: self.block,
            offset: copy_form(alloc, &self.offset)?,
        })
    }
}

impl SymValue {
    /// The same value once more.
    pub fn copy(&self, alloc: Global) -> Result<SymValue, AllocError>
        ensures { IfOk result (λ v. v ≡ self.now) }
    {
        Ok(match self {
            SymValue::Int(form) => SymValue::Int(copy_form(alloc, form)?),
            SymValue::Ptr(pointer) => SymValue::Ptr(pointer.copy(alloc)?),
        })
    }

    /// The form of an int, and 0 for a pointer.
    pub fn into_form(self, alloc: Global) -> Result<Form, AllocError>
        ensures { IfOk result (λ f. f ≡ spec.form_of self) }
    {
        match self {
            SymValue::Int(form) => Ok(form),
            SymValue::Ptr(_) => zero(alloc),
        }
    }

    /// The block and the offset of a pointer, and the symbol 0 with the offset 0 for an int.
    pub fn into_pointer(self, alloc: Global) -> Result<SymPtr, AllocError>
        ensures { IfOk result (λ p. p ≡ spec.pointer_of self) }
    {
        match self {
            SymValue::Ptr(pointer) => Ok(pointer),
            SymValue::Int(_) => Ok(SymPtr {
                class: 0,
                block: 0,
                offset: zero(alloc)?,
            }),
        }
    }

    /// Puts down the numbers that names stand for: that of an int, and the offset and the length of a pointer.
    pub fn push_parts(&self, alloc: Global, parts: &mut Items<Form>) -> Result<(), AllocError>
        ensures { OnOk result (parts.new ≡ parts.old ++ spec.parts self.now) }
    {
        match self {
            SymValue::Int(form) => parts.push(copy_form(alloc, form)?),
            SymValue::Ptr(pointer) => {
                parts.push(copy_form(alloc, &pointer.offset)?)?;
                parts.push(symbol(alloc, pointer.block)?)
            }
        }
    }

    /// The value with this class, if it is a pointer.
    pub fn of_class(self, class: u32) -> SymValue
        ensures { result ≡ spec.of_class class self }
    {
        match self {
            SymValue::Int(form) => SymValue::Int(form),
            SymValue::Ptr(pointer) => SymValue::Ptr(SymPtr { class, ..pointer }),
        }
    }
}

/// The numbers that names stand for, of one value after the other.
pub fn all_parts(alloc: Global, values: &[SymValue]) -> Result<Items<Form>, AllocError>
    ensures { IfOk result (λ parts. parts ≡ spec.all_parts values.now) }
{
    let mut parts = Items::new(alloc);
    let mut rest = values;
    while let Some((value, later)) = rest.split_first() {
        value.push_parts(alloc, &mut parts)?;
        rest = later;
    }
    Ok(parts)
}

/// The same values once more.
pub(crate) fn copy_values(alloc: Global, values: &[SymValue]) -> Result<Items<SymValue>, AllocError>
    ensures { IfOk result (λ copy. copy ≡ values.now) }
{
    let mut copy = Items::from_vec(Vec::with_capacity(alloc, values.len())?);
    for value in values {
        copy.push(value.copy(alloc)?)?;
    }
    Ok(copy)
}

/// The same forms once more.
pub(crate) fn copy_forms(alloc: Global, forms: &[Form]) -> Result<Items<Form>, AllocError>
    ensures { IfOk result (λ copy. copy ≡ forms.now) }
{
    let mut copy = Items::from_vec(Vec::with_capacity(alloc, forms.len())?);
    for form in forms {
        copy.push(copy_form(alloc, form)?)?;
    }
    Ok(copy)
}
