//! The values of the names of source locals.

ghost use Rattle.std.specs.Prelude.{◌≡◌, ℕ, ◌++◌, pos, true, reverse, replicate, slice_index_or, IfOk, OnOk};
ghost use Rattle.lq_linear.specs.Collect.{constant};
ghost use Rattle.lq_symbolic.specs.declared.value.SymValue.TheVariants.{Int as OfInt};
ghost use Rattle.lq_symbolic.specs.State.{parts};
ghost use Rattle.lq_templates.specs.Names.{marked};
ghost use Rattle.lq_ground.specs.Ground as ground;
ghost use Rattle.lq_ground.specs.Locals as spec;

use crate::names::Names;
use crate::scopes::next;
use lq_linear::Form;
use lq_symbolic::SymValue;
use lq_templates::{is_marked, is_word};
use lq_tree::{PFunc, Slot};
use sqlite_items::Items;
use std::alloc::{AllocError, Global};

// Says whether a slot is a source local, where these names stand behind it; and puts its own name with them.
fn take_name<'a>(
    behind: &mut Names<'a>,
    slot: &'a Slot,
    is_in_scope: bool,
) -> Result<bool, AllocError>
    ensures local { IfOk result (λ local. local ≡ spec.is_free behind.old is_in_scope slot.now.name) }
    ensures names { OnOk result (behind.new ≡ spec.with_name behind.old is_in_scope slot.now.name) }
{
    if !is_in_scope {
        return Ok(false);
    }
    match &slot.name {
        None => Ok(false),
        Some(name) => {
            let is_new = behind.add(name)?;
            Ok(is_new & !is_word(name))
        }
    }
}

// Which slots are source locals where these are in scope, from the last slot to the first.
fn locals_backwards(
    alloc: Global,
    slots: &[Slot],
    in_scope: &[bool],
) -> Result<Items<bool>, AllocError>
    ensures { IfOk result (λ locals. reverse locals ≡ spec.locals_from (marked in_scope.now) 0 slots.now) }
{
    let mut behind = Names::new(alloc);
    let mut locals = Items::new(alloc);
    let mut number = slots.len();
    while number > 0 {
        number -= 1;
        let is_in_scope = is_marked(in_scope, number);
        locals.push(take_name(&mut behind, &slots[number], is_in_scope)?)?;
    }
    Ok(locals)
}

// Puts down what the names of a slot stand for, if it is a source local.
fn push_value(
    alloc: Global,
    is_local: bool,
    values: &[SymValue],
    slot: u32,
    list: &mut Items<Form>,
) -> Result<(), AllocError>
    ensures { OnOk result (list.new ≡ list.old ++ spec.values_at is_local (slice_index_or values.now slot (OfInt (constant (pos 0))))) }
{
    if !is_local {
        return Ok(());
    }
    match values.get(slot as usize) {
        Some(value) => value.push_parts(alloc, list),
        None => list.push(Form::of(Vec::new(alloc), 0).ok_or(AllocError)?),
    }
}

// What the names of source locals stand for, where these slots are in scope and have these values.
pub(crate) fn values_of(
    alloc: Global,
    slots: &[Slot],
    in_scope: &[bool],
    values: &[SymValue],
) -> Result<Items<Form>, AllocError>
    ensures { IfOk result (λ list. list
        ≡ ground.values_from (marked in_scope.now) (λ slot. slice_index_or values.now slot (OfInt (constant (pos 0)))) 0 slots.now) }
{
    let mut list = Items::new(alloc);
    let mut locals = locals_backwards(alloc, slots, in_scope)?;
    let mut slot = 0;
    while let Some(is_local) = locals.pop() {
        push_value(alloc, is_local, values, slot, &mut list)?;
        slot = next(slot)?;
    }
    Ok(list)
}

// The marks of the first slots, so many.
pub(crate) fn first_marks(alloc: Global, count: u32) -> Result<Items<bool>, AllocError>
    ensures { IfOk result (λ marks. marks ≡ replicate count true) }
{
    let marks = vec![in alloc; true; count as usize]?;
    Ok(Items::from_vec(marks))
}

/// What the names of a function's parameters stand for, where its slots have these values. Where one is missing it is 0.
pub fn param_values(
    alloc: Global,
    function: &PFunc,
    values: &[SymValue],
) -> Result<Items<Form>, AllocError>
    ensures { IfOk result (λ list. list ≡ ground.param_values function.now (λ slot. slice_index_or values.now slot (OfInt (constant (pos 0))))) }
{
    let in_scope = first_marks(alloc, function.params)?;
    let slots = function.slots.as_slice();
    let count = slots.len().min(function.params as usize);
    values_of(alloc, &slots[..count], in_scope.as_slice(), values)
}
