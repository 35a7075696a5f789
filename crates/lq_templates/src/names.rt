//! The names of templates.

ghost use Rattle.std.specs.Prelude.{◌≡◌, ◌+◌, ◌^◌, ◌<◌, ◌++◌, [], ◌∷◌, length, OnOk};
ghost use Rattle.lq_templates.specs.Names as spec;

use crate::{NamePart, Named};
use lq_tree::{Name, Param, Slot, same};
use sqlite_items::Items;
use std::alloc::{AllocError, Global};

/// Whether a name has a meaning of its own in qualifiers.
pub fn is_word(name: &Name) -> bool
    ensures { result ≡ spec.is_word name.now }
{
    let text = name.as_bytes();
    text == b"off".as_slice() || (text == b"len".as_slice() || text == b"result".as_slice())
}

// Puts down a name.
fn push_name(
    alloc: Global,
    names: &mut Items<Named>,
    text: &[u8],
    part: NamePart,
    changed: bool,
) -> Result<(), AllocError>
    ensures { OnOk result (names.new ≡ names.old ++ record { text = text.now; part = part; changed = changed } ∷ []) }
{
    let text = Name::from_slice(alloc, text)?;
    names.push(Named {
        text,
        part,
        changed,
    })
}

// Puts down the numbers of an int or a pointer of this name.
pub(crate) fn push_numbers(
    alloc: Global,
    names: &mut Items<Named>,
    text: &[u8],
    stars: u8,
    changed: bool,
) -> Result<(), AllocError>
    ensures { OnOk result (names.new ≡ names.old ++ spec.numbers_of text.now stars changed) }
{
    if stars == 0 {
        return push_name(alloc, names, text, NamePart::Value, changed);
    }
    push_name(alloc, names, text, NamePart::Off, changed)?;
    push_name(alloc, names, text, NamePart::Len, changed)
}

// Puts down the names of a field.
fn push_field(alloc: Global, names: &mut Items<Named>, field: &Param) -> Result<(), AllocError>
    ensures { OnOk result (names.new ≡ names.old ++ spec.names_of_field field.now) }
{
    let mut text = Vec::from_slice(alloc, b".")?;
    text.extend_from_slice(field.name.as_bytes())?;
    push_numbers(alloc, names, text.as_slice(), field.ctype.stars, false)
}

// Puts down the names of fields.
pub(crate) fn push_fields(
    alloc: Global,
    names: &mut Items<Named>,
    fields: &[Param],
) -> Result<(), AllocError>
    ensures { OnOk result (names.new ≡ names.old ++ spec.field_names fields.now) }
{
    for field in fields {
        push_field(alloc, names, field)?;
    }
    Ok(())
}

/// Whether a slot is marked in a table.
pub fn is_marked(marks: &[bool], slot: usize) -> bool
    ensures { result ≡ spec.marked marks.now slot }
{
    match marks.get(slot) {
        None => false,
        Some(mark) => *mark,
    }
}

// Whether a slot has this name.
fn is_called(slot: &Slot, name: &Name) -> bool
    ensures { result ≡ spec.is_called slot.now.name name.now }
{
    match &slot.name {
        None => false,
        Some(other) => same(other, name),
    }
}

// Whether one of the slots from this number on is in scope and has this name.
fn is_called_later(in_scope: &[bool], slot: usize, slots: &[Slot], name: &Name) -> bool
    requires { slot + length slots.now < 2 ^ 64 }
    ensures { result ≡ spec.is_called_later (spec.marked in_scope.now) slot slots.now name.now }
{
    let mut number = slot;
    let mut rest = slots;
    while let Some((first, later)) = rest.split_first() {
        if is_marked(in_scope, number) && is_called(first, name) {
            return true;
        }
        number += 1;
        rest = later;
    }
    false
}

// Puts down the names of a slot, behind which these follow.
fn push_slot(
    alloc: Global,
    names: &mut Items<Named>,
    changed: &[bool],
    in_scope: &[bool],
    number: usize,
    slot: &Slot,
    later: &[Slot],
) -> Result<(), AllocError>
    requires { number + 1 + length later.now < 2 ^ 64 }
    ensures { OnOk result (names.new ≡ names.old
        ++ spec.slot_names (spec.marked changed.now) (spec.marked in_scope.now) number slot.now.name slot.now.ctype later.now) }
{
    if !is_marked(in_scope, number) {
        return Ok(());
    }
    let Some(name) = &slot.name else {
        return Ok(());
    };
    let is_free = !(is_word(name) || is_called_later(in_scope, number + 1, later, name));
    if is_free {
        let is_changed = is_marked(changed, number);
        push_numbers(alloc, names, name.as_bytes(), slot.ctype.stars, is_changed)?;
    }
    Ok(())
}

// Puts down the names of the source locals among slots, where some are changed and some are in scope.
pub(crate) fn push_locals(
    alloc: Global,
    names: &mut Items<Named>,
    slots: &[Slot],
    changed: &[bool],
    in_scope: &[bool],
) -> Result<(), AllocError>
    requires { length slots.now < 2 ^ 63 }
    ensures { OnOk result (names.new ≡ names.old ++ spec.local_names slots.now (spec.marked changed.now) (spec.marked in_scope.now)) }
{
    let mut number = 0;
    let mut rest = slots;
    while let Some((first, later)) = rest.split_first() {
        push_slot(alloc, names, changed, in_scope, number, first, later)?;
        number += 1;
        rest = later;
    }
    Ok(())
}
