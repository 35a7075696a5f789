//! The open record of a class.

ghost use Rattle.std.specs.Prelude.{◌≡◌, ◌==◌, nat_lt, false, position, slice_get, OnOk};
ghost use Rattle.std.specs.Option.{option_copied, option_map_or};
ghost use Rattle.std.specs.List.{prefix_len};
ghost use Rattle.lq_heap.specs.Records as spec;

use lq_symbolic::{OpenRecords, Opened, SymValue};
use std::alloc::AllocError;

/// The open record of a class.
pub(crate) fn opened_of(records: &[Opened], class: u32) -> Option<&Opened>
    ensures { option_copied result ≡ spec.opened_of class records.now }
{
    records.iter().find(|opened| opened.class == class)
}

/// The values of the fields of the open record of a class, and none where none is open.
pub(crate) fn fields_in(records: &[Opened], class: u32) -> &[SymValue]
    ensures { result.now ≡ spec.fields_in (spec.opened_of class records.now) }
{
    match opened_of(records, class) {
        Some(opened) => opened.fields.as_slice(),
        None => &[],
    }
}

/// Where the open record of a class stands.
pub(crate) fn place_of(records: &[Opened], class: u32) -> Option<usize>
    ensures { result ≡ position (λ o. o.class == class) records.now }
{
    records.iter().position(|opened| opened.class == class)
}

// How many records stand in front of a class.
fn before(records: &[Opened], class: u32) -> usize
    ensures { result ≡ prefix_len (λ o. nat_lt o.class class) records.now }
{
    records
        .iter()
        .take_while(|opened| opened.class < class)
        .count()
}

// Whether the record at this place is the one of a class.
fn is_of(records: &[Opened], at: usize, class: u32) -> bool
    ensures { result ≡ option_map_or (λ o. o.class == class) (slice_get records.now at) false }
{
    match records.get(at) {
        Some(opened) => opened.class == class,
        None => false,
    }
}

/// A record is open now, and no other of its class.
pub(crate) fn put_opened(records: &mut OpenRecords, opened: Opened) -> Result<(), AllocError>
    ensures { OnOk result (records.new ≡ spec.with_opened opened records.old) }
{
    let at = before(records.as_slice(), opened.class);
    if is_of(records.as_slice(), at, opened.class) {
        records.set(at, opened);
        Ok(())
    } else {
        records.insert(at, opened)
    }
}
