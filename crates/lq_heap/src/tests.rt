//! Records that are opened, read, written and folded.

use crate::{ask_folds, fold, open_record, reach, read_field, write_field, zero_parts};
use lq_chain::Chain;
use lq_linear::Form;
use lq_symbolic::{FieldType, OpenRecords, SymPtr, SymState, SymValue};
use lq_tally::Tally;
use lq_templates::Site;
use lq_tree::{Base, CType, Items, Place};
use std::alloc::{AllocError, Global};
use std::test::Fail;

// A state of which nothing is known.
fn start(alloc: Global) -> SymState {
    SymState {
        slots: Items::new(alloc),
        items: Chain::new(alloc),
        opened: OpenRecords::new(alloc),
        scopes: Items::new(alloc),
        next: 7,
    }
}

// A statement.
fn site() -> Site {
    let place = Place { line: 1, col: 1 };
    Site {
        at: place,
        first: place,
        second: place,
        class: 0,
        kinds: (false, false),
        fields: (0, 0),
    }
}

// A number.
fn number(alloc: Global, number: i64) -> Result<Form, AllocError> {
    Form::of(Vec::new(alloc), number).ok_or(AllocError)
}

// An element of a block.
fn element(alloc: Global, at: i64) -> Result<SymPtr, AllocError> {
    Ok(SymPtr {
        class: 1,
        block: 3,
        offset: number(alloc, at)?,
    })
}

// A field of an int, or of a pointer.
fn field(stars: u8) -> FieldType {
    let base = Base::Int;
    FieldType {
        ctype: CType { base, stars },
        class: 2,
    }
}

// Whether a value is a number.
fn is_number(value: &SymValue, number: i64) -> bool {
    match value {
        SymValue::Int(form) => form.terms().is_empty() && form.constant() == number,
        SymValue::Ptr(_) => false,
    }
}

#[test]
fn a_record_stays_open_until_another_is_wanted(rt: HostRuntime) -> Result<(), Fail> {
    let alloc = rt.alloc();
    let mut state = start(alloc);
    let mut out = Tally::new(alloc);
    let fields = [field(0)];
    let fields = fields.as_slice();
    let first = element(alloc, 0)?;
    let second = element(alloc, 1)?;
    open_record(alloc, &mut state, site(), 1, fields, &first, &mut out)?;
    assert!(rt; out.count == 0 && state.next == 8 && state.items.len() == 1);
    write_field(&mut state, 1, 0, SymValue::Int(number(alloc, 5)?));
    open_record(alloc, &mut state, site(), 1, fields, &first, &mut out)?;
    let found = read_field(alloc, &state, 1, 0)?;
    assert!(rt; out.count == 0 && is_number(&found, 5));
    open_record(alloc, &mut state, site(), 1, fields, &second, &mut out)?;
    let found = read_field(alloc, &state, 1, 0)?;
    assert!(rt; out.count == 1 && state.next == 9 && !is_number(&found, 5));
    Ok(())
}

#[test]
fn all_open_records_are_folded(rt: HostRuntime) -> Result<(), Fail> {
    let alloc = rt.alloc();
    let mut state = start(alloc);
    let mut out = Tally::new(alloc);
    let fields = [field(0), field(1)];
    let at = element(alloc, 0)?;
    open_record(
        alloc,
        &mut state,
        site(),
        2,
        fields.as_slice(),
        &at,
        &mut out,
    )?;
    open_record(
        alloc,
        &mut state,
        site(),
        1,
        fields.as_slice(),
        &at,
        &mut out,
    )?;
    ask_folds(alloc, &state, site(), &mut out)?;
    assert!(rt; out.count == 2 && state.opened.as_slice().len() == 2);
    fold(alloc, &mut state, site(), &mut out)?;
    assert!(rt; out.count == 4 && state.opened.as_slice().is_empty());
    let parts = zero_parts(alloc, fields.as_slice())?;
    assert!(rt; parts.len() == 3);
    Ok(())
}

#[test]
fn an_offset_and_an_index_add_up(rt: HostRuntime) -> Result<(), Fail> {
    let alloc = rt.alloc();
    let mut state = start(alloc);
    let pointer = element(alloc, 4)?;
    let index = number(alloc, 5)?;
    let at = reach(alloc, &mut state, &pointer, &index)?;
    assert!(rt; at.class == 1 && at.block == 3 && at.offset.constant() == 9);
    assert!(rt; state.next == 7);
    Ok(())
}
