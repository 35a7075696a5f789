//! Where a walk stands, and what names stand for.

use crate::{Position, at_entry, enter_scope, param_values};
use lq_chain::Chain;
use lq_linear::Form;
use lq_symbolic::{OpenRecords, Start, SymPtr, SymState, SymValue};
use lq_tree::{Base, CType, Name, PExpr, PFunc, PKind, Place, Slot};
use sqlite_items::Items;
use std::alloc::{AllocError, Global};
use std::test::Fail;

// An int, or a pointer to ints, of this name.
fn slot(alloc: Global, name: &[u8], stars: u8) -> Result<Slot, AllocError> {
    Ok(Slot {
        name: Some(Name::from_slice(alloc, name)?),
        ctype: CType {
            base: Base::Int,
            stars,
        },
    })
}

// void f(int *p, int len, int n) { int p; }
fn function(alloc: Global) -> Result<PFunc, AllocError> {
    let mut slots = Items::new(alloc);
    slots.push(slot(alloc, b"p", 1)?)?;
    slots.push(slot(alloc, b"len", 0)?)?;
    slots.push(slot(alloc, b"n", 0)?)?;
    slots.push(slot(alloc, b"p", 0)?)?;
    Ok(PFunc {
        at: Place { line: 1, col: 1 },
        name: Name::from_slice(alloc, b"f")?,
        result: None,
        params: 3,
        slots,
        body: Items::new(alloc),
    })
}

// The form of a number.
fn number(alloc: Global, number: i64) -> Result<Form, AllocError> {
    Form::of(Vec::new(alloc), number).ok_or(AllocError)
}

// A pointer to element 5 of the block of symbol 7, and the ints 1, 2 and 3.
fn values(alloc: Global) -> Result<Items<SymValue>, AllocError> {
    let mut values = Items::new(alloc);
    values.push(SymValue::Ptr(SymPtr {
        class: 1,
        block: 7,
        offset: number(alloc, 5)?,
    }))?;
    for int in 1..4 {
        values.push(SymValue::Int(number(alloc, int)?))?;
    }
    Ok(values)
}

#[test]
fn parameters_stand_for_offsets_lengths_and_ints(rt: HostRuntime) -> Result<(), Fail> {
    let alloc = rt.alloc();
    let forms = param_values(alloc, &function(alloc)?, values(alloc)?.as_slice())?;
    assert!(rt; forms.len() == 3);
    let mut told = Items::new(alloc);
    for form in forms.as_slice() {
        told.push((form.terms().len(), form.constant()))?;
    }
    assert!(rt; told.as_slice() == [(0, 5), (1, 0), (0, 2)].as_slice());
    Ok(())
}

#[test]
fn slots_come_into_scope_and_go(rt: HostRuntime) -> Result<(), Fail> {
    let alloc = rt.alloc();
    let mut at = Position::before_body(alloc, &function(alloc)?)?;
    let width = at.width();
    let set = PKind::Set(3, PExpr::Num(0));
    at.assign(&set)?;
    at.enter_index(6)?;
    assert!(rt; at.scope() == [0, 1, 2, 3, 6].as_slice());
    at.leave(width);
    at.assign(&set)?;
    assert!(rt; at.scope() == [0, 1, 2].as_slice());
    Ok(())
}

#[test]
fn the_outermost_scope_tells_the_entry(rt: HostRuntime) -> Result<(), Fail> {
    let alloc = rt.alloc();
    let mut state = SymState {
        slots: Items::new(alloc),
        items: Chain::new(alloc),
        opened: OpenRecords::new(alloc),
        scopes: Items::new(alloc),
        next: 0,
    };
    for scope in 0..3 {
        let mut values = Items::new(alloc);
        values.push(number(alloc, i64::from(scope))?)?;
        enter_scope(alloc, Start { scope, values }, &mut state)?;
    }
    let first = state.scopes.get(0).ok_or("no scope")?;
    assert!(rt; first.scope == 2 && state.scopes.len() == 3);
    let entry = at_entry(state.scopes.as_slice());
    assert!(rt; entry.len() == 1);
    let entry = entry.first().ok_or("no value")?;
    assert!(rt; entry.constant() == 0);
    Ok(())
}
