//! Values of expressions, and what conditions tell.

use lq_chain::Chain;
use lq_linear::Form;
use lq_symbolic::{OpenRecords, SymState, SymValue, all_parts};
use lq_tree::{BinOp, Boxed, Items, PExpr};
use std::alloc::{AllocError, Global};
use std::test::Fail;

// A state whose slot 0 is a new int, and whose slot 1 is a new pointer.
fn start(alloc: Global) -> Result<SymState, AllocError> {
    let mut state = SymState {
        slots: Items::new(alloc),
        items: Chain::new(alloc),
        opened: OpenRecords::new(alloc),
        scopes: Items::new(alloc),
        next: 0,
    };
    let int = state.new_int(alloc)?;
    state.slots.push(int)?;
    let pointer = state.new_pointer(alloc, 1)?;
    state.slots.push(pointer)?;
    Ok(state)
}

// An operator and its operands.
fn bin(alloc: Global, op: BinOp, a: PExpr, b: PExpr) -> Result<PExpr, AllocError> {
    Ok(PExpr::Bin(op, Boxed::new(alloc, a)?, Boxed::new(alloc, b)?))
}

// The terms and the constant of an int.
fn form(value: &SymValue) -> Option<&Form> {
    match value {
        SymValue::Int(form) => Some(form),
        SymValue::Ptr(_) => None,
    }
}

#[test]
fn sums_are_forms_and_quotients_are_new(rt: HostRuntime) -> Result<(), Fail> {
    let alloc = rt.alloc();
    let mut state = start(alloc)?;
    let sum = bin(alloc, BinOp::Add, PExpr::Slot(0), PExpr::Num(4))?;
    let sum = state.value(alloc, &sum)?;
    let found = form(&sum).ok_or("no int")?;
    assert!(rt; found.terms() == [(0, 1)].as_slice() && found.constant() == 4);
    let half = bin(alloc, BinOp::Div, PExpr::Slot(0), PExpr::Num(2))?;
    let half = state.value(alloc, &half)?;
    let found = form(&half).ok_or("no int")?;
    assert!(rt; found.terms() == [(3, 1)].as_slice() && state.next == 4);
    // The rows of the pointer, and the division.
    assert!(rt; state.items.len() == 3);
    Ok(())
}

#[test]
fn conditions_tell_rows(rt: HostRuntime) -> Result<(), Fail> {
    let alloc = rt.alloc();
    let mut state = start(alloc)?;
    let before = state.copy(alloc)?;
    let less = bin(alloc, BinOp::Lt, PExpr::Slot(0), PExpr::Num(9))?;
    let null = PExpr::IsNull(Boxed::new(alloc, PExpr::Slot(1))?);
    let both = bin(alloc, BinOp::And, less, null)?;
    state.assume(alloc, &both, false)?;
    assert!(rt; state.items.len() == 2);
    state.assume(alloc, &both, true)?;
    assert!(rt; state.items.len() == 4 && before.items.len() == 2);
    Ok(())
}

#[test]
fn pointers_are_shifted_and_put(rt: HostRuntime) -> Result<(), Fail> {
    let alloc = rt.alloc();
    let mut state = start(alloc)?;
    let pointer = Boxed::new(alloc, PExpr::Slot(1))?;
    let shift = PExpr::Shift(pointer, Boxed::new(alloc, PExpr::Num(3))?);
    let shifted = state.value(alloc, &shift)?;
    let parts = all_parts(alloc, [shifted].as_slice())?;
    assert!(rt; parts.len() == 2 && state.items.len() == 3);
    let null = state.value(alloc, &PExpr::Null)?;
    state.put(7, 1, null);
    let found = state.value_at(alloc, 1)?.into_pointer(alloc)?;
    assert!(rt; found.class == 7 && found.block == 3);
    Ok(())
}
