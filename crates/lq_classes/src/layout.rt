//! The numbers of a program's slots and results, in order of function and slot, each result behind the slots of its function.

ghost use Rattle.std.specs.Prelude.{◌≡◌, ◌++◌, OnOk, IfOk, Some, length};
ghost use Rattle.lq_tree.specs.Types as types;
ghost use Rattle.lq_classes.specs.Classes.{type_in};
ghost use Rattle.lq_classes.specs.Layout.{IsSmall, total, AreStarts, number_if, pointers_in, pointers};

use crate::Var;
use lq_tree::{PFunc, PProgram, declared};
use std::alloc::{AllocError, Global};

/// Whether a function gives a pointer.
fn gives_pointer(function: &PFunc) -> bool
    ensures { result ≡ types.is_pointer (types.result_of function.now.result) }
{
    match &function.result {
        Some(ctype) => declared(ctype).is_pointer(),
        None => false,
    }
}

/// Whether the slot with this number is a pointer, or, behind the slots, the result.
fn is_pointer(function: &PFunc, slot: usize) -> bool
    ensures { result ≡ types.is_pointer (type_in (Some function.now) slot) }
{
    if slot == function.slots.len() {
        gives_pointer(function)
    } else {
        match function.slots.get(slot) {
            Some(slot) => declared(&slot.ctype).is_pointer(),
            None => false,
        }
    }
}

/// For each function the number of its first slot.
pub(crate) fn starts_of(alloc: Global, program: &PProgram) -> Result<Vec<usize>, AllocError>
    requires { IsSmall program.now }
    ensures { IfOk result (λ starts. AreStarts program.now.funcs starts.items) }
{
    let mut starts = Vec::new(alloc);
    let mut next = 0;
    for function in program.funcs.as_slice() {
        starts.push(next)?;
        next += function.slots.len() + 1;
    }
    Ok(starts)
}

/// The number of a variable, or `None` where it isn't one.
pub(crate) fn number_of(program: &PProgram, starts: &[usize], var: Var) -> Option<usize>
    requires small { IsSmall program.now }
    requires starts { AreStarts program.now.funcs starts.now }
    ensures { result ≡ number_if program.now var }
{
    match program.funcs.get(var.func as usize) {
        Some(function) if is_pointer(function, var.slot as usize) => {
            Some(starts[var.func as usize] + var.slot as usize)
        }
        _ => None,
    }
}

/// Puts down for each slot of a function, and for its result, whether it is a pointer.
fn put_pointers(function: &PFunc, pointers: &mut Vec<bool>) -> Result<(), AllocError>
    ensures { OnOk result (pointers.new.items ≡ pointers.old.items ++ pointers_in function.now) }
{
    for slot in function.slots.as_slice() {
        pointers.push(declared(&slot.ctype).is_pointer())?;
    }
    pointers.push(gives_pointer(function))?;
    Ok(())
}

/// For each number whether it is that of a variable.
pub(crate) fn pointers_of(alloc: Global, program: &PProgram) -> Result<Vec<bool>, AllocError>
    ensures size { IfOk result (λ found. length found.items ≡ total program.now.funcs) }
    ensures each { IfOk result (λ found. found.items ≡ pointers program.now.funcs) }
{
    let mut pointers = Vec::new(alloc);
    for function in program.funcs.as_slice() {
        put_pointers(function, &mut pointers)?;
    }
    Ok(pointers)
}
