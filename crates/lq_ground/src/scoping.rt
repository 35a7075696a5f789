//! The scopes around a statement.

ghost use Rattle.std.specs.Prelude.{◌≡◌, [], ◌∷◌, ◌++◌, IfOk, OnOk};
ghost use Rattle.lq_ground.specs.Ground as spec;

use lq_linear::Form;
use lq_symbolic::{Start, SymState};
use sqlite_items::Items;
use std::alloc::{AllocError, Global};
use std::mem::replace;

/// A scope becomes the innermost one.
pub fn enter_scope(alloc: Global, start: Start, state: &mut SymState) -> Result<(), AllocError>
    ensures { OnOk result (state.new ≡ spec.in_scope start state.old) }
{
    let mut scopes = Items::new(alloc);
    scopes.push(start)?;
    let outer = replace(&mut state.scopes, Items::new(alloc));
    scopes.append(outer)?;
    state.scopes = scopes;
    Ok(())
}

/// What the names of the outermost scope, that of the function, stood for at its entry.
pub fn at_entry(scopes: &[Start]) -> &[Form]
    ensures { result.now ≡ spec.at_entry scopes.now }
{
    match scopes.last() {
        Some(start) => start.values.as_slice(),
        None => &[],
    }
}
