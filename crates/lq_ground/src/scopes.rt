//! The numbers of the scopes of functions.

ghost use Rattle.std.specs.Prelude.{◌≡◌, ◌+◌, ◌<◌, List, length, IfOk};
ghost use Rattle.lq_tree.specs.declared.plain.PFunc.{PFunc};
ghost use Rattle.lq_templates.specs.Reading.{walked_blocks};
ghost use Rattle.lq_templates.specs.Spots as spots;
ghost use Rattle.lq_templates.specs.Spots.{Walk};
ghost use Rattle.lq_templates.specs.Templates.{count_scopes};
ghost use Rattle.lq_ground.specs.Ground.{function_scope};
ghost use Rattle.lq_ground.specs.Scopes.{AreScopes};

use lq_tree::{Branch, PKind, PProgram, PStmt};
use sqlite_items::Items;
use std::alloc::{AllocError, Global};

// The sum of two numbers. Where it doesn't fit there is no room for so many.
pub(crate) fn sum(a: u32, b: u32) -> Result<u32, AllocError>
    ensures { IfOk result (λ sum. sum ≡ a + b) }
{
    a.checked_add(b).ok_or(AllocError)
}

// The next number.
pub(crate) fn next(number: u32) -> Result<u32, AllocError>
    ensures { IfOk result (λ next. next ≡ number + 1) }
{
    sum(number, 1)
}

// How many scopes there are behind a statement, of which so many come before it.
#[cycle(scopes)]
fn count_statement(kind: &PKind, scopes: u32) -> Result<u32, AllocError>
    ensures { IfOk result (λ after. (w : Walk) → scopes ≡ count_scopes w.spots → after ≡ count_scopes (spots.walked kind.now w).spots) }
{
    match kind {
        PKind::If(_, body, other) => {
            let first = count_list(body.as_slice(), scopes)?;
            count_list(other.as_slice(), first)
        }
        PKind::While(head, _, body) => {
            let tested = count_list(head.as_slice(), scopes)?;
            count_list(body.as_slice(), tested)
        }
        PKind::Cobegin(blocks) => count_branches(blocks.as_slice(), scopes),
        PKind::Foreach(_, _, _, _, branch) => count_branch(branch, scopes),
        _ => Ok(scopes),
    }
}

// Behind a list.
#[cycle(scopes)]
fn count_list(list: &[PStmt], scopes: u32) -> Result<u32, AllocError>
    ensures { IfOk result (λ after. (w : Walk) → scopes ≡ count_scopes w.spots → after ≡ count_scopes (spots.walked_all list.now w).spots) }
{
    let mut so_far = scopes;
    for statement in list {
        so_far = count_statement(&statement.kind, so_far)?;
    }
    Ok(so_far)
}

// Behind a branch, which is a scope itself.
#[cycle(scopes)]
fn count_branch(branch: &Branch, scopes: u32) -> Result<u32, AllocError>
    ensures { IfOk result (λ after. (w : Walk) → scopes ≡ count_scopes w.spots → after ≡ count_scopes (spots.walked_branch branch.now w).spots) }
{
    let inside = next(scopes)?;
    count_list(branch.body.as_slice(), inside)
}

// Behind branches beside each other.
#[cycle(scopes)]
fn count_branches(blocks: &[Branch], scopes: u32) -> Result<u32, AllocError>
    ensures { IfOk result (λ after. (w : Walk) → scopes ≡ count_scopes w.spots → after ≡ count_scopes (walked_blocks blocks.now w).spots) }
{
    let mut so_far = scopes;
    for branch in blocks {
        so_far = count_branch(branch, so_far)?;
    }
    Ok(so_far)
}

// The numbers of the functions' scopes, and behind them the number of all scopes.
pub(crate) fn scopes_of(alloc: Global, program: &PProgram) -> Result<Items<u32>, AllocError>
    ensures { IfOk result (λ scopes. AreScopes program.now.funcs scopes) }
{
    let mut scopes = Items::new(alloc);
    let mut so_far = 0;
    for function in program.funcs.as_slice() {
        scopes.push(so_far)?;
        let inside = count_list(function.body.as_slice(), 0)?;
        so_far = sum(next(so_far)?, inside)?;
    }
    scopes.push(so_far)?;
    Ok(scopes)
}

// The number of the scope of a function, and behind the functions the number of all scopes.
pub(crate) fn scope_of(scopes: &[u32], func: u32) -> u32
    requires { 0 < length scopes.now }
    ensures { (funcs : List PFunc) → AreScopes funcs scopes.now → result ≡ function_scope funcs func }
{
    let last = scopes.len() - 1;
    let func = func as usize;
    if func < last {
        scopes[func]
    } else {
        scopes[last]
    }
}
