//! Which functions may print, and which may allocate.

ghost use Rattle.std.specs.Prelude.{◌≡◌, ◌||◌, IfOk, find};
ghost use Rattle.std.specs.List.{list_any};
ghost use Rattle.std.specs.Option.{option_copied};
ghost use Rattle.lq_tree.specs.declared.expr.Expr.{out-Expr};
ghost use Rattle.lq_tree.specs.declared.stmt.StmtKind.{out-StmtKind};
ghost use Rattle.lq_names.specs.Calls as calls;
ghost use Rattle.lq_names.specs.Faults as faults;
ghost use Rattle.lq_names.specs.Scopes as scopes;
ghost use Rattle.lq_names.specs.Sites as sites;
ghost use Rattle.lq_names.specs.Seen.{is_among};

use crate::names::Names;
use lq_tree::{Arm, Boxed, Expr, Func, Name, Program, Stmt, StmtKind, function_of};
use std::alloc::{AllocError, Global};

/// What a function may do.
#[derive(Clone, Copy)]
pub enum Effect {
    Prints,
    Allocates,
}

/// Whether a node is a `calloc`, or a call of one of these functions.
fn node_does(effect: Effect, names: &Names<'_>, expr: &Expr) -> bool
    ensures { result ≡ calls.node_does effect (is_among names.now) (out-Expr expr.now) }
{
    match expr {
        Expr::Call(name, _) => names.has(name),
        Expr::Calloc(_, _) => matches!(effect, Effect::Allocates),
        _ => false,
    }
}

/// Whether an expression has such a node.
#[cycle(effects_of_expressions)]
fn expression_does(effect: Effect, names: &Names<'_>, expr: &Expr) -> bool
    ensures { result ≡ calls.expression_does effect (is_among names.now) expr.now }
{
    let own = node_does(effect, names, expr);
    match expr {
        Expr::Num(_) => own,
        Expr::Var(_) => own,
        Expr::Neg(part) => own | expression_does(effect, names, part.get()),
        Expr::Not(part) => own | expression_does(effect, names, part.get()),
        Expr::Deref(part) => own | expression_does(effect, names, part.get()),
        Expr::Arrow(part, _) => own | expression_does(effect, names, part.get()),
        Expr::Dot(part, _) => own | expression_does(effect, names, part.get()),
        Expr::Calloc(part, _) => own | expression_does(effect, names, part.get()),
        Expr::Bin(_, left, right) => {
            let first = own | expression_does(effect, names, left.get());
            first | expression_does(effect, names, right.get())
        }
        Expr::Index(left, right) => {
            let first = own | expression_does(effect, names, left.get());
            first | expression_does(effect, names, right.get())
        }
        Expr::Call(_, args) => own | expressions_do(effect, names, args.as_slice()),
    }
}

/// Whether one of several has.
#[cycle(effects_of_expressions)]
fn expressions_do(effect: Effect, names: &Names<'_>, exprs: &[Expr]) -> bool
    ensures { result ≡ list_any (calls.expression_does effect (is_among names.now)) exprs.now }
{
    let mut found = false;
    for expr in exprs {
        found = found | expression_does(effect, names, expr);
    }
    found
}

/// Whether a condition of an `if` has.
fn condition_does(effect: Effect, names: &Names<'_>, arms: &[Arm]) -> bool
    ensures { result ≡ list_any (λ arm. calls.expression_does effect (is_among names.now) (faults.condition arm)) arms.now }
{
    arms.iter()
        .any(|arm| expression_does(effect, names, &arm.cond))
}

/// Whether one of two expressions has.
fn either_does(effect: Effect, names: &Names<'_>, first: &Expr, second: &Expr) -> bool
    ensures { result ≡ (calls.expression_does effect (is_among names.now) first.now || calls.expression_does effect (is_among names.now) second.now) }
{
    expression_does(effect, names, first) | expression_does(effect, names, second)
}

/// Whether an expression that stands in a statement has.
fn value_does(effect: Effect, names: &Names<'_>, kind: &StmtKind) -> bool
    ensures { result ≡ faults.some_value (calls.expression_does effect (is_among names.now)) (out-StmtKind kind.now) }
{
    match kind {
        StmtKind::Call(_, args) => expressions_do(effect, names, args.as_slice()),
        StmtKind::If(arms, _) => condition_does(effect, names, arms.as_slice()),
        StmtKind::Local(_, _, Some(value))
        | StmtKind::Set(_, value)
        | StmtKind::While(value, _)
        | StmtKind::For(_, Some(value), _, _)
        | StmtKind::Return(Some(value))
        | StmtKind::Print(value) => expression_does(effect, names, value),
        StmtKind::Store(target, value) => either_does(effect, names, target, value),
        StmtKind::Foreach(_, low, high, _, _) => either_does(effect, names, low, high),
        _ => false,
    }
}

/// Whether a statement is a `print`, or a call of one of these functions.
fn form_does(effect: Effect, names: &Names<'_>, kind: &StmtKind) -> bool
    ensures { result ≡ calls.form_does effect (is_among names.now) (out-StmtKind kind.now) }
{
    match kind {
        StmtKind::Print(_) => matches!(effect, Effect::Prints),
        StmtKind::Call(name, _) => names.has(name),
        _ => false,
    }
}

/// Whether a statement does it itself or in its expressions.
fn itself_does(effect: Effect, names: &Names<'_>, kind: &StmtKind) -> bool
    ensures { result ≡ calls.statement_does effect (is_among names.now) (out-StmtKind kind.now) }
{
    form_does(effect, names, kind) | value_does(effect, names, kind)
}

/// Whether a statement does it, or one inside it.
#[cycle(effects_of_statements)]
fn stmt_does(effect: Effect, names: &Names<'_>, stmt: &Stmt) -> bool
    ensures { (s : scopes.Site) → result ≡ list_any (calls.placed_does effect (is_among names.now)) (sites.sites_of s stmt.now) }
{
    let own = itself_does(effect, names, &stmt.kind);
    match &stmt.kind {
        StmtKind::Block(body) => stmts_do(effect, names, body.as_slice()),
        StmtKind::Cobegin(blocks) => stmts_do(effect, names, blocks.as_slice()),
        StmtKind::If(arms, other) => {
            let first = own | arms_do(effect, names, arms.as_slice());
            first | other_does(effect, names, other)
        }
        StmtKind::While(_, body) => own | stmt_does(effect, names, body.get()),
        StmtKind::Foreach(_, _, _, _, body) => own | stmt_does(effect, names, body.get()),
        StmtKind::For(start, _, third, body) => {
            let first = other_does(effect, names, start) | own;
            let next = first | other_does(effect, names, third);
            next | stmt_does(effect, names, body.get())
        }
        _ => own,
    }
}

/// Whether one of several statements does it, whether they stand one after another or beside each other.
#[cycle(effects_of_statements)]
fn stmts_do(effect: Effect, names: &Names<'_>, stmts: &[Stmt]) -> bool
    ensures list { (s : scopes.Site) → result ≡ list_any (calls.placed_does effect (is_among names.now)) (sites.sites_list s stmts.now) }
    ensures beside { (s : scopes.Site) → result ≡ list_any (calls.placed_does effect (is_among names.now)) (sites.sites_beside s stmts.now) }
{
    let mut found = false;
    for stmt in stmts {
        found = found | stmt_does(effect, names, stmt);
    }
    found
}

/// Whether a body of an `if` does it.
#[cycle(effects_of_statements)]
fn arms_do(effect: Effect, names: &Names<'_>, arms: &[Arm]) -> bool
    ensures { (s : scopes.Site) → result ≡ list_any (calls.placed_does effect (is_among names.now)) (sites.sites_of_bodies s arms.now) }
{
    let mut found = false;
    for arm in arms {
        found = found | stmt_does(effect, names, arm.body.get());
    }
    found
}

/// Whether a statement that may be missing does it.
#[cycle(effects_of_statements)]
fn other_does(effect: Effect, names: &Names<'_>, other: &Option<Boxed<Stmt>>) -> bool
    ensures { (s : scopes.Site) → result ≡ list_any (calls.placed_does effect (is_among names.now)) (sites.sites_of_other s other.now) }
{
    match other {
        Some(stmt) => stmt_does(effect, names, stmt.get()),
        None => false,
    }
}

/// Whether a function does it, or calls one of these functions.
fn function_does(program: &Program, effect: Effect, names: &Names<'_>, name: &Name) -> bool
    ensures { result ≡ calls.function_does effect (is_among names.now) (scopes.function_of program.now.funcs name.now) }
{
    match function_of(program, name) {
        Some(function) => stmts_do(effect, names, function.body.as_slice()),
        None => false,
    }
}

/// A function that belongs to the set and isn't in it yet.
fn next_function<'a>(program: &'a Program, effect: Effect, names: &Names<'_>) -> Option<&'a Func>
    ensures { option_copied result ≡ find (calls.is_missing program.now effect (is_among names.now)) program.now.funcs }
{
    program.funcs.as_slice().iter().find(|function| {
        !names.has(&function.name) && function_does(program, effect, names, &function.name)
    })
}

/// The functions that may print, or may allocate.
pub fn functions_that<'a>(
    alloc: Global,
    program: &'a Program,
    effect: Effect,
) -> Result<Names<'a>, AllocError>
    ensures { IfOk result (λ names. calls.IsLeast program.now effect (is_among names)) }
{
    let mut names = Names::new(alloc);
    'more: while let Some(function) = next_function(program, effect, &names) {
        names.add(&function.name)?;
    }
    Ok(names)
}
