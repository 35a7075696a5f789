//! The name rules at one statement.

ghost use Rattle.std.specs.Prelude.{◌≡◌, ◌||◌};
ghost use Rattle.std.specs.List.{list_any};
ghost use Rattle.lq_tree.specs.declared.stmt.StmtKind.{out-StmtKind};
ghost use Rattle.lq_names.specs.Faults as spec;
ghost use Rattle.lq_names.specs.Rules as rules;
ghost use Rattle.lq_names.specs.Types.{result_of, seen};
ghost use Rattle.lq_names.specs.Seen.{at_site};

use crate::rules::{
    arguments_misfit, gives_nothing, gives_struct, is_main, is_no_number, is_whole, miscounts,
    misfits, one_gives_nothing, one_gives_struct,
};
use crate::site::Site;
use lq_tree::{Arm, Expr, ExprType, StmtKind, declared, function_of, is_known, is_step};

/// N1 at a statement: `main` is called.
pub fn s1(kind: &StmtKind) -> bool
    ensures { result ≡ spec.s1 (out-StmtKind kind.now) }
{
    match kind {
        StmtKind::Call(name, _) => is_main(name),
        _ => false,
    }
}

/// N3 at a statement: a variable, function or struct is unknown.
pub fn s3(site: &Site<'_>, kind: &StmtKind) -> bool
    ensures { result ≡ spec.s3 (at_site site.now) (out-StmtKind kind.now) }
{
    match kind {
        StmtKind::Local(ctype, _, _) => !is_known(site.program, &ctype.base),
        StmtKind::Set(name, _) => !site.is_in_scope(name),
        StmtKind::Call(name, _) => function_of(site.program, name).is_none(),
        _ => false,
    }
}

/// N4 at a statement: it declares a name that is in scope.
pub fn s4(site: &Site<'_>, kind: &StmtKind) -> bool
    ensures { result ≡ spec.s4 (at_site site.now) (out-StmtKind kind.now) }
{
    match kind {
        StmtKind::Local(_, name, _) | StmtKind::Foreach(name, _, _, _, _) => site.is_in_scope(name),
        _ => false,
    }
}

/// Whether a condition of an `if` is no int.
fn condition_misfits(site: &Site<'_>, arms: &[Arm]) -> bool
    ensures { result ≡ list_any (λ arm. spec.is_no_number (at_site site.now) (spec.condition arm)) arms.now }
{
    arms.iter().any(|arm| is_no_number(site, &arm.cond))
}

/// What the function of a site gives.
fn wanted_result<'a>(site: &Site<'a>) -> ExprType<'a>
    ensures { seen result ≡ result_of (at_site site.now).returns }
{
    match site.returns {
        Some(ctype) => declared(ctype),
        None => ExprType::Nothing,
    }
}

/// N5 at a statement: types disagree.
pub fn s5(site: &Site<'_>, kind: &StmtKind) -> bool
    ensures { result ≡ spec.s5 (at_site site.now) (out-StmtKind kind.now) }
{
    match kind {
        StmtKind::Local(ctype, _, Some(value)) => misfits(site, declared(ctype), value),
        StmtKind::Set(name, value) => misfits(site, site.type_in_scope(name), value),
        StmtKind::Store(target, value) => misfits(site, site.type_of(target), value),
        StmtKind::Call(name, args) => {
            arguments_misfit(site, function_of(site.program, name), args.as_slice())
        }
        StmtKind::If(arms, _) => condition_misfits(site, arms.as_slice()),
        StmtKind::While(value, _) | StmtKind::For(_, Some(value), _, _) | StmtKind::Print(value) =>
            { is_no_number(site, value) }
        StmtKind::Return(Some(value)) => misfits(site, wanted_result(site), value),
        StmtKind::Foreach(_, low, high, _, _) => is_no_number(site, low)
            || is_no_number(site, high),
        _ => false,
    }
}

/// Whether a call has a wrong number of arguments.
fn miscalls(site: &Site<'_>, kind: &StmtKind) -> bool
    ensures { result ≡ spec.miscalls (at_site site.now) (out-StmtKind kind.now) }
{
    match kind {
        StmtKind::Call(name, args) => miscounts(function_of(site.program, name), args.len()),
        _ => false,
    }
}

/// Whether a condition of an `if` is a call of a void function.
fn condition_gives_nothing(site: &Site<'_>, arms: &[Arm]) -> bool
    ensures { result ≡ list_any (λ arm. rules.gives_nothing (at_site site.now) (spec.condition arm)) arms.now }
{
    arms.iter().any(|arm| gives_nothing(site, &arm.cond))
}

/// Whether one of two expressions is a call of a void function.
fn either_gives_nothing(site: &Site<'_>, first: &Expr, second: &Expr) -> bool
    ensures { result ≡ (rules.gives_nothing (at_site site.now) first.now || rules.gives_nothing (at_site site.now) second.now) }
{
    gives_nothing(site, first) || gives_nothing(site, second)
}

/// Whether an expression that stands in a statement is a call of a void function.
fn value_gives_nothing(site: &Site<'_>, kind: &StmtKind) -> bool
    ensures { result ≡ spec.some_value (rules.gives_nothing (at_site site.now)) (out-StmtKind kind.now) }
{
    match kind {
        StmtKind::Call(_, args) => one_gives_nothing(site, args.as_slice()),
        StmtKind::If(arms, _) => condition_gives_nothing(site, arms.as_slice()),
        StmtKind::Local(_, _, Some(value))
        | StmtKind::Set(_, value)
        | StmtKind::While(value, _)
        | StmtKind::For(_, Some(value), _, _)
        | StmtKind::Return(Some(value))
        | StmtKind::Print(value) => gives_nothing(site, value),
        StmtKind::Store(target, value) => either_gives_nothing(site, target, value),
        StmtKind::Foreach(_, low, high, _, _) => either_gives_nothing(site, low, high),
        _ => false,
    }
}

/// N6 at a statement: a wrong number of arguments, or a void call as a value.
pub fn s6(site: &Site<'_>, kind: &StmtKind) -> bool
    ensures { result ≡ spec.s6 (at_site site.now) (out-StmtKind kind.now) }
{
    miscalls(site, kind) || value_gives_nothing(site, kind)
}

/// Whether a struct is declared without a star, or assigned.
fn names_struct(site: &Site<'_>, kind: &StmtKind) -> bool
    ensures { result ≡ spec.names_struct (at_site site.now) (out-StmtKind kind.now) }
{
    match kind {
        StmtKind::Local(ctype, _, _) => is_whole(declared(ctype)),
        StmtKind::Set(name, _) => is_whole(site.type_in_scope(name)),
        _ => false,
    }
}

/// Whether a condition of an `if` is a struct.
fn condition_gives_struct(site: &Site<'_>, arms: &[Arm]) -> bool
    ensures { result ≡ list_any (λ arm. rules.gives_struct (at_site site.now) (spec.condition arm)) arms.now }
{
    arms.iter().any(|arm| gives_struct(site, &arm.cond))
}

/// Whether one of two expressions is a struct.
fn either_gives_struct(site: &Site<'_>, first: &Expr, second: &Expr) -> bool
    ensures { result ≡ (rules.gives_struct (at_site site.now) first.now || rules.gives_struct (at_site site.now) second.now) }
{
    gives_struct(site, first) || gives_struct(site, second)
}

/// Whether an expression that stands in a statement is a struct.
fn value_gives_struct(site: &Site<'_>, kind: &StmtKind) -> bool
    ensures { result ≡ spec.some_value (rules.gives_struct (at_site site.now)) (out-StmtKind kind.now) }
{
    match kind {
        StmtKind::Call(_, args) => one_gives_struct(site, args.as_slice()),
        StmtKind::If(arms, _) => condition_gives_struct(site, arms.as_slice()),
        StmtKind::Local(_, _, Some(value))
        | StmtKind::Set(_, value)
        | StmtKind::While(value, _)
        | StmtKind::For(_, Some(value), _, _)
        | StmtKind::Return(Some(value))
        | StmtKind::Print(value) => gives_struct(site, value),
        StmtKind::Store(target, value) => either_gives_struct(site, target, value),
        StmtKind::Foreach(_, low, high, _, _) => either_gives_struct(site, low, high),
        _ => false,
    }
}

/// N7 at a statement: a struct is declared without a star, assigned, or used as a value.
pub fn s7(site: &Site<'_>, kind: &StmtKind) -> bool
    ensures { result ≡ spec.s7 (at_site site.now) (out-StmtKind kind.now) }
{
    names_struct(site, kind) || value_gives_struct(site, kind)
}

/// N8 at a statement: in a parallel statement a `print`, or a call of a function that may print.
pub fn s8(site: &Site<'_>, kind: &StmtKind) -> bool
    ensures { result ≡ spec.s8 (at_site site.now) (out-StmtKind kind.now) }
{
    match kind {
        StmtKind::Print(_) => site.parallel,
        StmtKind::Call(name, _) => site.parallel && site.prints.has(name),
        _ => false,
    }
}

/// N9 at a statement: there a call of a function that may allocate.
pub fn s9(site: &Site<'_>, kind: &StmtKind) -> bool
    ensures { result ≡ spec.s9 (at_site site.now) (out-StmtKind kind.now) }
{
    match kind {
        StmtKind::Call(name, _) => site.parallel && site.allocates.has(name),
        _ => false,
    }
}

/// N10 at a statement: a `return` in a parallel statement.
pub fn s10(site: &Site<'_>, kind: &StmtKind) -> bool
    ensures { result ≡ spec.s10 (at_site site.now) (out-StmtKind kind.now) }
{
    site.parallel && matches!(kind, StmtKind::Return(_))
}

/// N11 at a statement: in a parallel statement, assignment to a variable from outside it.
pub fn s11(site: &Site<'_>, kind: &StmtKind) -> bool
    ensures { result ≡ spec.s11 (at_site site.now) (out-StmtKind kind.now) }
{
    match kind {
        StmtKind::Set(name, _) => site.is_in_scope(name) && !site.is_declared_inside(name),
        _ => false,
    }
}

/// N12 at a statement: a `return` with a value in a void function, or without one in another.
pub fn s12(site: &Site<'_>, kind: &StmtKind) -> bool
    ensures { result ≡ spec.s12 (at_site site.now) (out-StmtKind kind.now) }
{
    match kind {
        StmtKind::Return(Some(_)) => site.returns.is_none(),
        StmtKind::Return(None) => site.returns.is_some(),
        _ => false,
    }
}

/// N13 at a statement: the step of a `foreach` is none.
pub fn s13(kind: &StmtKind) -> bool
    ensures { result ≡ spec.s13 (out-StmtKind kind.now) }
{
    match kind {
        StmtKind::Foreach(_, _, _, step, _) => !is_step(*step),
        _ => false,
    }
}
