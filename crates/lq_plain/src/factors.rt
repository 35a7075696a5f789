//! The factors of a source, from which the checker takes its multipliers.

ghost use Rattle.std.specs.Prelude.{◌≡◌, ◌||◌, pos, IfOk};
ghost use Rattle.std.specs.List.{list_any};
ghost use Rattle.lq_tree.specs.declared.expr.Expr.{Expr as Tree, Bin, end_of-Expr, more_of-Expr};
ghost use Rattle.lq_tree.specs.declared.stmt.Arm.{Arm as Guarded};
ghost use Rattle.lq_tree.specs.declared.stmt.StmtKind.{out-StmtKind};
ghost use Rattle.lq_tree.specs.Walk as walk;
ghost use Rattle.lq_names.specs.Scopes as scopes;
ghost use Rattle.lq_names.specs.Sites as sites;
ghost use Rattle.lq_plain.specs.Factors as spec;

use lq_tree::{Arm, BinOp, Boxed, Expr, Func, Items, Program, Stmt, StmtKind};
use std::alloc::{AllocError, Global};

// Whether an expression is this literal.
fn is_literal(number: u32, expr: &Expr) -> bool
    ensures { result ≡ spec.is_literal (pos number) (more_of-Expr expr.now end_of-Expr) }
{
    match expr {
        Expr::Num(value) => *value == i64::from(number),
        _ => false,
    }
}

// Whether the literal is an operand of a product, or what is divided by.
fn operator_takes(number: u32, op: BinOp, left: &Expr, right: &Expr) -> bool
    ensures { result ≡ spec.takes (pos number) (Bin op left.now right.now) }
{
    match op {
        BinOp::Mul => is_literal(number, left) | is_literal(number, right),
        BinOp::Div | BinOp::Rem => is_literal(number, right),
        _ => false,
    }
}

// Whether a node takes the number.
fn takes(number: u32, expr: &Expr) -> bool
    ensures { result ≡ spec.takes (pos number) expr.now }
{
    match expr {
        Expr::Bin(op, left, right) => operator_takes(number, *op, left.get(), right.get()),
        _ => false,
    }
}

// Whether an expression has such a node.
#[cycle(factors_in_expressions)]
fn expression_takes(number: u32, expr: &Expr) -> bool
    ensures { result ≡ list_any (spec.takes (pos number)) (walk.nodes expr.now) }
{
    let own = takes(number, expr);
    match expr {
        Expr::Num(_) => own,
        Expr::Var(_) => own,
        Expr::Neg(part) => own | expression_takes(number, part.get()),
        Expr::Not(part) => own | expression_takes(number, part.get()),
        Expr::Deref(part) => own | expression_takes(number, part.get()),
        Expr::Arrow(part, _) => own | expression_takes(number, part.get()),
        Expr::Dot(part, _) => own | expression_takes(number, part.get()),
        Expr::Calloc(part, _) => own | expression_takes(number, part.get()),
        Expr::Bin(_, left, right) => {
            let first = own | expression_takes(number, left.get());
            first | expression_takes(number, right.get())
        }
        Expr::Index(left, right) => {
            let first = own | expression_takes(number, left.get());
            first | expression_takes(number, right.get())
        }
        Expr::Call(_, args) => own | expressions_take(number, args.as_slice()),
    }
}

// Whether one of several has.
#[cycle(factors_in_expressions)]
fn expressions_take(number: u32, exprs: &[Expr]) -> bool
    ensures { result ≡ list_any (λ (e : Tree). list_any (spec.takes (pos number)) (walk.nodes e)) exprs.now }
{
    let mut found = false;
    for expr in exprs {
        found = found | expression_takes(number, expr);
    }
    found
}

// Whether a condition of an `if` has.
fn condition_takes(number: u32, arms: &[Arm]) -> bool
    ensures { result ≡ list_any (λ (arm : Guarded). list_any (spec.takes (pos number)) (walk.nodes (walk.condition arm))) arms.now }
{
    arms.iter().any(|arm| expression_takes(number, &arm.cond))
}

// Whether one of two expressions has.
fn either_takes(number: u32, first: &Expr, second: &Expr) -> bool
    ensures { result ≡ (list_any (spec.takes (pos number)) (walk.nodes first.now) || list_any (spec.takes (pos number)) (walk.nodes second.now)) }
{
    expression_takes(number, first) | expression_takes(number, second)
}

// Whether an expression that stands in a statement itself has.
fn value_takes(number: u32, kind: &StmtKind) -> bool
    ensures { result ≡ walk.some_value (λ (e : Tree). list_any (spec.takes (pos number)) (walk.nodes e)) (out-StmtKind kind.now) }
{
    match kind {
        StmtKind::Call(_, args) => expressions_take(number, args.as_slice()),
        StmtKind::If(arms, _) => condition_takes(number, arms.as_slice()),
        StmtKind::Local(_, _, Some(value))
        | StmtKind::Set(_, value)
        | StmtKind::While(value, _)
        | StmtKind::For(_, Some(value), _, _)
        | StmtKind::Return(Some(value))
        | StmtKind::Print(value) => expression_takes(number, value),
        StmtKind::Store(target, value) => either_takes(number, target, value),
        StmtKind::Foreach(_, low, high, _, _) => either_takes(number, low, high),
        _ => false,
    }
}

// Whether a statement has, or one inside it.
#[cycle(factors_in_statements)]
fn stmt_takes(number: u32, stmt: &Stmt) -> bool
    ensures { (s : scopes.Site) → result ≡ list_any (λ (p : sites.Placed). walk.some_value (λ (e : Tree). list_any (spec.takes (pos number)) (walk.nodes e)) (out-StmtKind p.kind)) (sites.sites_of s stmt.now) }
{
    let own = value_takes(number, &stmt.kind);
    match &stmt.kind {
        StmtKind::Block(body) => stmts_take(number, body.as_slice()),
        StmtKind::Cobegin(blocks) => stmts_take(number, blocks.as_slice()),
        StmtKind::If(arms, other) => {
            let first = own | arms_take(number, arms.as_slice());
            first | other_takes(number, other)
        }
        StmtKind::While(_, body) => own | stmt_takes(number, body.get()),
        StmtKind::Foreach(_, _, _, _, body) => own | stmt_takes(number, body.get()),
        StmtKind::For(start, _, third, body) => {
            let first = other_takes(number, start) | own;
            let next = first | other_takes(number, third);
            next | stmt_takes(number, body.get())
        }
        _ => own,
    }
}

// Whether one of several statements has, whether they stand one after another or beside each other.
#[cycle(factors_in_statements)]
fn stmts_take(number: u32, stmts: &[Stmt]) -> bool
    ensures list { (s : scopes.Site) → result ≡ list_any (λ (p : sites.Placed). walk.some_value (λ (e : Tree). list_any (spec.takes (pos number)) (walk.nodes e)) (out-StmtKind p.kind)) (sites.sites_list s stmts.now) }
    ensures beside { (s : scopes.Site) → result ≡ list_any (λ (p : sites.Placed). walk.some_value (λ (e : Tree). list_any (spec.takes (pos number)) (walk.nodes e)) (out-StmtKind p.kind)) (sites.sites_beside s stmts.now) }
{
    let mut found = false;
    for stmt in stmts {
        found = found | stmt_takes(number, stmt);
    }
    found
}

// Whether a body of an `if` has.
#[cycle(factors_in_statements)]
fn arms_take(number: u32, arms: &[Arm]) -> bool
    ensures { (s : scopes.Site) → result ≡ list_any (λ (p : sites.Placed). walk.some_value (λ (e : Tree). list_any (spec.takes (pos number)) (walk.nodes e)) (out-StmtKind p.kind)) (sites.sites_of_bodies s arms.now) }
{
    let mut found = false;
    for arm in arms {
        found = found | stmt_takes(number, arm.body.get());
    }
    found
}

// Whether a statement that may be missing has.
#[cycle(factors_in_statements)]
fn other_takes(number: u32, other: &Option<Boxed<Stmt>>) -> bool
    ensures { (s : scopes.Site) → result ≡ list_any (λ (p : sites.Placed). walk.some_value (λ (e : Tree). list_any (spec.takes (pos number)) (walk.nodes e)) (out-StmtKind p.kind)) (sites.sites_of_other s other.now) }
{
    match other {
        Some(stmt) => stmt_takes(number, stmt.get()),
        None => false,
    }
}

// Whether somewhere in a function the number is a factor.
fn function_takes(number: u32, function: &Func) -> bool
    ensures { result ≡ spec.function_takes (pos number) function.now }
{
    stmts_take(number, function.body.as_slice())
}

// Whether some function takes it.
fn program_takes(number: u32, program: &Program) -> bool
    ensures { result ≡ list_any (spec.function_takes (pos number)) program.now.funcs }
{
    program
        .funcs
        .as_slice()
        .iter()
        .any(|function| function_takes(number, function))
}

// The factors of a source (docs/LANGUAGE.md, "Plain form").
pub(crate) fn factors_of(alloc: Global, program: &Program) -> Result<Items<i64>, AllocError>
    ensures { IfOk result (λ found. found ≡ spec.factors program.now) }
{
    let mut found = Items::new(alloc);
    for number in 2..65 {
        if program_takes(number, program) {
            found.push(i64::from(number))?;
        }
    }
    Ok(found)
}
