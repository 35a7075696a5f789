//! The walk over the statements of a function, with what is in scope.

ghost use Rattle.std.specs.Prelude.{◌≡◌, [], ◌∷◌, map, IfOk, OnOk};
ghost use Rattle.std.specs.List.{flat_map};
ghost use Rattle.std.specs.Option.{option_copied};
ghost use Rattle.lq_tree.specs.declared.stmt.StmtKind.{out-StmtKind};
ghost use Rattle.lq_names.specs.Faults as faults;
ghost use Rattle.lq_names.specs.Scopes.{in_parallel};
ghost use Rattle.lq_names.specs.Sites as sites;
ghost use Rattle.lq_names.specs.Seen.{at_site, frame_site};

use crate::fault::Fault;
use crate::least::at_statement;
use crate::site::{Frame, Site};
use crate::walk::{in_expression, in_expressions};
use lq_tree::{Arm, Boxed, Expr, ExprType, Name, Place, Stmt, StmtKind, Variable, declared};
use std::alloc::AllocError;

/// The least fault, with those in the conditions of an `if`.
fn in_conditions(site: &Site<'_>, at: Place, arms: &[Arm], found: Option<Fault>) -> Option<Fault>
    ensures { result ≡ faults.noted at found (flat_map (faults.expression_rules (at_site site.now)) (map faults.condition arms.now)) }
{
    let mut found = found;
    for arm in arms {
        found = in_expression(site, at, &arm.cond, found);
    }
    found
}

/// The least fault, with those in two expressions.
#[tactic(auto, using(crate::proofs::ValueLaws::two_values))]
fn in_two(
    site: &Site<'_>,
    at: Place,
    left: &Expr,
    right: &Expr,
    found: Option<Fault>,
) -> Option<Fault>
    ensures { result ≡ faults.noted at found (flat_map (faults.expression_rules (at_site site.now)) (left.now ∷ right.now ∷ [])) }
{
    let next = in_expression(site, at, left, found);
    in_expression(site, at, right, next)
}

/// The least fault, with those in one expression.
#[tactic(auto, using(crate::proofs::ValueLaws::one_value))]
fn in_one(site: &Site<'_>, at: Place, expr: &Expr, found: Option<Fault>) -> Option<Fault>
    ensures { result ≡ faults.noted at found (flat_map (faults.expression_rules (at_site site.now)) (expr.now ∷ [])) }
{
    in_expression(site, at, expr, found)
}

/// The least fault, with those in the expressions that stand in a statement itself.
fn in_values(site: &Site<'_>, at: Place, kind: &StmtKind, found: Option<Fault>) -> Option<Fault>
    ensures { result ≡ faults.noted at found (flat_map (faults.expression_rules (at_site site.now)) (faults.values (out-StmtKind kind.now))) }
{
    match kind {
        StmtKind::Local(_, _, Some(value)) => in_one(site, at, value, found),
        StmtKind::Set(_, value) => in_one(site, at, value, found),
        StmtKind::While(value, _) => in_one(site, at, value, found),
        StmtKind::For(_, Some(value), _, _) => in_one(site, at, value, found),
        StmtKind::Return(Some(value)) => in_one(site, at, value, found),
        StmtKind::Print(value) => in_one(site, at, value, found),
        StmtKind::Store(target, value) => in_two(site, at, target, value, found),
        StmtKind::Foreach(_, low, high, _, _) => in_two(site, at, low, high, found),
        StmtKind::Call(_, args) => in_expressions(site, at, args.as_slice(), found),
        StmtKind::If(arms, _) => in_conditions(site, at, arms.as_slice(), found),
        _ => in_expressions(site, at, &[], found),
    }
}

/// The frame of the expressions of a statement: the head of a `foreach` is part of the parallel statement.
fn head_frame<'a>(frame: Frame<'a>, scope: &[Variable<'a>], kind: &StmtKind) -> Frame<'a>
    ensures { frame_site result scope.now ≡ faults.head_site (frame_site frame.entry scope.now) (out-StmtKind kind.now) }
{
    match kind {
        StmtKind::Foreach(_, _, _, _, _) => frame.in_parallel(scope.len()),
        _ => frame,
    }
}

/// The least fault, with those at a statement and in its expressions, but not in the statements inside it.
fn at_itself(
    frame: Frame<'_>,
    scope: &[Variable<'_>],
    stmt: &Stmt,
    found: Option<Fault>,
) -> Option<Fault>
    ensures { result ≡ faults.noted stmt.now.at found (faults.statement_rules (frame_site frame.entry scope.now) (out-StmtKind stmt.now.kind)) }
{
    let first = at_statement(&frame.site(scope), stmt.at, &stmt.kind, found);
    let head = head_frame(frame, scope, &stmt.kind);
    in_values(&head.site(scope), stmt.at, &stmt.kind, first)
}

/// The least fault, with those of a statement, all of whose locals go out of scope behind it.
#[cycle(statements)]
fn in_body<'a>(
    frame: Frame<'a>,
    scope: &mut Vec<Variable<'a>>,
    stmt: &'a Stmt,
    found: Option<Fault>,
) -> Result<Option<Fault>, AllocError>
    ensures found { IfOk result (λ r. r ≡ faults.gathered found (sites.sites_of (frame_site frame.entry scope.old.items) stmt.now)) }
    ensures scope { OnOk result (scope.new.items ≡ scope.old.items) }
{
    match &stmt.kind {
        StmtKind::Block(body) => in_block(frame, scope, body.as_slice(), found),
        StmtKind::Cobegin(blocks) => in_branches(frame, scope, blocks.as_slice(), found),
        StmtKind::If(arms, other) => {
            let first = at_itself(frame, scope.as_slice(), stmt, found);
            let next = in_arms(frame, scope, arms.as_slice(), first)?;
            in_other(frame, scope, other, next)
        }
        StmtKind::While(_, body) => {
            let first = at_itself(frame, scope.as_slice(), stmt, found);
            in_body(frame, scope, body.get(), first)
        }
        StmtKind::Foreach(index, _, _, _, body) => {
            let first = at_itself(frame, scope.as_slice(), stmt, found);
            in_iteration(frame, scope, index, body.get(), first)
        }
        StmtKind::For(start, _, third, body) => {
            let height = scope.len();
            let first = in_start(frame, scope, start, found)?;
            let own = at_itself(frame, scope.as_slice(), stmt, first);
            let next = in_other(frame, scope, third, own)?;
            let last = in_body(frame, scope, body.get(), next)?;
            scope.truncate(height);
            Ok(last)
        }
        _ => Ok(at_itself(frame, scope.as_slice(), stmt, found)),
    }
}

/// The same for a statement whose local, if it declares one, is in scope behind it.
#[cycle(statements)]
fn in_statement<'a>(
    frame: Frame<'a>,
    scope: &mut Vec<Variable<'a>>,
    stmt: &'a Stmt,
    found: Option<Fault>,
) -> Result<Option<Fault>, AllocError>
    ensures found { IfOk result (λ r. r ≡ faults.gathered found (sites.sites_of (frame_site frame.entry scope.old.items) stmt.now)) }
    ensures scope { OnOk result (scope.new.items ≡ (sites.after (frame_site frame.entry scope.old.items) stmt.now.kind).scope) }
{
    let last = in_body(frame, scope, stmt, found)?;
    let StmtKind::Local(ctype, name, _) = &stmt.kind else {
        return Ok(last);
    };
    scope.push(Variable::new(name, declared(ctype)))?;
    Ok(last)
}

/// The same for statements one after another, to the end of the block that holds them.
#[cycle(statements)]
fn in_block<'a>(
    frame: Frame<'a>,
    scope: &mut Vec<Variable<'a>>,
    body: &'a [Stmt],
    found: Option<Fault>,
) -> Result<Option<Fault>, AllocError>
    ensures found { IfOk result (λ r. r ≡ faults.gathered found (sites.sites_list (frame_site frame.entry scope.old.items) body.now)) }
    ensures scope { OnOk result (scope.new.items ≡ scope.old.items) }
{
    let height = scope.len();
    let mut found = found;
    for stmt in body {
        found = in_statement(frame, scope, stmt, found)?;
    }
    scope.truncate(height);
    Ok(found)
}

/// The same for the blocks of a `cobegin`.
#[cycle(statements)]
fn in_branches<'a>(
    frame: Frame<'a>,
    scope: &mut Vec<Variable<'a>>,
    blocks: &'a [Stmt],
    found: Option<Fault>,
) -> Result<Option<Fault>, AllocError>
    ensures found { IfOk result (λ r. r ≡ faults.gathered found (sites.sites_beside (in_parallel (frame_site frame.entry scope.old.items)) blocks.now)) }
    ensures scope { OnOk result (scope.new.items ≡ scope.old.items) }
{
    let inner = frame.in_parallel(scope.len());
    let mut found = found;
    for stmt in blocks {
        found = in_body(inner, scope, stmt, found)?;
    }
    Ok(found)
}

/// The same for the bodies of an `if`.
#[cycle(statements)]
fn in_arms<'a>(
    frame: Frame<'a>,
    scope: &mut Vec<Variable<'a>>,
    arms: &'a [Arm],
    found: Option<Fault>,
) -> Result<Option<Fault>, AllocError>
    ensures found { IfOk result (λ r. r ≡ faults.gathered found (sites.sites_of_bodies (frame_site frame.entry scope.old.items) arms.now)) }
    ensures scope { OnOk result (scope.new.items ≡ scope.old.items) }
{
    let mut found = found;
    for arm in arms {
        found = in_body(frame, scope, arm.body.get(), found)?;
    }
    Ok(found)
}

/// The same for a statement that may be missing.
#[cycle(statements)]
fn in_other<'a>(
    frame: Frame<'a>,
    scope: &mut Vec<Variable<'a>>,
    other: &'a Option<Boxed<Stmt>>,
    found: Option<Fault>,
) -> Result<Option<Fault>, AllocError>
    ensures found { IfOk result (λ r. r ≡ faults.gathered found (sites.sites_of_other (frame_site frame.entry scope.old.items) other.now)) }
    ensures scope { OnOk result (scope.new.items ≡ scope.old.items) }
{
    match other {
        Some(stmt) => in_body(frame, scope, stmt.get(), found),
        None => Ok(found),
    }
}

/// The same for the block of a `foreach`.
#[cycle(statements)]
fn in_iteration<'a>(
    frame: Frame<'a>,
    scope: &mut Vec<Variable<'a>>,
    index: &'a Name,
    body: &'a Stmt,
    found: Option<Fault>,
) -> Result<Option<Fault>, AllocError>
    ensures found { IfOk result (λ r. r ≡ faults.gathered found (sites.sites_of (sites.iteration (frame_site frame.entry scope.old.items) index.now) body.now)) }
    ensures scope { OnOk result (scope.new.items ≡ scope.old.items) }
{
    let height = scope.len();
    scope.push(Variable::new(index, ExprType::Number))?;
    let inner = frame.in_parallel(scope.len());
    let last = in_body(inner, scope, body, found)?;
    scope.truncate(height);
    Ok(last)
}

/// The same for the first part of a `for`, which stays in scope.
#[cycle(statements)]
fn in_start<'a>(
    frame: Frame<'a>,
    scope: &mut Vec<Variable<'a>>,
    start: &'a Option<Boxed<Stmt>>,
    found: Option<Fault>,
) -> Result<Option<Fault>, AllocError>
    ensures found { IfOk result (λ r. r ≡ faults.gathered found (sites.sites_of_other (frame_site frame.entry scope.old.items) start.now)) }
    ensures scope { OnOk result (scope.new.items ≡ (sites.after_other (frame_site frame.entry scope.old.items) start.now).scope) }
{
    match start {
        Some(stmt) => in_statement(frame, scope, stmt.get(), found),
        None => Ok(found),
    }
}

/// The least fault, with those of the body of a function, whose parameters are in scope.
pub fn in_function_body<'a>(
    frame: Frame<'a>,
    scope: &mut Vec<Variable<'a>>,
    body: &'a [Stmt],
    found: Option<Fault>,
) -> Result<Option<Fault>, AllocError>
    ensures { IfOk result (λ r. r ≡ faults.gathered found (sites.sites_list (frame_site frame.entry scope.old.items) body.now)) }
{
    in_block(frame, scope, body, found)
}
