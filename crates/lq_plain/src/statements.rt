//! The plain form of statements, with the locals in scope.

ghost use Rattle.std.specs.Prelude.{◌≡◌, IfOk, OnOk};
ghost use Rattle.lq_tree.specs.Types.{Number};
ghost use Rattle.lq_plain.specs.Flat as spec;
ghost use Rattle.lq_plain.specs.Plain as plain;
ghost use Rattle.lq_plain.specs.Lists as lists;
ghost use Rattle.lq_plain.specs.SeenArms.{closed};
ghost use Rattle.lq_plain.specs.SeenMade.{made_of};
ghost use Rattle.lq_plain.specs.Sites.{env_in};

use crate::arms::{Open, close_arms};
use crate::flatten::flat_operand;
use crate::made::Made;
use crate::parts::{OpenLoop, close_loop, close_range, declare, open_loop, open_range};
use crate::scope::Scope;
use crate::site::Frame;
use crate::values::{called, printed, returned, set, stored};
use lq_tree::{
    Arm, Boxed, Branch, CType, Expr, ExprType, Items, Name, PKind, Place, Stmt, StmtKind, declared,
};
use std::alloc::AllocError;

/// A statement; what it declares is in scope behind it.
#[cycle(plain_statements)]
fn statement<'a>(
    frame: Frame<'a>,
    scope: &mut Scope<'a>,
    stmt: &'a Stmt,
    made: &mut Made,
) -> Result<(), AllocError>
    ensures { OnOk result (lists.seen_behind scope.new (made_of made.new) ≡ lists.one (env_in frame.entry scope.old) stmt.now (made_of made.old)) }
{
    let at = stmt.at;
    match &stmt.kind {
        StmtKind::Empty => Ok(()),
        StmtKind::Block(body) => block(frame, scope, body.as_slice(), made),
        StmtKind::Local(ctype, name, value) => local(frame, scope, at, ctype, name, value, made),
        StmtKind::Set(name, value) => set(frame.site(scope, at), name, value, made),
        StmtKind::Store(into, value) => stored(frame.site(scope, at), into, value, made),
        StmtKind::Call(name, args) => called(frame.site(scope, at), name, args.as_slice(), made),
        StmtKind::Print(value) => printed(frame.site(scope, at), value, made),
        StmtKind::Return(value) => returned(frame.site(scope, at), value, made),
        StmtKind::Cobegin(blocks) => cobegin(frame, scope, at, blocks.as_slice(), made),
        StmtKind::If(arms, other) => {
            let opens = open_arms(frame, scope, at, arms.as_slice(), made)?;
            last_arm(frame, scope, at, opens, other, made)
        }
        StmtKind::While(cond, body) => while_loop(frame, scope, at, body.get(), cond, made),
        StmtKind::For(first, cond, third, body) => {
            let height = scope.len();
            opening(frame, scope, first, made)?;
            let begun = open_loop(frame.site(scope, at), cond, made)?;
            inside(frame, scope, body.get(), made)?;
            other_arm(frame, scope, third, made)?;
            scope.truncate(height);
            close_loop(at, begun, made)
        }
        StmtKind::Foreach(index, low, high, step, body) => {
            let range = open_range(frame.site(scope, at), index, low, high, made)?;
            iteration(frame, scope, index, range.index, body.get(), made)?;
            close_range(at, range, step, body.get().at, made)
        }
    }
}

/// A declaration, behind which its local is in scope.
fn local<'a>(
    frame: Frame<'a>,
    scope: &mut Scope<'a>,
    at: Place,
    ctype: &'a CType,
    name: &'a Name,
    value: &'a Option<Expr>,
    made: &mut Made,
) -> Result<(), AllocError>
    ensures { OnOk result (lists.seen_behind scope.new (made_of made.new) ≡ plain.plain (env_in frame.entry scope.old) at (StmtKind.Local ctype.now name.now value.now) (made_of made.old)) }
{
    let slot = declare(frame.site(scope, at), ctype, name, value, made)?;
    scope.push(name, declared(ctype), slot)
}

/// Statements one after another, to the end of the block that holds them.
#[cycle(plain_statements)]
pub fn block<'a>(
    frame: Frame<'a>,
    scope: &mut Scope<'a>,
    body: &'a [Stmt],
    made: &mut Made,
) -> Result<(), AllocError>
    ensures scope { OnOk result (scope.new ≡ scope.old) }
    ensures made { OnOk result (made_of made.new ≡ plain.plain_all (env_in frame.entry scope.old) body.now (made_of made.old)) }
{
    let height = scope.len();
    for stmt in body {
        statement(frame, scope, stmt, made)?;
    }
    scope.truncate(height);
    Ok(())
}

/// A statement whose locals are in scope in it alone.
#[cycle(plain_statements)]
fn inside<'a>(
    frame: Frame<'a>,
    scope: &mut Scope<'a>,
    stmt: &'a Stmt,
    made: &mut Made,
) -> Result<(), AllocError>
    ensures scope { OnOk result (scope.new ≡ scope.old) }
    ensures made { OnOk result (made_of made.new ≡ (lists.one (env_in frame.entry scope.old) stmt.now (made_of made.old)).made) }
{
    let height = scope.len();
    statement(frame, scope, stmt, made)?;
    scope.truncate(height);
    Ok(())
}

/// The first part of a `for`, which stays in scope.
#[cycle(plain_statements)]
fn opening<'a>(
    frame: Frame<'a>,
    scope: &mut Scope<'a>,
    first: &'a Option<Boxed<Stmt>>,
    made: &mut Made,
) -> Result<(), AllocError>
    ensures { OnOk result (lists.seen_behind scope.new (made_of made.new) ≡ lists.maybe (env_in frame.entry scope.old) first.now (made_of made.old)) }
{
    match first {
        Some(stmt) => statement(frame, scope, stmt.get(), made),
        None => Ok(()),
    }
}

/// A statement that may be missing.
#[cycle(plain_statements)]
fn other_arm<'a>(
    frame: Frame<'a>,
    scope: &mut Scope<'a>,
    other: &'a Option<Boxed<Stmt>>,
    made: &mut Made,
) -> Result<(), AllocError>
    ensures scope { OnOk result (scope.new ≡ scope.old) }
    ensures made { OnOk result (made_of made.new ≡ (lists.maybe (env_in frame.entry scope.old) other.now (made_of made.old)).made) }
{
    match other {
        Some(stmt) => inside(frame, scope, stmt.get(), made),
        None => Ok(()),
    }
}

/// The arms of an `if`, begun one in the other.
#[cycle(plain_statements)]
fn open_arms<'a>(
    frame: Frame<'a>,
    scope: &mut Scope<'a>,
    at: Place,
    arms: &'a [Arm],
    made: &mut Made,
) -> Result<Items<Open>, AllocError>
    ensures scope { OnOk result (scope.new ≡ scope.old) }
    ensures arms { IfOk result (λ opens. (otherwise : spec.Made → spec.Made) → closed at opens (otherwise (made_of made.new)) ≡ lists.all_arms (env_in frame.entry scope.old) at arms.now otherwise (made_of made.old)) }
{
    let mut opens = Items::new(frame.alloc);
    for arm in arms {
        let cond = flat_operand(frame.site(scope, at), true, &arm.cond, made)?;
        let outer = made.begin(frame.alloc);
        inside(frame, scope, arm.body.get(), made)?;
        let held = made.begin(frame.alloc);
        opens.push(Open { cond, held, outer })?;
    }
    Ok(opens)
}

/// The last arm of an `if`, which may be missing, and the ends of the arms before it.
#[cycle(plain_statements)]
fn last_arm<'a>(
    frame: Frame<'a>,
    scope: &mut Scope<'a>,
    at: Place,
    opens: Items<Open>,
    other: &'a Option<Boxed<Stmt>>,
    made: &mut Made,
) -> Result<(), AllocError>
    ensures scope { OnOk result (scope.new ≡ scope.old) }
    ensures made { OnOk result (made_of made.new ≡ closed at opens (lists.maybe (env_in frame.entry scope.old) other.now (made_of made.old)).made) }
{
    other_arm(frame, scope, other, made)?;
    close_arms(at, opens, made)
}

/// The blocks of a `cobegin`.
#[cycle(plain_statements)]
fn cobegin<'a>(
    frame: Frame<'a>,
    scope: &mut Scope<'a>,
    at: Place,
    blocks: &'a [Stmt],
    made: &mut Made,
) -> Result<(), AllocError>
    ensures scope { OnOk result (scope.new ≡ scope.old) }
    ensures made { OnOk result (made_of made.new ≡ (plain.plain (env_in frame.entry scope.old) at (StmtKind.Cobegin blocks.now) (made_of made.old)).made) }
{
    let outer = made.begin(frame.alloc);
    let mut branches = Items::new(frame.alloc);
    for stmt in blocks {
        inside(frame, scope, stmt, made)?;
        let body = made.begin(frame.alloc);
        branches.push(Branch { at: stmt.at, body })?;
    }
    made.end(outer);
    made.stand(at, PKind::Cobegin(branches))
}

/// A `while`.
#[cycle(plain_statements)]
fn while_loop<'a>(
    frame: Frame<'a>,
    scope: &mut Scope<'a>,
    at: Place,
    body: &'a Stmt,
    cond: &'a Expr,
    made: &mut Made,
) -> Result<(), AllocError>
    ensures scope { OnOk result (scope.new ≡ scope.old) }
    ensures made { OnOk result (made_of made.new ≡ (plain.plain (env_in frame.entry scope.old) at (StmtKind.While cond.now body.now) (made_of made.old)).made) }
{
    let outer = made.begin(frame.alloc);
    let cond = flat_operand(frame.site(scope, at), true, cond, made)?;
    let head = made.begin(frame.alloc);
    inside(frame, scope, body, made)?;
    close_loop(at, OpenLoop { head, cond, outer }, made)
}

/// The block of a `foreach`, in which its index is in scope.
#[cycle(plain_statements)]
fn iteration<'a>(
    frame: Frame<'a>,
    scope: &mut Scope<'a>,
    index: &'a Name,
    slot: u32,
    body: &'a Stmt,
    made: &mut Made,
) -> Result<(), AllocError>
    ensures scope { OnOk result (scope.new ≡ scope.old) }
    ensures made { OnOk result (made_of made.new ≡ (lists.one (plain.knows (env_in frame.entry scope.old) index.now slot Number) body.now (made_of made.old)).made) }
{
    let height = scope.len();
    scope.push(index, ExprType::Number, slot)?;
    inside(frame, scope, body, made)?;
    scope.truncate(height);
    Ok(())
}
