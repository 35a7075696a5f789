//! The plain form of the statements that hold no others, and of the heads of those that do.

ghost use Rattle.std.specs.Prelude.{◌≡◌, [], IfOk, OnOk};
ghost use Rattle.lq_tree.specs.Seen.{seen};
ghost use Rattle.lq_tree.specs.Types.{Number};
ghost use Rattle.lq_plain.specs.Flat as spec;
ghost use Rattle.lq_plain.specs.Plain as plain;
ghost use Rattle.lq_plain.specs.SeenFlat.{flat_of};
ghost use Rattle.lq_plain.specs.SeenMade.{made_of};
ghost use Rattle.lq_plain.specs.Sites.{env_of};

use crate::flat::{Flat, atom, index_value, put};
use crate::flatten::{arguments, flat_operand, flatten};
use crate::lookups::{number_of, params_of};
use crate::made::Made;
use crate::operators::{is_null, is_pure};
use crate::site::Site;
use lq_tree::{CType, Expr, ExprType, Name, PExpr, PKind, StmtKind, declared};
use std::alloc::AllocError;

/// An int as an operand: as it is where all operands are pure, else an atom.
pub fn number_operand(
    site: Site<'_>,
    pure: bool,
    found: Flat,
    made: &mut Made,
) -> Result<PExpr, AllocError>
    ensures { IfOk result (λ v. spec.valued v (made_of made.new) ≡ spec.operand pure site.entry.at Number (flat_of found (made_of made.old))) }
{
    if pure {
        index_value(site, found, made)
    } else {
        atom(site, ExprType::Number, found, made)
    }
}

/// An expression as a value that is wanted to be of a type.
fn flat_as<'a>(
    site: Site<'a>,
    kind: ExprType<'_>,
    expr: &'a Expr,
    made: &mut Made,
) -> Result<PExpr, AllocError>
    ensures { IfOk result (λ v. spec.valued v (made_of made.new) ≡ plain.flat_as (env_of site.entry) site.entry.at (seen kind.entry) expr.now (made_of made.old)) }
{
    if is_null(kind, expr) {
        return Ok(PExpr::Null);
    }
    flat_operand(site, true, expr, made)
}

/// A local gets the word of an expression.
pub fn assigned<'a>(
    site: Site<'a>,
    to: u32,
    kind: ExprType<'_>,
    expr: &'a Expr,
    made: &mut Made,
) -> Result<(), AllocError>
    ensures { OnOk result (made_of made.new ≡ plain.assigned (env_of site.entry) site.entry.at to (seen kind.entry) expr.now (made_of made.old)) }
{
    if is_null(kind, expr) {
        return made.stand(site.at, PKind::Set(to, PExpr::Null));
    }
    let found = flatten(site, expr, made)?;
    put(site, to, found, made)
}

/// An assignment to a local.
pub fn set<'a>(
    site: Site<'a>,
    name: &Name,
    expr: &'a Expr,
    made: &mut Made,
) -> Result<(), AllocError>
    ensures { OnOk result (made_of made.new ≡ (plain.plain (env_of site.entry) site.entry.at (StmtKind.Set name.now expr.now) (made_of made.old)).made) }
{
    assigned(site, site.slot_of(name), site.kind_of(name), expr, made)
}

// 0 or null.
fn empty_of(kind: ExprType<'_>) -> PExpr
    ensures { result ≡ plain.empty_of (seen kind.entry) }
{
    if kind.is_pointer() {
        PExpr::Null
    } else {
        PExpr::Num(0)
    }
}

/// A declared local gets its initial value, or 0 or null.
pub fn initial<'a>(
    site: Site<'a>,
    to: u32,
    ctype: &CType,
    value: &'a Option<Expr>,
    made: &mut Made,
) -> Result<(), AllocError>
    ensures { OnOk result (made_of made.new ≡ plain.initial (env_of site.entry) site.entry.at to ctype.now value.now (made_of made.old)) }
{
    match value {
        Some(expr) => assigned(site, to, declared(ctype), expr, made),
        None => made.stand(site.at, PKind::Set(to, empty_of(declared(ctype)))),
    }
}

/// A store to what an expression names: the index is a value where the word that is stored is pure, else an atom. A
/// well-named source stores to nothing that has no place.
pub fn stored<'a>(
    site: Site<'a>,
    into: &'a Expr,
    word: &'a Expr,
    made: &mut Made,
) -> Result<(), AllocError>
    ensures { OnOk result (made_of made.new ≡ (plain.plain (env_of site.entry) site.entry.at (StmtKind.Store into.now word.now) (made_of made.old)).made) }
{
    match flatten(site, into, made)? {
        Flat::Names(base, index, field) => {
            let index = number_operand(site, is_pure(word), Flat::Is(index), made)?;
            let value = flat_as(site, site.type_of(into), word, made)?;
            made.stand(site.at, PKind::Store(base, index, field, value))
        }
        found => {
            atom(site, site.type_of(into), found, made)?;
            let value = flat_as(site, site.type_of(into), word, made)?;
            made.stand(site.at, PKind::Store(0, PExpr::Num(0), 0, value))
        }
    }
}

/// A call whose result, if it has one, is dropped.
pub fn called<'a>(
    site: Site<'a>,
    name: &Name,
    args: &'a [Expr],
    made: &mut Made,
) -> Result<(), AllocError>
    ensures { OnOk result (made_of made.new ≡ (plain.plain (env_of site.entry) site.entry.at (StmtKind.Call name.now args.now) (made_of made.old)).made) }
{
    let number = number_of(site.program, name)?;
    let given = arguments(site, params_of(site.program, name), args, made)?;
    made.stand(site.at, PKind::Call(None, number, given))
}

/// A `print`.
pub fn printed<'a>(site: Site<'a>, expr: &'a Expr, made: &mut Made) -> Result<(), AllocError>
    ensures { OnOk result (made_of made.new ≡ (plain.plain (env_of site.entry) site.entry.at (StmtKind.Print expr.now) (made_of made.old)).made) }
{
    let value = flat_operand(site, true, expr, made)?;
    made.stand(site.at, PKind::Print(value))
}

/// A `return`.
pub fn returned<'a>(
    site: Site<'a>,
    value: &'a Option<Expr>,
    made: &mut Made,
) -> Result<(), AllocError>
    ensures { OnOk result (made_of made.new ≡ (plain.plain (env_of site.entry) site.entry.at (StmtKind.Return value.now) (made_of made.old)).made) }
{
    match value {
        Some(expr) => {
            let value = flat_as(site, site.result, expr, made)?;
            made.stand(site.at, PKind::Return(Some(value)))
        }
        None => made.stand(site.at, PKind::Return(None)),
    }
}

/// The condition of a loop, in a list of its own; a missing one is 1.
pub fn condition<'a>(
    site: Site<'a>,
    cond: &'a Option<Expr>,
    made: &mut Made,
) -> Result<PExpr, AllocError>
    requires { made.old.front ≡ [] }
    ensures { IfOk result (λ v. spec.valued v (made_of made.new) ≡ plain.condition (env_of site.entry) site.entry.at cond.now made.old.slots) }
{
    match cond {
        Some(expr) => flat_operand(site, true, expr, made),
        None => Ok(PExpr::Num(1)),
    }
}
