//! The plain form of expressions, flattened from left to right.

ghost use Rattle.std.specs.Prelude.{◌≡◌, true, false, IfOk, OnOk};
ghost use Rattle.lq_plain.specs.Flat as spec;
ghost use Rattle.lq_plain.specs.Plain as plain;
ghost use Rattle.lq_plain.specs.SeenFlat.{flat_of, settled, operand_of, given_of, values_of};
ghost use Rattle.lq_plain.specs.SeenMade.{made_of};
ghost use Rattle.lq_plain.specs.Sites.{env_of};

use crate::copies::copy_type;
use crate::flat::{Flat, dotted, index_value, operand, slot_in};
use crate::lookups::{field_number, first_type, number_of, other_params, params_of};
use crate::made::{Made, int_type};
use crate::operators::{are_pure, at_first, if_needed, is_null, is_pure, is_true, operator, stops};
use crate::site::Site;
use lq_tree::{BinOp, Boxed, Expr, Items, Name, PExpr, PKind, Param};
use std::alloc::AllocError;

/// What an expression comes to.
#[cycle(flattening)]
#[tactic(auto)]
pub fn flatten<'a>(site: Site<'a>, expr: &'a Expr, made: &mut Made) -> Result<Flat, AllocError>
    ensures { IfOk result (λ f. flat_of f (made_of made.new) ≡ settled site.entry.at (spec.flatten (env_of site.entry) site.entry.at expr.now (made_of made.old))) }
{
    match expr {
        Expr::Num(number) => Ok(Flat::Is(PExpr::Num(*number))),
        Expr::Var(name) => Ok(Flat::Is(PExpr::Slot(site.slot_of(name)))),
        Expr::Neg(part) => {
            let part = part.get();
            let value = flat_operand(site, is_pure(part), part, made)?;
            Ok(Flat::Is(PExpr::Neg(Boxed::new(site.alloc, value)?)))
        }
        Expr::Not(part) => {
            let part = part.get();
            let value = flat_operand(site, is_pure(part), part, made)?;
            Ok(Flat::Is(PExpr::Not(Boxed::new(site.alloc, value)?)))
        }
        Expr::Bin(op, left, right) => combined(site, *op, left.get(), right.get(), made),
        Expr::Index(base, index) => indexed(site, base.get(), index.get(), made),
        Expr::Deref(base) => {
            let to = base_slot(site, base.get(), made)?;
            Ok(Flat::Names(to, PExpr::Num(0), 0))
        }
        Expr::Arrow(base, field) => pointed(site, base.get(), field, made),
        Expr::Dot(part, field) => field_of(site, part.get(), field, made),
        Expr::Call(name, args) => {
            let number = number_of(site.program, name)?;
            let params = params_of(site.program, name);
            let given = arguments(site, params, args.as_slice(), made)?;
            Ok(Flat::Call(number, given))
        }
        Expr::Calloc(count, ctype) => {
            let element = copy_type(site.alloc, ctype)?;
            let count = flat_operand(site, false, count.get(), made)?;
            Ok(Flat::Calloc(count, element))
        }
    }
}

/// An expression as an operand.
#[cycle(flattening)]
#[tactic(auto)]
pub fn flat_operand<'a>(
    site: Site<'a>,
    pure: bool,
    expr: &'a Expr,
    made: &mut Made,
) -> Result<PExpr, AllocError>
    ensures { IfOk result (λ v. spec.valued v (made_of made.new) ≡ operand_of pure (env_of site.entry) site.entry.at expr.now (made_of made.old)) }
{
    let found = flatten(site, expr, made)?;
    operand(site, pure, expr, found, made)
}

/// The slot that a base is.
#[cycle(flattening)]
#[tactic(auto)]
fn base_slot<'a>(site: Site<'a>, base: &'a Expr, made: &mut Made) -> Result<u32, AllocError>
    ensures base { IfOk result (λ to. to ≡ spec.slot_in (operand_of false (env_of site.entry) site.entry.at base.now (made_of made.old)).value) }
    ensures made { OnOk result (made_of made.new ≡ (operand_of false (env_of site.entry) site.entry.at base.now (made_of made.old)).made) }
{
    let value = flat_operand(site, false, base, made)?;
    Ok(slot_in(&value))
}

/// An element of what a base points to.
#[cycle(flattening)]
#[tactic(auto)]
fn indexed<'a>(
    site: Site<'a>,
    base: &'a Expr,
    index: &'a Expr,
    made: &mut Made,
) -> Result<Flat, AllocError>
    ensures { IfOk result (λ f. flat_of f (made_of made.new) ≡ settled site.entry.at (spec.flatten (env_of site.entry) site.entry.at (Expr.Index base.now index.now) (made_of made.old))) }
{
    let to = base_slot(site, base, made)?;
    let found = flatten(site, index, made)?;
    Ok(Flat::Names(to, index_value(site, found, made)?, 0))
}

/// A field of what a base points to.
#[cycle(flattening)]
#[tactic(auto)]
fn pointed<'a>(
    site: Site<'a>,
    base: &'a Expr,
    field: &Name,
    made: &mut Made,
) -> Result<Flat, AllocError>
    ensures { IfOk result (λ f. flat_of f (made_of made.new) ≡ settled site.entry.at (spec.flatten (env_of site.entry) site.entry.at (Expr.Arrow base.now field.now) (made_of made.old))) }
{
    let element = site.type_of(base).element();
    let number = field_number(site.program, element, field)?;
    let to = base_slot(site, base, made)?;
    Ok(Flat::Names(to, PExpr::Num(0), number))
}

/// A field of an element.
#[cycle(flattening)]
#[tactic(auto)]
fn field_of<'a>(
    site: Site<'a>,
    part: &'a Expr,
    field: &Name,
    made: &mut Made,
) -> Result<Flat, AllocError>
    ensures { IfOk result (λ f. flat_of f (made_of made.new) ≡ settled site.entry.at (spec.flatten (env_of site.entry) site.entry.at (Expr.Dot part.now field.now) (made_of made.old))) }
{
    let number = field_number(site.program, site.type_of(part), field)?;
    let found = flatten(site, part, made)?;
    Ok(dotted(number, found))
}

/// An operator with two operands.
#[cycle(flattening)]
#[tactic(auto)]
fn combined<'a>(
    site: Site<'a>,
    op: BinOp,
    left: &'a Expr,
    right: &'a Expr,
    made: &mut Made,
) -> Result<Flat, AllocError>
    ensures { IfOk result (λ f. flat_of f (made_of made.new) ≡ settled site.entry.at (spec.flatten (env_of site.entry) site.entry.at (Expr.Bin op left.now right.now) (made_of made.old))) }
{
    let pure = are_pure(left, right);
    if stops(pure, op) {
        return stopping(site, op, left, right, made);
    }
    let first = flat_operand(site, pure, left, made)?;
    let second = flat_operand(site, pure, right, made)?;
    let value = operator(site, op, left, right, first, second)?;
    Ok(Flat::Is(value))
}

/// `&&` and `||` where a side isn't pure: a slot gets 0, or 1, and the word of the right side only where that is asked
/// for.
#[cycle(flattening)]
#[tactic(auto)]
fn stopping<'a>(
    site: Site<'a>,
    op: BinOp,
    left: &'a Expr,
    right: &'a Expr,
    made: &mut Made,
) -> Result<Flat, AllocError>
    ensures { IfOk result (λ f. flat_of f (made_of made.new) ≡ spec.stopping site.entry.at op (operand_of true (env_of site.entry) site.entry.at left.now) (operand_of true (env_of site.entry) site.entry.at right.now) (made_of made.old)) }
{
    let to = made.add_slot(None, int_type())?;
    made.stand(site.at, PKind::Set(to, at_first(op)))?;
    let first = flat_operand(site, true, left, made)?;
    let outer = made.begin(site.alloc);
    let second = flat_operand(site, true, right, made)?;
    let asked = is_true(site.alloc, second)?;
    made.stand(site.at, PKind::Set(to, asked))?;
    let inner = made.end(outer);
    made.stand(site.at, if_needed(site.alloc, op, first, inner))?;
    Ok(Flat::Is(PExpr::Slot(to)))
}

/// An argument as an atom, as its parameter wants it.
#[cycle(flattening)]
#[tactic(auto)]
fn argument<'a>(
    site: Site<'a>,
    params: &[Param],
    arg: &'a Expr,
    made: &mut Made,
) -> Result<PExpr, AllocError>
    ensures { IfOk result (λ v. spec.valued v (made_of made.new) ≡ given_of (env_of site.entry) site.entry.at params.now arg.now (made_of made.old)) }
{
    if is_null(first_type(params), arg) {
        return Ok(PExpr::Null);
    }
    flat_operand(site, false, arg, made)
}

/// Arguments as atoms, from left to right.
#[cycle(flattening)]
#[tactic(auto)]
pub fn arguments<'a>(
    site: Site<'a>,
    params: &[Param],
    args: &'a [Expr],
    made: &mut Made,
) -> Result<Items<PExpr>, AllocError>
    ensures { IfOk result (λ vs. values_of vs (made_of made.new) ≡ plain.arguments (env_of site.entry) site.entry.at params.now args.now (made_of made.old)) }
{
    let mut params = params;
    let mut given = Items::new(site.alloc);
    for arg in args {
        given.push(argument(site, params, arg, made)?)?;
        params = other_params(params);
    }
    Ok(given)
}
