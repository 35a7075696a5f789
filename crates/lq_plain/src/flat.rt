//! What expressions come to, and how it becomes a value or an atom.

ghost use Rattle.std.specs.Prelude.{◌≡◌, length, None, IfOk, OnOk};
ghost use Rattle.lq_tree.specs.Seen.{seen};
ghost use Rattle.lq_tree.specs.Types.{Number};
ghost use Rattle.lq_plain.specs.Flat as spec;
ghost use Rattle.lq_plain.specs.Plain as plain;
ghost use Rattle.lq_plain.specs.SeenFlat.{flat_of};
ghost use Rattle.lq_plain.specs.SeenMade.{made_of};
ghost use Rattle.lq_plain.specs.Sites.{env_of};

use crate::made::{Made, slot_type};
use crate::site::Site;
use lq_tree::{CType, Expr, ExprType, Items, PExpr, PKind};
use std::alloc::AllocError;

/// What an expression comes to, behind the statements that stand in front of it.
#[derive(Drop)]
pub enum Flat {
    /// A value.
    Is(PExpr),
    /// An element of what a slot points to, by its index, and a field of it.
    Names(u32, PExpr, u32),
    /// What a function gives, by its number, on these arguments.
    Call(u32, Items<PExpr>),
    /// A block of so many elements of the type.
    Calloc(PExpr, CType),
}

/// Whether a value is a number, null or a slot.
pub fn is_atom(value: &PExpr) -> bool
    ensures { result ≡ spec.is_atom value.now }
{
    matches!(value, PExpr::Num(_) | PExpr::Null | PExpr::Slot(_))
}

/// The slot that a base is.
pub fn slot_in(value: &PExpr) -> u32
    ensures { result ≡ spec.slot_in value.now }
{
    match value {
        PExpr::Slot(to) => *to,
        _ => 0,
    }
}

// A new slot without a name.
fn new_slot(site: Site<'_>, kind: ExprType<'_>, made: &mut Made) -> Result<u32, AllocError>
    ensures number { IfOk result (λ to. to ≡ length made.old.slots) }
    ensures made { OnOk result (made_of made.new ≡ spec.with_slot None (spec.slot_type (seen kind.entry)) (made_of made.old)) }
{
    made.add_slot(None, slot_type(site.alloc, kind)?)
}

/// A value as an atom: as it is, or in a new slot.
pub fn atom_of_value(
    site: Site<'_>,
    kind: ExprType<'_>,
    value: PExpr,
    made: &mut Made,
) -> Result<PExpr, AllocError>
    ensures { IfOk result (λ v. spec.valued v (made_of made.new) ≡ spec.atom site.entry.at (seen kind.entry) (spec.Is (spec.valued value (made_of made.old)))) }
{
    if is_atom(&value) {
        return Ok(value);
    }
    let to = new_slot(site, kind, made)?;
    made.stand(site.at, PKind::Set(to, value))?;
    Ok(PExpr::Slot(to))
}

/// The index of a load as an atom.
fn index_atom(site: Site<'_>, index: PExpr, made: &mut Made) -> Result<PExpr, AllocError>
    ensures { IfOk result (λ v. spec.valued v (made_of made.new) ≡ spec.atom site.entry.at Number (spec.Is (spec.valued index (made_of made.old)))) }
{
    atom_of_value(site, ExprType::Number, index, made)
}

/// A local gets the word of an expression: a load, a call or a calloc goes into it directly.
pub fn put(site: Site<'_>, to: u32, found: Flat, made: &mut Made) -> Result<(), AllocError>
    ensures { OnOk result (made_of made.new ≡ plain.put site.entry.at to (flat_of found (made_of made.old))) }
{
    match found {
        Flat::Is(value) => made.stand(site.at, PKind::Set(to, value)),
        Flat::Names(base, index, field) => {
            let index = index_atom(site, index, made)?;
            made.stand(site.at, PKind::Load(to, base, index, field))
        }
        Flat::Call(number, args) => made.stand(site.at, PKind::Call(Some(to), number, args)),
        Flat::Calloc(count, ctype) => made.stand(site.at, PKind::Calloc(to, count, ctype)),
    }
}

/// An atom as it is, anything else in a new slot; the index of a load is an atom.
pub fn atom(
    site: Site<'_>,
    kind: ExprType<'_>,
    found: Flat,
    made: &mut Made,
) -> Result<PExpr, AllocError>
    ensures { IfOk result (λ v. spec.valued v (made_of made.new) ≡ spec.atom site.entry.at (seen kind.entry) (flat_of found (made_of made.old))) }
{
    match found {
        Flat::Is(value) => atom_of_value(site, kind, value, made),
        Flat::Names(base, index, field) => {
            let index = index_atom(site, index, made)?;
            let to = new_slot(site, kind, made)?;
            made.stand(site.at, PKind::Load(to, base, index, field))?;
            Ok(PExpr::Slot(to))
        }
        Flat::Call(number, args) => {
            let to = new_slot(site, kind, made)?;
            made.stand(site.at, PKind::Call(Some(to), number, args))?;
            Ok(PExpr::Slot(to))
        }
        Flat::Calloc(count, ctype) => {
            let to = new_slot(site, kind, made)?;
            made.stand(site.at, PKind::Calloc(to, count, ctype))?;
            Ok(PExpr::Slot(to))
        }
    }
}

/// What an expression came to, as a value: as it is, or in a new slot.
pub fn value<'a>(
    site: Site<'a>,
    expr: &'a Expr,
    found: Flat,
    made: &mut Made,
) -> Result<PExpr, AllocError>
    ensures { IfOk result (λ v. spec.valued v (made_of made.new) ≡ spec.flat site.entry.at (spec.type_of (env_of site.entry) expr.now) (flat_of found (made_of made.old))) }
{
    match found {
        Flat::Is(value) => Ok(value),
        found => atom(site, site.type_of(expr), found, made),
    }
}

/// What an index came to, as a value.
pub fn index_value(site: Site<'_>, found: Flat, made: &mut Made) -> Result<PExpr, AllocError>
    ensures { IfOk result (λ v. spec.valued v (made_of made.new) ≡ spec.flat site.entry.at Number (flat_of found (made_of made.old))) }
{
    match found {
        Flat::Is(value) => Ok(value),
        found => atom(site, ExprType::Number, found, made),
    }
}

/// What an expression came to, as an operand: as it is where all operands are pure, else an atom.
pub fn operand<'a>(
    site: Site<'a>,
    pure: bool,
    expr: &'a Expr,
    found: Flat,
    made: &mut Made,
) -> Result<PExpr, AllocError>
    ensures { IfOk result (λ v. spec.valued v (made_of made.new) ≡ spec.operand pure site.entry.at (spec.type_of (env_of site.entry) expr.now) (flat_of found (made_of made.old))) }
{
    if pure {
        value(site, expr, found, made)
    } else {
        atom(site, site.type_of(expr), found, made)
    }
}

/// The field of an element.
pub fn dotted(field: u32, found: Flat) -> Flat
    ensures { (m : spec.Made) → flat_of result m ≡ spec.dotted field (flat_of found m) }
{
    match found {
        Flat::Names(base, index, _) => Flat::Names(base, index, field),
        found => found,
    }
}
