//! The heads and the ends of statements that hold others.

ghost use Rattle.std.specs.Prelude.{◌≡◌, length, IfOk, OnOk};
ghost use Rattle.lq_plain.specs.Flat as spec;
ghost use Rattle.lq_plain.specs.Lists as lists;
ghost use Rattle.lq_plain.specs.Plain as plain;
ghost use Rattle.lq_plain.specs.SeenMade.{made_of};
ghost use Rattle.lq_plain.specs.Sites.{env_of};

use crate::copies::{copy_name, copy_type};
use crate::flatten::{flat_operand, flatten};
use crate::made::{Made, int_type};
use crate::operators::is_pure;
use crate::site::Site;
use crate::values::{condition, initial, number_operand};
use lq_tree::{Branch, CType, Expr, Items, Name, PExpr, PKind, PStmt, Place, StmtKind};
use std::alloc::AllocError;

/// A declaration makes its slot before those of its initial value; the slot is answered.
pub fn declare<'a>(
    site: Site<'a>,
    ctype: &CType,
    name: &Name,
    value: &'a Option<Expr>,
    made: &mut Made,
) -> Result<u32, AllocError>
    ensures slot { IfOk result (λ to. to ≡ length made.old.slots) }
    ensures made { OnOk result (made_of made.new ≡ (plain.plain (env_of site.entry) site.entry.at (StmtKind.Local ctype.now name.now value.now) (made_of made.old)).made) }
{
    let name = copy_name(site.alloc, name)?;
    let kind = copy_type(site.alloc, ctype)?;
    let to = made.add_slot(Some(name), kind)?;
    initial(site, to, ctype, value, made)?;
    Ok(to)
}

/// A loop that is begun: its head, its condition, and what stands in front of it.
#[derive(Drop)]
pub struct OpenLoop {
    pub head: Items<PStmt>,
    pub cond: PExpr,
    pub outer: Items<PStmt>,
}

/// Begins a loop whose condition may be missing; the list of its body is begun.
pub fn open_loop<'a>(
    site: Site<'a>,
    cond: &'a Option<Expr>,
    made: &mut Made,
) -> Result<OpenLoop, AllocError>
    ensures cond { IfOk result (λ l. spec.valued l.cond (record { slots = made.new.slots; front = l.head }) ≡ plain.condition (env_of site.entry) site.entry.at cond.now made.old.slots) }
    ensures outer { IfOk result (λ l. l.outer ≡ made.old.front) }
    ensures made { OnOk result (made_of made.new ≡ plain.fresh made.new.slots) }
{
    let outer = made.begin(site.alloc);
    let cond = condition(site, cond, made)?;
    let head = made.begin(site.alloc);
    Ok(OpenLoop { head, cond, outer })
}

/// Ends a loop: in front of it stand the statements that stood there when it began.
pub fn close_loop(at: Place, begun: OpenLoop, made: &mut Made) -> Result<(), AllocError>
    ensures { OnOk result (made_of made.new ≡ spec.then_stands at (PKind.While begun.head begun.cond made.old.front) (record { slots = made.old.slots; front = begun.outer })) }
{
    let OpenLoop { head, cond, outer } = begun;
    let body = made.end(outer);
    made.stand(at, PKind::While(head, cond, body))
}

/// The head of a `foreach`: the slot of its index, its low and high end, and what stands in front of it.
#[derive(Drop)]
pub struct Range {
    pub index: u32,
    pub low: PExpr,
    pub high: PExpr,
    pub outer: Items<PStmt>,
}

/// The ends of a `foreach`, behind the slot of its index; the list of its branch is begun.
pub fn open_range<'a>(
    site: Site<'a>,
    index: &Name,
    low: &'a Expr,
    high: &'a Expr,
    made: &mut Made,
) -> Result<Range, AllocError>
    ensures index { IfOk result (λ r. r.index ≡ length made.old.slots) }
    ensures low { IfOk result (λ r. r.low ≡ (lists.low_end (env_of site.entry) site.entry.at index.now low.now high.now (made_of made.old)).value) }
    ensures high { IfOk result (λ r. spec.valued r.high (record { slots = made.new.slots; front = r.outer }) ≡ plain.flat_of (env_of site.entry) site.entry.at high.now (lists.low_end (env_of site.entry) site.entry.at index.now low.now high.now (made_of made.old)).made) }
    ensures made { OnOk result (made_of made.new ≡ plain.fresh made.new.slots) }
{
    let name = copy_name(site.alloc, index)?;
    let index = made.add_slot(Some(name), int_type())?;
    let found = flatten(site, low, made)?;
    let low = number_operand(site, is_pure(high), found, made)?;
    let high = flat_operand(site, true, high, made)?;
    let outer = made.begin(site.alloc);
    Ok(Range {
        index,
        low,
        high,
        outer,
    })
}

/// Ends a `foreach`.
pub fn close_range(
    at: Place,
    range: Range,
    step: &i64,
    body_at: Place,
    made: &mut Made,
) -> Result<(), AllocError>
    ensures { OnOk result (made_of made.new ≡ spec.then_stands at (PKind.Foreach range.index range.low range.high step.now (plain.branch body_at (made_of made.old))) (record { slots = made.old.slots; front = range.outer })) }
{
    let Range {
        index,
        low,
        high,
        outer,
    } = range;
    let body = made.end(outer);
    let branch = Branch { at: body_at, body };
    made.stand(at, PKind::Foreach(index, low, high, *step, branch))
}
