//! The least of several faults.

ghost use Rattle.std.specs.Prelude.{◌≡◌};
ghost use Rattle.lq_tree.specs.declared.expr.Expr.{out-Expr};
ghost use Rattle.lq_tree.specs.declared.stmt.StmtKind.{out-StmtKind};
ghost use Rattle.lq_names.specs.Faults as spec;
ghost use Rattle.lq_names.specs.Seen.{at_site};

use crate::fault::Fault;
use crate::rules::{n1, n3, n5, n6, n7, n8, n9};
use crate::site::Site;
use crate::statement_rules::{s1, s3, s4, s5, s6, s7, s8, s9, s10, s11, s12, s13};
use lq_tree::{Expr, Place, StmtKind};

/// Whether a place comes before another.
fn is_before(a: Place, b: Place) -> bool
    ensures { result ≡ spec.is_before a b }
{
    a.line < b.line || (a.line == b.line && a.col < b.col)
}

/// Whether a fault comes before another: by its place, and then by its rule.
fn precedes(a: Fault, b: Fault) -> bool
    ensures { result ≡ spec.precedes a b }
{
    is_before(a.at, b.at) || (!is_before(b.at, a.at) && a.rule < b.rule)
}

/// The lesser of the least fault so far and one more.
fn lesser(found: Option<Fault>, fault: Fault) -> Option<Fault>
    ensures { result ≡ spec.lesser found fault }
{
    match found {
        Some(least) => if precedes(fault, least) {
            Some(fault)
        } else {
            Some(least)
        },
        None => Some(fault),
    }
}

/// The least fault, with one more where the rule is broken.
#[tactic(auto, unfolding(crate::specs::Faults::noted_if))]
pub fn note(found: Option<Fault>, broken: bool, rule: u8, at: Place) -> Option<Fault>
    ensures { result ≡ spec.noted_if at found broken rule }
{
    if broken {
        lesser(found, Fault { rule, at })
    } else {
        found
    }
}

/// The least fault, with those at one node of an expression.
pub fn at_node(site: &Site<'_>, at: Place, expr: &Expr, found: Option<Fault>) -> Option<Fault>
    ensures { result ≡ spec.noted at found (spec.node_rules (at_site site.now) (out-Expr expr.now)) }
{
    let found = note(found, n1(expr), 1, at);
    let found = note(found, n3(site, expr), 3, at);
    let found = note(found, n5(site, expr), 5, at);
    let found = note(found, n6(site, expr), 6, at);
    let found = note(found, n7(site, expr), 7, at);
    let found = note(found, n8(site, expr), 8, at);
    note(found, n9(site, expr), 9, at)
}

/// The least fault, with those at one statement, but for its expressions.
pub fn at_statement(
    site: &Site<'_>,
    at: Place,
    kind: &StmtKind,
    found: Option<Fault>,
) -> Option<Fault>
    ensures { result ≡ spec.noted at found (spec.own_rules (at_site site.now) (out-StmtKind kind.now)) }
{
    let found = note(found, s1(kind), 1, at);
    let found = note(found, s3(site, kind), 3, at);
    let found = note(found, s4(site, kind), 4, at);
    let found = note(found, s5(site, kind), 5, at);
    let found = note(found, s6(site, kind), 6, at);
    let found = note(found, s7(site, kind), 7, at);
    let found = note(found, s8(site, kind), 8, at);
    let found = note(found, s9(site, kind), 9, at);
    let found = note(found, s10(site, kind), 10, at);
    let found = note(found, s11(site, kind), 11, at);
    let found = note(found, s12(site, kind), 12, at);
    note(found, s13(kind), 13, at)
}
