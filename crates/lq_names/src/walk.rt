//! The walk over the expressions of a statement.

ghost use Rattle.std.specs.Prelude.{◌≡◌};
ghost use Rattle.std.specs.List.{flat_map};
ghost use Rattle.lq_names.specs.Faults as faults;
ghost use Rattle.lq_names.specs.Seen.{at_site};

use crate::fault::Fault;
use crate::least::at_node;
use crate::site::Site;
use lq_tree::{Expr, Place};

/// The least fault, with those of an expression and all its parts.
#[cycle(expressions)]
pub fn in_expression(site: &Site<'_>, at: Place, expr: &Expr, found: Option<Fault>) -> Option<Fault>
    ensures { result ≡ faults.noted at found (faults.expression_rules (at_site site.now) expr.now) }
{
    let first = at_node(site, at, expr, found);
    match expr {
        Expr::Num(_) => first,
        Expr::Var(_) => first,
        Expr::Neg(part) => in_expression(site, at, part.get(), first),
        Expr::Not(part) => in_expression(site, at, part.get(), first),
        Expr::Deref(part) => in_expression(site, at, part.get(), first),
        Expr::Arrow(part, _) => in_expression(site, at, part.get(), first),
        Expr::Dot(part, _) => in_expression(site, at, part.get(), first),
        Expr::Calloc(part, _) => in_expression(site, at, part.get(), first),
        Expr::Bin(_, left, right) => {
            let next = in_expression(site, at, left.get(), first);
            in_expression(site, at, right.get(), next)
        }
        Expr::Index(left, right) => {
            let next = in_expression(site, at, left.get(), first);
            in_expression(site, at, right.get(), next)
        }
        Expr::Call(_, args) => in_expressions(site, at, args.as_slice(), first),
    }
}

/// The same for several expressions.
#[cycle(expressions)]
pub fn in_expressions(
    site: &Site<'_>,
    at: Place,
    exprs: &[Expr],
    found: Option<Fault>,
) -> Option<Fault>
    ensures { result ≡ faults.noted at found (flat_map (faults.expression_rules (at_site site.now)) exprs.now) }
{
    let mut found = found;
    for expr in exprs {
        found = in_expression(site, at, expr, found);
    }
    found
}
