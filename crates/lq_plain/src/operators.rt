//! Operators over the values of their operands.

ghost use Rattle.std.specs.Prelude.{◌≡◌, ◌&&◌, not, IfOk};
ghost use Rattle.lq_tree.specs.Seen.{seen};
ghost use Rattle.lq_tree.specs.Types.{is_pointer};
ghost use Rattle.lq_plain.specs.Flat as spec;
ghost use Rattle.lq_plain.specs.Sites.{env_of};

use crate::site::Site;
use lq_tree::{BinOp, Boxed, Expr, ExprType, Items, PExpr, PKind, PStmt};
use std::alloc::{AllocError, Global};

/// Whether an expression loads nothing, calls nothing and allocates nothing.
#[tactic(auto, using(crate::proofs::Forms::pure_neg, crate::proofs::Forms::pure_not, crate::proofs::Forms::pure_bin))]
pub fn is_pure(expr: &Expr) -> bool
    ensures { result ≡ spec.is_pure expr.now }
{
    match expr {
        Expr::Num(_) => true,
        Expr::Var(_) => true,
        Expr::Neg(part) => is_pure(part.get()),
        Expr::Not(part) => is_pure(part.get()),
        Expr::Bin(_, left, right) => is_pure(left.get()) && is_pure(right.get()),
        _ => false,
    }
}

/// Whether both sides of an operator are pure.
pub fn are_pure(left: &Expr, right: &Expr) -> bool
    ensures { result ≡ (spec.is_pure left.now && spec.is_pure right.now) }
{
    is_pure(left) && is_pure(right)
}

// Whether an expression is the literal 0.
fn is_zero(expr: &Expr) -> bool
    ensures { result ≡ spec.is_zero expr.now }
{
    match expr {
        Expr::Num(number) => *number == 0,
        _ => false,
    }
}

/// Whether an expression is null where a value of this type is wanted.
pub fn is_null(kind: ExprType<'_>, expr: &Expr) -> bool
    ensures { result ≡ (is_pointer (seen kind.entry) && spec.is_zero expr.now) }
{
    kind.is_pointer() && is_zero(expr)
}

// Whether the right side of an operator may be left out.
fn stops_early(op: BinOp) -> bool
    ensures { result ≡ spec.stops_early op }
{
    matches!(op, BinOp::And | BinOp::Or)
}

/// Whether the right side of an operator stands in an If of its own.
pub fn stops(pure: bool, op: BinOp) -> bool
    ensures { result ≡ (not pure && spec.stops_early op) }
{
    !pure && stops_early(op)
}

/// What `&&` and `||` come to where only the left side is asked for.
pub fn at_first(op: BinOp) -> PExpr
    ensures { result ≡ PExpr.Num (spec.at_first op) }
{
    match op {
        BinOp::Or => PExpr::Num(1),
        _ => PExpr::Num(0),
    }
}

/// Whether a value is true, as a value.
pub fn is_true(alloc: Global, value: PExpr) -> Result<PExpr, AllocError>
    ensures { IfOk result (λ v. v ≡ spec.is_true value) }
{
    let zero = Boxed::new(alloc, PExpr::Num(0))?;
    Ok(PExpr::Bin(BinOp::Ne, Boxed::new(alloc, value)?, zero))
}

/// Asks for the right side of an `&&` or `||` only where it is needed.
pub fn if_needed(alloc: Global, op: BinOp, first: PExpr, second: Items<PStmt>) -> PKind
    ensures { result ≡ spec.if_needed op first second }
{
    match op {
        BinOp::Or => PKind::If(first, Items::new(alloc), second),
        _ => PKind::If(first, second, Items::new(alloc)),
    }
}

// An operator over two ints.
fn over_ints(alloc: Global, op: BinOp, a: PExpr, b: PExpr) -> Result<PExpr, AllocError>
    ensures { IfOk result (λ v. v ≡ PExpr.Bin op a b) }
{
    let left = Boxed::new(alloc, a)?;
    Ok(PExpr::Bin(op, left, Boxed::new(alloc, b)?))
}

// The opposite of an int, or of a test.
fn negated(alloc: Global, a: PExpr) -> Result<PExpr, AllocError>
    ensures { IfOk result (λ v. v ≡ PExpr.Neg a) }
{
    Ok(PExpr::Neg(Boxed::new(alloc, a)?))
}

fn inverted(alloc: Global, a: PExpr) -> Result<PExpr, AllocError>
    ensures { IfOk result (λ v. v ≡ PExpr.Not a) }
{
    Ok(PExpr::Not(Boxed::new(alloc, a)?))
}

// A pointer so many elements further on.
fn shifted(alloc: Global, a: PExpr, b: PExpr) -> Result<PExpr, AllocError>
    ensures { IfOk result (λ v. v ≡ PExpr.Shift a b) }
{
    let pointer = Boxed::new(alloc, a)?;
    Ok(PExpr::Shift(pointer, Boxed::new(alloc, b)?))
}

// Whether a pointer is null.
fn null_test(alloc: Global, a: PExpr) -> Result<PExpr, AllocError>
    ensures { IfOk result (λ v. v ≡ PExpr.IsNull a) }
{
    Ok(PExpr::IsNull(Boxed::new(alloc, a)?))
}

/// `==` over the values of its operands: the other side of a comparison with a pointer is the literal 0.
fn equal<'a>(
    site: Site<'a>,
    left: &'a Expr,
    right: &'a Expr,
    a: PExpr,
    b: PExpr,
) -> Result<PExpr, AllocError>
    ensures { IfOk result (λ v. v ≡ spec.operator (spec.type_of (env_of site.entry) left.now) (spec.type_of (env_of site.entry) right.now) BinOp.Eq a b) }
{
    if site.type_of(left).is_pointer() {
        null_test(site.alloc, a)
    } else if site.type_of(right).is_pointer() {
        null_test(site.alloc, b)
    } else {
        over_ints(site.alloc, BinOp::Eq, a, b)
    }
}

/// `!=` over the values of its operands.
fn different<'a>(
    site: Site<'a>,
    left: &'a Expr,
    right: &'a Expr,
    a: PExpr,
    b: PExpr,
) -> Result<PExpr, AllocError>
    ensures { IfOk result (λ v. v ≡ spec.operator (spec.type_of (env_of site.entry) left.now) (spec.type_of (env_of site.entry) right.now) BinOp.Ne a b) }
{
    if site.type_of(left).is_pointer() {
        inverted(site.alloc, null_test(site.alloc, a)?)
    } else if site.type_of(right).is_pointer() {
        inverted(site.alloc, null_test(site.alloc, b)?)
    } else {
        over_ints(site.alloc, BinOp::Ne, a, b)
    }
}

/// An operator over the values of its operands, by their types.
pub fn operator<'a>(
    site: Site<'a>,
    op: BinOp,
    left: &'a Expr,
    right: &'a Expr,
    a: PExpr,
    b: PExpr,
) -> Result<PExpr, AllocError>
    ensures { IfOk result (λ v. v ≡ spec.operator (spec.type_of (env_of site.entry) left.now) (spec.type_of (env_of site.entry) right.now) op a b) }
{
    match op {
        BinOp::Add if site.type_of(left).is_pointer() => shifted(site.alloc, a, b),
        BinOp::Sub if site.type_of(left).is_pointer() => {
            let back = negated(site.alloc, b)?;
            shifted(site.alloc, a, back)
        }
        BinOp::Eq => equal(site, left, right, a, b),
        BinOp::Ne => different(site, left, right, a, b),
        _ => over_ints(site.alloc, op, a, b),
    }
}
