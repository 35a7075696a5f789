//! The name rules at one node of an expression.

ghost use Rattle.std.specs.Prelude.{◌≡◌};
ghost use Rattle.std.specs.List.{list_any};
ghost use Rattle.std.specs.Option.{option_copied};
ghost use Rattle.lq_tree.specs.declared.expr.Expr.{out-Expr};
ghost use Rattle.lq_names.specs.Rules as spec;
ghost use Rattle.lq_names.specs.Types as types;
ghost use Rattle.lq_names.specs.Types.{seen};
ghost use Rattle.lq_names.specs.Seen.{at_site};

use crate::site::Site;
use lq_tree::{
    Base, BinOp, Expr, ExprType, Func, Name, Param, Program, declared, field_of, function_of,
    is_known, same,
};

/// Whether an expression is the literal 0, which may stand for a pointer.
fn is_zero(expr: &Expr) -> bool
    ensures { result ≡ spec.is_zero expr.now }
{
    matches!(expr, Expr::Num(0))
}

/// Whether two types are made of the same.
fn same_base(a: &Base, b: &Base) -> bool
    ensures { result ≡ spec.same_base a.now b.now }
{
    match (a, b) {
        (Base::Int, Base::Int) => true,
        (Base::Struct(a), Base::Struct(b)) => same(a, b),
        _ => false,
    }
}

/// Whether a given type can't be what is wanted; the literal 0 may stand for any pointer.
fn disagrees(wanted: ExprType<'_>, given: ExprType<'_>, is_zero: bool) -> bool
    ensures { result ≡ spec.disagrees (seen wanted.entry) (seen given.entry) is_zero }
{
    match (wanted, given) {
        (ExprType::Number, ExprType::Pointer(_, _)) => true,
        (ExprType::Pointer(_, _), ExprType::Number) => !is_zero,
        (ExprType::Pointer(base, stars), ExprType::Pointer(other, more)) => {
            !(same_base(base, other) && stars == more)
        }
        _ => false,
    }
}

/// Whether an expression can't be what is wanted.
pub fn misfits(site: &Site<'_>, wanted: ExprType<'_>, expr: &Expr) -> bool
    ensures { result ≡ spec.misfits (at_site site.now) (seen wanted.entry) expr.now }
{
    disagrees(wanted, site.type_of(expr), is_zero(expr))
}

/// Whether an argument can't be its parameter; only those with a parameter at their position are compared.
fn argument_misfits(site: &Site<'_>, params: &[Param], args: &[Expr]) -> bool
    ensures { result ≡ spec.argument_misfits (at_site site.now) params.now args.now }
{
    params
        .iter()
        .zip(args)
        .any(|(param, arg)| misfits(site, declared(&param.ctype), arg))
}

/// The same at a call, where its function is known.
pub fn arguments_misfit(site: &Site<'_>, function: Option<&Func>, args: &[Expr]) -> bool
    ensures { result ≡ spec.arguments_misfit (at_site site.now) (option_copied function.entry) args.now }
{
    match function {
        Some(function) => argument_misfits(site, function.params.as_slice(), args),
        None => false,
    }
}

/// Whether a call has another number of arguments than its function has parameters.
pub fn miscounts(function: Option<&Func>, count: usize) -> bool
    ensures { result ≡ spec.miscounts (option_copied function.entry) count }
{
    match function {
        Some(function) => function.params.len() != count,
        None => false,
    }
}

/// Whether the name is `main`.
pub fn is_main(name: &Name) -> bool
    ensures { result ≡ spec.is_main name.now }
{
    name.as_bytes() == b"main".as_slice()
}

/// N1 at a node: `main` is called.
pub fn n1(expr: &Expr) -> bool
    ensures { result ≡ spec.n1 (out-Expr expr.now) }
{
    match expr {
        Expr::Call(name, _) => is_main(name),
        _ => false,
    }
}

/// Whether a struct element lacks a field of this name.
fn lacks_field(program: &Program, element: ExprType<'_>, field: &Name) -> bool
    ensures { result ≡ spec.lacks_field program.now (seen element.entry) field.now }
{
    match element {
        ExprType::Element(name) => field_of(program, name, field).is_none(),
        _ => false,
    }
}

/// N3 at a node: a variable, function, struct or field is unknown.
pub fn n3(site: &Site<'_>, expr: &Expr) -> bool
    ensures { result ≡ spec.n3 (at_site site.now) (out-Expr expr.now) }
{
    let program = site.program;
    match expr {
        Expr::Var(name) => !site.is_in_scope(name),
        Expr::Arrow(base, field) => {
            lacks_field(program, site.type_of(base.get()).element(), field)
        }
        Expr::Dot(base, field) => lacks_field(program, site.type_of(base.get()), field),
        Expr::Call(name, _) => function_of(program, name).is_none(),
        Expr::Calloc(_, ctype) => !is_known(program, &ctype.base),
        _ => false,
    }
}

/// Whether `==` or `!=` may compare these: two ints, or a pointer and the literal 0 on either side.
fn are_compared(left: ExprType<'_>, left_zero: bool, right: ExprType<'_>, right_zero: bool) -> bool
    ensures { result ≡ spec.are_compared (seen left.entry) left_zero (seen right.entry) right_zero }
{
    (!left.is_pointer() && !right.is_pointer())
        || (!left.is_number() && right_zero)
        || (left_zero && !right.is_number())
}

/// Whether an operator can't take these operands.
fn operator_misfits(site: &Site<'_>, operator: BinOp, left: &Expr, right: &Expr) -> bool
    ensures { result ≡ spec.operator_misfits operator (types.type_of (at_site site.now) left.now) (spec.is_zero left.now)
        (types.type_of (at_site site.now) right.now) (spec.is_zero right.now) }
{
    let left_type = site.type_of(left);
    let right_type = site.type_of(right);
    match operator {
        BinOp::Add | BinOp::Sub => right_type.is_pointer(),
        BinOp::Eq | BinOp::Ne => {
            !are_compared(left_type, is_zero(left), right_type, is_zero(right))
        }
        _ => left_type.is_pointer() || right_type.is_pointer(),
    }
}

/// Whether it is an int or a pointer, which have no fields.
fn has_no_fields(given: ExprType<'_>) -> bool
    ensures { result ≡ spec.has_no_fields (seen given.entry) }
{
    given.is_number() || given.is_pointer()
}

/// Whether an expression is a pointer.
pub fn is_no_number(site: &Site<'_>, expr: &Expr) -> bool
    ensures { result ≡ types.is_pointer (types.type_of (at_site site.now) expr.now) }
{
    site.type_of(expr).is_pointer()
}

/// Whether an expression is an int.
fn is_number(site: &Site<'_>, expr: &Expr) -> bool
    ensures { result ≡ types.is_number (types.type_of (at_site site.now) expr.now) }
{
    site.type_of(expr).is_number()
}

/// N5 at a node: types disagree.
pub fn n5(site: &Site<'_>, expr: &Expr) -> bool
    ensures { result ≡ spec.n5 (at_site site.now) (out-Expr expr.now) }
{
    match expr {
        Expr::Num(_) | Expr::Var(_) => false,
        Expr::Neg(part) | Expr::Not(part) | Expr::Calloc(part, _) => {
            is_no_number(site, part.get())
        }
        Expr::Bin(operator, left, right) => {
            operator_misfits(site, *operator, left.get(), right.get())
        }
        Expr::Index(base, index) => {
            is_number(site, base.get()) || is_no_number(site, index.get())
        }
        Expr::Deref(base) => is_number(site, base.get()),
        Expr::Arrow(base, _) => {
            is_number(site, base.get()) || has_no_fields(site.type_of(base.get()).element())
        }
        Expr::Dot(base, _) => has_no_fields(site.type_of(base.get())),
        Expr::Call(name, args) => {
            arguments_misfit(site, function_of(site.program, name), args.as_slice())
        }
    }
}

/// Whether an expression is a call of a void function.
pub fn gives_nothing(site: &Site<'_>, expr: &Expr) -> bool
    ensures { result ≡ spec.gives_nothing (at_site site.now) expr.now }
{
    matches!(site.type_of(expr), ExprType::Nothing)
}

/// Whether one of several does.
pub fn one_gives_nothing(site: &Site<'_>, exprs: &[Expr]) -> bool
    ensures { result ≡ list_any (spec.gives_nothing (at_site site.now)) exprs.now }
{
    exprs.iter().any(|expr| gives_nothing(site, expr))
}

/// N6 at a node: a wrong number of arguments, or a part that gives nothing.
pub fn n6(site: &Site<'_>, expr: &Expr) -> bool
    ensures { result ≡ spec.n6 (at_site site.now) (out-Expr expr.now) }
{
    match expr {
        Expr::Num(_) | Expr::Var(_) => false,
        Expr::Bin(_, left, right) | Expr::Index(left, right) => {
            gives_nothing(site, left.get()) || gives_nothing(site, right.get())
        }
        Expr::Neg(part)
        | Expr::Not(part)
        | Expr::Deref(part)
        | Expr::Arrow(part, _)
        | Expr::Dot(part, _)
        | Expr::Calloc(part, _) => gives_nothing(site, part.get()),
        Expr::Call(name, args) => {
            miscounts(function_of(site.program, name), args.len())
                || one_gives_nothing(site, args.as_slice())
        }
    }
}

/// Whether a struct value is no element.
pub fn is_whole(given: ExprType<'_>) -> bool
    ensures { result ≡ spec.is_whole (seen given.entry) }
{
    matches!(given, ExprType::Whole(_))
}

/// Whether an expression is a struct.
pub fn gives_struct(site: &Site<'_>, expr: &Expr) -> bool
    ensures { result ≡ spec.gives_struct (at_site site.now) expr.now }
{
    matches!(
        site.type_of(expr),
        ExprType::Element(_) | ExprType::Whole(_)
    )
}

/// Whether one of several is.
pub fn one_gives_struct(site: &Site<'_>, exprs: &[Expr]) -> bool
    ensures { result ≡ list_any (spec.gives_struct (at_site site.now)) exprs.now }
{
    exprs.iter().any(|expr| gives_struct(site, expr))
}

/// N7 at a node: a part is a struct; a field may follow an element.
pub fn n7(site: &Site<'_>, expr: &Expr) -> bool
    ensures { result ≡ spec.n7 (at_site site.now) (out-Expr expr.now) }
{
    match expr {
        Expr::Num(_) | Expr::Var(_) => false,
        Expr::Dot(base, _) => is_whole(site.type_of(base.get())),
        Expr::Bin(_, left, right) | Expr::Index(left, right) => {
            gives_struct(site, left.get()) || gives_struct(site, right.get())
        }
        Expr::Neg(part)
        | Expr::Not(part)
        | Expr::Deref(part)
        | Expr::Arrow(part, _)
        | Expr::Calloc(part, _) => gives_struct(site, part.get()),
        Expr::Call(_, args) => one_gives_struct(site, args.as_slice()),
    }
}

/// N8 at a node: in a parallel statement a call of a function that may print.
pub fn n8(site: &Site<'_>, expr: &Expr) -> bool
    ensures { result ≡ spec.n8 (at_site site.now) (out-Expr expr.now) }
{
    match expr {
        Expr::Call(name, _) => site.parallel && site.prints.has(name),
        _ => false,
    }
}

/// N9 at a node: there a `calloc`, or a call of a function that may allocate.
pub fn n9(site: &Site<'_>, expr: &Expr) -> bool
    ensures { result ≡ spec.n9 (at_site site.now) (out-Expr expr.now) }
{
    match expr {
        Expr::Call(name, _) => site.parallel && site.allocates.has(name),
        Expr::Calloc(_, _) => site.parallel,
        _ => false,
    }
}
