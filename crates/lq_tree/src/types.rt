//! The types of expressions.

ghost use Rattle.std.specs.Prelude.{◌≡◌};
ghost use Rattle.std.specs.Option.{option_copied};
ghost use Rattle.lq_tree.specs.Types as spec;
ghost use Rattle.lq_tree.specs.Seen.{seen};

use crate::scope::{Variable, type_in_scope};
use crate::{Base, BinOp, CType, Expr, Func, Name, Program, field_of, function_of, struct_of};

/// What is known of the type of an expression (docs/LANGUAGE.md, "Types").
#[derive(Clone, Copy)]
pub enum ExprType<'a> {
    /// An int.
    Number,
    /// A pointer: one star, and so many more, on this base.
    Pointer(&'a Base, u8),
    /// An element of an array of structs, which must be followed by a field.
    Element(&'a Name),
    /// Any other struct value, which is never allowed.
    Whole(&'a Name),
    /// What a void function gives.
    Nothing,
    /// Unknown after another fault: it agrees with everything.
    Unknown,
}

/// The type of what is declared so.
pub fn declared(ctype: &CType) -> ExprType<'_>
    ensures { seen result ≡ spec.declared ctype.now }
{
    match (&ctype.base, ctype.stars) {
        (Base::Int, 0) => ExprType::Number,
        (Base::Struct(name), 0) => ExprType::Whole(name),
        (base, stars) => ExprType::Pointer(base, stars - 1),
    }
}

impl<'a> ExprType<'a> {
    /// Whether it is an int.
    pub fn is_number(self) -> bool
        ensures { result ≡ spec.is_number (seen self.entry) }
    {
        matches!(self, ExprType::Number)
    }

    /// Whether it is a pointer.
    pub fn is_pointer(self) -> bool
        ensures { result ≡ spec.is_pointer (seen self.entry) }
    {
        matches!(self, ExprType::Pointer(_, _))
    }

    /// What it is as a value: a struct or nothing is no value, and unknown then.
    fn value(self) -> ExprType<'a>
        ensures { seen result ≡ spec.value (seen self.entry) }
    {
        match self {
            ExprType::Number | ExprType::Pointer(_, _) => self,
            _ => ExprType::Unknown,
        }
    }

    /// What it points to.
    pub fn element(self) -> ExprType<'a>
        ensures { seen result ≡ spec.element_of (seen self.entry) }
    {
        match self {
            ExprType::Pointer(base, stars) => behind(base, stars),
            _ => ExprType::Unknown,
        }
    }
}

/// What a pointer points to, behind so many stars.
fn behind(base: &Base, stars: u8) -> ExprType<'_>
    ensures { seen result ≡ spec.behind base.now stars }
{
    match (base, stars) {
        (Base::Int, 0) => ExprType::Number,
        (Base::Struct(name), 0) => ExprType::Element(name),
        (base, stars) => ExprType::Pointer(base, stars - 1),
    }
}

/// The type of a field of a struct element.
fn dotted<'a>(program: &'a Program, element: ExprType<'a>, field: &Name) -> ExprType<'a>
    ensures { seen result ≡ spec.dotted program.now (seen element.entry) field.now }
{
    let ExprType::Element(name) = element else {
        return ExprType::Unknown;
    };
    match field_of(program, name, field) {
        Some(field) => declared(&field.ctype),
        None => ExprType::Unknown,
    }
}

/// The type of an operator with two operands.
fn combined<'a>(operator: BinOp, left: ExprType<'a>, right: ExprType<'a>) -> ExprType<'a>
    ensures { seen result ≡ spec.combined operator (seen left.entry) (seen right.entry) }
{
    match operator {
        BinOp::Add | BinOp::Sub => {
            if right.is_pointer() {
                ExprType::Unknown
            } else {
                left.value()
            }
        }
        _ => ExprType::Number,
    }
}

/// What a call with so many arguments gives.
fn called<'a>(function: Option<&'a Func>, count: usize) -> ExprType<'a>
    ensures { seen result ≡ spec.called (option_copied function.entry) count }
{
    let Some(function) = function else {
        return ExprType::Unknown;
    };
    if function.params.len() != count {
        return ExprType::Unknown;
    }
    match &function.result {
        Some(ctype) => declared(ctype),
        None => ExprType::Nothing,
    }
}

/// Whether the struct of a type, if it names one, is known.
pub fn is_known(program: &Program, base: &Base) -> bool
    ensures { result ≡ spec.is_known program.now base.now }
{
    match base {
        Base::Int => true,
        Base::Struct(name) => struct_of(program, name).is_some(),
    }
}

/// What a `calloc` of this type gives.
fn allocated<'a>(program: &Program, ctype: &'a CType) -> ExprType<'a>
    ensures { seen result ≡ spec.allocated program.now ctype.now }
{
    if is_known(program, &ctype.base) {
        ExprType::Pointer(&ctype.base, ctype.stars)
    } else {
        ExprType::Unknown
    }
}

/// The type of an expression where these variables are in scope, the latest last.
pub fn type_of<'a>(program: &'a Program, scope: &[Variable<'a>], expr: &'a Expr) -> ExprType<'a>
    ensures { seen result ≡ spec.expression_type program.now scope.now expr.now }
{
    match expr {
        Expr::Num(_) | Expr::Neg(_) | Expr::Not(_) => ExprType::Number,
        Expr::Var(name) => type_in_scope(scope, name),
        Expr::Bin(operator, left, right) => combined(
            *operator,
            type_of(program, scope, left.get()),
            type_of(program, scope, right.get()),
        ),
        Expr::Index(base, _) => type_of(program, scope, base.get()).element(),
        Expr::Deref(base) => type_of(program, scope, base.get()).element(),
        Expr::Arrow(base, field) => {
            let element = type_of(program, scope, base.get()).element();
            dotted(program, element, field)
        }
        Expr::Dot(base, field) => dotted(program, type_of(program, scope, base.get()), field),
        Expr::Call(name, args) => called(function_of(program, name), args.len()),
        Expr::Calloc(_, ctype) => allocated(program, ctype),
    }
}
