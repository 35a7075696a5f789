use lq_tree::{Arm, Base, BinOp, CType, Expr, Func, Name, Param, Program, Stmt, StmtKind};
use std::alloc::{AllocError, Global};

fn put(out: &mut Vec<u8>, text: &str) -> Result<(), AllocError> {
    out.extend_from_slice(text.as_bytes())
}

fn put_name(out: &mut Vec<u8>, name: &Name) -> Result<(), AllocError> {
    out.extend_from_slice(name.as_bytes())
}

fn put_type(out: &mut Vec<u8>, ctype: &CType) -> Result<(), AllocError> {
    match &ctype.base {
        Base::Int => put(out, "int")?,
        Base::Struct(name) => {
            put(out, "struct ")?;
            put_name(out, name)?;
        }
    }
    for _ in 0..ctype.stars {
        put(out, "*")?;
    }
    Ok(())
}

fn sign_of(op: BinOp) -> &'static str {
    match op {
        BinOp::Mul => "*",
        BinOp::Div => "/",
        BinOp::Rem => "%",
        BinOp::Add => "+",
        BinOp::Sub => "-",
        BinOp::Lt => "<",
        BinOp::Le => "<=",
        BinOp::Gt => ">",
        BinOp::Ge => ">=",
        BinOp::Eq => "==",
        BinOp::Ne => "!=",
        BinOp::And => "&&",
        BinOp::Or => "||",
    }
}

// Trees of the tables are less deep than this.
const DEPTH: u32 = 40;

#[cycle(expressions)]
fn put_operator(
    alloc: Global,
    out: &mut Vec<u8>,
    sign: &str,
    operands: &[&Expr],
    depth: u32,
) -> Result<(), AllocError> {
    put(out, "(")?;
    put(out, sign)?;
    for operand in operands {
        put(out, " ")?;
        put_expr(alloc, out, operand, depth)?;
    }
    put(out, ")")
}

#[cycle(expressions)]
fn put_member(
    alloc: Global,
    out: &mut Vec<u8>,
    sign: &str,
    of: &Expr,
    field: &Name,
    depth: u32,
) -> Result<(), AllocError> {
    put(out, sign)?;
    put_expr(alloc, out, of, depth)?;
    put(out, " ")?;
    put_name(out, field)?;
    put(out, ")")
}

#[cycle(expressions)]
fn put_call(
    alloc: Global,
    out: &mut Vec<u8>,
    name: &Name,
    arguments: &[Expr],
    depth: u32,
) -> Result<(), AllocError> {
    put(out, "(call ")?;
    put_name(out, name)?;
    for argument in arguments {
        put(out, " ")?;
        put_expr(alloc, out, argument, depth)?;
    }
    put(out, ")")
}

#[cycle(expressions)]
fn put_expr(alloc: Global, out: &mut Vec<u8>, expr: &Expr, depth: u32) -> Result<(), AllocError> {
    let Some(below) = depth.checked_sub(1) else {
        return Ok(());
    };
    match expr {
        Expr::Num(number) => out.extend_from_slice(number.to_string(alloc)?.as_bytes()),
        Expr::Var(name) => put_name(out, name),
        Expr::Neg(a) => put_operator(alloc, out, "-", &[a.get()], below),
        Expr::Not(a) => put_operator(alloc, out, "!", &[a.get()], below),
        Expr::Bin(op, a, b) => put_operator(alloc, out, sign_of(*op), &[a.get(), b.get()], below),
        Expr::Index(a, i) => put_operator(alloc, out, "[]", &[a.get(), i.get()], below),
        Expr::Deref(a) => put_operator(alloc, out, "*", &[a.get()], below),
        Expr::Arrow(of, field) => put_member(alloc, out, "(-> ", of.get(), field, below),
        Expr::Dot(of, field) => put_member(alloc, out, "(. ", of.get(), field, below),
        Expr::Call(name, arguments) => put_call(alloc, out, name, arguments.as_slice(), below),
        Expr::Calloc(count, ctype) => {
            put(out, "(calloc ")?;
            put_expr(alloc, out, count.get(), below)?;
            put(out, " ")?;
            put_type(out, ctype)?;
            put(out, ")")
        }
    }
}

fn put_part(alloc: Global, out: &mut Vec<u8>, kind: &StmtKind) -> Result<(), AllocError> {
    match kind {
        StmtKind::Empty => put(out, ";"),
        StmtKind::Local(ctype, name, initial) => {
            put(out, "(")?;
            put_type(out, ctype)?;
            put(out, " ")?;
            put_name(out, name)?;
            if let Some(value) = initial {
                put(out, " = ")?;
                put_expr(alloc, out, value, DEPTH)?;
            }
            put(out, ")")
        }
        StmtKind::Set(name, value) => {
            put(out, "(")?;
            put_name(out, name)?;
            put(out, " = ")?;
            put_expr(alloc, out, value, DEPTH)?;
            put(out, ")")
        }
        StmtKind::Store(target, value) => {
            put_operator(alloc, out, "store", &[target, value], DEPTH)
        }
        StmtKind::Call(name, arguments) => {
            put_call(alloc, out, name, arguments.as_slice(), DEPTH)
        }
        StmtKind::Return(None) => put(out, "(return)"),
        StmtKind::Return(Some(value)) => put_operator(alloc, out, "return", &[value], DEPTH),
        StmtKind::Print(value) => put_operator(alloc, out, "print", &[value], DEPTH),
        _ => Ok(()),
    }
}

#[cycle(statements)]
fn put_all(
    alloc: Global,
    out: &mut Vec<u8>,
    statements: &[Stmt],
    depth: u32,
) -> Result<(), AllocError> {
    let mut is_first = true;
    for statement in statements {
        if !is_first {
            put(out, " ")?;
        }
        is_first = false;
        put_stmt(alloc, out, &statement.kind, depth)?;
    }
    Ok(())
}

#[cycle(statements)]
fn put_arms(alloc: Global, out: &mut Vec<u8>, arms: &[Arm], depth: u32) -> Result<(), AllocError> {
    for arm in arms {
        put(out, " (")?;
        put_expr(alloc, out, &arm.cond, DEPTH)?;
        put(out, " ")?;
        put_stmt(alloc, out, &arm.body.get().kind, depth)?;
        put(out, ")")?;
    }
    Ok(())
}

// The condition of a `for`, or `-` where there is none.
fn put_condition(alloc: Global, out: &mut Vec<u8>, cond: Option<&Expr>) -> Result<(), AllocError> {
    match cond {
        Some(cond) => put_expr(alloc, out, cond, DEPTH)?,
        None => put(out, "-")?,
    }
    put(out, " ")
}

// A part of the head of a `for`, or `-` where there is none.
#[cycle(statements)]
fn put_head(
    alloc: Global,
    out: &mut Vec<u8>,
    part: Option<&Stmt>,
    depth: u32,
) -> Result<(), AllocError> {
    match part {
        Some(part) => put_stmt(alloc, out, &part.kind, depth)?,
        None => put(out, "-")?,
    }
    put(out, " ")
}

// A loop, or a statement without a body.
#[cycle(statements)]
fn put_loop(
    alloc: Global,
    out: &mut Vec<u8>,
    kind: &StmtKind,
    depth: u32,
) -> Result<(), AllocError> {
    match kind {
        StmtKind::While(cond, body) => {
            put(out, "(while ")?;
            put_expr(alloc, out, cond, DEPTH)?;
            put(out, " ")?;
            put_stmt(alloc, out, &body.get().kind, depth)?;
            put(out, ")")
        }
        StmtKind::For(first, cond, third, body) => {
            put(out, "(for ")?;
            put_head(alloc, out, first.as_ref().map(|part| part.get()), depth)?;
            put_condition(alloc, out, cond.as_ref())?;
            put_head(alloc, out, third.as_ref().map(|part| part.get()), depth)?;
            put_stmt(alloc, out, &body.get().kind, depth)?;
            put(out, ")")
        }
        StmtKind::Foreach(index, low, high, step, body) => {
            put(out, "(foreach ")?;
            put_name(out, index)?;
            put(out, " ")?;
            put_expr(alloc, out, low, DEPTH)?;
            put(out, " ")?;
            put_expr(alloc, out, high, DEPTH)?;
            put(out, " ")?;
            out.extend_from_slice(step.to_string(alloc)?.as_bytes())?;
            put(out, " ")?;
            put_stmt(alloc, out, &body.get().kind, depth)?;
            put(out, ")")
        }
        part => put_part(alloc, out, part),
    }
}

#[cycle(statements)]
fn put_stmt(
    alloc: Global,
    out: &mut Vec<u8>,
    kind: &StmtKind,
    depth: u32,
) -> Result<(), AllocError> {
    let Some(below) = depth.checked_sub(1) else {
        return Ok(());
    };
    match kind {
        StmtKind::Block(statements) => {
            put(out, "{")?;
            put_all(alloc, out, statements.as_slice(), below)?;
            put(out, "}")
        }
        StmtKind::If(arms, last) => {
            put(out, "(if")?;
            put_arms(alloc, out, arms.as_slice(), below)?;
            if let Some(last) = last {
                put(out, " else ")?;
                put_stmt(alloc, out, &last.get().kind, below)?;
            }
            put(out, ")")
        }
        StmtKind::Cobegin(branches) => {
            put(out, "(cobegin ")?;
            put_all(alloc, out, branches.as_slice(), below)?;
            put(out, ")")
        }
        other => put_loop(alloc, out, other, below),
    }
}

fn put_params(out: &mut Vec<u8>, params: &[Param]) -> Result<(), AllocError> {
    let mut is_first = true;
    for param in params {
        if !is_first {
            put(out, " ")?;
        }
        is_first = false;
        put_type(out, &param.ctype)?;
        put(out, " ")?;
        put_name(out, &param.name)?;
    }
    Ok(())
}

fn put_func(alloc: Global, out: &mut Vec<u8>, func: &Func) -> Result<(), AllocError> {
    put(out, "(func ")?;
    match &func.result {
        Some(ctype) => put_type(out, ctype)?,
        None => put(out, "void")?,
    }
    put(out, " ")?;
    put_name(out, &func.name)?;
    put(out, " (")?;
    put_params(out, func.params.as_slice())?;
    put(out, ") {")?;
    put_all(alloc, out, func.body.as_slice(), DEPTH)?;
    put(out, "})")
}

/// The outline of a tree: each part in parentheses, its sign or word first.
pub fn outline(alloc: Global, program: &Program) -> Result<Vec<u8>, AllocError> {
    let mut out = Vec::new(alloc);
    for defined in program.structs.as_slice() {
        put(&mut out, "(struct ")?;
        put_name(&mut out, &defined.name)?;
        put(&mut out, " ")?;
        put_params(&mut out, defined.fields.as_slice())?;
        put(&mut out, ")")?;
    }
    for func in program.funcs.as_slice() {
        put_func(alloc, &mut out, func)?;
    }
    Ok(out)
}
