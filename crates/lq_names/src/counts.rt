//! The counts of a program, and their limits.

ghost use Rattle.std.specs.Prelude.{◌≡◌, map, option_map};
ghost use Rattle.lq_tree.specs.declared.stmt.Arm.{out-Arm};
ghost use Rattle.lq_names.specs.Counts as spec;

use lq_tree::{Arm, Boxed, Func, Limit, Program, Quantity, Stmt, StmtKind, StructDef};

/// What is counted in a part of a function.
#[derive(Clone, Copy, Debug, PartialEq, Eq)]
pub struct Sizes {
    /// How many locals it leaves in scope behind it.
    declared: u64,
    /// The most of its locals that are in scope at once.
    locals: u64,
    /// The most branches of one `cobegin`.
    branches: u64,
    /// The most conditions of one `if`.
    arms: u64,
}

const NO_SIZES: Sizes = Sizes {
    declared: 0,
    locals: 0,
    branches: 0,
    arms: 0,
};

const ONE_LOCAL: Sizes = Sizes {
    declared: 1,
    locals: 1,
    branches: 0,
    arms: 0,
};

/// One part, and the next in the scope of the first.
fn behind(a: Sizes, b: Sizes) -> Sizes
    ensures { result ≡ spec.behind a b }
{
    Sizes {
        declared: a.declared.saturating_add(b.declared),
        locals: a.locals.max(a.declared.saturating_add(b.locals)),
        branches: a.branches.max(b.branches),
        arms: a.arms.max(b.arms),
    }
}

/// A part whose locals are in scope in it alone.
fn closed(a: Sizes) -> Sizes
    ensures { result ≡ spec.closed a }
{
    Sizes { declared: 0, ..a }
}

fn branches_of(count: usize) -> Sizes
    ensures { result ≡ spec.branches_of count }
{
    Sizes {
        branches: count as u64,
        ..NO_SIZES
    }
}

fn arms_of(count: usize) -> Sizes
    ensures { result ≡ spec.arms_of count }
{
    Sizes {
        arms: count as u64,
        ..NO_SIZES
    }
}

/// The sizes of a statement.
#[cycle(sizes)]
fn in_stmt(stmt: &Stmt) -> Sizes
    ensures { result ≡ spec.sizes_of_stmt stmt.now }
{
    match &stmt.kind {
        StmtKind::Block(body) => closed(in_row(body.as_slice())),
        StmtKind::Local(_, _, _) => ONE_LOCAL,
        StmtKind::If(arms, other) => {
            let inner = behind(in_arms(arms.as_slice()), closed(in_other(other)));
            behind(arms_of(arms.len()), inner)
        }
        StmtKind::While(_, body) => closed(in_stmt(body.get())),
        StmtKind::For(first, _, third, body) => {
            let inner = behind(closed(in_other(third)), closed(in_stmt(body.get())));
            closed(behind(in_other(first), inner))
        }
        StmtKind::Cobegin(blocks) => {
            behind(branches_of(blocks.len()), in_branches(blocks.as_slice()))
        }
        StmtKind::Foreach(_, _, _, _, body) => closed(behind(ONE_LOCAL, in_stmt(body.get()))),
        _ => NO_SIZES,
    }
}

/// The sizes of statements one after another.
#[cycle(sizes)]
fn in_row(stmts: &[Stmt]) -> Sizes
    ensures { result ≡ spec.in_row (map spec.sizes_of_stmt stmts.now) }
{
    let mut total = NO_SIZES;
    for stmt in stmts {
        total = behind(total, in_stmt(stmt));
    }
    total
}

/// The sizes of blocks beside each other.
#[cycle(sizes)]
fn in_branches(blocks: &[Stmt]) -> Sizes
    ensures { result ≡ spec.beside (map spec.sizes_of_stmt blocks.now) }
{
    let mut total = NO_SIZES;
    for stmt in blocks {
        total = behind(total, closed(in_stmt(stmt)));
    }
    total
}

/// The sizes of the bodies of an `if`.
#[cycle(sizes)]
fn in_arms(arms: &[Arm]) -> Sizes
    ensures { result ≡ spec.beside (map (λ arm. spec.sizes_of_stmt (out-Arm arm).body) arms.now) }
{
    let mut total = NO_SIZES;
    for arm in arms {
        total = behind(total, closed(in_stmt(arm.body.get())));
    }
    total
}

/// The sizes of a statement that may be missing.
#[cycle(sizes)]
fn in_other(other: &Option<Boxed<Stmt>>) -> Sizes
    ensures { result ≡ spec.or_nothing (option_map spec.sizes_of_stmt other.now) }
{
    match other {
        Some(stmt) => in_stmt(stmt.get()),
        None => NO_SIZES,
    }
}

/// So many parameters, in scope in the body behind them.
fn parameters_of(count: usize) -> Sizes
    ensures { result ≡ spec.parameters_of count }
{
    Sizes {
        declared: count as u64,
        locals: count as u64,
        ..NO_SIZES
    }
}

/// The sizes of a function.
fn in_function(function: &Func) -> Sizes
    ensures { result ≡ spec.function_sizes function.now }
{
    let params = parameters_of(function.params.len());
    behind(params, in_row(function.body.as_slice()))
}

/// The largest sizes of the functions.
fn in_functions(functions: &[Func]) -> Sizes
    ensures { result ≡ spec.largest (map spec.function_sizes functions.now) }
{
    let mut total = NO_SIZES;
    for function in functions {
        total = behind(total, closed(in_function(function)));
    }
    total
}

/// The most fields of one struct.
fn most_fields(structs: &[StructDef]) -> u64
    ensures { result ≡ spec.most_fields structs.now }
{
    let mut most = 0;
    for item in structs {
        most = item.fields.len().max(most);
    }
    most as u64
}

/// Tests the counts of a program against their limits, in this order: functions, structs, fields of one struct, locals
/// in scope at once, branches of one `cobegin`, conditions of one `if` (docs/COMMANDS.md, "Limits"). FOUND is the
/// largest count. It takes no memory.
pub fn check_counts(program: &Program) -> Result<(), Limit>
    ensures { result ≡ spec.answer (spec.first_passed (spec.counts program.now)) }
{
    let sizes = in_functions(program.funcs.as_slice());
    Quantity::Functions.check(program.funcs.len() as u64)?;
    Quantity::Structs.check(program.structs.len() as u64)?;
    Quantity::Fields.check(most_fields(program.structs.as_slice()))?;
    Quantity::Locals.check(sizes.locals)?;
    Quantity::Branches.check(sizes.branches)?;
    Quantity::Arms.check(sizes.arms)
}
