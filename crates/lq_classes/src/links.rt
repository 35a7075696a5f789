//! What the statements of a program say of its variables.

ghost use Rattle.std.specs.Prelude.{◌≡◌, ◌++◌, OnOk, IfOk, slice_get};
ghost use Rattle.std.specs.List.{flat_map};
ghost use Rattle.lq_tree.specs.declared.plain.Branch.{Branch as Block};
ghost use Rattle.lq_tree.specs.declared.plain.PKind.{Call};
ghost use Rattle.lq_tree.specs.PlainWalk.{within_branch};
ghost use Rattle.lq_classes.specs.Classes as spec;
ghost use Rattle.lq_classes.specs.Layout.{IsSmall};
ghost use Rattle.lq_classes.specs.Links.{flow_from, stored_from, passed_to, own_links, each_links, kind_links, body_links, links_from};

use crate::Var;
use lq_tree::{Branch, PExpr, PKind, PProgram, PStmt};
use sqlite_items::at;
use std::alloc::{AllocError, Global};

/// What a statement says of variables.
#[derive(Clone, Copy)]
pub(crate) enum Link {
    /// What the one holds goes to the other.
    Flow(Var, Var),
    /// Through the first variable the second is loaded from this field, or stored to it.
    Access(Var, u32, Var),
}

/// The slot into whose block a pointer expression points.
fn root(value: &PExpr) -> Option<u32>
    ensures { result ≡ spec.root value.now }
{
    match value {
        PExpr::Slot(slot) => Some(*slot),
        PExpr::Shift(base, _) => root(base.get()),
        PExpr::Num(_)
        | PExpr::Null
        | PExpr::Neg(_)
        | PExpr::Not(_)
        | PExpr::Bin(_, _, _)
        | PExpr::IsNull(_) => None,
    }
}

/// The result of the function with this number.
fn result_in(program: &PProgram, func: u32) -> Var
    requires { IsSmall program.now }
    ensures { result ≡ spec.result_in program.now func }
{
    match program.funcs.get(func as usize) {
        Some(function) => Var {
            func,
            slot: function.slots.len() as u32,
        },
        None => Var { func, slot: 0 },
    }
}

/// Where a pointer expression goes to this variable, its slot does.
fn put_flow(func: u32, value: &PExpr, to: Var, links: &mut Vec<Link>) -> Result<(), AllocError>
    ensures { OnOk result (links.new.items ≡ links.old.items ++ flow_from func (spec.root value.now) to) }
{
    if let Some(slot) = root(value) {
        links.push(Link::Flow(Var { func, slot }, to))?;
    }
    Ok(())
}

/// How many parameters the function with this number has.
fn param_count(program: &PProgram, func: u32) -> u32
    ensures { result ≡ spec.param_count (slice_get program.now.funcs func) }
{
    match program.funcs.get(func as usize) {
        Some(function) => function.params,
        None => 0,
    }
}

/// Each argument of a call goes to its parameter.
fn put_arguments(
    func: u32,
    callee: u32,
    count: u32,
    args: &[PExpr],
    links: &mut Vec<Link>,
) -> Result<(), AllocError>
    ensures { OnOk result (links.new.items ≡ links.old.items ++ passed_to func callee count args.now) }
{
    for slot in 0..count {
        if let Some(value) = at(args, slot as usize) {
            put_flow(func, value, Var { func: callee, slot }, links)?;
        }
    }
    Ok(())
}

/// What is stored to a field.
fn put_store(
    func: u32,
    base: u32,
    field: u32,
    value: &PExpr,
    links: &mut Vec<Link>,
) -> Result<(), AllocError>
    ensures { OnOk result (links.new.items ≡ links.old.items ++ stored_from func base field (spec.root value.now)) }
{
    if let Some(slot) = root(value) {
        let base = Var { func, slot: base };
        links.push(Link::Access(base, field, Var { func, slot }))?;
    }
    Ok(())
}

/// What a call says: its arguments go to parameters, and its result to a slot.
fn put_call(
    program: &PProgram,
    func: u32,
    to: Option<u32>,
    callee: u32,
    args: &[PExpr],
    links: &mut Vec<Link>,
) -> Result<(), AllocError>
    requires { IsSmall program.now }
    ensures { OnOk result (links.new.items ≡ links.old.items ++ own_links program.now func (Call to callee args.now)) }
{
    let count = param_count(program, callee);
    put_arguments(func, callee, count, args, links)?;
    if let Some(slot) = to {
        links.push(Link::Flow(result_in(program, callee), Var { func, slot }))?;
    }
    Ok(())
}

/// What a statement itself says.
fn put_own(
    program: &PProgram,
    func: u32,
    kind: &PKind,
    links: &mut Vec<Link>,
) -> Result<(), AllocError>
    requires { IsSmall program.now }
    ensures { OnOk result (links.new.items ≡ links.old.items ++ own_links program.now func kind.now) }
{
    match kind {
        PKind::Set(slot, value) => put_flow(func, value, Var { func, slot: *slot }, links),
        PKind::Load(slot, base, _, field) => {
            let base = Var { func, slot: *base };
            links.push(Link::Access(base, *field, Var { func, slot: *slot }))?;
            Ok(())
        }
        PKind::Store(base, _, field, value) => put_store(func, *base, *field, value, links),
        PKind::Call(to, callee, args) => {
            put_call(program, func, *to, *callee, args.as_slice(), links)
        }
        PKind::Return(Some(value)) => put_flow(func, value, result_in(program, func), links),
        _ => Ok(()),
    }
}

/// What a statement says, and what the statements inside it say.
#[cycle(links)]
fn put_statement(
    program: &PProgram,
    func: u32,
    kind: &PKind,
    links: &mut Vec<Link>,
) -> Result<(), AllocError>
    requires { IsSmall program.now }
    ensures { OnOk result (links.new.items ≡ links.old.items ++ kind_links program.now func kind.now) }
{
    put_own(program, func, kind, links)?;
    match kind {
        PKind::If(_, body, other) => {
            put_statements(program, func, body.as_slice(), links)?;
            put_statements(program, func, other.as_slice(), links)
        }
        PKind::While(head, _, body) => {
            put_statements(program, func, head.as_slice(), links)?;
            put_statements(program, func, body.as_slice(), links)
        }
        PKind::Cobegin(blocks) => put_branches(program, func, blocks.as_slice(), links),
        PKind::Foreach(_, _, _, _, branch) => {
            put_statements(program, func, branch.body.as_slice(), links)
        }
        _ => Ok(()),
    }
}

/// What several statements say.
#[cycle(links)]
fn put_statements(
    program: &PProgram,
    func: u32,
    body: &[PStmt],
    links: &mut Vec<Link>,
) -> Result<(), AllocError>
    requires { IsSmall program.now }
    ensures { OnOk result (links.new.items ≡ links.old.items ++ body_links program.now func body.now) }
{
    for statement in body {
        put_statement(program, func, &statement.kind, links)?;
    }
    Ok(())
}

/// What the statements of branches say.
#[cycle(links)]
fn put_branches(
    program: &PProgram,
    func: u32,
    blocks: &[Branch],
    links: &mut Vec<Link>,
) -> Result<(), AllocError>
    requires { IsSmall program.now }
    ensures { OnOk result (links.new.items ≡ links.old.items ++ flat_map (λ (branch : Block). each_links program.now func (within_branch branch)) blocks.now) }
{
    for branch in blocks {
        put_statements(program, func, branch.body.as_slice(), links)?;
    }
    Ok(())
}

/// What all statements of a program say.
pub(crate) fn links_of(alloc: Global, program: &PProgram) -> Result<Vec<Link>, AllocError>
    requires { IsSmall program.now }
    ensures { IfOk result (λ links. links.items ≡ links_from program.now 0 program.now.funcs) }
{
    let mut links = Vec::new(alloc);
    for (func, function) in program.funcs.as_slice().iter().enumerate() {
        put_statements(program, func as u32, function.body.as_slice(), &mut links)?;
    }
    Ok(links)
}
