//! What is loaded from fields and stored to them.

ghost use Rattle.std.specs.Prelude.{◌≡◌, ◌++◌, IfOk, OnOk};
ghost use Rattle.std.specs.List.{flat_map};
ghost use Rattle.lq_tree.specs.declared.plain.Branch.{Branch as Block};
ghost use Rattle.lq_tree.specs.Formed.{IsFormed};
ghost use Rattle.lq_tree.specs.PlainWalk.{inside, within_branch};
ghost use Rattle.lq_classes.specs.Classes.{root as root_of};
ghost use Rattle.lq_templates.specs.Classes.{class_in};
ghost use Rattle.lq_ground.specs.Moves as spec;

use lq_classes::{ClassMap, Var, class_of};
use lq_tree::{Branch, PExpr, PKind, PProgram, PStmt};
use sqlite_items::Items;
use std::alloc::{AllocError, Global};

// A slot is loaded from the field of a class, or stored to it: the class, the field, and the class of the slot.
#[derive(Clone, Copy)]
pub(crate) struct Move {
    pub(crate) class: u32,
    pub(crate) field: u32,
    pub(crate) moved: u32,
}

// The slot into whose block a pointer expression points.
fn root(value: &PExpr) -> Option<u32>
    ensures { result ≡ root_of value.now }
{
    match value {
        PExpr::Slot(slot) => Some(*slot),
        PExpr::Shift(base, _) => root(base.get()),
        PExpr::Num(_)
        | PExpr::Null
        | PExpr::Neg(_)
        | PExpr::Not(_)
        | PExpr::Bin(_, _, _)
        | PExpr::IsNull(_) => None,
    }
}

// The class of a slot of a function.
fn class_at(classes: &ClassMap, func: u32, slot: u32) -> u32
    ensures { result ≡ class_in classes.now func slot }
{
    class_of(classes, Var { func, slot })
}

// Puts down what a statement itself moves.
fn put_own(
    classes: &ClassMap,
    func: u32,
    kind: &PKind,
    moves: &mut Items<Move>,
) -> Result<(), AllocError>
    ensures { OnOk result (moves.new ≡ moves.old ++ spec.own_moves (class_in classes.now func) kind.now) }
{
    match kind {
        PKind::Load(slot, base, _, field) => moves.push(Move {
            class: class_at(classes, func, *base),
            field: *field,
            moved: class_at(classes, func, *slot),
        }),
        PKind::Store(base, _, field, value) => match root(value) {
            Some(slot) => moves.push(Move {
                class: class_at(classes, func, *base),
                field: *field,
                moved: class_at(classes, func, slot),
            }),
            None => Ok(()),
        },
        _ => Ok(()),
    }
}

// Puts down what a statement and those inside it move.
#[cycle(moves)]
fn put_statement(
    classes: &ClassMap,
    func: u32,
    kind: &PKind,
    moves: &mut Items<Move>,
) -> Result<(), AllocError>
    ensures { OnOk result (moves.new ≡ moves.old ++ spec.kind_moves (class_in classes.now func) kind.now) }
{
    put_own(classes, func, kind, moves)?;
    put_inside(classes, func, kind, moves)
}

// Puts down what the statements inside a statement move.
#[cycle(moves)]
fn put_inside(
    classes: &ClassMap,
    func: u32,
    kind: &PKind,
    moves: &mut Items<Move>,
) -> Result<(), AllocError>
    ensures { OnOk result (moves.new ≡ moves.old ++ spec.each_moves (class_in classes.now func) (inside kind.now)) }
{
    match kind {
        PKind::If(_, body, other) => {
            put_statements(classes, func, body.as_slice(), moves)?;
            put_statements(classes, func, other.as_slice(), moves)
        }
        PKind::While(head, _, body) => {
            put_statements(classes, func, head.as_slice(), moves)?;
            put_statements(classes, func, body.as_slice(), moves)
        }
        PKind::Cobegin(blocks) => put_branches(classes, func, blocks.as_slice(), moves),
        PKind::Foreach(_, _, _, _, branch) => {
            put_statements(classes, func, branch.body.as_slice(), moves)
        }
        _ => Ok(()),
    }
}

// Puts down what the statements of a list move.
#[cycle(moves)]
fn put_statements(
    classes: &ClassMap,
    func: u32,
    body: &[PStmt],
    moves: &mut Items<Move>,
) -> Result<(), AllocError>
    ensures { OnOk result (moves.new ≡ moves.old ++ spec.body_moves (class_in classes.now func) body.now) }
{
    for statement in body {
        put_statement(classes, func, &statement.kind, moves)?;
    }
    Ok(())
}

// Puts down what the statements of branches move.
#[cycle(moves)]
fn put_branches(
    classes: &ClassMap,
    func: u32,
    blocks: &[Branch],
    moves: &mut Items<Move>,
) -> Result<(), AllocError>
    ensures { OnOk result (moves.new ≡ moves.old ++ flat_map (λ (branch : Block). spec.each_moves (class_in classes.now func) (within_branch branch)) blocks.now) }
{
    for branch in blocks {
        put_statements(classes, func, branch.body.as_slice(), moves)?;
    }
    Ok(())
}

// What the functions of a program move, one after the other.
pub(crate) fn moves_of(
    alloc: Global,
    program: &PProgram,
    classes: &ClassMap,
) -> Result<Items<Move>, AllocError>
    requires { IsFormed program.now }
    ensures { IfOk result (λ moves. moves ≡ spec.all_moves (class_in classes.now) 0 program.now.funcs) }
{
    let mut moves = Items::new(alloc);
    for (func, function) in program.funcs.as_slice().iter().enumerate() {
        put_statements(classes, func as u32, function.body.as_slice(), &mut moves)?;
    }
    Ok(moves)
}
