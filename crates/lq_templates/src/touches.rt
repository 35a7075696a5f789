//! What the statements of a function do that templates ask for.

ghost use Rattle.std.specs.Prelude.{◌≡◌, ◌++◌, OnOk};
ghost use Rattle.std.specs.List.{flat_map};
ghost use Rattle.lq_tree.specs.declared.plain.Branch.{Branch as Block};
ghost use Rattle.lq_tree.specs.PlainWalk.{inside, within_branch};
ghost use Rattle.lq_templates.specs.Classes.{class_in};
ghost use Rattle.lq_templates.specs.Touches.{own_touches, each_touches, kind_touches, body_touches};

use crate::Access;
use lq_classes::{ClassMap, Var, class_of};
use lq_tree::{Branch, PKind, PStmt};
use sqlite_items::Items;
use std::alloc::AllocError;

// What a statement does.
#[derive(Clone, Copy)]
pub(crate) enum Touch {
    // It assigns a slot.
    Assigns(u32),
    // It makes an access itself.
    Makes(Access),
    // It calls a function.
    Calls(u32),
}

// The access through a slot.
fn access_through(classes: &ClassMap, func: u32, slot: u32, field: u32, write: bool) -> Access
    ensures { result ≡ record { class = class_in classes.now func slot; field = field; write = write } }
{
    Access {
        class: class_of(classes, Var { func, slot }),
        field,
        write,
    }
}

// Puts down what a statement itself does.
fn put_own(
    classes: &ClassMap,
    func: u32,
    kind: &PKind,
    touches: &mut Items<Touch>,
) -> Result<(), AllocError>
    ensures { OnOk result (touches.new ≡ touches.old ++ own_touches (class_in classes.now func) kind.now) }
{
    match kind {
        PKind::Set(slot, _) | PKind::Calloc(slot, _, _) => touches.push(Touch::Assigns(*slot)),
        PKind::Load(slot, base, _, field) => {
            let access = access_through(classes, func, *base, *field, false);
            touches.push(Touch::Assigns(*slot))?;
            touches.push(Touch::Makes(access))
        }
        PKind::Store(base, _, field, _) => {
            let access = access_through(classes, func, *base, *field, true);
            touches.push(Touch::Makes(access))
        }
        PKind::Call(None, function, _) => touches.push(Touch::Calls(*function)),
        PKind::Call(Some(slot), function, _) => {
            touches.push(Touch::Assigns(*slot))?;
            touches.push(Touch::Calls(*function))
        }
        _ => Ok(()),
    }
}

// Puts down what a statement and those inside it do.
#[cycle(touches)]
fn put_statement(
    classes: &ClassMap,
    func: u32,
    kind: &PKind,
    touches: &mut Items<Touch>,
) -> Result<(), AllocError>
    ensures { OnOk result (touches.new ≡ touches.old ++ kind_touches (class_in classes.now func) kind.now) }
{
    put_own(classes, func, kind, touches)?;
    put_inside(classes, func, kind, touches)
}

// Puts down what the statements inside a statement do.
#[cycle(touches)]
pub(crate) fn put_inside(
    classes: &ClassMap,
    func: u32,
    kind: &PKind,
    touches: &mut Items<Touch>,
) -> Result<(), AllocError>
    ensures { OnOk result (touches.new ≡ touches.old ++ each_touches (class_in classes.now func) (inside kind.now)) }
{
    match kind {
        PKind::If(_, body, other) => {
            put_statements(classes, func, body.as_slice(), touches)?;
            put_statements(classes, func, other.as_slice(), touches)
        }
        PKind::While(head, _, body) => {
            put_statements(classes, func, head.as_slice(), touches)?;
            put_statements(classes, func, body.as_slice(), touches)
        }
        PKind::Cobegin(blocks) => put_branches(classes, func, blocks.as_slice(), touches),
        PKind::Foreach(_, _, _, _, branch) => {
            put_statements(classes, func, branch.body.as_slice(), touches)
        }
        _ => Ok(()),
    }
}

// Puts down what the statements of a list do.
#[cycle(touches)]
pub(crate) fn put_statements(
    classes: &ClassMap,
    func: u32,
    body: &[PStmt],
    touches: &mut Items<Touch>,
) -> Result<(), AllocError>
    ensures { OnOk result (touches.new ≡ touches.old ++ body_touches (class_in classes.now func) body.now) }
{
    for statement in body {
        put_statement(classes, func, &statement.kind, touches)?;
    }
    Ok(())
}

// Puts down what the statements of branches do.
#[cycle(touches)]
fn put_branches(
    classes: &ClassMap,
    func: u32,
    blocks: &[Branch],
    touches: &mut Items<Touch>,
) -> Result<(), AllocError>
    ensures { OnOk result (touches.new ≡ touches.old ++ flat_map (λ (branch : Block). each_touches (class_in classes.now func) (within_branch branch)) blocks.now) }
{
    for branch in blocks {
        put_statements(classes, func, branch.body.as_slice(), touches)?;
    }
    Ok(())
}
