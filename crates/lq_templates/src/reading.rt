//! The points of a function's text with templates of their own, and the slots in scope there.

ghost use Rattle.std.specs.Prelude.{◌≡◌, ℕ, [], map, filter, IfOk, OnOk, ◌==◌, ◌||◌};
ghost use Rattle.std.specs.List.{flat_map};
ghost use Rattle.std.specs.Option.{option_to_list};
ghost use Rattle.lq_tree.specs.PlainScopes as scopes;
ghost use Rattle.lq_tree.specs.PlainWalk as walk;
ghost use Rattle.lq_templates.specs.Classes.{class_in};
ghost use Rattle.lq_templates.specs.Names.{marked};
ghost use Rattle.lq_templates.specs.Reading as spec;
ghost use Rattle.lq_templates.specs.Spots as spots;
ghost use Rattle.lq_templates.specs.Spots.{Walk};
ghost use Rattle.lq_templates.specs.Touches as touches;

use crate::lives::list_lives;
use crate::names::is_marked;
use crate::touches::{Touch, put_inside, put_statements};
use lq_classes::ClassMap;
use lq_tree::{Branch, PKind, PStmt, Place};
use sqlite_items::Items;
use std::alloc::{AllocError, Global};

// A point of the text with templates of its own, and the slots in scope there.
#[derive(Drop)]
pub(crate) enum Point {
    // An If, and the slots that it changes.
    Join(Items<u32>, Items<u32>),
    // A While, and the slots that it changes.
    Loop(Items<u32>, Items<u32>),
    // A branch: its place, and what its statements do.
    Inner(Place, Items<Touch>, Items<u32>),
}

// How far the text of a function has been read: the slots that have been assigned, those in scope, and the points that
// were passed.
#[derive(Drop)]
pub(crate) struct Reading {
    pub(crate) assigned: Items<u32>,
    pub(crate) scope: Items<u32>,
    pub(crate) points: Items<Point>,
}

// Whether a slot is one of these.
fn is_among(slots: &[u32], slot: u32) -> bool
    ensures { result ≡ scopes.is_among slots.now slot }
{
    slots.iter().any(|other| *other == slot)
}

// Puts a mark at a slot.
fn mark(marks: &mut Items<bool>, slot: u32) -> Result<(), AllocError>
    ensures { OnOk result ((n : ℕ) → marked marks.new n ≡ (marked marks.old n || slot == n)) }
{
    while marks.len() <= slot as usize {
        marks.push(false)?;
    }
    marks.set(slot as usize, true);
    Ok(())
}

/// A table in which just these slots are marked.
pub fn marks_of(alloc: Global, slots: &[u32]) -> Result<Items<bool>, AllocError>
    ensures { IfOk result (λ marks. (n : ℕ) → marked marks n ≡ scopes.is_among slots.now n) }
{
    let mut marks = Items::new(alloc);
    for slot in slots {
        mark(&mut marks, *slot)?;
    }
    Ok(marks)
}

// The slots that are assigned.
fn assigned(alloc: Global, done: &[Touch]) -> Result<Items<u32>, AllocError>
    ensures { IfOk result (λ slots. slots ≡ flat_map touches.assigned done.now) }
{
    let mut slots = Items::new(alloc);
    for touch in done {
        if let Touch::Assigns(slot) = touch {
            slots.push(*slot)?;
        }
    }
    Ok(slots)
}

// Those of these slots that are marked.
fn marked_among(alloc: Global, marks: &[bool], slots: &[u32]) -> Result<Items<u32>, AllocError>
    ensures { IfOk result (λ some. some ≡ filter (marked marks.now) slots.now) }
{
    let mut some = Items::new(alloc);
    for slot in slots {
        if is_marked(marks, *slot as usize) {
            some.push(*slot)?;
        }
    }
    Ok(some)
}

/// The slots in scope that a statement inside assigns, at any depth.
pub fn changed(
    alloc: Global,
    classes: &ClassMap,
    func: u32,
    kind: &PKind,
    scope: &[u32],
) -> Result<Items<u32>, AllocError>
    ensures { IfOk result (λ slots. slots ≡ spots.changed scope.now kind.now) }
{
    let mut done = Items::new(alloc);
    put_inside(classes, func, kind, &mut done)?;
    let slots = assigned(alloc, done.as_slice())?;
    let marks = marks_of(alloc, slots.as_slice())?;
    marked_among(alloc, marks.as_slice(), scope)
}

// Which point a statement is.
#[derive(Clone, Copy)]
enum Sort {
    Join,
    Loop,
}

// An If of which both lists live is a point, and a While.
fn sort_of(kind: &PKind) -> Option<Sort>
    ensures { result ≡ spec.sort_of kind.now }
{
    match kind {
        PKind::If(_, body, other) => {
            let lives = list_lives(body.as_slice());
            if lives && list_lives(other.as_slice()) {
                Some(Sort::Join)
            } else {
                None
            }
        }
        PKind::While(_, _, _) => Some(Sort::Loop),
        _ => None,
    }
}

// Passes an If or a While where a slot changes.
fn pass_changed(
    alloc: Global,
    classes: &ClassMap,
    func: u32,
    kind: &PKind,
    reading: &mut Reading,
) -> Result<(), AllocError>
    ensures { OnOk result (reading.new ≡ spec.with_points (map (spec.point (class_in classes.now func)) (spots.spot_at reading.old.scope kind.now)) reading.old) }
{
    let Some(sort) = sort_of(kind) else {
        return Ok(());
    };
    let changed = changed(alloc, classes, func, kind, reading.scope.as_slice())?;
    if changed.is_empty() {
        return Ok(());
    }
    let scope = Items::from_slice(alloc, reading.scope.as_slice())?;
    let point = match sort {
        Sort::Join => Point::Join(changed, scope),
        Sort::Loop => Point::Loop(changed, scope),
    };
    reading.points.push(point)
}

// Passes a branch.
fn pass_branch(
    alloc: Global,
    classes: &ClassMap,
    func: u32,
    branch: &Branch,
    reading: &mut Reading,
) -> Result<(), AllocError>
    ensures { OnOk result (reading.new ≡ spec.with_points (spec.inner_point (class_in classes.now func) reading.old.scope branch.now) reading.old) }
{
    let mut done = Items::new(alloc);
    put_statements(classes, func, branch.body.as_slice(), &mut done)?;
    let scope = Items::from_slice(alloc, reading.scope.as_slice())?;
    reading.points.push(Point::Inner(branch.at, done, scope))
}

/// The slot that a statement itself assigns.
pub fn target(kind: &PKind) -> Option<u32>
    ensures { option_to_list result ≡ walk.targets kind.now }
{
    match kind {
        PKind::Set(slot, _) | PKind::Load(slot, _, _, _) | PKind::Calloc(slot, _, _) => Some(*slot),
        PKind::Call(slot, _, _) => *slot,
        _ => None,
    }
}

// Assigns the slot of a statement, if there is one.
fn assign(kind: &PKind, reading: &mut Reading) -> Result<(), AllocError>
    ensures { OnOk result (reading.new ≡ spec.with_assigned (walk.targets kind.now) reading.old) }
{
    let Some(slot) = target(kind) else {
        return Ok(());
    };
    if is_among(reading.assigned.as_slice(), slot) {
        return Ok(());
    }
    reading.assigned.push(slot)?;
    reading.scope.push(slot)
}

// Reads a statement.
#[cycle(reading)]
fn read_statement(
    alloc: Global,
    classes: &ClassMap,
    func: u32,
    kind: &PKind,
    reading: &mut Reading,
) -> Result<(), AllocError>
    ensures { OnOk result ((w : Walk) → reading.old ≡ spec.reading (class_in classes.now func) w
        → reading.new ≡ spec.reading (class_in classes.now func) (spots.walked kind.now w)) }
{
    match kind {
        PKind::If(_, body, other) => {
            pass_changed(alloc, classes, func, kind, reading)?;
            read_list(alloc, classes, func, body.as_slice(), reading)?;
            read_list(alloc, classes, func, other.as_slice(), reading)
        }
        PKind::While(head, _, body) => {
            pass_changed(alloc, classes, func, kind, reading)?;
            read_list(alloc, classes, func, head.as_slice(), reading)?;
            read_list(alloc, classes, func, body.as_slice(), reading)
        }
        PKind::Cobegin(blocks) => read_branches(alloc, classes, func, blocks.as_slice(), reading),
        PKind::Foreach(index, _, _, _, branch) => {
            let outer = Items::from_slice(alloc, reading.scope.as_slice())?;
            reading.scope.push(*index)?;
            read_branch(alloc, classes, func, branch, reading)?;
            reading.scope = outer;
            Ok(())
        }
        _ => assign(kind, reading),
    }
}

// Reads a list of statements. Behind it what came into scope in it is in scope no more.
#[cycle(reading)]
fn read_list(
    alloc: Global,
    classes: &ClassMap,
    func: u32,
    list: &[PStmt],
    reading: &mut Reading,
) -> Result<(), AllocError>
    ensures { OnOk result ((w : Walk) → reading.old ≡ spec.reading (class_in classes.now func) w
        → reading.new ≡ spec.reading (class_in classes.now func) (spots.closed w (spots.walked_all list.now w))) }
{
    let outer = Items::from_slice(alloc, reading.scope.as_slice())?;
    for statement in list {
        read_statement(alloc, classes, func, &statement.kind, reading)?;
    }
    reading.scope = outer;
    Ok(())
}

// Reads a branch.
#[cycle(reading)]
fn read_branch(
    alloc: Global,
    classes: &ClassMap,
    func: u32,
    branch: &Branch,
    reading: &mut Reading,
) -> Result<(), AllocError>
    ensures { OnOk result ((w : Walk) → reading.old ≡ spec.reading (class_in classes.now func) w
        → reading.new ≡ spec.reading (class_in classes.now func) (spots.walked_branch branch.now w)) }
{
    pass_branch(alloc, classes, func, branch, reading)?;
    read_list(alloc, classes, func, branch.body.as_slice(), reading)
}

// Reads branches beside each other.
#[cycle(reading)]
fn read_branches(
    alloc: Global,
    classes: &ClassMap,
    func: u32,
    blocks: &[Branch],
    reading: &mut Reading,
) -> Result<(), AllocError>
    ensures { OnOk result ((w : Walk) → reading.old ≡ spec.reading (class_in classes.now func) w
        → reading.new ≡ spec.reading (class_in classes.now func) (spec.walked_blocks blocks.now w)) }
{
    for branch in blocks {
        read_branch(alloc, classes, func, branch, reading)?;
    }
    Ok(())
}

// The points of a function in the order of its text, but for its whole body.
pub(crate) fn points_of(
    alloc: Global,
    classes: &ClassMap,
    func: u32,
    params: &[u32],
    body: &[PStmt],
) -> Result<Items<Point>, AllocError>
    ensures { IfOk result (λ points. points ≡ map (spec.point (class_in classes.now func))
        (spots.walked_all body.now (record { assigned = params.now; scope = params.now; spots = [] })).spots) }
{
    let mut reading = Reading {
        assigned: Items::from_slice(alloc, params)?,
        scope: Items::from_slice(alloc, params)?,
        points: Items::new(alloc),
    };
    read_list(alloc, classes, func, body, &mut reading)?;
    let Reading { points, .. } = reading;
    Ok(points)
}
