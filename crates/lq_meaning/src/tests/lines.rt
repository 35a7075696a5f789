//! Lines of execution.

use crate::{Action, Line, Standing};
use lq_tree::{
    Base, BinOp, Boxed, Branch, CType, Items, Name, PExpr, PFunc, PKind, PProgram, PStmt, Place,
    Slot,
};
use std::alloc::{AllocError, Global};
use std::test::Fail;

const AT: Place = Place { line: 1, col: 1 };

// One statement.
fn only(alloc: Global, kind: PKind) -> Result<Items<PStmt>, AllocError> {
    let mut body = Items::new(alloc);
    body.push(PStmt { at: AT, kind })?;
    Ok(body)
}

// A function of two slots, of which so many are parameters.
fn function(alloc: Global, params: u32, body: Items<PStmt>) -> Result<PFunc, AllocError> {
    let mut slots = Items::new(alloc);
    for _ in 0..2 {
        let ctype = CType {
            base: Base::Int,
            stars: 0,
        };
        slots.push(Slot { name: None, ctype })?;
    }
    Ok(PFunc {
        at: AT,
        name: Name::from_slice(alloc, b"f")?,
        result: None,
        params,
        slots,
        body,
    })
}

// A program of these functions, of which the first is `main`.
fn program(alloc: Global, funcs: Items<PFunc>) -> PProgram {
    PProgram {
        structs: Items::new(alloc),
        funcs,
        main: 0,
        factors: Items::new(alloc),
    }
}

// The action that is due.
fn due(line: &Line<'_>) -> Option<Action> {
    match line.standing() {
        Standing::Due { action, .. } => Some(action),
        _ => None,
    }
}

// A line in front of `main` on these words.
fn begin<'a>(alloc: Global, p: &'a PProgram, words: &[i64]) -> Result<Line<'a>, AllocError> {
    let mut line = Line::new(alloc);
    if let Some(main) = p.funcs.get(0) {
        line.begin(p, main, words)?;
    }
    Ok(line)
}

// Whether these actions are due, one after the other, each behind the answer with its word.
fn goes<'a>(
    line: &mut Line<'a>,
    p: &'a PProgram,
    steps: &[(i64, Option<Action>)],
) -> Result<bool, AllocError> {
    for (word, action) in steps {
        line.answer(p, *word)?;
        if due(line) != *action {
            return Ok(false);
        }
    }
    Ok(true)
}

fn print(number: i64) -> Option<Action> {
    Some(Action::Print { number })
}

// while (s0) { s0 = 0; } print(s0);
fn looping(alloc: Global) -> Result<PProgram, AllocError> {
    let body = only(alloc, PKind::Set(0, PExpr::Num(0)))?;
    let repeat = PKind::While(Items::new(alloc), PExpr::Slot(0), body);
    let mut whole = only(alloc, repeat)?;
    whole.append(only(alloc, PKind::Print(PExpr::Slot(0)))?)?;
    let mut funcs = Items::new(alloc);
    funcs.push(function(alloc, 1, whole)?)?;
    Ok(program(alloc, funcs))
}

#[test]
fn a_loop_goes_on_by_its_condition(rt: HostRuntime) -> Result<(), Fail> {
    let p = looping(rt.alloc())?;
    let mut line = begin(rt.alloc(), &p, &[5])?;
    assert!(rt; due(&line) == Some(Action::Test));
    let steps = [(0, Some(Action::Test)), (0, print(0)), (0, None)];
    assert!(rt; goes(&mut line, &p, &steps)?);
    assert!(rt; line.standing() == Standing::Done);
    Ok(())
}

// s0 = s1[3]; s0 = f(s0); print(s0); g();
fn calling(alloc: Global) -> Result<Items<PStmt>, AllocError> {
    let mut args = Items::new(alloc);
    args.push(PExpr::Slot(0))?;
    let mut whole = only(alloc, PKind::Load(0, 1, PExpr::Num(3), 0))?;
    whole.append(only(alloc, PKind::Call(Some(0), 1, args))?)?;
    whole.append(only(alloc, PKind::Print(PExpr::Slot(0)))?)?;
    whole.append(only(alloc, PKind::Call(None, 2, Items::new(alloc)))?)?;
    Ok(whole)
}

// return s0 + 1;
fn one_more(alloc: Global) -> Result<Items<PStmt>, AllocError> {
    let first = Boxed::new(alloc, PExpr::Slot(0))?;
    let more = PExpr::Bin(BinOp::Add, first, Boxed::new(alloc, PExpr::Num(1))?);
    only(alloc, PKind::Return(Some(more)))
}

// f gives one more, and there is no g.
#[test]
fn answers_go_into_slots(rt: HostRuntime) -> Result<(), Fail> {
    let alloc = rt.alloc();
    let mut funcs = Items::new(alloc);
    funcs.push(function(alloc, 2, calling(alloc)?)?)?;
    funcs.push(function(alloc, 1, one_more(alloc)?)?)?;
    let p = program(alloc, funcs);
    let mut line = begin(alloc, &p, &[0, 7])?;
    let load = Action::Load {
        pointer: 7,
        index: 3,
        field: 0,
    };
    assert!(rt; due(&line) == Some(load));
    let call = Some(Action::Enter { more: 1023 });
    let steps = [(41, call), (0, print(42)), (0, call), (0, None)];
    assert!(rt; goes(&mut line, &p, &steps)?);
    assert!(rt; line.standing() == Standing::Unruled);
    Ok(())
}

// A branch of one statement.
fn branch(alloc: Global, kind: PKind) -> Result<Branch, AllocError> {
    Ok(Branch {
        at: AT,
        body: only(alloc, kind)?,
    })
}

// A program of one statement.
fn one_statement(alloc: Global, kind: PKind) -> Result<PProgram, AllocError> {
    let mut funcs = Items::new(alloc);
    funcs.push(function(alloc, 0, only(alloc, kind)?)?)?;
    Ok(program(alloc, funcs))
}

// cobegin { { print(1); } { print(2); } }
fn two_blocks(alloc: Global) -> Result<PProgram, AllocError> {
    let mut blocks = Items::new(alloc);
    blocks.push(branch(alloc, PKind::Print(PExpr::Num(1)))?)?;
    blocks.push(branch(alloc, PKind::Print(PExpr::Num(2)))?)?;
    one_statement(alloc, PKind::Cobegin(blocks))
}

#[test]
fn a_fork_has_a_child_for_each_block(rt: HostRuntime) -> Result<(), Fail> {
    let p = two_blocks(rt.alloc())?;
    let mut line = begin(rt.alloc(), &p, &[])?;
    assert!(rt; line.fork_size() == 2);
    let mut child = Line::new(rt.alloc());
    line.child(&p, 1, &mut child)?;
    assert!(rt; due(&child) == print(2));
    assert!(rt; goes(&mut child, &p, &[(0, None)])?);
    assert!(rt; child.standing() == Standing::Done);
    line.pass_fork(&p)?;
    assert!(rt; line.standing() == Standing::Done);
    Ok(())
}

// foreach (s0 = 0; s0 < 5; s0 += 2) { print(s0); }
fn three_iterations(alloc: Global) -> Result<PProgram, AllocError> {
    let each = branch(alloc, PKind::Print(PExpr::Slot(0)))?;
    one_statement(
        alloc,
        PKind::Foreach(0, PExpr::Num(0), PExpr::Num(5), 2, each),
    )
}

#[test]
fn a_fork_has_a_child_for_each_iteration(rt: HostRuntime) -> Result<(), Fail> {
    let p = three_iterations(rt.alloc())?;
    let mut line = begin(rt.alloc(), &p, &[])?;
    assert!(rt; line.fork_size() == 3);
    let mut child = Line::new(rt.alloc());
    line.child(&p, 2, &mut child)?;
    assert!(rt; due(&child) == Some(Action::Start));
    assert!(rt; goes(&mut child, &p, &[(0, print(4))])?);
    line.pass_fork(&p)?;
    assert!(rt; line.standing() == Standing::Done);
    Ok(())
}
