use crate::End;
use crate::run::run_any;
use lq_shelf::MemSink;
use lq_tree::{
    Base, BinOp, Boxed, Branch, CType, Items, Name, PExpr, PFunc, PKind, PProgram, PStmt, Place,
    Slot, TrapKind,
};
use std::alloc::{AllocError, Global};
use std::test::Fail;

// A statement on a line of its own.
fn at(line: u32, kind: PKind) -> PStmt {
    PStmt {
        at: Place { line, col: 1 },
        kind,
    }
}

// One statement.
fn only(alloc: Global, statement: PStmt) -> Result<Items<PStmt>, AllocError> {
    let mut body = Items::new(alloc);
    body.push(statement)?;
    Ok(body)
}

fn print(number: i64) -> PKind {
    PKind::Print(PExpr::Num(number))
}

// s0 = 1 / 0;
fn divide_by_zero(alloc: Global) -> Result<PKind, AllocError> {
    let one = Boxed::new(alloc, PExpr::Num(1))?;
    let zero = Boxed::new(alloc, PExpr::Num(0))?;
    Ok(PKind::Set(0, PExpr::Bin(BinOp::Div, one, zero)))
}

// A program of `main` alone, which has three slots, so many of them parameters.
fn program(alloc: Global, params: u32, body: Items<PStmt>) -> Result<PProgram, AllocError> {
    let mut slots = Items::new(alloc);
    for _ in 0..3 {
        let ctype = CType {
            base: Base::Int,
            stars: 0,
        };
        slots.push(Slot { name: None, ctype })?;
    }
    let mut funcs = Items::new(alloc);
    funcs.push(PFunc {
        at: Place { line: 1, col: 1 },
        name: Name::from_slice(alloc, b"main")?,
        result: None,
        params,
        slots,
        body,
    })?;
    Ok(PProgram {
        structs: Items::new(alloc),
        funcs,
        main: 0,
        factors: Items::new(alloc),
    })
}

// How a run of `main` without parameters ends.
fn end_of(
    alloc: Global,
    body: Items<PStmt>,
    fuel: u64,
    out: &mut MemSink,
) -> Result<Option<End>, AllocError> {
    Ok(run_any(alloc, &program(alloc, 0, body)?, &[], fuel, 9, out))
}

// Whether the run is done at this cost.
fn is_done(end: &Option<End>, price: u64) -> bool {
    match end {
        Some(End::Done { cost, .. }) => *cost == price,
        _ => false,
    }
}

// Whether the run trapped so, at the start of this line and at this cost.
fn traps(end: &Option<End>, trap: TrapKind, line: u32, price: u64) -> bool {
    match end {
        Some(End::Trap { kind, at, cost, .. }) => {
            *kind == trap && *at == Place { line, col: 1 } && *cost == price
        }
        _ => false,
    }
}

// Whether a run of `main` without parameters is done at this cost, and writes this.
fn prints(
    alloc: Global,
    body: Items<PStmt>,
    fuel: u64,
    price: u64,
    text: &[u8],
) -> Result<bool, AllocError> {
    let mut out = MemSink::new(alloc, Vec::new(alloc));
    let end = end_of(alloc, body, fuel, &mut out)?;
    Ok(is_done(&end, price) && out.written() == text)
}

#[test]
fn a_run_prints_a_line_a_number(rt: HostRuntime) -> Result<(), Fail> {
    let body = only(rt.alloc(), at(1, print(7)))?;
    assert!(rt; prints(rt.alloc(), body, 9, 1, b"7\n")?);
    Ok(())
}

#[test]
fn a_trap_has_the_place_of_its_statement(rt: HostRuntime) -> Result<(), Fail> {
    let alloc = rt.alloc();
    let mut out = MemSink::new(alloc, Vec::new(alloc));
    let body = only(alloc, at(2, divide_by_zero(alloc)?))?;
    let end = end_of(alloc, body, 9, &mut out)?;
    assert!(rt; traps(&end, TrapKind::Zero, 2, 0));
    Ok(())
}

// s0 = s1[0]; where s1 is null
#[test]
fn a_stray_has_the_place_of_its_statement(rt: HostRuntime) -> Result<(), Fail> {
    let alloc = rt.alloc();
    let mut out = MemSink::new(alloc, Vec::new(alloc));
    let load = PKind::Load(0, 1, PExpr::Num(0), 0);
    let end = end_of(alloc, only(alloc, at(3, load))?, 9, &mut out)?;
    assert!(rt;
        matches!(
            end,
            Some(End::Stray {
                at: Place { line: 3, col: 1 }
            })
        )
    );
    Ok(())
}

// print(1); print(2);
fn two_prints(alloc: Global) -> Result<Items<PStmt>, AllocError> {
    let mut body = only(alloc, at(1, print(1)))?;
    body.push(at(2, print(2)))?;
    Ok(body)
}

#[test]
fn the_fuel_ends_a_run(rt: HostRuntime) -> Result<(), Fail> {
    let alloc = rt.alloc();
    let mut out = MemSink::new(alloc, Vec::new(alloc));
    let end = end_of(alloc, two_prints(alloc)?, 1, &mut out)?;
    assert!(rt; matches!(end, Some(End::Fuel)));
    assert!(rt; out.written() == b"1\n".as_slice());
    Ok(())
}

#[test]
fn a_failing_sink_ends_a_run(rt: HostRuntime) -> Result<(), Fail> {
    let alloc = rt.alloc();
    let mut out = MemSink::new(alloc, vec![in alloc; (2, 1)]?);
    let end = end_of(alloc, two_prints(alloc)?, 9, &mut out)?;
    assert!(rt; matches!(end, Some(End::SinkFault)));
    assert!(rt; out.written() == b"1\n2".as_slice());
    Ok(())
}

// A block of one statement.
fn block(alloc: Global, statement: PStmt) -> Result<Branch, AllocError> {
    Ok(Branch {
        at: statement.at,
        body: only(alloc, statement)?,
    })
}

// cobegin { { s0 = 1 / 0; } { print(5); } { s0 = 1 / 0; } } print(6);
fn two_traps(alloc: Global) -> Result<Items<PStmt>, AllocError> {
    let mut blocks = Items::new(alloc);
    blocks.push(block(alloc, at(2, divide_by_zero(alloc)?))?)?;
    blocks.push(block(alloc, at(3, print(5)))?)?;
    blocks.push(block(alloc, at(4, divide_by_zero(alloc)?))?)?;
    let mut body = only(alloc, at(1, PKind::Cobegin(blocks)))?;
    body.push(at(5, print(6)))?;
    Ok(body)
}

#[test]
fn the_first_trap_counts_and_all_branches_run(rt: HostRuntime) -> Result<(), Fail> {
    let alloc = rt.alloc();
    let mut out = MemSink::new(alloc, Vec::new(alloc));
    let end = end_of(alloc, two_traps(alloc)?, 9, &mut out)?;
    assert!(rt; traps(&end, TrapKind::Zero, 2, 1));
    assert!(rt; out.written() == b"5\n".as_slice());
    Ok(())
}

// foreach (s0 = 0; s0 < 1000; s0 += 1) { s1 = s0; } print(s1);
fn thousand(alloc: Global) -> Result<Items<PStmt>, AllocError> {
    let each = block(alloc, at(2, PKind::Set(1, PExpr::Slot(0))))?;
    let foreach = PKind::Foreach(0, PExpr::Num(0), PExpr::Num(1000), 1, each);
    let mut body = only(alloc, at(1, foreach))?;
    body.push(at(3, PKind::Print(PExpr::Slot(1))))?;
    Ok(body)
}

#[test]
fn each_iteration_of_a_foreach_runs(rt: HostRuntime) -> Result<(), Fail> {
    let body = thousand(rt.alloc())?;
    assert!(rt; prints(rt.alloc(), body, 2000, 1001, b"0\n")?);
    Ok(())
}

// main(s0, s1) { s2 = s0[1]; print(s2); }
fn second_number(alloc: Global) -> Result<PProgram, AllocError> {
    let mut body = only(alloc, at(1, PKind::Load(2, 0, PExpr::Num(1), 0)))?;
    body.push(at(2, PKind::Print(PExpr::Slot(2))))?;
    program(alloc, 2, body)
}

#[test]
fn main_takes_the_input_where_it_fits(rt: HostRuntime) -> Result<(), Fail> {
    let alloc = rt.alloc();
    let p = second_number(alloc)?;
    let mut out = MemSink::new(alloc, Vec::new(alloc));
    let end = run_any(alloc, &p, &[3, -4], 9, 2, &mut out);
    assert!(rt; is_done(&end, 2));
    assert!(rt; out.written() == b"-4\n".as_slice());
    let end = run_any(alloc, &p, &[3, -4], 9, 1, &mut out);
    assert!(rt; traps(&end, TrapKind::Words, 1, 0));
    Ok(())
}
