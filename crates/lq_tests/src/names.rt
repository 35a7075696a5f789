use lq_names::{NamesFault, check_counts, check_names};
use lq_tree::{
    Base, Boxed, CType, Expr, Func, Items, Limit, Name, Param, Place, Program, Stmt, StmtKind,
};
use std::alloc::{AllocError, Global};
use std::test::Fail;

fn statement(line: u32, kind: StmtKind) -> Stmt {
    let at = Place { line, col: 3 };
    Stmt { at, kind }
}

fn int() -> CType {
    CType {
        base: Base::Int,
        stars: 0,
    }
}

// `int main(void)` at 1:1, with this body
fn main_with(alloc: Global, body: Items<Stmt>) -> Result<Program, AllocError> {
    let mut funcs = Items::new(alloc);
    funcs.push(Func {
        at: Place { line: 1, col: 1 },
        result: Some(int()),
        name: Name::from_slice(alloc, b"main")?,
        params: Items::<Param>::new(alloc),
        body,
    })?;
    Ok(Program {
        structs: Items::new(alloc),
        funcs,
    })
}

// int x = 1; return x;
#[test]
fn accepts_a_program(rt: HostRuntime) -> Result<(), Fail> {
    let alloc = rt.alloc();
    let mut body = Items::new(alloc);
    let declared = Name::from_slice(alloc, b"x")?;
    let used = Name::from_slice(alloc, b"x")?;
    body.push(statement(2, StmtKind::Local(int(), declared, Some(Expr::Num(1)))))?;
    body.push(statement(3, StmtKind::Return(Some(Expr::Var(used)))))?;
    let program = main_with(alloc, body)?;
    assert_eq!(rt; check_counts(&program), Ok(()));
    assert_eq!(rt; check_names(alloc, &program), Ok(()));
    Ok(())
}

// y = 1; return;
#[test]
fn tells_the_first_fault(rt: HostRuntime) -> Result<(), Fail> {
    let alloc = rt.alloc();
    let mut body = Items::new(alloc);
    let unknown = Name::from_slice(alloc, b"y")?;
    body.push(statement(2, StmtKind::Set(unknown, Expr::Num(1))))?;
    body.push(statement(3, StmtKind::Return(None)))?;
    let program = main_with(alloc, body)?;
    let at = Place { line: 2, col: 3 };
    assert_eq!(rt;
        check_names(alloc, &program),
        Err(NamesFault::Rule { rule: 3, at })
    );
    Ok(())
}

// foreach (i, 0, 2) { print(1); } without a `return`
#[test]
fn tells_a_print_in_a_parallel_statement(rt: HostRuntime) -> Result<(), Fail> {
    let alloc = rt.alloc();
    let mut block = Items::new(alloc);
    block.push(statement(3, StmtKind::Print(Expr::Num(1))))?;
    let inner = Boxed::new(alloc, statement(2, StmtKind::Block(block)))?;
    let index = Name::from_slice(alloc, b"i")?;
    let mut body = Items::new(alloc);
    body.push(statement(
        2,
        StmtKind::Foreach(index, Expr::Num(0), Expr::Num(2), 1, inner),
    ))?;
    let program = main_with(alloc, body)?;
    let at = Place { line: 3, col: 3 };
    assert_eq!(rt;
        check_names(alloc, &program),
        Err(NamesFault::Rule { rule: 8, at })
    );
    Ok(())
}

// foreach (i, 0, 2, step) { }
#[test]
fn tells_what_is_no_step(rt: HostRuntime) -> Result<(), Fail> {
    let alloc = rt.alloc();
    let at = Place { line: 2, col: 3 };
    let no_step = Err(NamesFault::Rule { rule: 13, at });
    let cases = [
        (-1, no_step),
        (0, no_step),
        (1, Ok(())),
        (65_536, Ok(())),
        (65_537, no_step),
    ];
    for (step, answer) in cases {
        let inner = Boxed::new(alloc, statement(2, StmtKind::Block(Items::new(alloc))))?;
        let index = Name::from_slice(alloc, b"i")?;
        let mut body = Items::new(alloc);
        body.push(statement(
            2,
            StmtKind::Foreach(index, Expr::Num(0), Expr::Num(2), step, inner),
        ))?;
        let program = main_with(alloc, body)?;
        assert_eq!(rt; check_names(alloc, &program), answer, "the step {step}");
    }
    Ok(())
}

#[test]
fn tells_a_missing_main(rt: HostRuntime) -> Result<(), Fail> {
    let alloc = rt.alloc();
    let program = Program {
        structs: Items::new(alloc),
        funcs: Items::new(alloc),
    };
    let at = Place { line: 1, col: 1 };
    assert_eq!(rt;
        check_names(alloc, &program),
        Err(NamesFault::Rule { rule: 1, at })
    );
    Ok(())
}

#[test]
fn tells_too_many_branches(rt: HostRuntime) -> Result<(), Fail> {
    let alloc = rt.alloc();
    let mut blocks = Items::new(alloc);
    for line in 0..17 {
        blocks.push(statement(line, StmtKind::Block(Items::new(alloc))))?;
    }
    let mut body = Items::new(alloc);
    body.push(statement(2, StmtKind::Cobegin(blocks)))?;
    let program = main_with(alloc, body)?;
    let limit = Limit {
        which: 14,
        found: 17,
        allowed: 16,
    };
    assert_eq!(rt; check_counts(&program), Err(limit));
    Ok(())
}
