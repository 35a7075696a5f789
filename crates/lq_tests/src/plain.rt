use lq_plain::plain;
use lq_tree::{
    Base, BinOp, Boxed, CType, Expr, Func, Items, Name, PExpr, PFunc, PKind, Param, Place, Program,
    Slot, Stmt, StmtKind,
};
use std::alloc::{AllocError, Global};
use std::test::Fail;

fn int(stars: u8) -> CType {
    CType {
        base: Base::Int,
        stars,
    }
}

// `int NAME(params) { return value; }`, whose one statement stands at column 3
fn returning(
    alloc: Global,
    line: u32,
    name: &[u8],
    params: Items<Param>,
    value: Expr,
) -> Result<Func, AllocError> {
    let at = Place { line, col: 3 };
    let kind = StmtKind::Return(Some(value));
    let mut body = Items::new(alloc);
    body.push(Stmt { at, kind })?;
    Ok(Func {
        at: Place { line, col: 1 },
        result: Some(int(0)),
        name: Name::from_slice(alloc, name)?,
        params,
        body,
    })
}

// `p[at]`
fn word_of_p(alloc: Global, at: i64) -> Result<Boxed<Expr>, AllocError> {
    let base = Boxed::new(alloc, Expr::Var(Name::from_slice(alloc, b"p")?))?;
    let index = Boxed::new(alloc, Expr::Num(at))?;
    Boxed::new(alloc, Expr::Index(base, index))
}

// int sum(int *p) { return p[1] + p[0]; }
fn sum_of_words(alloc: Global) -> Result<Func, AllocError> {
    let name = Name::from_slice(alloc, b"p")?;
    let mut params = Items::new(alloc);
    params.push(Param {
        ctype: int(1),
        name,
    })?;
    let sum = Expr::Bin(BinOp::Add, word_of_p(alloc, 1)?, word_of_p(alloc, 0)?);
    returning(alloc, 1, b"sum", params, sum)
}

// sum(0)
fn sum_of_null(alloc: Global) -> Result<Boxed<Expr>, AllocError> {
    let mut args = Items::new(alloc);
    args.push(Expr::Num(0))?;
    Boxed::new(alloc, Expr::Call(Name::from_slice(alloc, b"sum")?, args))
}

// int main() { return sum(0) * 2; }
fn twice_the_sum(alloc: Global) -> Result<Func, AllocError> {
    let two = Boxed::new(alloc, Expr::Num(2))?;
    let twice = Expr::Bin(BinOp::Mul, sum_of_null(alloc)?, two);
    returning(alloc, 2, b"main", Items::new(alloc), twice)
}

// Both functions.
fn summing(alloc: Global) -> Result<Program, AllocError> {
    let mut funcs = Items::new(alloc);
    funcs.push(sum_of_words(alloc)?)?;
    funcs.push(twice_the_sum(alloc)?)?;
    Ok(Program {
        structs: Items::new(alloc),
        funcs,
    })
}

// Whether the statement with this number is a load from slot 0, at this index, to this slot.
fn loads(func: &PFunc, number: usize, to: u32, index: i64) -> bool {
    match func.body.get(number) {
        Some(stmt) => match &stmt.kind {
            PKind::Load(slot, 0, PExpr::Num(at), 0) => *slot == to && *at == index,
            _ => false,
        },
        None => false,
    }
}

// Whether the statement with this number calls function 0 on null, and puts what it gives into slot 0.
fn calls(func: &PFunc, number: usize) -> bool {
    match func.body.get(number) {
        Some(stmt) => match &stmt.kind {
            PKind::Call(Some(0), 0, args) => {
                args.len() == 1 && matches!(args.get(0), Some(PExpr::Null))
            }
            _ => false,
        },
        None => false,
    }
}

// The operator, the left slot and the right side of what the statement with this number returns.
fn returned(func: &PFunc, number: usize) -> Option<(BinOp, u32, &PExpr)> {
    let PKind::Return(Some(PExpr::Bin(op, left, right))) = &func.body.get(number)?.kind else {
        return None;
    };
    match left.get() {
        PExpr::Slot(slot) => Some((*op, *slot, right.get())),
        _ => None,
    }
}

// Whether a slot has no name and is an int.
fn is_unnamed_int(slot: Option<&Slot>) -> bool {
    match slot {
        Some(slot) => {
            slot.name.is_none() && matches!(slot.ctype.base, Base::Int) && slot.ctype.stars == 0
        }
        None => false,
    }
}

// p is slot 0; Load 1 from 0 at 1; Load 2 from 0 at 0; Return 1 + 2.
// Call 0 := sum(null); Return 0 * 2.
#[test]
fn makes_loads_and_calls_statements(rt: HostRuntime) -> Result<(), Fail> {
    let alloc = rt.alloc();
    let form = plain(alloc, &summing(alloc)?)?;
    assert_eq!(rt; form.structs.len(), 0);
    assert_eq!(rt; form.funcs.len(), 2);
    assert_eq!(rt; form.main, 1);
    assert_eq!(rt; form.factors.as_slice(), [2].as_slice());

    let sum = form.funcs.get(0).ok_or("no sum")?;
    assert_eq!(rt; sum.name.as_bytes(), b"sum".as_slice());
    assert_eq!(rt; sum.params, 1);
    assert_eq!(rt; sum.slots.len(), 3);
    let p = sum.slots.get(0).ok_or("no p")?;
    let name = p.name.as_ref().ok_or("no name")?;
    assert_eq!(rt; name.as_bytes(), b"p".as_slice());
    assert_eq!(rt; p.ctype.stars, 1);
    assert!(rt; is_unnamed_int(sum.slots.get(1)));
    assert!(rt; is_unnamed_int(sum.slots.get(2)));
    assert_eq!(rt; sum.body.len(), 3);
    assert!(rt; loads(sum, 0, 1, 1));
    assert!(rt; loads(sum, 1, 2, 0));
    let (op, left, right) = returned(sum, 2).ok_or("no sum")?;
    assert!(rt; matches!(op, BinOp::Add));
    assert_eq!(rt; left, 1);
    assert!(rt; matches!(right, PExpr::Slot(2)));

    let main = form.funcs.get(1).ok_or("no main")?;
    assert_eq!(rt; main.name.as_bytes(), b"main".as_slice());
    assert_eq!(rt; main.params, 0);
    assert_eq!(rt; main.slots.len(), 1);
    assert!(rt; is_unnamed_int(main.slots.get(0)));
    assert_eq!(rt; main.body.len(), 2);
    assert!(rt; calls(main, 0));
    let (op, left, right) = returned(main, 1).ok_or("no product")?;
    assert!(rt; matches!(op, BinOp::Mul));
    assert_eq!(rt; left, 0);
    assert!(rt; matches!(right, PExpr::Num(2)));
    Ok(())
}
