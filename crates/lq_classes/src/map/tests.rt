use super::{ClassMap, class_of, classes_of_small, same};
use crate::Var;
use crate::layout::pointers_of;
use lq_tree::{
    Base, BinOp, Boxed, Branch, CType, Items, Name, PExpr, PFunc, PKind, PProgram, PStmt, Place,
    Slot,
};
use std::alloc::{AllocError, Global};
use std::test::Fail;

// Two functions: a pointer, an int and a result; a pointer of the class of that result, and no result.
fn two_functions(alloc: Global) -> Result<ClassMap, AllocError> {
    let mut rows = Items::new(alloc);
    rows.push(Items::from_slice(alloc, [1, 0, 2].as_slice())?)?;
    rows.push(Items::from_slice(alloc, [2, 0].as_slice())?)?;
    Ok(ClassMap { rows })
}

#[test]
fn reads_classes_by_function_and_slot(rt: HostRuntime) -> Result<(), Fail> {
    let classes = two_functions(rt.alloc())?;
    let pointer = Var { func: 0, slot: 0 };
    let gives = Var { func: 0, slot: 2 };
    let other = Var { func: 1, slot: 0 };
    assert_eq!(rt; class_of(&classes, pointer), 1);
    assert_eq!(rt; class_of(&classes, gives), 2);
    assert_eq!(rt; class_of(&classes, other), 2);
    assert!(rt; same(&classes, gives, other));
    assert!(rt; !same(&classes, pointer, other));
    Ok(())
}

// ---- programs

fn statement(kind: PKind) -> PStmt {
    PStmt {
        at: Place { line: 1, col: 1 },
        kind,
    }
}

// An int behind so many stars.
fn ctype(stars: u8) -> CType {
    CType {
        base: Base::Int,
        stars,
    }
}

// A function whose slots are ints behind so many stars.
fn function(
    alloc: Global,
    gives: Option<CType>,
    params: u32,
    stars: &[u8],
    body: Items<PStmt>,
) -> Result<PFunc, AllocError> {
    let mut slots = Items::new(alloc);
    for count in stars {
        slots.push(Slot {
            name: None,
            ctype: ctype(*count),
        })?;
    }
    Ok(PFunc {
        at: Place { line: 1, col: 1 },
        name: Name::from_slice(alloc, b"f")?,
        result: gives,
        params,
        slots,
        body,
    })
}

// The classes of the program of these functions, of which the last is `main`.
fn classes_in(alloc: Global, main: u32, funcs: Items<PFunc>) -> Result<ClassMap, Fail> {
    let program = PProgram {
        structs: Items::new(alloc),
        funcs,
        main,
        factors: Items::new(alloc),
    };
    if pointers_of(alloc, &program)?.len() > 1 << 31 {
        return Err(Fail::from("too many slots"));
    }
    Ok(classes_of_small(alloc, &program)?)
}

// The numbers of a function's slots and of its result.
fn row(classes: &ClassMap, func: usize) -> &[u32] {
    match classes.rows.get(func) {
        Some(row) => row.as_slice(),
        None => &[],
    }
}

// A list of one element.
fn one<T: Drop>(alloc: Global, item: T) -> Result<Items<T>, AllocError> {
    let mut items = Items::new(alloc);
    items.push(item)?;
    Ok(items)
}

fn block(alloc: Global, kind: PKind) -> Result<Branch, AllocError> {
    Ok(Branch {
        at: Place { line: 1, col: 1 },
        body: one(alloc, statement(kind))?,
    })
}

// ---- each rule of flow

// void main() { int *a; int *b; int *c; int i; b = a + i; c = 0; }
#[test]
fn an_assignment_joins(rt: HostRuntime) -> Result<(), Fail> {
    let alloc = rt.alloc();
    let a = Boxed::new(alloc, PExpr::Slot(0))?;
    let i = Boxed::new(alloc, PExpr::Slot(3))?;
    let mut body = one(alloc, statement(PKind::Set(1, PExpr::Shift(a, i))))?;
    body.push(statement(PKind::Set(2, PExpr::Null)))?;
    let main = function(alloc, None, 0, &[1, 1, 1, 0], body)?;
    let classes = classes_in(alloc, 0, one(alloc, main)?)?;
    assert!(rt; row(&classes, 0) == [1, 1, 2, 0, 0].as_slice());
    Ok(())
}

// int *nothing(int n, int *p) { return 0; } int *given(int *p) { if (1) { return p; } }
fn callees(alloc: Global) -> Result<Items<PFunc>, AllocError> {
    let null = one(alloc, statement(PKind::Return(Some(PExpr::Null))))?;
    let gives = one(alloc, statement(PKind::Return(Some(PExpr::Slot(0)))))?;
    let branches = PKind::If(PExpr::Num(1), gives, Items::new(alloc));
    let inner = one(alloc, statement(branches))?;
    let mut funcs = Items::new(alloc);
    funcs.push(function(alloc, Some(ctype(1)), 2, &[0, 1], null)?)?;
    funcs.push(function(alloc, Some(ctype(1)), 1, &[1], inner)?)?;
    Ok(funcs)
}

// b = nothing(2, a);
fn calls_nothing(alloc: Global) -> Result<PStmt, AllocError> {
    let mut args = one(alloc, PExpr::Num(2))?;
    args.push(PExpr::Slot(0))?;
    Ok(statement(PKind::Call(Some(1), 0, args)))
}

// while (1) { given(c); }
fn calls_given(alloc: Global) -> Result<PStmt, AllocError> {
    let args = one(alloc, PExpr::Slot(2))?;
    let body = one(alloc, statement(PKind::Call(None, 1, args)))?;
    Ok(statement(PKind::While(Items::new(alloc), PExpr::Num(1), body)))
}

// int main() { int *a; int *b; int *c; b = nothing(2, a); while (1) { given(c); } }
fn caller(alloc: Global) -> Result<PFunc, AllocError> {
    let mut body = one(alloc, calls_nothing(alloc)?)?;
    body.push(calls_given(alloc)?)?;
    function(alloc, Some(ctype(0)), 0, &[1, 1, 1], body)
}

#[test]
fn a_call_joins_arguments_and_results(rt: HostRuntime) -> Result<(), Fail> {
    let alloc = rt.alloc();
    let mut funcs = callees(alloc)?;
    funcs.push(caller(alloc)?)?;
    let classes = classes_in(alloc, 2, funcs)?;
    assert!(rt; row(&classes, 0) == [0, 1, 2].as_slice());
    assert!(rt; row(&classes, 1) == [3, 3].as_slice());
    assert!(rt; row(&classes, 2) == [1, 2, 3, 0].as_slice());
    Ok(())
}

// p->f0 = a; b = q->f0; c = q->f1; d = r->f0; q = p + 0; of slots p, q, r, a, b, c, d in this order
#[test]
fn a_field_joins_what_is_loaded_and_stored(rt: HostRuntime) -> Result<(), Fail> {
    let alloc = rt.alloc();
    let mut body = one(
        alloc,
        statement(PKind::Store(0, PExpr::Num(0), 0, PExpr::Slot(3))),
    )?;
    body.push(statement(PKind::Load(4, 1, PExpr::Num(0), 0)))?;
    body.push(statement(PKind::Load(5, 1, PExpr::Num(0), 1)))?;
    body.push(statement(PKind::Load(6, 2, PExpr::Num(0), 0)))?;
    body.push(statement(PKind::Set(1, PExpr::Slot(0))))?;
    let main = function(alloc, None, 0, &[2, 2, 2, 1, 1, 1, 1], body)?;
    let classes = classes_in(alloc, 0, one(alloc, main)?)?;
    assert!(rt; row(&classes, 0) == [1, 1, 2, 3, 3, 4, 5, 0].as_slice());
    Ok(())
}

// a = *p; b = *q; c = *a; d = *b; q = p; of slots p, q, a, b, c, d in this order
#[test]
fn pointers_behind_joined_pointers_are_joined(rt: HostRuntime) -> Result<(), Fail> {
    let alloc = rt.alloc();
    let mut body = Items::new(alloc);
    for (to, base) in [(2, 0), (3, 1), (4, 2), (5, 3)] {
        body.push(statement(PKind::Load(to, base, PExpr::Num(0), 0)))?;
    }
    body.push(statement(PKind::Set(1, PExpr::Slot(0))))?;
    let main = function(alloc, None, 0, &[3, 3, 2, 2, 1, 1], body)?;
    let classes = classes_in(alloc, 0, one(alloc, main)?)?;
    assert!(rt; row(&classes, 0) == [1, 1, 2, 2, 3, 3, 0].as_slice());
    Ok(())
}

// ---- the classes of whole programs, as the rules give them

// foreach (i, 0, 5) { a[i] = i * i; } with the slots in, n, a, i
#[test]
fn classes_of_squares(rt: HostRuntime) -> Result<(), Fail> {
    let alloc = rt.alloc();
    let first = Boxed::new(alloc, PExpr::Slot(3))?;
    let second = Boxed::new(alloc, PExpr::Slot(3))?;
    let square = PExpr::Bin(BinOp::Mul, first, second);
    let each = block(alloc, PKind::Store(2, PExpr::Slot(3), 0, square))?;
    let foreach = PKind::Foreach(3, PExpr::Num(0), PExpr::Num(5), 1, each);
    let mut body = one(alloc, statement(PKind::Calloc(2, PExpr::Num(5), ctype(0))))?;
    body.push(statement(foreach))?;
    let main = function(alloc, Some(ctype(0)), 2, &[1, 0, 1, 0], body)?;
    let classes = classes_in(alloc, 0, one(alloc, main)?)?;
    assert!(rt; row(&classes, 0) == [1, 0, 2, 0, 0].as_slice());
    Ok(())
}

// void fill(int *a, int n, int v); cobegin { { fill(in, n, 1); } { fill(b, n, 2); } } with the slots in, n, b
#[test]
fn classes_of_fill_twice(rt: HostRuntime) -> Result<(), Fail> {
    let alloc = rt.alloc();
    let mut blocks = Items::new(alloc);
    for (array, value) in [(0, 1), (2, 2)] {
        let mut args = one(alloc, PExpr::Slot(array))?;
        args.push(PExpr::Slot(1))?;
        args.push(PExpr::Num(value))?;
        blocks.push(block(alloc, PKind::Call(None, 0, args))?)?;
    }
    let body = one(alloc, statement(PKind::Cobegin(blocks)))?;
    let fill = function(alloc, None, 3, &[1, 0, 0], Items::new(alloc))?;
    let mut funcs = one(alloc, fill)?;
    funcs.push(function(alloc, Some(ctype(0)), 2, &[1, 0, 1], body)?)?;
    let classes = classes_in(alloc, 1, funcs)?;
    assert!(rt; row(&classes, 0) == [1, 0, 0, 0].as_slice());
    assert!(rt; row(&classes, 1) == [1, 0, 1, 0].as_slice());
    Ok(())
}

// p = v->data;
fn load_data(slot: u32) -> PStmt {
    statement(PKind::Load(slot, 2, PExpr::Num(0), 1))
}

// while (v->n) { p = v->data; }
fn turns(alloc: Global) -> Result<PStmt, AllocError> {
    let head = one(alloc, statement(PKind::Load(5, 2, PExpr::Num(0), 0)))?;
    let body = one(alloc, load_data(6))?;
    Ok(statement(PKind::While(head, PExpr::Slot(5), body)))
}

// if (k) { q = v->data; }
fn last(alloc: Global) -> Result<PStmt, AllocError> {
    let body = one(alloc, load_data(8))?;
    Ok(statement(PKind::If(PExpr::Slot(7), body, Items::new(alloc))))
}

// v->data = t; while (v->n) { p = v->data; } if (k) { q = v->data; } with the slots in, n, v, t, i, m, p, k, q
#[test]
fn classes_of_vector(rt: HostRuntime) -> Result<(), Fail> {
    let alloc = rt.alloc();
    let store = PKind::Store(2, PExpr::Num(0), 1, PExpr::Slot(3));
    let mut body = one(alloc, statement(store))?;
    body.push(turns(alloc)?)?;
    body.push(last(alloc)?)?;
    let main = function(alloc, Some(ctype(0)), 2, &[1, 0, 1, 1, 0, 0, 1, 0, 1], body)?;
    let classes = classes_in(alloc, 0, one(alloc, main)?)?;
    assert!(rt; row(&classes, 0) == [1, 0, 2, 3, 0, 0, 3, 0, 3, 0].as_slice());
    Ok(())
}
