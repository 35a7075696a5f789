use lq_linear::{Divisor, Form, Row, add, scale};
use std::alloc::Global;
use std::test::Fail;

/// 2^40, the largest constant.
const LARGE: i64 = 1_099_511_627_776;

const SIXTEEN: &[(u32, i64)] = &[
    (1, 1),
    (2, 1),
    (3, 1),
    (4, 1),
    (5, 1),
    (6, 1),
    (7, 1),
    (8, 1),
    (9, 1),
    (10, 1),
    (11, 1),
    (12, 1),
    (13, 1),
    (14, 1),
    (15, 1),
    (16, 1),
];

const SEVENTEEN: &[(u32, i64)] = &[
    (0, 1),
    (1, 1),
    (2, 1),
    (3, 1),
    (4, 1),
    (5, 1),
    (6, 1),
    (7, 1),
    (8, 1),
    (9, 1),
    (10, 1),
    (11, 1),
    (12, 1),
    (13, 1),
    (14, 1),
    (15, 1),
    (16, 1),
];

type Terms = &'static [(u32, i64)];

fn form(alloc: Global, terms: &[(u32, i64)], constant: i64) -> Result<Form, Fail> {
    Ok(Form::of(Vec::from_slice(alloc, terms)?, constant).ok_or("no form")?)
}

fn row(alloc: Global, terms: &[(u32, i64)], most: i64) -> Result<Row, Fail> {
    Ok(Row::of(form(alloc, terms, 0)?, most).ok_or("no row")?)
}

#[test]
fn forms_end_at_their_bounds(rt: HostRuntime) -> Result<(), Fail> {
    let cases: [(Terms, i64, bool); 14] = [
        (&[], 0, true),
        (SIXTEEN, 0, true),
        (SEVENTEEN, 0, false),
        (&[(0, 65536), (4294967295, -65536)], 7, true),
        (&[(0, 65537)], 0, false),
        (&[(0, -65537)], 0, false),
        (&[(3, 0)], 0, false),
        (&[(3, 1), (3, 1)], 0, false),
        (&[(4, 1), (3, 1)], 0, false),
        (&[], LARGE, true),
        (&[], -LARGE, true),
        (&[], LARGE + 1, false),
        (&[], -LARGE - 1, false),
        (&[(0, i64::MIN)], 0, false),
    ];
    for (terms, constant, is_form) in cases {
        let made = Form::of(Vec::from_slice(rt.alloc(), terms)?, constant);
        assert_eq!(rt; made.is_some(), is_form, "at {terms:?} and {constant}");
    }
    Ok(())
}

#[test]
fn rows_and_divisors_end_at_their_bounds(rt: HostRuntime) -> Result<(), Fail> {
    assert!(rt; Row::of(form(rt.alloc(), &[(0, 1)], 0)?, LARGE).is_some());
    assert!(rt; Row::of(form(rt.alloc(), &[(0, 1)], 0)?, LARGE + 1).is_none());
    assert!(rt; Row::of(form(rt.alloc(), &[(0, 1)], 1)?, 0).is_none());
    assert!(rt; Divisor::of(1).is_some() && Divisor::of(65536).is_some());
    assert!(rt; Divisor::of(0).is_none() && Divisor::of(65537).is_none());
    Ok(())
}

#[test]
fn adds(rt: HostRuntime) -> Result<(), Fail> {
    let cases: [((Terms, i64), (Terms, i64), Option<(Terms, i64)>); 8] = [
        (
            (&[(1, 2), (3, 4)], 5),
            (&[(0, 1), (3, -1), (9, 7)], -6),
            Some((&[(0, 1), (1, 2), (3, 3), (9, 7)], -1)),
        ),
        (
            (&[(1, 2), (3, 4)], 0),
            (&[(1, -2), (3, -4)], 0),
            Some((&[], 0)),
        ),
        ((&[(1, 65535)], 0), (&[(1, 1)], 0), Some((&[(1, 65536)], 0))),
        ((&[(1, 65536)], 0), (&[(1, 1)], 0), None),
        ((&[], LARGE - 1), (&[], 1), Some((&[], LARGE))),
        ((&[], LARGE), (&[], 1), None),
        ((SIXTEEN, 0), (&[(0, 1)], 0), None),
        (
            (SIXTEEN, 0),
            (&[(0, 1), (16, -1)], 0),
            Some((&SEVENTEEN_BUT_LAST, 0)),
        ),
    ];
    for (a, b, want) in cases {
        let sum = add(
            rt.alloc(),
            &form(rt.alloc(), a.0, a.1)?,
            &form(rt.alloc(), b.0, b.1)?,
        )?;
        let found = sum.as_ref().map(|f| (f.terms(), f.constant()));
        assert_eq!(rt; found, want, "at {a:?} and {b:?}");
    }
    Ok(())
}

const SEVENTEEN_BUT_LAST: [(u32, i64); 16] = [
    (0, 1),
    (1, 1),
    (2, 1),
    (3, 1),
    (4, 1),
    (5, 1),
    (6, 1),
    (7, 1),
    (8, 1),
    (9, 1),
    (10, 1),
    (11, 1),
    (12, 1),
    (13, 1),
    (14, 1),
    (15, 1),
];

#[test]
fn scales(rt: HostRuntime) -> Result<(), Fail> {
    let cases: [((Terms, i64), i64, Option<(Terms, i64)>); 10] = [
        ((&[(1, 3), (2, -1)], 5), -2, Some((&[(1, -6), (2, 2)], -10))),
        ((&[(1, 3)], 5), 0, Some((&[], 0))),
        ((&[(1, 1)], 0), 65536, Some((&[(1, 65536)], 0))),
        ((&[(1, 1)], 0), 65537, None),
        ((&[], LARGE), -1, Some((&[], -LARGE))),
        ((&[], 1), LARGE, Some((&[], LARGE))),
        ((&[], 1), LARGE + 1, None),
        ((&[(1, 2)], 0), i64::MAX, None),
        ((&[], 2), i64::MIN, None),
        ((&[], 0), i64::MIN, Some((&[], 0))),
    ];
    for (a, by, want) in cases {
        let multiple = scale(rt.alloc(), &form(rt.alloc(), a.0, a.1)?, by)?;
        let found = multiple.as_ref().map(|f| (f.terms(), f.constant()));
        assert_eq!(rt; found, want, "at {a:?} and {by}");
    }
    Ok(())
}
