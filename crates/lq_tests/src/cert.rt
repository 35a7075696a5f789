use lq_cert::check_cert;
use lq_linear::{Cert, Combo, Divisor, Exact, Facts, Form, Item, Row};
use sqlite_items::Items;
use std::alloc::Global;
use std::test::Fail;

type Terms = &'static [(u32, i64)];

type Parts = &'static [(u32, u32)];

fn form(alloc: Global, terms: &[(u32, i64)]) -> Result<Form, Fail> {
    Ok(Form::of(Vec::from_slice(alloc, terms)?, 0).ok_or("no form")?)
}

fn row(alloc: Global, terms: &[(u32, i64)], most: i64) -> Result<Row, Fail> {
    Ok(Row::of(form(alloc, terms)?, most).ok_or("no row")?)
}

fn consequence(alloc: Global, divisor: u32, parts: &[(u32, u32)]) -> Result<Combo, Fail> {
    Ok(Combo {
        void: false,
        divisor,
        parts: Items::from_slice(alloc, parts)?,
    })
}

// x is 7, y is 7 too, and q, the symbol 1, is the quotient of x by 3. Its rows have the numbers 4 to 6.
fn known(alloc: Global) -> Result<Facts, Fail> {
    let mut items = Vec::new(alloc);
    items.push(Item::Holds(row(alloc, &[(0, 1)], 7)?))?;
    items.push(Item::Holds(row(alloc, &[(0, -1)], -7)?))?;
    items.push(Item::Holds(row(alloc, &[(0, 2)], 15)?))?;
    items.push(Item::Division {
        quotient: 1,
        dividend: form(alloc, &[(0, 1)])?,
        divisor: Divisor::of(3).ok_or("no divisor")?,
    })?;
    items.push(Item::Holds(row(alloc, &[(2, -1)], -7)?))?;
    Ok(Facts {
        items: Items::from_vec(items),
    })
}

// The entry for the division, if there is one, the combination for the goal, the goal, and whether
// the certificate is right.
#[derive(Clone, Copy)]
struct Case {
    entry: Option<(u32, Parts)>,
    divisor: u32,
    parts: Parts,
    goal: (Terms, i64),
    right: bool,
}

const CASES: [Case; 12] = [
    Case {
        entry: None,
        divisor: 2,
        parts: &[(1, 3)],
        goal: (&[(0, 1)], 7),
        right: true,
    },
    Case {
        entry: None,
        divisor: 2,
        parts: &[(1, 3)],
        goal: (&[(0, 1)], 6),
        right: false,
    },
    Case {
        entry: None,
        divisor: 1,
        parts: &[(1, 1), (1, 1)],
        goal: (&[(0, 2)], 14),
        right: false,
    },
    Case {
        entry: None,
        divisor: 1,
        parts: &[(2, 1)],
        goal: (&[(0, 2)], 14),
        right: true,
    },
    Case {
        entry: None,
        divisor: 1,
        parts: &[(0, 1)],
        goal: (&[], 0),
        right: false,
    },
    Case {
        entry: None,
        divisor: 1048576,
        parts: &[(1048576, 1)],
        goal: (&[(0, 1)], 7),
        right: true,
    },
    Case {
        entry: None,
        divisor: 1048577,
        parts: &[(1048577, 1)],
        goal: (&[(0, 1)], 7),
        right: false,
    },
    Case {
        entry: Some((1, &[(1, 2)])),
        divisor: 3,
        parts: &[(1, 1), (1, 6)],
        goal: (&[(1, 1)], 2),
        right: true,
    },
    Case {
        entry: None,
        divisor: 3,
        parts: &[(1, 1), (1, 6)],
        goal: (&[(1, 1)], 2),
        right: false,
    },
    Case {
        entry: Some((1, &[(1, 1)])),
        divisor: 3,
        parts: &[(1, 1), (1, 6)],
        goal: (&[(1, 1)], 2),
        right: false,
    },
    Case {
        entry: Some((2, &[(1, 2)])),
        divisor: 1,
        parts: &[],
        goal: (&[], 0),
        right: false,
    },
    Case {
        entry: Some((1, &[(1, 7)])),
        divisor: 1,
        parts: &[],
        goal: (&[], 0),
        right: false,
    },
];

#[test]
fn tests_certificates(rt: HostRuntime) -> Result<(), Fail> {
    for case in CASES {
        let mut exacts = Items::new(rt.alloc());
        if let Some((item, parts)) = case.entry {
            let combo = consequence(rt.alloc(), 1, parts)?;
            if combo.void {
                return Ok(());
            }
            exacts.push(Exact { item, combo })?;
        }
        let goal = consequence(rt.alloc(), case.divisor, case.parts)?;
        let cert = Cert { exacts, goal };
        let wanted = row(rt.alloc(), case.goal.0, case.goal.1)?;
        let right = check_cert(&known(rt.alloc())?, &wanted, &cert);
        assert_eq!(rt; right, case.right, "at {wanted:?} and {cert:?}");
    }
    Ok(())
}

// 2x is at most 5, so x is at most 2, and nothing less is shown.
#[test]
fn rounds_down(rt: HostRuntime) -> Result<(), Fail> {
    let mut items = Vec::new(rt.alloc());
    items.push(Item::Holds(row(rt.alloc(), &[(0, 2)], 5)?))?;
    let facts = Facts {
        items: Items::from_vec(items),
    };
    let cert = Cert {
        exacts: Items::new(rt.alloc()),
        goal: consequence(rt.alloc(), 2, &[(1, 1)])?,
    };
    for (most, right) in [(2, true), (1, false)] {
        let wanted = row(rt.alloc(), &[(0, 1)], most)?;
        assert_eq!(rt; check_cert(&facts, &wanted, &cert), right, "at most {most}");
    }
    Ok(())
}

// A combination has at most 256 facts: here each says that x is at most 1.
#[test]
fn counts_facts(rt: HostRuntime) -> Result<(), Fail> {
    for (end, right) in [(257u32, true), (258, false)] {
        let mut items = Vec::new(rt.alloc());
        let mut parts = Vec::new(rt.alloc());
        for number in 1..end {
            items.push(Item::Holds(row(rt.alloc(), &[(0, 1)], 1)?))?;
            parts.push((1, number))?;
        }
        let cert = Cert {
            exacts: Items::new(rt.alloc()),
            goal: consequence(rt.alloc(), 1, parts.as_slice())?,
        };
        let most = i64::from(end) - 1;
        let facts = Facts {
            items: Items::from_vec(items),
        };
        let wanted = row(rt.alloc(), &[(0, most)], most)?;
        assert_eq!(rt;
            check_cert(&facts, &wanted, &cert),
            right,
            "at {most} facts"
        );
    }
    Ok(())
}
