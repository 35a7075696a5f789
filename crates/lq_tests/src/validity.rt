use lq_linear::{Cert, Combo, Divisor, Exact, Facts, Form, Item, Row};
use lq_quals::read_quals;
use lq_tree::PProgram;
use lq_validity::{GoalIndex, Index, Mults, derives};
use sqlite_items::Items;
use std::alloc::Global;
use std::test::Fail;

type Terms = &'static [(u32, i64)];

fn form(alloc: Global, terms: &[(u32, i64)]) -> Result<Form, Fail> {
    Ok(Form::of(Vec::from_slice(alloc, terms)?, 0).ok_or("no form")?)
}

fn row(alloc: Global, terms: &[(u32, i64)], most: i64) -> Result<Row, Fail> {
    Ok(Row::of(form(alloc, terms)?, most).ok_or("no row")?)
}

fn facts(alloc: Global, rows: &[(Terms, i64)]) -> Result<Facts, Fail> {
    let mut items = Vec::new(alloc);
    for (terms, most) in rows {
        items.push(Item::Holds(row(alloc, terms, *most)?))?;
    }
    Ok(Facts {
        items: Items::from_vec(items),
    })
}

#[test]
fn multipliers_are_listed(rt: HostRuntime) {
    let cases: [(&[u32], Option<&[u32]>); 10] = [
        (&[], Some(&[1])),
        (&[2], Some(&[1, 2])),
        (&[64], Some(&[1, 64])),
        (&[2, 64], Some(&[1, 2, 64])),
        (&[1], None),
        (&[65], None),
        (&[3, 3], None),
        (&[3, 2], None),
        (&[2, 65], None),
        (&[2, 3, 4], None),
    ];
    for (rest, want) in cases {
        let made = Mults::list(rest);
        assert_eq!(rt; made.as_ref().map(|m| m.numbers()), want, "at {rest:?}");
    }
}

/// A program with these factors.
fn program(alloc: Global, factors: &[i64]) -> Result<PProgram, Fail> {
    Ok(PProgram {
        structs: Items::new(alloc),
        funcs: Items::new(alloc),
        main: 0,
        factors: Items::from_slice(alloc, factors)?,
    })
}

#[test]
fn multipliers_of_a_program_and_its_qualifiers(rt: HostRuntime) -> Result<(), Fail> {
    let cases: [(&[i64], &[u8], &[u32]); 9] = [
        (&[], b"", &[1]),
        (&[7], b"", &[1, 7]),
        (&[], b"0 <= k\n", &[1]),
        (&[3, 5], b"2*i <= j\n", &[1, 2, 3]),
        (&[], b"@ < 4*i + 4\n", &[1, 4]),
        (&[], b"4*i == 9*j\nk <= 64*n\n", &[1, 4, 9]),
        (&[3], b"3*i <= 5\n", &[1, 3]),
        (&[64], b"65*i <= j\n63*j <= 2\n", &[1, 63, 64]),
        (&[1, 65, -2], b"k <= 8\n", &[1]),
    ];
    for (factors, text, want) in cases {
        let p = program(rt.alloc(), factors)?;
        let q = read_quals(rt.alloc(), text)?;
        let mults = Mults::of(&p, &q);
        assert_eq!(rt; mults.numbers(), want, "at {factors:?}");
    }
    Ok(())
}

type Parts = &'static [(u32, u32)];

/// Whether as a contradiction, the divisor and the parts.
type Found = (bool, u32, Parts);

fn found_in(combo: &Combo) -> (bool, u32, &[(u32, u32)]) {
    (combo.void, combo.divisor, combo.parts.as_slice())
}

fn entry_in(exact: &Exact) -> (u32, (bool, u32, &[(u32, u32)])) {
    (exact.item, found_in(&exact.combo))
}

#[derive(Clone, Copy)]
struct Case {
    rows: &'static [(Terms, i64)],
    rest: &'static [u32],
    goal: (Terms, i64),
    found: Option<Found>,
}

const CHAIN: &[(Terms, i64)] = &[(&[(0, 1), (1, -1)], -1), (&[(1, 1), (2, -1)], -1)];

/// Each of six symbols is below the next.
const RISING: &[(Terms, i64)] = &[
    (&[(0, 1), (1, -1)], -1),
    (&[(1, 1), (2, -1)], -1),
    (&[(2, 1), (3, -1)], -1),
    (&[(3, 1), (4, -1)], -1),
    (&[(4, 1), (5, -1)], -1),
];

/// x, y, z and w are the symbols 0, 1, 2 and 3. The goal that needs four facts is derived, the one
/// that needs five is not. In the last two cases more than one combination gives the goal, and the
/// first in order is found.
const CASES: [Case; 12] = [
    Case {
        rows: RISING,
        rest: &[2, 3],
        goal: (&[(0, 1), (3, -1)], -3),
        found: Some((false, 1, &[(1, 1), (1, 2), (1, 3)])),
    },
    Case {
        rows: RISING,
        rest: &[2, 3],
        goal: (&[(0, 1), (4, -1)], -4),
        found: Some((false, 1, &[(1, 1), (1, 2), (1, 3), (1, 4)])),
    },
    Case {
        rows: RISING,
        rest: &[2, 3],
        goal: (&[(0, 1), (5, -1)], -5),
        found: None,
    },
    Case {
        rows: &[(&[(0, 2)], -5)],
        rest: &[2],
        goal: (&[(0, 1)], -4),
        found: None,
    },
    Case {
        rows: CHAIN,
        rest: &[],
        goal: (&[(0, 1), (2, -1)], -2),
        found: Some((false, 1, &[(1, 1), (1, 2)])),
    },
    Case {
        rows: CHAIN,
        rest: &[],
        goal: (&[(0, 1), (2, -1)], -3),
        found: None,
    },
    Case {
        rows: &[(&[(0, 2)], 5)],
        rest: &[2],
        goal: (&[(0, 1)], 2),
        found: Some((false, 2, &[(1, 1)])),
    },
    Case {
        rows: &[(&[(0, 1)], 0), (&[(0, -1)], -1)],
        rest: &[],
        goal: (&[(3, 1)], 0),
        found: Some((true, 1, &[(1, 1), (1, 2)])),
    },
    Case {
        rows: &[],
        rest: &[],
        goal: (&[], 0),
        found: Some((false, 1, &[])),
    },
    Case {
        rows: &[(&[(0, 1)], 0), (&[(0, -1)], -1)],
        rest: &[],
        goal: (&[], -1),
        found: Some((false, 1, &[(1, 1), (1, 2)])),
    },
    Case {
        rows: &[(&[(0, 1)], 3), (&[(0, 2)], 4)],
        rest: &[2],
        goal: (&[(0, 2)], 6),
        found: Some((false, 1, &[(2, 1)])),
    },
    Case {
        rows: &[(&[(0, 2)], 6), (&[(0, 1)], 3)],
        rest: &[2],
        goal: (&[(0, 1)], 3),
        found: Some((false, 2, &[(1, 1)])),
    },
];

#[test]
fn finds_the_first_combination(rt: HostRuntime) -> Result<(), Fail> {
    for case in CASES {
        let known = facts(rt.alloc(), case.rows)?;
        assert!(rt; known.items.len() <= 5);
        let goal = row(rt.alloc(), case.goal.0, case.goal.1)?;
        let mults = Mults::list(case.rest).ok_or("no multipliers")?;
        let cert = derives(rt.alloc(), &known, &goal, &mults)?;
        let found = cert.as_ref().map(|c| found_in(&c.goal));
        assert_eq!(rt; found, case.found, "at {goal:?}");
    }
    Ok(())
}

#[test]
fn finds_what_shows_that_a_dividend_is_not_negative(rt: HostRuntime) -> Result<(), Fail> {
    // x is 7, and q its quotient by 3: fact 5 says that 3q is at most x.
    let mut items = Vec::new(rt.alloc());
    items.push(Item::Holds(row(rt.alloc(), &[(0, 1)], 7)?))?;
    items.push(Item::Holds(row(rt.alloc(), &[(0, -1)], -7)?))?;
    items.push(Item::Division {
        quotient: 1,
        dividend: form(rt.alloc(), &[(0, 1)])?,
        divisor: Divisor::of(3).ok_or("no divisor")?,
    })?;
    assert_eq!(rt; items.len(), 3);
    let known = Facts {
        items: Items::from_vec(items),
    };
    let goal = row(rt.alloc(), &[(1, 1)], 2)?;
    let mults = Mults::list(&[3]).ok_or("no multipliers")?;
    let Cert {
        exacts,
        goal: shown,
    } = derives(rt.alloc(), &known, &goal, &mults)?.ok_or("not derived")?;
    let parts: Parts = &[(1, 1), (1, 5)];
    assert_eq!(rt; found_in(&shown), (false, 3, parts));
    assert_eq!(rt; exacts.len(), 1);
    let exact = exacts.get(0).ok_or("no entry")?;
    let exact_parts: Parts = &[(1, 2)];
    assert_eq!(rt; entry_in(exact), (1, (false, 1, exact_parts)));
    Ok(())
}

/// Facts that say that each of so many symbols is below the next.
fn rising(alloc: Global, count: u32) -> Result<Facts, Fail> {
    let mut items = Vec::new(alloc);
    for symbol in 0..count {
        items.push(Item::Holds(row(alloc, &[(symbol, 1), (symbol.saturating_add(1), -1)], -1)?))?;
    }
    Ok(Facts {
        items: Items::from_vec(items),
    })
}

#[test]
fn searches_an_index_of_511_facts(rt: HostRuntime) -> Result<(), Fail> {
    let known = rising(rt.alloc(), 511)?;
    assert_eq!(rt; known.items.len(), 511);
    let mults = Mults::list(&[2, 3]).ok_or("no multipliers")?;
    let index = Index::of(rt.alloc(), &known, &mults)?;
    let cases: [(u32, i64, Option<Found>); 3] = [
        (3, -3, Some((false, 1, &[(1, 1), (1, 2), (1, 3)]))),
        (4, -4, Some((false, 1, &[(1, 1), (1, 2), (1, 3), (1, 4)]))),
        (5, -5, None),
    ];
    for (last, most, want) in cases {
        let goal = row(rt.alloc(), &[(0, 1), (last, -1)], most)?;
        let cert = index.find(&goal)?;
        let found = cert.as_ref().map(|c| found_in(&c.goal));
        assert_eq!(rt; found, want, "at {goal:?}");
    }
    Ok(())
}

#[test]
fn searches_an_index_for_some_goals(rt: HostRuntime) -> Result<(), Fail> {
    // No goal has the symbol 9, so the first fact is left out. The numbers of the others stay.
    let rows: [(Terms, i64); 3] = [
        (&[(9, 1)], 5),
        (&[(0, 1), (1, -1)], -1),
        (&[(1, 1), (2, -1)], -1),
    ];
    let known = facts(rt.alloc(), &rows)?;
    assert!(rt; known.items.len() <= 3);
    let mults = Mults::list(&[]).ok_or("no multipliers")?;
    let mut goals = Vec::new(rt.alloc());
    goals.push(row(rt.alloc(), &[(0, 1), (1, -1)], -1)?)?;
    goals.push(row(rt.alloc(), &[(0, 1), (2, -1)], -2)?)?;
    goals.push(row(rt.alloc(), &[(0, 1), (2, -1)], -3)?)?;
    let wants: [Option<Found>; 3] = [
        Some((false, 1, &[(1, 2)])),
        Some((false, 1, &[(1, 2), (1, 3)])),
        None,
    ];
    let index = GoalIndex::of(rt.alloc(), &known, goals.as_slice(), &mults)?;
    for (place, goal) in goals.iter().enumerate() {
        let cert = index.find(goal)?;
        let found = cert.as_ref().map(|c| found_in(&c.goal));
        let want = wants.get(place).copied().unwrap_or(None);
        assert_eq!(rt; found, want, "at {goal:?}");
    }
    Ok(())
}

/// Items that say that the symbol 0 is `x` and that the symbol 1 is its quotient by 3, or what is left over.
fn divided(alloc: Global, x: i64, is_quotient: bool) -> Result<Facts, Fail> {
    let mut items = Vec::new(alloc);
    items.push(Item::Holds(row(alloc, &[(0, 1)], x)?))?;
    items.push(Item::Holds(row(alloc, &[(0, -1)], x.wrapping_neg())?))?;
    let dividend = form(alloc, &[(0, 1)])?;
    let divisor = Divisor::of(3).ok_or("no divisor")?;
    items.push(if is_quotient {
        Item::Division {
            quotient: 1,
            dividend,
            divisor,
        }
    } else {
        Item::Remainder {
            remainder: 1,
            dividend,
            divisor,
        }
    })?;
    Ok(Facts {
        items: Items::from_vec(items),
    })
}

#[test]
fn divisions_derive(rt: HostRuntime) -> Result<(), Fail> {
    // -7 / 3 is -2 and leaves -1, and 7 / 3 is 2 and leaves 1. The third row holds for 7 alone.
    let cases: [(i64, bool, i64, i64, bool); 14] = [
        (-7, true, 1, -2, true),
        (-7, true, 1, -3, false),
        (-7, true, -1, 3, true),
        (-7, true, -1, 2, false),
        (7, true, 1, 2, true),
        (7, true, 1, 1, false),
        (7, true, -1, -2, true),
        (7, true, -1, -3, false),
        (-7, false, 1, 2, true),
        (-7, false, -1, 2, true),
        (-7, false, -1, 1, false),
        (7, false, -1, 0, true),
        (7, false, -1, -1, false),
        (7, false, 1, 1, false),
    ];
    for (x, is_quotient, sign, most, derived) in cases {
        let facts = divided(rt.alloc(), x, is_quotient)?;
        let goal = row(rt.alloc(), &[(1, sign)], most)?;
        assert_eq!(rt; facts.items.len(), 3);
        let mults = Mults::list(&[3]).ok_or("no multipliers")?;
        let found = derives(rt.alloc(), &facts, &goal, &mults)?.is_some();
        assert_eq!(rt; found, derived, "at {x}, {sign} and {most}");
    }
    Ok(())
}
