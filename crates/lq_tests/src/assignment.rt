//! The full assignment, and the limits that are tested for it.

use lq_chain::Chain;
use lq_full::{ConditionsFault, full};
use lq_linear::{Divisor, Form, Item};
use lq_quals::{Quals, read_quals};
use lq_templates::{
    Assign, Condition, Conditions, Given, NamePart, Named, Rule, Site, Template, TemplateKind,
};
use lq_tree::{Limit, Name, Place};
use sqlite_items::Items;
use std::alloc::Global;
use std::test::Fail;

const PLACE: Place = Place { line: 1, col: 1 };

const SITE: Site = Site {
    at: PLACE,
    first: PLACE,
    second: PLACE,
    class: 0,
    kinds: (false, false),
    fields: (0, 0),
};

// A form with one symbol.
fn symbol(alloc: Global, number: u32) -> Result<Form, Fail> {
    let mut terms = Vec::new(alloc);
    terms.push((number, 1))?;
    Ok(Form::of(terms, 0).ok_or("no form")?)
}

// The qualifiers `.word <= 0`, `.word <= 1` and so on, so many of them.
fn qualifiers(alloc: Global, count: u32) -> Result<Quals, Fail> {
    let mut text = Vec::new(alloc);
    for most in 0..count {
        let line = format!(in alloc; ".word <= {most}\n")?;
        text.extend_from_slice(line.as_bytes())?;
    }
    Ok(read_quals(alloc, &text)?)
}

// A record with one field, and a condition without goals: so many divisions, and the rows of the record.
fn conditions(alloc: Global, divisions: u32) -> Result<Conditions, Fail> {
    let mut names = Items::new(alloc);
    names.push(Named {
        text: Name::from_slice(alloc, b".word")?,
        part: NamePart::Value,
        changed: false,
    })?;
    let mut templates = Items::new(alloc);
    templates.push(Template {
        kind: TemplateKind::Rec { class: 1 },
        names,
    })?;
    let mut facts = Chain::new(alloc);
    for quotient in 0..divisions {
        facts.push(Given::Fixed(Item::Division {
            quotient,
            dividend: symbol(alloc, 1000)?,
            divisor: Divisor::of(2).ok_or("no divisor")?,
        }))?;
    }
    let mut values = Items::new(alloc);
    values.push(symbol(alloc, 1001)?)?;
    facts.push(Given::Of {
        template: 1,
        values,
    })?;
    let mut list = Items::new(alloc);
    list.push(Condition {
        facts,
        goals: Items::new(alloc),
        rule: Rule::Fold,
        site: SITE,
    })?;
    Ok(Conditions { templates, list })
}

// The full assignment for so many divisions and rows.
fn found(
    alloc: Global,
    divisions: u32,
    rows: u32,
) -> Result<Result<Assign, ConditionsFault>, Fail> {
    let quals = qualifiers(alloc, rows)?;
    Ok(full(alloc, &conditions(alloc, divisions)?, &quals))
}

// Whether a limit is told.
fn tells(outcome: &Result<Assign, ConditionsFault>, limit: Limit) -> bool {
    matches!(outcome, Err(ConditionsFault::Limit(told)) if *told == limit)
}

// 170 divisions and two rows, and 85 divisions and 256 rows, are 512 and 511 facts.
#[test]
fn gives_all_rows(rt: HostRuntime) -> Result<(), Fail> {
    for (divisions, count) in [(170, 2), (85, 256)] {
        let Ok(assign) = found(rt.alloc(), divisions, count)? else {
            return Err("no assignment")?;
        };
        let rows = assign.rows.get(0).ok_or("no rows")?;
        assert!(rt; assign.rows.len() == 1 && rows.len() == count as usize);
    }
    Ok(())
}

// 171 divisions are told as 513 facts, and more than 256 rows before them.
#[test]
fn tells_limits(rt: HostRuntime) -> Result<(), Fail> {
    let facts = Limit {
        which: 17,
        found: 513,
        allowed: 512,
    };
    let instances = Limit {
        which: 15,
        found: 257,
        allowed: 256,
    };
    assert!(rt; tells(&found(rt.alloc(), 171, 0)?, facts));
    assert!(rt; tells(&found(rt.alloc(), 170, 3)?, facts));
    assert!(rt; tells(&found(rt.alloc(), 171, 300)?, instances));
    Ok(())
}
