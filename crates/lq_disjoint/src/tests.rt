//! Blocks and iterations that are paired.

use crate::{Beside, pairs_cobegin, pairs_foreach, pairs_of};
use lq_chain::Chain;
use lq_effects::EffectTable;
use lq_symbolic::{OpenRecords, Start, SymState, symbol};
use lq_tally::Tally;
use lq_templates::{ScopeRef, Template, TemplateKind};
use lq_tree::Place;
use sqlite_items::Items;
use std::alloc::{AllocError, Global};
use std::test::Fail;

// The place in this line.
fn line(line: u32) -> Place {
    Place { line, col: 1 }
}

// The effect template of a scope on a field of class 1.
fn template(alloc: Global, scope: u32, field: u32, write: bool) -> Template {
    let scope = ScopeRef { scope, at: line(1) };
    Template {
        kind: TemplateKind::Effect {
            scope,
            class: 1,
            field,
            write,
        },
        names: Items::new(alloc),
    }
}

// Scope 1 reads and writes field 0, scope 2 reads field 0 and writes field 1, and scope 3 reads both.
fn templates(alloc: Global) -> Result<Items<Template>, AllocError> {
    let mut templates = Items::new(alloc);
    templates.push(template(alloc, 1, 0, false))?;
    templates.push(template(alloc, 1, 0, true))?;
    templates.push(template(alloc, 2, 0, false))?;
    templates.push(template(alloc, 2, 1, true))?;
    templates.push(template(alloc, 3, 0, false))?;
    templates.push(template(alloc, 3, 1, false))?;
    Ok(templates)
}

// A branch with this scope, in the line of its number.
fn branch(alloc: Global, scope: u32) -> Beside {
    Beside {
        place: line(scope),
        start: Start {
            scope,
            values: Items::new(alloc),
        },
    }
}

#[test]
fn blocks_meet_where_one_writes(rt: HostRuntime) -> Result<(), Fail> {
    let alloc = rt.alloc();
    let templates = templates(alloc)?;
    let table = EffectTable::of(alloc, templates.as_slice())?;
    let facts = Chain::new(alloc);
    let element = symbol(alloc, 0)?;
    let mut blocks = Items::new(alloc);
    for scope in [1, 2, 3] {
        blocks.push(branch(alloc, scope))?;
    }
    let mut out = Tally::new(alloc);
    pairs_cobegin(
        alloc,
        &table,
        line(9),
        &facts,
        &element,
        blocks.as_slice(),
        &mut out,
    )?;
    // The write of the first with the read and the write of the second and the read of the third, and the write of the
    // second with a read of the third.
    assert!(rt; out.count == 4);
    let first = out.kept.get(0).ok_or("no pair")?;
    assert!(rt; first.site.first.line == 1 && first.site.second.line == 2);
    assert!(rt; first.site.kinds == (true, false) && first.facts.len() == 2);
    let last = out.kept.get(3).ok_or("no pair")?;
    assert!(rt; last.site.first.line == 2 && last.site.fields == (1, 1));
    Ok(())
}

#[test]
fn iterations_are_apart(rt: HostRuntime) -> Result<(), Fail> {
    let alloc = rt.alloc();
    let templates = templates(alloc)?;
    let table = EffectTable::of(alloc, templates.as_slice())?;
    let state = SymState {
        slots: Items::new(alloc),
        items: Chain::new(alloc),
        opened: OpenRecords::new(alloc),
        scopes: Items::new(alloc),
        next: 2,
    };
    let low = symbol(alloc, 0)?;
    let high = symbol(alloc, 1)?;
    let body = branch(alloc, 2);
    let mut out = Tally::new(alloc);
    pairs_foreach(
        alloc,
        &table,
        line(9),
        &state,
        &low,
        &high,
        1,
        &body,
        &body,
        &mut out,
    )?;
    assert!(rt; out.count == 1);
    let pair = out.kept.get(0).ok_or("no pair")?;
    // Three rows on the indices, and the rows of each iteration.
    assert!(rt; pair.facts.len() == 5);
    pairs_of(
        alloc,
        &table,
        line(9),
        &state.items,
        &low,
        &branch(alloc, 3),
        &body,
        &mut out,
    )?;
    assert!(rt; out.count == 2);
    Ok(())
}
