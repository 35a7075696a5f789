//! Scopes that are asked, and scopes without effects.

use crate::{EffectTable, ask_access, ask_call};
use lq_chain::Chain;
use lq_linear::Form;
use lq_symbolic::{OpenRecords, Start, SymState, symbol};
use lq_tally::Tally;
use lq_templates::{Access, Condition, Given, ScopeRef, Site, Template, TemplateKind};
use lq_tree::Place;
use sqlite_items::Items;
use std::alloc::{AllocError, Global};
use std::test::Fail;

// Where everything stands.
fn place() -> Place {
    Place { line: 1, col: 1 }
}

// Where everything is asked.
fn site() -> Site {
    Site {
        at: place(),
        first: place(),
        second: place(),
        class: 0,
        kinds: (false, false),
        fields: (0, 0),
    }
}

// The effect template of a scope on the first field of a class.
fn template(alloc: Global, scope: u32, class: u32, write: bool) -> Template {
    let scope = ScopeRef { scope, at: place() };
    Template {
        kind: TemplateKind::Effect {
            scope,
            class,
            field: 0,
            write,
        },
        names: Items::new(alloc),
    }
}

// Scope 0 reads and writes class 1, and scope 1 writes it and reads class 2.
fn templates(alloc: Global) -> Result<Items<Template>, AllocError> {
    let mut templates = Items::new(alloc);
    templates.push(template(alloc, 0, 1, false))?;
    templates.push(template(alloc, 0, 1, true))?;
    templates.push(template(alloc, 1, 1, true))?;
    templates.push(template(alloc, 1, 2, false))?;
    Ok(templates)
}

// A state in scope 1, which is inside scope 0.
fn inside(alloc: Global) -> Result<SymState, AllocError> {
    let mut scopes = Items::new(alloc);
    for scope in [1, 0] {
        scopes.push(Start {
            scope,
            values: Items::new(alloc),
        })?;
    }
    Ok(SymState {
        slots: Items::new(alloc),
        items: Chain::new(alloc),
        opened: OpenRecords::new(alloc),
        scopes,
        next: 7,
    })
}

// The number of the template whose rows are the goal of the condition with this number, from 0.
fn asked_for(out: &Tally, number: usize) -> Option<u32> {
    match goal(out.kept.get(number)?)? {
        Given::Of { template, .. } => Some(*template),
        Given::Fixed(_) => None,
    }
}

// The goal of a condition.
fn goal(condition: &Condition) -> Option<&Given> {
    condition.goals.get(0)
}

#[test]
fn each_scope_around_is_asked(rt: HostRuntime) -> Result<(), Fail> {
    let alloc = rt.alloc();
    let templates = templates(alloc)?;
    let table = EffectTable::of(alloc, templates.as_slice())?;
    assert!(rt; table.effects(0).len() == 2 && table.effects_on(1, 2).len() == 1);
    assert!(rt; table.effects(2).is_empty() && table.effects_on(0, 2).is_empty());
    let state = inside(alloc)?;
    let mut out = Tally::new(alloc);
    let access = Access {
        class: 1,
        field: 0,
        write: true,
    };
    let element = symbol(alloc, 3)?;
    ask_access(
        alloc,
        &table,
        site(),
        &state.items,
        access,
        &element,
        &state,
        &mut out,
    )?;
    assert!(rt; out.count == 2 && asked_for(&out, 0) == Some(3) && asked_for(&out, 1) == Some(2));
    Ok(())
}

#[test]
fn calls_ask_for_what_is_called(rt: HostRuntime) -> Result<(), Fail> {
    let alloc = rt.alloc();
    let templates = templates(alloc)?;
    let table = EffectTable::of(alloc, templates.as_slice())?;
    let state = inside(alloc)?;
    let mut out = Tally::new(alloc);
    let values: Items<Form> = Items::new(alloc);
    // The read of scope 0 has no template in scope 1, and scope 5 is none.
    ask_call(
        alloc,
        &table,
        site(),
        0,
        values.as_slice(),
        &state,
        &mut out,
    )?;
    ask_call(
        alloc,
        &table,
        site(),
        5,
        values.as_slice(),
        &state,
        &mut out,
    )?;
    assert!(rt; out.count == 3 && asked_for(&out, 0) == Some(1) && asked_for(&out, 1) == Some(3));
    let facts = out.kept.get(0).ok_or("no condition")?.facts.len();
    assert!(rt; facts == 1);
    Ok(())
}
