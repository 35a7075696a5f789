//! What scopes are asked about accesses (docs/CHECKING.md, "Statements").

ghost use Rattle.std.specs.Prelude.{◌≡◌, [], ◌∷◌, count_by, length, IfOk, OnOk};
ghost use Rattle.lq_templates.specs.Accesses as accesses;
ghost use Rattle.lq_templates.specs.Conditions.{asks};
ghost use Rattle.lq_templates.specs.declared.condition.Rule.TheVariants.{Effect as EffectRule};
ghost use Rattle.lq_tally.specs.Tally.{tallied};
ghost use Rattle.lq_effects.specs.Effects as spec;
ghost use Rattle.lq_effects.specs.Counted.{counted, effects_for, all_effects_for};

use crate::{Effect, EffectTable};
use lq_chain::Chain;
use lq_linear::Form;
use lq_symbolic::{Start, SymState, copy_form, symbol};
use lq_tally::Tally;
use lq_templates::{Access, Given, Rule, Site};
use sqlite_items::Items;
use std::alloc::{AllocError, Global};

// Whether two accesses are the same.
fn same_access(a: Access, b: Access) -> bool
    ensures { result ≡ accesses.same_access a b }
{
    a.class == b.class && (a.field == b.field && a.write == b.write)
}

/// The rows of an effect template at an element and the values of its scope's names.
pub fn effect_rows(
    alloc: Global,
    effect: Effect,
    element: &Form,
    values: &[Form],
) -> Result<Given, AllocError>
    ensures { IfOk result (λ rows. rows ≡ spec.effect_rows effect element.now values.now) }
{
    let mut forms = Items::new(alloc);
    forms.push(copy_form(alloc, element)?)?;
    for value in values {
        forms.push(copy_form(alloc, value)?)?;
    }
    Ok(Given::Of {
        template: effect.number,
        values: forms,
    })
}

// A scope is asked for the rows of an effect that stands for the access.
fn ask_effect(
    alloc: Global,
    site: Site,
    facts: &Chain<Given>,
    effect: Effect,
    element: &Form,
    start: &Start,
    out: &mut Tally,
) -> Result<(), AllocError>
    ensures { OnOk result (out.new ≡ tallied
        (asks EffectRule site facts.now (spec.effect_rows effect element.now start.now.values) ∷ []) out.old) }
{
    if out.is_full() {
        return out.count_more(1);
    }
    let rows = effect_rows(alloc, effect, element, start.values.as_slice())?;
    out.ask(alloc, Rule::Effect, site, facts, rows)
}

// A scope is asked about an access to an element.
fn ask_scope(
    alloc: Global,
    table: &EffectTable,
    site: Site,
    facts: &Chain<Given>,
    access: Access,
    element: &Form,
    start: &Start,
    out: &mut Tally,
) -> Result<(), AllocError>
    ensures { OnOk result (out.new ≡ tallied (spec.asked_of table.now site facts.now access element.now start.now) out.old) }
{
    for effect in table.effects_on(start.scope, access.class) {
        if same_access(effect.access, access) {
            ask_effect(alloc, site, facts, *effect, element, start, out)?;
        }
    }
    Ok(())
}

/// Each scope around is asked about an access to an element, innermost first, with these facts.
pub fn ask_access(
    alloc: Global,
    table: &EffectTable,
    site: Site,
    facts: &Chain<Given>,
    access: Access,
    element: &Form,
    state: &SymState,
    out: &mut Tally,
) -> Result<(), AllocError>
    ensures { OnOk result (out.new ≡ tallied (spec.asked_access table.now site facts.now access element.now state.now) out.old) }
{
    for start in state.scopes.as_slice() {
        ask_scope(alloc, table, site, facts, access, element, start, out)?;
    }
    Ok(())
}

// How many of these effects stand for an access.
fn count_among(effects: &[Effect], access: Access) -> u64
    ensures { result ≡ count_by (λ e. accesses.same_access e.access access) effects.now }
{
    effects
        .iter()
        .filter(|effect| same_access(effect.access, access))
        .count() as u64
}

// How many effects of a scope stand for an access.
fn count_for(table: &EffectTable, access: Access, scope: u32) -> u64
    ensures { result ≡ length (effects_for table.now access scope) }
{
    count_among(table.effects_on(scope, access.class), access)
}

// Counts what scopes are asked about an access.
fn count_access(
    table: &EffectTable,
    access: Access,
    scopes: &[Start],
    out: &mut Tally,
) -> Result<(), AllocError>
    ensures { OnOk result (out.new ≡ counted (length (all_effects_for table.now access scopes.now)) out.old) }
{
    for start in scopes {
        out.count_more(count_for(table, access, start.scope))?;
    }
    Ok(())
}

// Each scope around is asked about what a called function may access, on a new element, for which the rows of the
// function's effect are further facts.
fn ask_called(
    alloc: Global,
    table: &EffectTable,
    site: Site,
    values: &[Form],
    state: &SymState,
    effect: Effect,
    out: &mut Tally,
) -> Result<(), AllocError>
    ensures { OnOk result (out.new ≡ tallied (spec.asked_call table.now site values.now state.now effect) out.old) }
{
    if out.is_full() {
        return count_access(table, effect.access, state.scopes.as_slice(), out);
    }
    let element = symbol(alloc, state.next)?;
    let mut facts = state.items.copy()?;
    facts.push(effect_rows(alloc, effect, &element, values)?)?;
    ask_access(
        alloc,
        table,
        site,
        &facts,
        effect.access,
        &element,
        state,
        out,
    )
}

/// Each scope around is asked about what a called function may access. The function's scope has this number, and its
/// parameters these values.
pub fn ask_call(
    alloc: Global,
    table: &EffectTable,
    site: Site,
    scope: u32,
    values: &[Form],
    state: &SymState,
    out: &mut Tally,
) -> Result<(), AllocError>
    ensures { OnOk result (out.new ≡ tallied (spec.asked_calls table.now site scope values.now state.now) out.old) }
{
    for effect in table.effects(scope) {
        ask_called(alloc, table, site, values, state, *effect, out)?;
    }
    Ok(())
}
