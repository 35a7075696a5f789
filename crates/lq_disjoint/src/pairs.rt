//! What is asked of each two branches of a parallel statement (docs/CHECKING.md, "Pairs").

ghost use Rattle.std.specs.Prelude.{◌≡◌, pos, count_by, length, map, OnOk, IfOk};
ghost use Rattle.std.specs.List.{flat_map};
ghost use Rattle.lq_linear.specs.Collect.{symbol as symbol_of};
ghost use Rattle.lq_linear.specs.Sides.{plus};
ghost use Rattle.lq_tally.specs.Tally.{tallied};
ghost use Rattle.lq_effects.specs.Counted.{counted};
ghost use Rattle.lq_effects.specs.Effects.{effects_of};
ghost use Rattle.lq_disjoint.specs.Pairs as spec;

use crate::Beside;
use crate::pair::{Meeting, ask_pair, clash};
use lq_chain::Chain;
use lq_effects::{Effect, EffectTable};
use lq_linear::Form;
use lq_symbolic::{SymState, symbol};
use lq_tally::Tally;
use lq_templates::Given;
use lq_tree::Place;
use std::alloc::{AllocError, Global};

// Asks the pairs of an effect of the first branch with those of the second. Only effects on its class may clash with it.
fn ask_against(
    alloc: Global,
    table: &EffectTable,
    meeting: &Meeting,
    a: Effect,
    out: &mut Tally,
) -> Result<(), AllocError>
    ensures { OnOk result (out.new ≡ tallied (map
        (spec.asked_pair meeting.now.at meeting.now.facts.now meeting.now.element.now meeting.now.first.now meeting.now.second.now a)
        (spec.clashing table.now meeting.now.second.now.start.scope a)) out.old) }
{
    for b in table.effects_on(meeting.second.start.scope, a.access.class) {
        if clash(a.access, b.access) {
            ask_pair(alloc, meeting, a, *b, out)?;
        }
    }
    Ok(())
}

// How many of these effects clash with this one.
fn count_among(effects: &[Effect], a: Effect) -> u64
    ensures { result ≡ count_by (λ b. spec.clash a.access b.access) effects.now }
{
    effects.iter().filter(|b| clash(a.access, b.access)).count() as u64
}

// How many effects of a scope clash with this one.
fn count_against(table: &EffectTable, scope: u32, a: Effect) -> u64
    ensures { result ≡ length (spec.clashing table.now scope a) }
{
    count_among(table.effects_on(scope, a.access.class), a)
}

// Counts the pairs of the effects of two scopes.
fn count_pairs(
    table: &EffectTable,
    first: u32,
    second: u32,
    out: &mut Tally,
) -> Result<(), AllocError>
    ensures { OnOk result (out.new
        ≡ counted (length (flat_map (spec.clashing table.now second) (effects_of table.now first))) out.old) }
{
    for a in table.effects(first) {
        out.count_more(count_against(table, second, *a))?;
    }
    Ok(())
}

/// Asks that no element is in effects of both branches that may not meet.
pub fn pairs_of(
    alloc: Global,
    table: &EffectTable,
    at: Place,
    facts: &Chain<Given>,
    element: &Form,
    first: &Beside,
    second: &Beside,
    out: &mut Tally,
) -> Result<(), AllocError>
    ensures { OnOk result (out.new ≡ tallied (spec.asked_pairs table.now at facts.now element.now first.now second.now) out.old) }
{
    if out.is_full() {
        return count_pairs(table, first.start.scope, second.start.scope, out);
    }
    let meeting = Meeting {
        at,
        facts,
        element,
        first,
        second,
    };
    for a in table.effects(first.start.scope) {
        ask_against(alloc, table, &meeting, *a, out)?;
    }
    Ok(())
}

// Asks the pairs of a block with each of the later ones.
fn pairs_with(
    alloc: Global,
    table: &EffectTable,
    at: Place,
    facts: &Chain<Given>,
    element: &Form,
    first: &Beside,
    later: &[Beside],
    out: &mut Tally,
) -> Result<(), AllocError>
    ensures { OnOk result (out.new
        ≡ tallied (flat_map (spec.asked_pairs table.now at facts.now element.now first.now) later.now) out.old) }
{
    for second in later {
        pairs_of(alloc, table, at, facts, element, first, second, out)?;
    }
    Ok(())
}

/// Asks the pairs of each two blocks of a `cobegin`: the first with the second, the first with the third and so on.
pub fn pairs_cobegin(
    alloc: Global,
    table: &EffectTable,
    at: Place,
    facts: &Chain<Given>,
    element: &Form,
    branches: &[Beside],
    out: &mut Tally,
) -> Result<(), AllocError>
    ensures { OnOk result (out.new ≡ tallied (spec.asked_cobegin table.now at facts.now element.now branches.now) out.old) }
{
    let mut rest = branches;
    while let Some((first, later)) = rest.split_first() {
        pairs_with(alloc, table, at, facts, element, first, later, out)?;
        rest = later;
    }
    Ok(())
}

// The form that is so much more than a symbol.
fn symbol_plus(alloc: Global, symbol: u32, more: u32) -> Result<Form, AllocError>
    ensures { IfOk result (λ form. form ≡ plus (symbol_of symbol) (pos more)) }
{
    let mut terms = Vec::new(alloc);
    terms.push((symbol, 1))?;
    Form::of(terms, i64::from(more)).ok_or(AllocError)
}

/// Asks the pairs of each two iterations of a `foreach`, the first of them earlier: their indices are the next two symbols
/// of the state, and both lie between the ends. Where the numbers of symbols would pass 2^32 - 1, the answer is want of
/// memory.
pub fn pairs_foreach(
    alloc: Global,
    table: &EffectTable,
    at: Place,
    state: &SymState,
    low: &Form,
    high: &Form,
    step: u32,
    first: &Beside,
    second: &Beside,
    out: &mut Tally,
) -> Result<(), AllocError>
    ensures { OnOk result (out.new
        ≡ tallied (spec.asked_iterations table.now at low.now high.now (pos step) state.now first.now second.now) out.old) }
{
    let last = state.next.checked_add(2).ok_or(AllocError)?;
    let earlier = symbol(alloc, state.next)?;
    let later = symbol(alloc, state.next + 1)?;
    let least = symbol_plus(alloc, state.next, step)?;
    let element = symbol(alloc, last)?;
    let mut fork = state.copy(alloc)?;
    fork.learn_at_most(alloc, low, &earlier)?;
    fork.learn_at_most(alloc, &least, &later)?;
    fork.learn_below(alloc, &later, high)?;
    pairs_of(alloc, table, at, &fork.items, &element, first, second, out)
}
