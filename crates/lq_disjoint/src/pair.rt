//! Pairs of effects of two branches.

ghost use Rattle.std.specs.Prelude.{◌≡◌, ◌∷◌, [], IfOk, OnOk};
ghost use Rattle.lq_templates.specs.Conditions as conditions;
ghost use Rattle.lq_tally.specs.Tally.{tallied};
ghost use Rattle.lq_disjoint.specs.Pairs as spec;

use crate::Beside;
use lq_chain::Chain;
use lq_effects::{Effect, effect_rows};
use lq_linear::{Form, Item, Row};
use lq_tally::Tally;
use lq_templates::{Access, Given, Rule, Site};
use lq_tree::Place;
use std::alloc::{AllocError, Global};

// What the pairs of two branches have in common: the statement, the facts, the element, and the branches.
#[derive(Drop)]
pub(crate) struct Meeting<'a> {
    pub(crate) at: Place,
    pub(crate) facts: &'a Chain<Given>,
    pub(crate) element: &'a Form,
    pub(crate) first: &'a Beside,
    pub(crate) second: &'a Beside,
}

// Whether two accesses may not meet.
pub(crate) fn clash(a: Access, b: Access) -> bool
    ensures { result ≡ spec.clash a b }
{
    a.class == b.class && ((a.write && b.write) || (a.field == b.field && (a.write || b.write)))
}

// Where a pair is asked.
fn pair_site(at: Place, first: Place, second: Place, a: Access, b: Access) -> Site
    ensures { result ≡ spec.pair_site at first second a b }
{
    Site {
        at,
        first,
        second,
        class: a.class,
        kinds: (a.write, b.write),
        fields: (a.field, b.field),
    }
}

// The goal that no facts meet unless they contradict each other.
fn absurdity(alloc: Global) -> Result<Given, AllocError>
    ensures { IfOk result (λ goal. goal ≡ conditions.absurdity) }
{
    let form = Form::of(Vec::new(alloc), 0).ok_or(AllocError)?;
    let row = Row::of(form, -1).ok_or(AllocError)?;
    Ok(Given::Fixed(Item::Holds(row)))
}

// Asks that two effects have no element in common.
pub(crate) fn ask_pair(
    alloc: Global,
    meeting: &Meeting,
    a: Effect,
    b: Effect,
    out: &mut Tally,
) -> Result<(), AllocError>
    ensures { OnOk result (out.new ≡ tallied (spec.asked_pair meeting.now.at meeting.now.facts.now meeting.now.element.now
        meeting.now.first.now meeting.now.second.now a b ∷ []) out.old) }
{
    if out.is_full() {
        return out.count_more(1);
    }
    let Meeting {
        at,
        facts,
        element,
        first,
        second,
    } = meeting;
    let mut known = facts.copy()?;
    known.push(effect_rows(alloc, a, element, first.start.values.as_slice())?)?;
    known.push(effect_rows(alloc, b, element, second.start.values.as_slice())?)?;
    let site = pair_site(*at, first.place, second.place, a.access, b.access);
    out.ask(alloc, Rule::Pair, site, &known, absurdity(alloc)?)
}
