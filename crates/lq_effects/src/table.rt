//! The effects of a program, found by their scope.

ghost use Rattle.std.specs.Prelude.{◌≡◌, ℕ, ◌+◌, nat_eq, if◌then◌else◌, [], ◌∷◌, ◌++◌, filter, IfOk, OnOk};
ghost use Rattle.lq_effects.specs.Effects.{effect_at, effects_of};
ghost use Rattle.lq_effects.specs.Table as spec;

use crate::Effect;
use lq_templates::{Access, Template, TemplateKind};
use sqlite_items::Items;
use std::alloc::{AllocError, Global};
use std::cmp::Eq;
use std::collections::HashMap;
use std::hash::Hash;
use std::marker::Model;

// Effects by a key.
type Lists<K> = HashMap<K, Items<Effect>>;

/// The effect templates of a program by their scope. Contracts see the list of all templates.
#[derive(Drop)]
pub struct EffectTable<'a> {
    templates: &'a [Template],
    by_scope: HashMap<u32, Items<Effect>>,
    by_class: HashMap<(u32, u32), Items<Effect>>,
}

impl<'a> Model for EffectTable<'a> {
    ghost use Rattle.std.specs.Prelude.{List};
    ghost use Rattle.lq_templates.specs.declared.template.Template.{Template};
    ghost use Rattle.lq_effects.specs.Table.{AreListed};

    ghost Value = { List Template };

    ghost view = { λ t. t.templates.now };

    ghost invariant = { λ t. AreListed t.templates.now t.by_scope t.by_class };
}

// Lists an effect under a key, behind those that are there.
fn put<K: Eq + Hash + Copy + Drop>(
    alloc: Global,
    lists: &mut Lists<K>,
    key: K,
    effect: Effect,
) -> Result<(), AllocError>
    ensures { OnOk result ((other : K) → spec.listed K.eq lists.new other
        ≡ (if K.eq key other then spec.listed K.eq lists.old key ++ effect ∷ [] else spec.listed K.eq lists.old other)) }
{
    let mut list = lists.remove(&key).unwrap_or(Items::new(alloc));
    list.push(effect)?;
    lists.insert(key, list)?;
    Ok(())
}

// Lists the template with this number, if it is one of an effect.
fn put_template(
    alloc: Global,
    number: u32,
    kind: TemplateKind,
    by_scope: &mut Lists<u32>,
    by_class: &mut Lists<(u32, u32)>,
) -> Result<(), AllocError>
    ensures scopes { OnOk result ((scope : ℕ) → spec.listed nat_eq by_scope.new scope
        ≡ spec.listed nat_eq by_scope.old scope ++ effect_at scope number kind) }
    ensures classes { OnOk result ((scope class : ℕ) → spec.listed spec.same_key by_class.new (scope, class)
        ≡ spec.listed spec.same_key by_class.old (scope, class) ++ filter (spec.is_on class) (effect_at scope number kind)) }
{
    if let TemplateKind::Effect {
        scope,
        class,
        field,
        write,
    } = kind
    {
        let access = Access {
            class,
            field,
            write,
        };
        let effect = Effect { number, access };
        put(alloc, by_scope, scope.scope, effect)?;
        put(alloc, by_class, (scope.scope, class), effect)?;
    }
    Ok(())
}

// The number behind this one. Where it doesn't fit there is no room for so many templates.
fn next_number(number: u32) -> Result<u32, AllocError>
    ensures { IfOk result (λ next. next ≡ number + 1) }
{
    number.checked_add(1).ok_or(AllocError)
}

impl<'a> EffectTable<'a> {
    /// The table of a program's templates. Want of memory is the only error, also where there are 2^32 - 1 templates.
    pub fn of(alloc: Global, templates: &'a [Template]) -> Result<EffectTable<'a>, AllocError>
        ensures { IfOk result (λ table. table ≡ templates.now) }
    {
        let mut by_scope = HashMap::new(alloc);
        let mut by_class = HashMap::new(alloc);
        let mut number = 1;
        for template in templates {
            put_template(alloc, number, template.kind, &mut by_scope, &mut by_class)?;
            number = next_number(number)?;
        }
        Ok(EffectTable {
            templates,
            by_scope,
            by_class,
        })
    }

    /// The effects of a scope, in the order of their numbers; none where there is no such scope.
    pub fn effects(&self, scope: u32) -> &[Effect]
        ensures { result.now ≡ effects_of self.now scope }
    {
        match self.by_scope.get(&scope) {
            Some(effects) => effects.as_slice(),
            None => &[],
        }
    }

    /// Those on a class.
    pub fn effects_on(&self, scope: u32, class: u32) -> &[Effect]
        ensures { result.now ≡ spec.effects_on self.now scope class }
    {
        match self.by_class.get(&(scope, class)) {
            Some(effects) => effects.as_slice(),
            None => &[],
        }
    }
}
