//! The numbers of pre and post templates, and how many effect templates scopes have.

ghost use Rattle.std.specs.Prelude.{◌≡◌, ℕ, ◌+◌, ◌==◌, if◌then◌else◌, slice_index, IfOk, OnOk};
ghost use Rattle.lq_ground.specs.Ground.{is_pre, is_post};
ghost use Rattle.lq_ground.specs.Noted.{noted as noted_at};
ghost use Rattle.lq_ground.specs.Numbers as spec;

use crate::noted::{Table, note};
use crate::scopes::next;
use lq_linear::Form;
use lq_templates::{Given, Template, TemplateKind};
use sqlite_items::Items;
use std::alloc::{AllocError, Global};

// The function of whose entry a template is.
fn pre_of(kind: TemplateKind) -> Option<u32>
    ensures { result ≡ spec.pre_of kind }
{
    match kind {
        TemplateKind::Pre { func } => Some(func),
        _ => None,
    }
}

// The function of whose returns a template is.
fn post_of(kind: TemplateKind) -> Option<u32>
    ensures { result ≡ spec.post_of kind }
{
    match kind {
        TemplateKind::Post { func } => Some(func),
        _ => None,
    }
}

// The scope of whose accesses a template is.
fn effect_of(kind: TemplateKind) -> Option<u32>
    ensures { result ≡ spec.effect_of kind }
{
    match kind {
        TemplateKind::Effect { scope, .. } => Some(scope.scope),
        _ => None,
    }
}

// Notes the number of a template for a function, if there is one.
fn note_for(table: &mut Table, func: Option<u32>, number: u32) -> Result<(), AllocError>
    ensures { OnOk result ((place : ℕ) → noted_at table.new place ≡ spec.noted_too (noted_at table.old place) func number place) }
{
    match func {
        Some(func) => note(table, func, number),
        None => Ok(()),
    }
}

// The number of the pre template of each function that has one.
pub(crate) fn pre_numbers(alloc: Global, templates: &[Template]) -> Result<Table, AllocError>
    ensures { IfOk result (λ table. (func : ℕ) → noted_at table func ≡ spec.first_where (is_pre func) 1 templates.now) }
{
    let mut table = Items::new(alloc);
    let mut number = 1;
    for template in templates {
        note_for(&mut table, pre_of(template.kind), number)?;
        number = next(number)?;
    }
    Ok(table)
}

// The number of the post template of each function that has one.
pub(crate) fn post_numbers(alloc: Global, templates: &[Template]) -> Result<Table, AllocError>
    ensures { IfOk result (λ table. (func : ℕ) → noted_at table func ≡ spec.first_where (is_post func) 1 templates.now) }
{
    let mut table = Items::new(alloc);
    let mut number = 1;
    for template in templates {
        note_for(&mut table, post_of(template.kind), number)?;
        number = next(number)?;
    }
    Ok(table)
}

// Counts one more at a place.
fn count_one(counts: &mut Items<u32>, at: u32) -> Result<(), AllocError>
    ensures { OnOk result ((place : ℕ) → slice_index counts.new place ≡ slice_index counts.old place + (if at == place then 1 else 0)) }
{
    let at = at as usize;
    while counts.len() <= at {
        counts.push(0)?;
    }
    let so_far = counts.get(at).copied().unwrap_or(0);
    counts.set(at, next(so_far)?);
    Ok(())
}

// How many effect templates each scope has.
pub(crate) fn effect_counts(alloc: Global, templates: &[Template]) -> Result<Items<u32>, AllocError>
    ensures { IfOk result (λ counts. (scope : ℕ) → slice_index counts scope ≡ spec.count_effects scope templates.now) }
{
    let mut counts = Items::new(alloc);
    for template in templates {
        if let Some(scope) = effect_of(template.kind) {
            count_one(&mut counts, scope)?;
        }
    }
    Ok(counts)
}

// The rows at these values of the template with this number, if there is one.
pub(crate) fn rows_of(
    alloc: Global,
    number: Option<u32>,
    values: Items<Form>,
) -> Result<Items<Given>, AllocError>
    ensures { IfOk result (λ rows. rows ≡ spec.rows_of number values) }
{
    let mut rows = Items::new(alloc);
    if let Some(template) = number {
        rows.push(Given::Of { template, values })?;
    }
    Ok(rows)
}
