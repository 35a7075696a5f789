//! Single templates.

ghost use Rattle.std.specs.Prelude.{◌≡◌, ◌^◌, ◌<◌, ◌++◌, [], ◌∷◌, length, IfOk, OnOk};
ghost use Rattle.std.specs.Option.{option_copied};
ghost use Rattle.lq_tree.specs.Lookup.{struct_of};
ghost use Rattle.lq_templates.specs.Classes.{fields_behind};
ghost use Rattle.lq_templates.specs.Names as spec;
ghost use Rattle.lq_templates.specs.Templates.{template};

use crate::names::{push_fields, push_locals, push_numbers};
use crate::{NamePart, Named, Template, TemplateKind};
use lq_tree::{Base, CType, Name, Slot, StructDef, same};
use sqlite_items::Items;
use std::alloc::{AllocError, Global};

/// The struct of a name; of two the first.
pub fn struct_among<'a>(structs: &'a [StructDef], name: &Name) -> Option<&'a StructDef>
    ensures { option_copied result ≡ struct_of structs.now name.now }
{
    structs.iter().find(|item| same(&item.name, name))
}

// Puts down the names of a record of what a pointer of this type points to.
fn push_record(
    alloc: Global,
    names: &mut Items<Named>,
    structs: &[StructDef],
    ctype: &CType,
) -> Result<(), AllocError>
    requires { 0 < ctype.now.stars }
    ensures { OnOk result (names.new ≡ names.old ++ spec.field_names (fields_behind structs.now ctype.now)) }
{
    match &ctype.base {
        Base::Struct(name) if ctype.stars == 1 => match struct_among(structs, name) {
            Some(item) => push_fields(alloc, names, item.fields.as_slice()),
            None => Ok(()),
        },
        _ => push_numbers(alloc, names, b".word", ctype.stars - 1, false),
    }
}

// The record template of a class of pointers of this type.
pub(crate) fn record_template(
    alloc: Global,
    structs: &[StructDef],
    class: u32,
    ctype: &CType,
) -> Result<Template, AllocError>
    requires { 0 < ctype.now.stars }
    ensures { IfOk result (λ t. t ≡ template (TemplateKind.Rec class) (spec.field_names (fields_behind structs.now ctype.now))) }
{
    let mut names = Items::new(alloc);
    push_record(alloc, &mut names, structs, ctype)?;
    Ok(Template {
        kind: TemplateKind::Rec { class },
        names,
    })
}

// A template whose names are those of a scope.
pub(crate) fn scope_template(
    alloc: Global,
    kind: TemplateKind,
    slots: &[Slot],
    changed: &[bool],
    in_scope: &[bool],
) -> Result<Template, AllocError>
    requires { length slots.now < 2 ^ 63 }
    ensures { IfOk result (λ t. t ≡ template kind (spec.local_names slots.now (spec.marked changed.now) (spec.marked in_scope.now))) }
{
    let mut names = Items::new(alloc);
    push_locals(alloc, &mut names, slots, changed, in_scope)?;
    Ok(Template { kind, names })
}

// A post template: the names of a scope, and what a function of this type returns.
pub(crate) fn post_template(
    alloc: Global,
    func: u32,
    slots: &[Slot],
    in_scope: &[bool],
    ctype: &CType,
) -> Result<Template, AllocError>
    requires { length slots.now < 2 ^ 63 }
    ensures { IfOk result (λ t. t ≡ template (TemplateKind.Post func)
        (spec.local_names slots.now (spec.marked []) (spec.marked in_scope.now) ++ spec.result_names ctype.now)) }
{
    let mut names = Items::new(alloc);
    push_locals(alloc, &mut names, slots, &[], in_scope)?;
    push_numbers(alloc, &mut names, b"result", ctype.stars, false)?;
    Ok(Template {
        kind: TemplateKind::Post { func },
        names,
    })
}

// An effect template: the element, and the names of a scope.
pub(crate) fn effect_template(
    alloc: Global,
    kind: TemplateKind,
    slots: &[Slot],
    in_scope: &[bool],
) -> Result<Template, AllocError>
    requires { length slots.now < 2 ^ 63 }
    ensures { IfOk result (λ t. t ≡ template kind
        (spec.element ∷ spec.local_names slots.now (spec.marked []) (spec.marked in_scope.now))) }
{
    let mut names = Items::new(alloc);
    names.push(Named {
        text: Name::from_slice(alloc, b"@")?,
        part: NamePart::Value,
        changed: false,
    })?;
    push_locals(alloc, &mut names, slots, &[], in_scope)?;
    Ok(Template { kind, names })
}
