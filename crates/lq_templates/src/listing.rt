//! The list of a program's templates.

ghost use Rattle.std.specs.Prelude.{◌≡◌, ◌+◌, ◌^◌, ◌<◌, ◌++◌, [], ◌∷◌, length, IfOk, OnOk};
ghost use Rattle.std.specs.List.{range_with_len};
ghost use Rattle.lq_tree.specs.Formed.{IsFormed};
ghost use Rattle.lq_tree.specs.PlainScopes.{is_among};
ghost use Rattle.lq_templates.specs.Classes.{class_in};
ghost use Rattle.lq_templates.specs.Listing as spec;
ghost use Rattle.lq_templates.specs.Names.{marked, local_names};
ghost use Rattle.lq_templates.specs.Templates as templates_spec;
ghost use Rattle.lq_templates.specs.Templates.{AreTemplates};
ghost use Rattle.lq_templates.specs.Touches as touches;

use crate::firsts::{Firsts, firsts_of};
use crate::made::{effect_template, post_template, scope_template};
use crate::makers::{Makers, all_makers, touches_make};
use crate::reading::{Point, marks_of, points_of};
use crate::touches::{Touch, put_statements};
use crate::{Access, ScopeRef, Template, TemplateKind};
use lq_classes::ClassMap;
use lq_tree::{PFunc, PProgram, Place, Slot};
use sqlite_items::Items;
use std::alloc::{AllocError, Global};

// The templates so far, and how many scopes have come.
#[derive(Drop)]
pub(crate) struct Listing {
    scopes: u32,
    templates: Items<Template>,
}

// The kind of the template of an access in a scope.
fn effect_of(scope: ScopeRef, access: Access) -> TemplateKind
    ensures { result ≡ templates_spec.effect_of scope access }
{
    TemplateKind::Effect {
        scope,
        class: access.class,
        field: access.field,
        write: access.write,
    }
}

// Lists the effect templates of a scope in which this is done.
fn put_effects(
    alloc: Global,
    slots: &[Slot],
    scope: ScopeRef,
    done: &[Touch],
    in_scope: &[bool],
    makers: &[Makers],
    templates: &mut Items<Template>,
) -> Result<(), AllocError>
    requires { length slots.now < 2 ^ 63 }
    ensures { OnOk result (templates.new ≡ templates.old ++ spec.effects slots.now scope done.now (marked in_scope.now) makers.now) }
{
    for each in makers {
        if touches_make(done, each.access, each.functions.as_slice()) {
            let kind = effect_of(scope, each.access);
            templates.push(effect_template(alloc, kind, slots, in_scope)?)?;
        }
    }
    Ok(())
}

// The number of the next scope. Where it doesn't fit there is no room for so many scopes.
fn next_scope(scopes: u32) -> Result<u32, AllocError>
    ensures { IfOk result (λ next. next ≡ scopes + 1) }
{
    scopes.checked_add(1).ok_or(AllocError)
}

// Lists a scope.
fn put_scope(
    alloc: Global,
    slots: &[Slot],
    makers: &[Makers],
    at: Place,
    done: &[Touch],
    scope: &[u32],
    listing: &mut Listing,
) -> Result<(), AllocError>
    requires { length slots.now < 2 ^ 63 }
    ensures { OnOk result (listing.new ≡ spec.with_scope slots.now makers.now at done.now scope.now listing.old) }
{
    let in_scope = marks_of(alloc, scope)?;
    let number = ScopeRef {
        scope: listing.scopes,
        at,
    };
    let templates = &mut listing.templates;
    put_effects(
        alloc,
        slots,
        number,
        done,
        in_scope.as_slice(),
        makers,
        templates,
    )?;
    listing.scopes = next_scope(listing.scopes)?;
    Ok(())
}

// Lists a join or loop template.
fn put_changed(
    alloc: Global,
    kind: TemplateKind,
    slots: &[Slot],
    changed: &[u32],
    scope: &[u32],
    listing: &mut Listing,
) -> Result<(), AllocError>
    requires { length slots.now < 2 ^ 63 }
    ensures { OnOk result (listing.new ≡ spec.with_templates (templates_spec.template kind (local_names slots.now (is_among changed.now) (is_among scope.now)) ∷ []) listing.old) }
{
    let changed = marks_of(alloc, changed)?;
    let in_scope = marks_of(alloc, scope)?;
    let changed = changed.as_slice();
    let template = scope_template(alloc, kind, slots, changed, in_scope.as_slice())?;
    listing.templates.push(template)
}

// Lists the templates of a point.
fn put_point(
    alloc: Global,
    slots: &[Slot],
    makers: &[Makers],
    point: &Point,
    listing: &mut Listing,
) -> Result<(), AllocError>
    requires { length slots.now < 2 ^ 63 }
    ensures { OnOk result (listing.new ≡ spec.with_point slots.now makers.now point.now listing.old) }
{
    match point {
        Point::Join(changed, scope) => {
            let scope = scope.as_slice();
            put_changed(
                alloc,
                TemplateKind::Join,
                slots,
                changed.as_slice(),
                scope,
                listing,
            )
        }
        Point::Loop(changed, scope) => {
            let scope = scope.as_slice();
            put_changed(
                alloc,
                TemplateKind::Loop,
                slots,
                changed.as_slice(),
                scope,
                listing,
            )
        }
        Point::Inner(at, done, scope) => {
            let scope = scope.as_slice();
            put_scope(alloc, slots, makers, *at, done.as_slice(), scope, listing)
        }
    }
}

// Lists the templates of points.
fn put_points(
    alloc: Global,
    slots: &[Slot],
    makers: &[Makers],
    points: &[Point],
    listing: &mut Listing,
) -> Result<(), AllocError>
    requires { length slots.now < 2 ^ 63 }
    ensures { OnOk result (listing.new ≡ spec.with_points slots.now makers.now points.now listing.old) }
{
    for point in points {
        put_point(alloc, slots, makers, point, listing)?;
    }
    Ok(())
}

// The slots of parameters, so many.
fn params_of(alloc: Global, count: u32) -> Result<Items<u32>, AllocError>
    ensures { IfOk result (λ slots. slots ≡ range_with_len 0 count) }
{
    let mut slots = Items::new(alloc);
    for slot in 0..count {
        slots.push(slot)?;
    }
    Ok(slots)
}

// Lists the pre and the post template of a function, which `main` has none of.
fn put_borders(
    alloc: Global,
    program: &PProgram,
    classes: &ClassMap,
    func: u32,
    function: &PFunc,
    params: &[u32],
    listing: &mut Listing,
) -> Result<(), AllocError>
    requires few { length function.now.slots < 2 ^ 63 }
    requires params { params.now ≡ range_with_len 0 function.now.params }
    ensures { OnOk result (listing.new ≡ spec.with_templates (spec.borders program.now (class_in classes.now) func function.now) listing.old) }
{
    if func == program.main {
        return Ok(());
    }
    let in_scope = marks_of(alloc, params)?;
    let in_scope = in_scope.as_slice();
    let slots = function.slots.as_slice();
    let pre = scope_template(alloc, TemplateKind::Pre { func }, slots, &[], in_scope)?;
    listing.templates.push(pre)?;
    if let Some(ctype) = &function.result {
        let post = post_template(alloc, func, slots, in_scope, ctype)?;
        listing.templates.push(post)?;
    }
    Ok(())
}

// Lists the templates of a function.
fn put_function(
    alloc: Global,
    program: &PProgram,
    classes: &ClassMap,
    makers: &[Makers],
    func: u32,
    function: &PFunc,
    listing: &mut Listing,
) -> Result<(), AllocError>
    requires { length function.now.slots < 2 ^ 63 }
    ensures { OnOk result (listing.new ≡ spec.with_function program.now (class_in classes.now) makers.now func function.now listing.old) }
{
    let params = params_of(alloc, function.params)?;
    let params = params.as_slice();
    let slots = function.slots.as_slice();
    let body = function.body.as_slice();
    put_borders(alloc, program, classes, func, function, params, listing)?;
    let mut done = Items::new(alloc);
    put_statements(classes, func, body, &mut done)?;
    put_scope(
        alloc,
        slots,
        makers,
        function.at,
        done.as_slice(),
        params,
        listing,
    )?;
    let points = points_of(alloc, classes, func, params, body)?;
    put_points(alloc, slots, makers, points.as_slice(), listing)
}

// What each function does.
fn all_touches(
    alloc: Global,
    classes: &ClassMap,
    program: &PProgram,
) -> Result<Items<Items<Touch>>, AllocError>
    requires { IsFormed program.now }
    ensures { IfOk result (λ all. all ≡ touches.all_touches (class_in classes.now) 0 program.now.funcs) }
{
    let mut all = Items::new(alloc);
    for (func, function) in program.funcs.as_slice().iter().enumerate() {
        let mut done = Items::new(alloc);
        put_statements(classes, func as u32, function.body.as_slice(), &mut done)?;
        all.push(done)?;
    }
    Ok(all)
}

// Lists the templates of all functions.
fn put_functions(
    alloc: Global,
    program: &PProgram,
    classes: &ClassMap,
    makers: &[Makers],
    listing: &mut Listing,
) -> Result<(), AllocError>
    requires { IsFormed program.now }
    ensures { OnOk result (listing.new ≡ spec.with_functions program.now (class_in classes.now) makers.now 0 program.now.funcs listing.old) }
{
    for (func, function) in program.funcs.as_slice().iter().enumerate() {
        put_function(
            alloc,
            program,
            classes,
            makers,
            func as u32,
            function,
            listing,
        )?;
    }
    Ok(())
}

/// The templates of a program whose variables have these classes, in the order of their numbers
/// (docs/CHECKING.md, "Templates"). Want of memory is the only error.
pub fn templates(
    alloc: Global,
    program: &PProgram,
    classes: &ClassMap,
) -> Result<Items<Template>, AllocError>
    requires { IsFormed program.now }
    ensures { IfOk result (AreTemplates program.now (class_in classes.now)) }
{
    let all = all_touches(alloc, classes, program)?;
    let firsts = firsts_of(alloc, program, classes)?;
    let makers = all_makers(alloc, all.as_slice(), firsts.accesses.as_slice())?;
    let Firsts { records, .. } = firsts;
    let mut listing = Listing {
        scopes: 0,
        templates: records,
    };
    put_functions(alloc, program, classes, makers.as_slice(), &mut listing)?;
    let Listing { templates, .. } = listing;
    Ok(templates)
}
