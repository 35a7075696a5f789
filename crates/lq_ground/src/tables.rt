//! The tables of a program, which are made once.

ghost use Rattle.lq_ground.specs.Tables.{AreTables};

use crate::fields::{field_classes, fields_behind};
use crate::noted::{Table, noted, row_at};
use crate::numbers::{effect_counts, post_numbers, pre_numbers, rows_of};
use crate::scopes::{scope_of, scopes_of};
use lq_classes::{ClassMap, Var, class_of};
use lq_linear::Form;
use lq_symbolic::FieldType;
use lq_templates::{Given, Template, changed};
use lq_tree::{CType, PKind, PProgram};
use sqlite_items::Items;
use std::alloc::{AllocError, Global};

/// A program with its classes and templates, and what is looked up in them at statements: the classes of pointers in
/// fields, the numbers of functions' scopes, of their pre and post templates, and how many effect templates each scope
/// has.
#[derive(Drop)]
pub struct Tables<'a> {
    pub program: &'a PProgram,
    pub classes: &'a ClassMap,
    pub templates: &'a [Template],
    fields: Items<Table>,
    scopes: Items<u32>,
    pre: Table,
    post: Table,
    effects: Items<u32>,
    ghost right: { AreTables program.now classes.now templates.now fields scopes pre post effects },
}

impl<'a> Tables<'a> {
    ghost use Rattle.std.specs.Prelude.{◌≡◌, IfOk};
    ghost use Rattle.lq_tree.specs.Formed.{IsFormed};
    ghost use Rattle.lq_templates.specs.Classes.{class_in, fields_behind as behind};
    ghost use Rattle.lq_templates.specs.Spots as spots;
    ghost use Rattle.lq_ground.specs.Ground as ground;
    ghost use Rattle.lq_ground.specs.Numbers as numbers;
    ghost use Rattle.lq_ground.specs.Tables.{fields_in};

    /// The tables of a program.
    pub fn of(
        alloc: Global,
        program: &'a PProgram,
        classes: &'a ClassMap,
        templates: &'a [Template],
    ) -> Result<Tables<'a>, AllocError>
        requires { IsFormed program.now }
        ensures program { IfOk result (λ tables. tables.program.now ≡ program.now) }
        ensures classes { IfOk result (λ tables. tables.classes.now ≡ classes.now) }
        ensures templates { IfOk result (λ tables. tables.templates.now ≡ templates.now) }
    {
        Ok(Tables {
            program,
            classes,
            templates,
            fields: field_classes(alloc, program, classes)?,
            scopes: scopes_of(alloc, program)?,
            pre: pre_numbers(alloc, templates)?,
            post: post_numbers(alloc, templates)?,
            effects: effect_counts(alloc, templates)?,
        })
    }

    /// The class of a slot.
    pub fn class_at(&self, func: u32, slot: u32) -> u32
        ensures { result ≡ class_in self.now.classes.now func slot }
    {
        class_of(self.classes, Var { func, slot })
    }

    /// The fields of a class of pointers of this type.
    pub fn fields_of(
        &self,
        alloc: Global,
        class: u32,
        ctype: &CType,
    ) -> Result<Items<FieldType>, AllocError>
        ensures { IfOk result (λ fields. fields ≡ fields_in self.now.program.now self.now.classes.now class 0 (behind self.now.program.now.structs ctype.now)) }
    {
        let row = row_at(alloc, self.fields.as_slice(), class)?;
        let structs = self.program.structs.as_slice();
        fields_behind(alloc, structs, row.as_slice(), ctype)
    }

    /// The number of the scope of a function.
    pub fn function_scope(&self, func: u32) -> u32
        ensures { result ≡ ground.function_scope self.now.program.now.funcs func }
    {
        scope_of(self.scopes.as_slice(), func)
    }

    /// The pre rows of a function at these values, if it has them.
    pub fn pre_rows(
        &self,
        alloc: Global,
        func: u32,
        values: Items<Form>,
    ) -> Result<Items<Given>, AllocError>
        ensures { IfOk result (λ rows. rows ≡ ground.rows_where (ground.is_pre func) 1 self.now.templates.now values) }
    {
        let number = noted(self.pre.as_slice(), func as usize);
        rows_of(alloc, number, values)
    }

    /// The post rows of a function at these values, if it has them.
    pub fn post_rows(
        &self,
        alloc: Global,
        func: u32,
        values: Items<Form>,
    ) -> Result<Items<Given>, AllocError>
        ensures { IfOk result (λ rows. rows ≡ ground.rows_where (ground.is_post func) 1 self.now.templates.now values) }
    {
        let number = noted(self.post.as_slice(), func as usize);
        rows_of(alloc, number, values)
    }

    /// How many effect templates a scope has.
    pub fn count_effects(&self, scope: u32) -> u32
        ensures { result ≡ numbers.count_effects scope self.now.templates.now }
    {
        self.effects.get(scope as usize).copied().unwrap_or(0)
    }

    /// The slots in scope that a statement inside assigns.
    pub fn changed(
        &self,
        alloc: Global,
        func: u32,
        kind: &PKind,
        scope: &[u32],
    ) -> Result<Items<u32>, AllocError>
        ensures { IfOk result (λ slots. slots ≡ spots.changed scope.now kind.now) }
    {
        changed(alloc, self.classes, func, kind, scope)
    }
}
