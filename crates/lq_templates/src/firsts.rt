//! The first variables of classes.

ghost use Rattle.std.specs.Prelude.{◌≡◌, ◌^◌, ◌<◌, ◌++◌, [], ◌∷◌, length, true, false, IfOk, OnOk};
ghost use Rattle.lq_tree.specs.Formed.{IsFormed};
ghost use Rattle.lq_templates.specs.Accesses.{field_accesses};
ghost use Rattle.lq_templates.specs.Classes.{class_in, fields_behind, pointer, slot_variables, result_variable, variables};
ghost use Rattle.lq_templates.specs.Firsts as spec;

use crate::made::{record_template, struct_among};
use crate::{Access, Template};
use lq_classes::{ClassMap, Var, class_of};
use lq_tree::{Base, CType, PFunc, PProgram, Param, Slot, StructDef};
use sqlite_items::Items;
use std::alloc::{AllocError, Global};

// What the first variables of the classes before the next one say: the record template of each class, and the accesses
// that there may be to it.
#[derive(Drop)]
pub(crate) struct Firsts {
    pub(crate) next: u64,
    pub(crate) records: Items<Template>,
    pub(crate) accesses: Items<Access>,
}

// Puts down the accesses to a field.
fn put_field(class: u32, field: u32, accesses: &mut Items<Access>) -> Result<(), AllocError>
    ensures { OnOk result (accesses.new ≡ accesses.old ++ (record { class = class; field = field; write = false } ∷ record { class = class; field = field; write = true } ∷ [])) }
{
    accesses.push(Access {
        class,
        field,
        write: false,
    })?;
    accesses.push(Access {
        class,
        field,
        write: true,
    })
}

// Puts down the accesses to fields.
fn put_fields(class: u32, fields: &[Param], accesses: &mut Items<Access>) -> Result<(), AllocError>
    requires { length fields.now < 2 ^ 32 }
    ensures { OnOk result (accesses.new ≡ accesses.old ++ field_accesses class 0 fields.now) }
{
    for (field, _) in fields.iter().enumerate() {
        put_field(class, field as u32, accesses)?;
    }
    Ok(())
}

// Puts down the accesses to the fields of what a pointer of this type points to.
fn put_accesses(
    program: &PProgram,
    class: u32,
    ctype: &CType,
    accesses: &mut Items<Access>,
) -> Result<(), AllocError>
    requires { IsFormed program.now }
    ensures { OnOk result (accesses.new ≡ accesses.old ++ field_accesses class 0 (fields_behind program.now.structs ctype.now)) }
{
    match &ctype.base {
        Base::Struct(name) if ctype.stars == 1 => {
            match struct_among(program.structs.as_slice(), name) {
                Some(item) => put_fields(class, item.fields.as_slice(), accesses),
                None => Ok(()),
            }
        }
        _ => put_field(class, 0, accesses),
    }
}

// Puts down what a variable says, if it is the first of the next class.
fn meet(
    alloc: Global,
    program: &PProgram,
    classes: &ClassMap,
    variable: Var,
    ctype: &CType,
    firsts: &mut Firsts,
) -> Result<(), AllocError>
    requires { IsFormed program.now }
    ensures { OnOk result (firsts.new ≡ spec.gathered program.now (class_in classes.now) (pointer variable.func variable.slot ctype.now) firsts.old) }
{
    let class = class_of(classes, variable);
    if ctype.stars == 0 || u64::from(class) != firsts.next {
        return Ok(());
    }
    let template = record_template(alloc, program.structs.as_slice(), class, ctype)?;
    firsts.records.push(template)?;
    firsts.next += 1;
    put_accesses(program, class, ctype, &mut firsts.accesses)
}

// Puts down what the slots of a function say.
fn meet_slots(
    alloc: Global,
    program: &PProgram,
    classes: &ClassMap,
    func: u32,
    slots: &[Slot],
    firsts: &mut Firsts,
) -> Result<(), AllocError>
    requires formed { IsFormed program.now }
    requires few { length slots.now < 2 ^ 32 }
    ensures { OnOk result (firsts.new ≡ spec.gathered program.now (class_in classes.now) (slot_variables func 0 slots.now) firsts.old) }
{
    for (slot, item) in slots.iter().enumerate() {
        let variable = Var {
            func,
            slot: slot as u32,
        };
        meet(alloc, program, classes, variable, &item.ctype, firsts)?;
    }
    Ok(())
}

// Puts down what the variables of a function say.
fn meet_function(
    alloc: Global,
    program: &PProgram,
    classes: &ClassMap,
    func: u32,
    function: &PFunc,
    firsts: &mut Firsts,
) -> Result<(), AllocError>
    requires formed { IsFormed program.now }
    requires few { length function.now.slots < 2 ^ 32 }
    ensures { OnOk result (firsts.new ≡ spec.gathered program.now (class_in classes.now)
        (slot_variables func 0 function.now.slots ++ result_variable func (length function.now.slots) function.now.result) firsts.old) }
{
    let slots = function.slots.as_slice();
    meet_slots(alloc, program, classes, func, slots, firsts)?;
    match &function.result {
        None => Ok(()),
        Some(ctype) => {
            let variable = Var {
                func,
                slot: slots.len() as u32,
            };
            meet(alloc, program, classes, variable, ctype, firsts)
        }
    }
}

// What the first variables of a program's classes say.
pub(crate) fn firsts_of(
    alloc: Global,
    program: &PProgram,
    classes: &ClassMap,
) -> Result<Firsts, AllocError>
    requires { IsFormed program.now }
    ensures { IfOk result (λ firsts. firsts ≡ spec.gathered program.now (class_in classes.now) (variables 0 program.now.funcs)
        (record { next = 1; records = []; accesses = [] })) }
{
    let mut firsts = Firsts {
        next: 1,
        records: Items::new(alloc),
        accesses: Items::new(alloc),
    };
    for (func, function) in program.funcs.as_slice().iter().enumerate() {
        meet_function(alloc, program, classes, func as u32, function, &mut firsts)?;
    }
    Ok(firsts)
}
