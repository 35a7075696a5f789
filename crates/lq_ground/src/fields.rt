//! The classes of the pointers in the fields of classes.

ghost use Rattle.std.specs.Prelude.{◌≡◌, ℕ, [], ◌∷◌, ◌++◌, slice_get, IfOk, OnOk};
ghost use Rattle.std.specs.List.{flat_map};
ghost use Rattle.lq_tree.specs.Formed.{IsFormed};
ghost use Rattle.lq_templates.specs.Classes.{class_in, fields_behind as behind};
ghost use Rattle.lq_ground.specs.Fields as spec;
ghost use Rattle.lq_ground.specs.Ground.{classes_moved};
ghost use Rattle.lq_ground.specs.Moves.{moved_at};
ghost use Rattle.lq_ground.specs.Noted.{first_of, noted_in};

use crate::moves::{Move, moves_of};
use crate::noted::{Table, note_in, noted};
use lq_classes::ClassMap;
use lq_symbolic::FieldType;
use lq_templates::struct_among;
use lq_tree::{Base, CType, Name, PProgram, Param, StructDef};
use sqlite_items::Items;
use std::alloc::{AllocError, Global};

// Notes the class that goes between a slot and the field of a class.
fn note_move(alloc: Global, rows: &mut Items<Table>, each: Move) -> Result<(), AllocError>
    ensures { OnOk result ((class field : ℕ) → noted_in rows.new class field
        ≡ first_of (noted_in rows.old class field) (slice_get (moved_at class field each) 0)) }
{
    note_in(alloc, rows, each.class, each.field, each.moved)
}

// Notes the classes that go between slots and fields.
fn note_moves(alloc: Global, moves: &[Move]) -> Result<Items<Table>, AllocError>
    ensures { IfOk result (λ rows. (class field : ℕ) → noted_in rows class field ≡ slice_get (flat_map (moved_at class field) moves.now) 0) }
{
    let mut rows = Items::new(alloc);
    for each in moves {
        note_move(alloc, &mut rows, *each)?;
    }
    Ok(rows)
}

// For each class, and in it for each field, the class of the slot that is the first to be loaded from it or stored to it.
pub(crate) fn field_classes(
    alloc: Global,
    program: &PProgram,
    classes: &ClassMap,
) -> Result<Items<Table>, AllocError>
    requires { IsFormed program.now }
    ensures { IfOk result (λ rows. (class field : ℕ) → noted_in rows class field
        ≡ slice_get (classes_moved (class_in classes.now) class field 0 program.now.funcs) 0) }
{
    let moves = moves_of(alloc, program, classes)?;
    note_moves(alloc, moves.as_slice())
}

// The same base once more.
fn copy_base(alloc: Global, base: &Base) -> Result<Base, AllocError>
    ensures { IfOk result (λ copy. copy ≡ base.now) }
{
    Ok(match base {
        Base::Int => Base::Int,
        Base::Struct(name) => Base::Struct(Name::from_slice(alloc, name.as_bytes())?),
    })
}

// A type with this base and so many stars.
fn type_with(alloc: Global, base: &Base, stars: u8) -> Result<CType, AllocError>
    ensures { IfOk result (λ ctype. ctype ≡ record { base = base.now; stars = stars }) }
{
    Ok(CType {
        base: copy_base(alloc, base)?,
        stars,
    })
}

// Puts down a field of a class, of this type.
fn put_field(
    row: &[Option<u32>],
    field: usize,
    ctype: CType,
    fields: &mut Items<FieldType>,
) -> Result<(), AllocError>
    ensures { OnOk result (fields.new ≡ fields.old ++ spec.field_type row.now field ctype ∷ []) }
{
    fields.push(FieldType {
        ctype,
        class: noted(row, field).unwrap_or(0),
    })
}

// The fields of a class, with the classes that this row has for them.
fn fields_with(
    alloc: Global,
    row: &[Option<u32>],
    params: &[Param],
) -> Result<Items<FieldType>, AllocError>
    ensures { IfOk result (λ fields. fields ≡ spec.field_types row.now 0 params.now) }
{
    let mut fields = Items::new(alloc);
    for (field, param) in params.iter().enumerate() {
        let ctype = type_with(alloc, &param.ctype.base, param.ctype.stars)?;
        put_field(row, field, ctype, &mut fields)?;
    }
    Ok(fields)
}

// The fields of what a pointer of this type points to, with the classes that this row has for them.
pub(crate) fn fields_behind(
    alloc: Global,
    structs: &[StructDef],
    row: &[Option<u32>],
    ctype: &CType,
) -> Result<Items<FieldType>, AllocError>
    ensures { IfOk result (λ fields. fields ≡ spec.field_types row.now 0 (behind structs.now ctype.now)) }
{
    match &ctype.base {
        Base::Struct(name) if ctype.stars == 1 => match struct_among(structs, name) {
            Some(item) => fields_with(alloc, row, item.fields.as_slice()),
            None => Ok(Items::new(alloc)),
        },
        base => {
            let word = type_with(alloc, base, ctype.stars.saturating_sub(1))?;
            let mut fields = Items::new(alloc);
            put_field(row, 0, word, &mut fields)?;
            Ok(fields)
        }
    }
}
