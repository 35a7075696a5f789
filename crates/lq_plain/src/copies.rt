//! Copies of the parts of a source that its plain form keeps.

ghost use Rattle.std.specs.Prelude.{◌≡◌, IfOk};

use lq_tree::{Base, CType, Items, Name, Param, StructDef};
use std::alloc::{AllocError, Global};

/// A name once more.
pub fn copy_name(alloc: Global, name: &Name) -> Result<Name, AllocError>
    ensures { IfOk result (λ copy. copy ≡ name.now) }
{
    Name::from_slice(alloc, name.as_bytes())
}

/// A base once more.
pub fn copy_base(alloc: Global, base: &Base) -> Result<Base, AllocError>
    ensures { IfOk result (λ copy. copy ≡ base.now) }
{
    match base {
        Base::Int => Ok(Base::Int),
        Base::Struct(name) => Ok(Base::Struct(copy_name(alloc, name)?)),
    }
}

/// A type once more.
pub fn copy_type(alloc: Global, ctype: &CType) -> Result<CType, AllocError>
    ensures { IfOk result (λ copy. copy ≡ ctype.now) }
{
    Ok(CType {
        base: copy_base(alloc, &ctype.base)?,
        stars: ctype.stars,
    })
}

/// What a function gives, once more.
pub fn copy_result(alloc: Global, given: &Option<CType>) -> Result<Option<CType>, AllocError>
    ensures { IfOk result (λ copy. copy ≡ given.now) }
{
    match given {
        Some(ctype) => Ok(Some(copy_type(alloc, ctype)?)),
        None => Ok(None),
    }
}

// A field once more.
fn copy_field(alloc: Global, field: &Param) -> Result<Param, AllocError>
    ensures { IfOk result (λ copy. copy ≡ field.now) }
{
    Ok(Param {
        ctype: copy_type(alloc, &field.ctype)?,
        name: copy_name(alloc, &field.name)?,
    })
}

// Fields once more.
fn copy_fields(alloc: Global, fields: &[Param]) -> Result<Items<Param>, AllocError>
    ensures { IfOk result (λ copy. copy ≡ fields.now) }
{
    let mut copy = Items::new(alloc);
    for field in fields {
        copy.push(copy_field(alloc, field)?)?;
    }
    Ok(copy)
}

/// A struct once more.
pub fn copy_struct(alloc: Global, item: &StructDef) -> Result<StructDef, AllocError>
    ensures { IfOk result (λ copy. copy ≡ item.now) }
{
    Ok(StructDef {
        at: item.at,
        name: copy_name(alloc, &item.name)?,
        fields: copy_fields(alloc, item.fields.as_slice())?,
    })
}
