//! Structs, functions and fields by their names.

ghost use Rattle.std.specs.Prelude.{◌≡◌};
ghost use Rattle.std.specs.Option.{option_copied};
ghost use Rattle.lq_tree.specs.Lookup as spec;

use crate::{Func, Name, Param, Program, StructDef};

/// Whether two names are the same.
pub fn same(a: &Name, b: &Name) -> bool
    ensures { result ≡ spec.same a.now b.now }
{
    a.as_bytes() == b.as_bytes()
}

/// The struct of a name; of two the first.
pub fn struct_of<'a>(program: &'a Program, name: &Name) -> Option<&'a StructDef>
    ensures { option_copied result ≡ spec.struct_of program.now.structs name.now }
{
    program
        .structs
        .as_slice()
        .iter()
        .find(|item| same(&item.name, name))
}

/// The function of a name; of two the first.
pub fn function_of<'a>(program: &'a Program, name: &Name) -> Option<&'a Func>
    ensures { option_copied result ≡ spec.function_of program.now.funcs name.now }
{
    program
        .funcs
        .as_slice()
        .iter()
        .find(|item| same(&item.name, name))
}

/// The field of a name; of two the first.
fn field_among<'a>(fields: &'a [Param], name: &Name) -> Option<&'a Param>
    ensures { option_copied result ≡ spec.field_among fields.now name.now }
{
    fields.iter().find(|item| same(&item.name, name))
}

/// The field of a struct, both by name.
pub fn field_of<'a>(program: &'a Program, name: &Name, field: &Name) -> Option<&'a Param>
    ensures { option_copied result ≡ spec.field_of program.now name.now field.now }
{
    let item = struct_of(program, name)?;
    field_among(item.fields.as_slice(), field)
}
