//! Functions and fields by their numbers.

ghost use Rattle.std.specs.Prelude.{◌≡◌, IfOk};
ghost use Rattle.lq_tree.specs.Layout as layout;
ghost use Rattle.lq_tree.specs.Lookup as lookup;
ghost use Rattle.lq_tree.specs.Seen.{seen};
ghost use Rattle.lq_plain.specs.Flat as spec;

use lq_tree::{ExprType, Func, Name, Param, Program, declared, function_of, same, struct_of};
use std::alloc::AllocError;

/// A number that counts things in memory. No memory holds more of them than have one.
pub fn numbered(count: usize) -> Result<u32, AllocError>
    ensures { IfOk result (λ number. number ≡ count) }
{
    if count > u32::MAX as usize {
        return Err(AllocError);
    }
    Ok(count as u32)
}

// How many functions stand in front of the first of this name.
fn functions_before(funcs: &[Func], name: &Name) -> usize
    ensures { result ≡ lookup.number_of funcs.now name.now }
{
    let mut number = 0;
    for func in funcs {
        if same(&func.name, name) {
            return number;
        }
        number += 1;
    }
    number
}

/// The number of a function: of two of one name the first is meant.
pub fn number_of(program: &Program, name: &Name) -> Result<u32, AllocError>
    ensures { IfOk result (λ number. number ≡ lookup.number_of program.now.funcs name.now) }
{
    numbered(functions_before(program.funcs.as_slice(), name))
}

// How many fields stand in front of the first of this name.
fn fields_before(fields: &[Param], name: &Name) -> usize
    ensures { result ≡ layout.number_among fields.now name.now }
{
    let mut number = 0;
    for field in fields {
        if same(&field.name, name) {
            return number;
        }
        number += 1;
    }
    number
}

// The number of a field of the elements of this type.
fn field_before(program: &Program, kind: ExprType<'_>, name: &Name) -> usize
    ensures { result ≡ layout.field_number program.now.structs (seen kind.entry) name.now }
{
    let ExprType::Element(element) = kind else {
        return 0;
    };
    match struct_of(program, element) {
        Some(found) => fields_before(found.fields.as_slice(), name),
        None => 0,
    }
}

/// The number of a field of the elements of this type.
pub fn field_number(program: &Program, kind: ExprType<'_>, name: &Name) -> Result<u32, AllocError>
    ensures { IfOk result (λ number. number ≡ layout.field_number program.now.structs (seen kind.entry) name.now) }
{
    numbered(field_before(program, kind, name))
}

/// The parameters of the function of a name.
pub fn params_of<'a>(program: &'a Program, name: &Name) -> &'a [Param]
    ensures { result.now ≡ spec.params_of (lookup.function_of program.now.funcs name.now) }
{
    match function_of(program, name) {
        Some(function) => function.params.as_slice(),
        None => &[],
    }
}

/// The type of the first of these parameters.
pub fn first_type(params: &[Param]) -> ExprType<'_>
    ensures { seen result ≡ spec.first_type params.now }
{
    match params {
        [first, ..] => declared(&first.ctype),
        [] => ExprType::Unknown,
    }
}

/// The parameters behind the first.
pub fn other_params(params: &[Param]) -> &[Param]
    ensures { result.now ≡ spec.other_params params.now }
{
    match params {
        [_, others @ ..] => others,
        [] => params,
    }
}
