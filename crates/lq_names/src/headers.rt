//! The name rules at the heads of structs and functions, and at `main`.

ghost use Rattle.std.specs.Prelude.{◌≡◌, ◌||◌, codes};
ghost use Rattle.std.specs.List.{list_any};
ghost use Rattle.std.specs.Option.{option_copied};
ghost use Rattle.lq_names.specs.Headers as spec;
ghost use Rattle.lq_names.specs.Faults as faults;
ghost use Rattle.lq_names.specs.Rules as rules;
ghost use Rattle.lq_names.specs.Scopes as scopes;
ghost use Rattle.lq_names.specs.Types.{seen};
ghost use Rattle.lq_names.specs.Seen.{is_among};

use crate::fault::Fault;
use crate::least::note;
use crate::names::Names;
use crate::rules::{is_main, is_whole};
use lq_tree::{
    Base, CType, ExprType, Func, Name, Param, Place, Program, StructDef, declared, is_known, same,
};

/// Whether it is one star on `int`.
fn is_int_pointer(given: ExprType<'_>) -> bool
    ensures { result ≡ spec.is_int_pointer (seen given.entry) }
{
    match given {
        ExprType::Pointer(Base::Int, stars) => stars == 0,
        _ => false,
    }
}

/// Whether the parameters are those of a `main`: none, or `int *` and `int`.
fn takes_input(params: &[Param]) -> bool
    ensures { result ≡ spec.takes_input params.now }
{
    match params {
        [] => true,
        [first, second] => {
            is_int_pointer(declared(&first.ctype)) && declared(&second.ctype).is_number()
        }
        _ => false,
    }
}

/// Whether a function can be the program's `main`.
fn is_entry(function: Option<&Func>) -> bool
    ensures { result ≡ spec.is_entry (option_copied function.entry) }
{
    let Some(function) = function else {
        return false;
    };
    let Some(ctype) = &function.result else {
        return false;
    };
    declared(ctype).is_number() && takes_input(function.params.as_slice())
}

/// The function `main`; of two the first.
fn main_of(program: &Program) -> Option<&Func>
    ensures { option_copied result ≡ scopes.function_of program.now.funcs (codes "main") }
{
    program
        .funcs
        .as_slice()
        .iter()
        .find(|function| is_main(&function.name))
}

/// Whether two of the fields or parameters have one name.
fn has_twins(params: &[Param]) -> bool
    ensures { result ≡ spec.has_twins params.now }
{
    match params.split_first() {
        Some((first, rest)) => is_twin(&first.name, rest) || has_twins(rest),
        None => false,
    }
}

/// Whether one of the fields or parameters has this name.
fn is_twin(name: &Name, params: &[Param]) -> bool
    ensures { result ≡ list_any (λ q. scopes.same name.now q.name) params.now }
{
    params.iter().any(|param| same(name, &param.name))
}

/// Whether a type names an unknown struct.
fn is_unknown(program: &Program, ctype: &CType) -> bool
    ensures { result ≡ spec.is_unknown program.now ctype.now }
{
    !is_known(program, &ctype.base)
}

/// Whether a type is a struct without a star.
fn is_bare(ctype: &CType) -> bool
    ensures { result ≡ spec.is_bare ctype.now }
{
    is_whole(declared(ctype))
}

/// Whether one of the parameters or fields is of an unknown struct.
fn one_is_unknown(program: &Program, params: &[Param]) -> bool
    ensures { result ≡ list_any (λ q. spec.is_unknown program.now q.ctype) params.now }
{
    params.iter().any(|param| is_unknown(program, &param.ctype))
}

/// Whether one of the parameters or fields is a struct without a star.
fn one_is_bare(params: &[Param]) -> bool
    ensures { result ≡ list_any (λ q. spec.is_bare q.ctype) params.now }
{
    params.iter().any(|param| is_bare(&param.ctype))
}

/// Whether the result or one of the parameters is of an unknown struct.
fn head_is_unknown(program: &Program, function: &Func) -> bool
    ensures { result ≡ spec.some_type (spec.is_unknown program.now) function.now.result function.now.params }
{
    let params = function.params.as_slice();
    match &function.result {
        Some(ctype) => is_unknown(program, ctype) || one_is_unknown(program, params),
        None => one_is_unknown(program, params),
    }
}

/// Whether the result or one of the parameters is a struct without a star.
fn head_is_bare(function: &Func) -> bool
    ensures { result ≡ spec.some_type spec.is_bare function.now.result function.now.params }
{
    let params = function.params.as_slice();
    match &function.result {
        Some(ctype) => is_bare(ctype) || one_is_bare(params),
        None => one_is_bare(params),
    }
}

/// The least fault, with a lack of `main`.
pub fn at_entry(program: &Program, found: Option<Fault>) -> Option<Fault>
    ensures { result ≡ faults.noted spec.start found (spec.entry_rules program.now) }
{
    let place = Place { line: 1, col: 1 };
    note(found, !is_entry(main_of(program)), 1, place)
}

/// Whether a struct has the name of an earlier one, or two fields of one name.
fn is_doubled(earlier: &Names<'_>, item: &StructDef) -> bool
    ensures { result ≡ (is_among earlier.now item.now.name || spec.has_twins item.now.fields) }
{
    earlier.has(&item.name) || has_twins(item.fields.as_slice())
}

/// The least fault, with those of a struct behind structs of these names.
pub fn at_struct(
    program: &Program,
    earlier: &Names<'_>,
    item: &StructDef,
    found: Option<Fault>,
) -> Option<Fault>
    ensures { result ≡ faults.noted item.now.at found (spec.struct_rules program.now earlier.now item.now) }
{
    let fields = item.fields.as_slice();
    let found = note(found, is_doubled(earlier, item), 2, item.at);
    let found = note(found, one_is_unknown(program, fields), 3, item.at);
    note(found, one_is_bare(fields), 7, item.at)
}

/// The least fault, with those at the head of a function behind functions of these names.
pub fn at_head(
    program: &Program,
    earlier: &Names<'_>,
    item: &Func,
    found: Option<Fault>,
) -> Option<Fault>
    ensures { result ≡ faults.noted item.now.at found (spec.head_rules program.now earlier.now item.now) }
{
    let found = note(found, earlier.has(&item.name), 2, item.at);
    let found = note(found, head_is_unknown(program, item), 3, item.at);
    let found = note(found, has_twins(item.params.as_slice()), 4, item.at);
    note(found, head_is_bare(item), 7, item.at)
}
