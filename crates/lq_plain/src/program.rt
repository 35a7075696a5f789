//! The plain form of programs.

ghost use Rattle.std.specs.Prelude.{◌≡◌, map, codes, IfOk};
ghost use Rattle.lq_tree.specs.Lookup as lookup;
ghost use Rattle.lq_plain.specs.Plain as spec;

use crate::copies::copy_struct;
use crate::factors::factors_of;
use crate::functions::plain_func;
use crate::lookups::number_of;
use lq_tree::{Items, Name, PFunc, PProgram, Program, StructDef};
use std::alloc::{AllocError, Global};

// The structs of a program once more.
fn structs_of(alloc: Global, program: &Program) -> Result<Items<StructDef>, AllocError>
    ensures { IfOk result (λ structs. structs ≡ program.now.structs) }
{
    let mut structs = Items::new(alloc);
    for item in program.structs.as_slice() {
        structs.push(copy_struct(alloc, item)?)?;
    }
    Ok(structs)
}

// The plain forms of the functions of a program.
fn funcs_of(alloc: Global, program: &Program) -> Result<Items<PFunc>, AllocError>
    ensures { IfOk result (λ funcs. funcs ≡ map (spec.plain_func program.now) program.now.funcs) }
{
    let mut funcs = Items::new(alloc);
    for func in program.funcs.as_slice() {
        funcs.push(plain_func(alloc, program, func)?)?;
    }
    Ok(funcs)
}

// The number of the function `main`.
fn main_of(alloc: Global, program: &Program) -> Result<u32, AllocError>
    ensures { IfOk result (λ number. number ≡ lookup.number_of program.now.funcs (codes "main")) }
{
    let name = Name::from_slice(alloc, b"main")?;
    number_of(program, &name)
}

/// The plain form of a program (docs/LANGUAGE.md, "Plain form").
pub fn plain(alloc: Global, program: &Program) -> Result<PProgram, AllocError>
    ensures { IfOk result (λ p. p ≡ spec.plain_program program.now) }
{
    Ok(PProgram {
        structs: structs_of(alloc, program)?,
        funcs: funcs_of(alloc, program)?,
        main: main_of(alloc, program)?,
        factors: factors_of(alloc, program)?,
    })
}
