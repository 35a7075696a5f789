//! The classes of a program, and what they say of a variable.

ghost use Rattle.std.specs.Prelude.{◌≡◌, ℕ, IfOk, length, IsTrue, ◌↔◌};
ghost use Rattle.lq_tree.specs.Formed.{IsFormed};
ghost use Rattle.lq_classes.specs.Classes.{class_at, is_variable, Same, AreClasses};
ghost use Rattle.lq_classes.specs.Layout.{IsSmall, total, parts_of};
ghost use Rattle.lq_tree.specs.declared.plain.PProgram.{PProgram as Plain};

use crate::Var;
use crate::joins::{fields_of, joined};
use crate::layout::{pointers_of, starts_of};
use crate::links::links_of;
use crate::numbers::numbers_of;
use crate::places::Places;
use lq_tree::{Items, PProgram};
use std::alloc::{AllocError, Global};
use std::marker::Model;

#[cfg(test)]
mod tests;

/// The number of the class of each variable of a program, which contracts see by function and slot.
#[derive(Drop)]
pub struct ClassMap {
    rows: Items<Items<u32>>,
}

impl Model for ClassMap {
    ghost use Rattle.std.specs.Prelude.{List, ℕ};

    ghost Value = { List (List ℕ) };

    ghost view = { λ c. c.rows };
}

// The numbers of each function's slots and result, from those of all.
fn rows_of(
    alloc: Global,
    program: &PProgram,
    numbers: &[u32],
) -> Result<Items<Items<u32>>, AllocError>
    requires small { IsSmall program.now }
    requires size { length numbers.now ≡ total program.now.funcs }
    ensures { IfOk result (λ rows. rows ≡ parts_of program.now.funcs numbers.now) }
{
    let mut rows = Items::new(alloc);
    let mut rest = numbers;
    for function in program.funcs.as_slice() {
        let (row, others) = rest.split_at(function.slots.len() + 1);
        rows.push(Items::from_slice(alloc, row)?)?;
        rest = others;
    }
    Ok(rows)
}

// The classes of a program that is small, whether or not it is formed.
fn classes_of_small(alloc: Global, program: &PProgram) -> Result<ClassMap, AllocError>
    requires { IsSmall program.now }
    ensures { IfOk result (AreClasses program.now) }
{
    let starts = starts_of(alloc, program)?;
    let pointers = pointers_of(alloc, program)?;
    let links = links_of(alloc, program)?;
    let count = pointers.len();
    let fields = fields_of(links.as_slice());
    let places = Places { count, fields };
    let labels = joined(alloc, program, starts.as_slice(), places, links.as_slice())?;
    let numbers = numbers_of(alloc, pointers.as_slice(), labels.as_slice())?;
    let rows = rows_of(alloc, program, numbers.as_slice())?;
    Ok(ClassMap { rows })
}

/// The classes of a program (docs/CHECKING.md, "Classes").
pub fn classes(alloc: Global, program: &PProgram) -> Result<ClassMap, AllocError>
    requires { IsFormed program.now }
    ensures { IfOk result (AreClasses program.now) }
{
    classes_of_small(alloc, program)
}

/// The number of the class of a variable.
pub fn class_of(c: &ClassMap, a: Var) -> u32
    ensures number { result ≡ class_at c.now a }
{
    match c.rows.get(a.func as usize) {
        Some(row) => row.get(a.slot as usize).copied().unwrap_or(0),
        None => 0,
    }
}

/// Whether two variables are of one class.
pub fn same(c: &ClassMap, a: Var, b: Var) -> bool
    ensures { (p : Plain) → AreClasses p c.now → IsTrue (is_variable p a) → IsTrue (is_variable p b) → IsTrue result ↔ Same p a b }
{
    class_of(c, a) == class_of(c, b)
}
