//! The locals in scope, with their slots.

ghost use Rattle.std.specs.Prelude.{◌≡◌, ◌∷◌, ◌-◌, ◌≤◌, [], length, drop, OnOk};
ghost use Rattle.lq_tree.specs.Seen.{seen};
ghost use Rattle.lq_tree.specs.Locals as locals;

use lq_tree::{Expr, ExprType, Name, Program, Variable, type_in_scope, type_of};
use std::alloc::{AllocError, Global};
use std::marker::Model;

/// The parameters, locals and indices in scope in the order of their declarations, each with its slot. Contracts see
/// the innermost first.
#[derive(Drop)]
pub struct Scope<'a> {
    variables: Vec<Variable<'a>>,
    slots: Vec<u32>,
}

impl<'a> Model for Scope<'a> {
    ghost use Rattle.std.specs.Prelude.{◌≡◌, ℕ, List, length};
    ghost use Rattle.lq_tree.specs.Locals.{Local};
    ghost use Rattle.lq_plain.specs.Seen.{locals_of};

    ghost Value = { List (Local ℕ) };

    ghost view = { λ s. locals_of s.variables.items s.slots.items };

    ghost invariant = { λ s. length s.variables.items ≡ length s.slots.items };
}

impl<'a> Scope<'a> {
    ghost use Rattle.std.specs.Prelude.{ℕ, List};
    ghost use Rattle.lq_tree.specs.Types as types;

    /// No locals.
    pub fn new(alloc: Global) -> Scope<'a>
        ensures { result ≡ [] }
    {
        Scope {
            variables: Vec::new(alloc),
            slots: Vec::new(alloc),
        }
    }

    /// How many there are.
    pub fn len(&self) -> usize
        ensures { result ≡ length self.now }
    {
        self.slots.len()
    }

    /// One local more.
    pub fn push(&mut self, name: &'a Name, kind: ExprType<'a>, slot: u32) -> Result<(), AllocError>
        ensures { OnOk result (self.new ≡ record { name = name.now; type = seen kind.entry; what = slot } ∷ self.old) }
    {
        self.slots.push(slot)?;
        match self.variables.push(Variable::new(name, kind)) {
            Ok(()) => Ok(()),
            Err(refused) => {
                self.slots.pop();
                Err(refused.into())
            }
        }
    }

    /// Only the first so many.
    pub fn truncate(&mut self, height: usize)
        requires { height ≤ length self.old }
        ensures { self.new ≡ drop (length self.old - height) self.old }
    {
        self.variables.truncate(height);
        self.slots.truncate(height);
    }

    /// The slot of a name: of two the innermost is meant.
    pub fn slot_of(&self, name: &Name) -> u32
        ensures { result ≡ locals.what_of 0 self.now name.now }
    {
        let mut found = 0;
        for at in 0..self.slots.len() {
            if self.variables[at].is_named(name) {
                found = self.slots[at];
            }
        }
        found
    }

    /// The type of a name: of two the innermost is meant.
    pub fn kind_of(&self, name: &Name) -> ExprType<'a>
        ensures { seen result ≡ locals.type_of_local self.now name.now }
    {
        type_in_scope(self.variables.as_slice(), name)
    }

    /// The type of an expression.
    pub fn type_of(&self, program: &'a Program, expr: &'a Expr) -> ExprType<'a>
        ensures { seen result ≡ types.expression_type program.now (locals.variables_of self.now) expr.now }
    {
        type_of(program, self.variables.as_slice(), expr)
    }
}
