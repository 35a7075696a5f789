//! Where an expression stands.

ghost use Rattle.std.specs.Prelude.{◌≡◌};

use crate::scope::Scope;
use lq_tree::{Expr, ExprType, Name, Place, Program};
use std::alloc::Global;

/// Where an expression stands: in which source, with which locals in scope, and at which statement.
#[derive(Clone, Copy)]
pub struct Site<'a> {
    /// Where memory comes from.
    pub alloc: Global,
    /// The whole source.
    pub program: &'a Program,
    /// What its function gives.
    pub result: ExprType<'a>,
    /// The locals in scope.
    pub scope: &'a Scope<'a>,
    /// The place of its statement.
    pub at: Place,
}

impl<'a> Site<'a> {
    ghost use Rattle.lq_tree.specs.Seen.{seen};
    ghost use Rattle.lq_plain.specs.Flat as spec;
    ghost use Rattle.lq_tree.specs.Locals as locals;
    ghost use Rattle.lq_plain.specs.Sites.{env_of};

    /// The slot of a local.
    pub fn slot_of(self, name: &Name) -> u32
        ensures { result ≡ spec.slot_of (env_of self.entry) name.now }
    {
        self.scope.slot_of(name)
    }

    /// The type of a local.
    pub fn kind_of(self, name: &Name) -> ExprType<'a>
        ensures { seen result ≡ locals.type_of_local (env_of self.entry).scope name.now }
    {
        self.scope.kind_of(name)
    }

    /// The type of an expression.
    pub fn type_of(self, expr: &'a Expr) -> ExprType<'a>
        ensures { seen result ≡ spec.type_of (env_of self.entry) expr.now }
    {
        self.scope.type_of(self.program, expr)
    }
}

/// Where the statements of a function stand, but for the locals in scope.
#[derive(Clone, Copy)]
pub struct Frame<'a> {
    /// Where memory comes from.
    pub alloc: Global,
    /// The whole source.
    pub program: &'a Program,
    /// What its function gives.
    pub result: ExprType<'a>,
}

impl<'a> Frame<'a> {
    ghost use Rattle.lq_plain.specs.Sites.{env_in, env_of};

    /// The expressions of a statement at this place, with these locals in scope.
    pub fn site<'b>(self, scope: &'b Scope<'a>, at: Place) -> Site<'b>
    where
        'a: 'b,
        ensures env { env_of result ≡ env_in self.entry scope.now }
        ensures at { result.at ≡ at }
    {
        Site {
            alloc: self.alloc,
            program: self.program,
            result: self.result,
            scope,
            at,
        }
    }
}
