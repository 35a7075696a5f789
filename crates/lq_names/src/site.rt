//! Where a statement or an expression stands.

ghost use Rattle.std.specs.Prelude.{◌≡◌, List, drop, true};

use crate::names::Names;
use lq_tree::{
    CType, Expr, ExprType, Name, Program, Variable, is_in_scope, type_in_scope, type_of,
};

/// Where a statement or an expression stands.
#[derive(Clone, Copy)]
pub struct Site<'a> {
    /// The whole source.
    pub program: &'a Program,
    /// The functions that may print.
    pub prints: &'a Names<'a>,
    /// The functions that may allocate.
    pub allocates: &'a Names<'a>,
    /// What its function returns; `None` is `void`.
    pub returns: Option<&'a CType>,
    /// The variables in scope, in the order of their declarations.
    pub scope: &'a [Variable<'a>],
    /// How many of them are declared outside the innermost parallel statement.
    pub outside: usize,
    /// Whether it stands in a parallel statement.
    pub parallel: bool,
}

impl<'a> Site<'a> {
    ghost use Rattle.lq_names.specs.Scopes as scopes;
    ghost use Rattle.lq_names.specs.Types as types;
    ghost use Rattle.lq_names.specs.Types.{seen};
    ghost use Rattle.lq_names.specs.Seen.{at_site};

    /// The type of a variable in scope: of two of one name the later one is meant, and none is unknown.
    pub fn type_in_scope(&self, name: &Name) -> ExprType<'a>
        ensures { seen result ≡ scopes.type_in self.now.scope.now name.now }
    {
        type_in_scope(self.scope, name)
    }

    /// The type of an expression.
    pub fn type_of(&self, expr: &'a Expr) -> ExprType<'a>
        ensures { seen result ≡ types.type_of (at_site self.now) expr.now }
    {
        type_of(self.program, self.scope, expr)
    }

    /// Whether the name is in scope.
    pub fn is_in_scope(&self, name: &Name) -> bool
        ensures { result ≡ scopes.is_in_scope self.now.scope.now name.now }
    {
        is_in_scope(self.scope, name)
    }

    /// Whether the name is declared inside the innermost parallel statement.
    pub fn is_declared_inside(&self, name: &Name) -> bool
        ensures { result ≡ scopes.is_in_scope (drop self.now.outside self.now.scope.now) name.now }
    {
        self.scope
            .iter()
            .skip(self.outside)
            .any(|variable| variable.is_named(name))
    }
}

/// Where a statement stands, but for the variables in scope.
#[derive(Clone, Copy)]
pub struct Frame<'a> {
    /// The whole source.
    pub program: &'a Program,
    /// The functions that may print.
    pub prints: &'a Names<'a>,
    /// The functions that may allocate.
    pub allocates: &'a Names<'a>,
    /// What its function returns; `None` is `void`.
    pub returns: Option<&'a CType>,
    /// How many variables are declared outside the innermost parallel statement.
    pub outside: usize,
    /// Whether it stands in a parallel statement.
    pub parallel: bool,
}

impl<'a> Frame<'a> {
    ghost use Rattle.lq_names.specs.Scopes as scopes;
    ghost use Rattle.lq_names.specs.Seen.{at_site, frame_site};

    /// The site with these variables in scope.
    pub fn site<'b>(self, scope: &'b [Variable<'a>]) -> Site<'b>
    where
        'a: 'b,
        ensures { at_site result ≡ frame_site self.entry scope.now }
    {
        Site {
            program: self.program,
            prints: self.prints,
            allocates: self.allocates,
            returns: self.returns,
            scope,
            outside: self.outside,
            parallel: self.parallel,
        }
    }

    /// The frame in a parallel statement with so many variables in scope outside.
    pub fn in_parallel(self, outside: usize) -> Frame<'a>
        ensures { (scope : List scopes.Variable) → frame_site result scope ≡ record (frame_site self.entry scope) { outside = outside; parallel = true } }
    {
        Frame {
            outside,
            parallel: true,
            ..self
        }
    }
}
