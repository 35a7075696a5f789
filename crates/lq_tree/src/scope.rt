//! The variables in scope.

ghost use Rattle.std.specs.Prelude.{◌≡◌};
ghost use Rattle.lq_tree.specs.Types as spec;
ghost use Rattle.lq_tree.specs.Seen.{seen};

use crate::{ExprType, Name, same};
use std::marker::Model;

/// A parameter, a local or an index.
#[derive(Drop)]
pub struct Variable<'a> {
    name: &'a Name,
    kind: ExprType<'a>,
}

impl<'a> Model for Variable<'a> {
    ghost use Rattle.lq_tree.specs.Types.{Variable as Declared};
    ghost use Rattle.lq_tree.specs.Seen.{seen};

    ghost Value = { Declared };

    ghost view = { λ v. record { name = v.name.now; type = seen v.kind } };
}

impl<'a> Variable<'a> {
    ghost use Rattle.lq_tree.specs.Lookup as lookup;
    ghost use Rattle.lq_tree.specs.Seen.{seen};

    /// A variable of this name and type.
    pub fn new(name: &'a Name, kind: ExprType<'a>) -> Variable<'a>
        ensures { result ≡ record { name = name.now; type = seen kind.entry } }
    {
        Variable { name, kind }
    }

    /// Whether it has this name.
    pub fn is_named(&self, name: &Name) -> bool
        ensures { result ≡ lookup.same self.now.name name.now }
    {
        same(self.name, name)
    }

    /// Its type.
    pub fn kind(&self) -> ExprType<'a>
        ensures { seen result ≡ self.now.type }
    {
        self.kind
    }
}

/// The type of a variable in scope: of two of one name the later one is meant, and none is unknown.
pub fn type_in_scope<'a>(scope: &[Variable<'a>], name: &Name) -> ExprType<'a>
    ensures { seen result ≡ spec.type_in scope.now name.now }
{
    let mut found = ExprType::Unknown;
    for variable in scope {
        if variable.is_named(name) {
            found = variable.kind();
        }
    }
    found
}

/// Whether the name is in scope.
pub fn is_in_scope(scope: &[Variable<'_>], name: &Name) -> bool
    ensures { result ≡ spec.is_in_scope scope.now name.now }
{
    scope.iter().any(|variable| variable.is_named(name))
}
