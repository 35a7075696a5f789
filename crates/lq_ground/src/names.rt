//! Sets of names.

ghost use Rattle.std.specs.Prelude.{◌≡◌, [], ◌∷◌, ◌++◌, IfOk, OnOk, if◌then◌else◌, not};

use indexmap::IndexSet;
use lq_tree::Name;
use std::alloc::{AllocError, Global};
use std::marker::Model;

// A set of names, in the order in which they were added.
#[derive(Drop)]
pub(crate) struct Names<'a> {
    set: IndexSet<&'a [u8]>,
}

impl<'a> Model for Names<'a> {
    ghost use Rattle.std.specs.Prelude.{List, ℕ, map};
    ghost use Rattle.std.specs.Borrow.{Bor};

    ghost Value = { List (List ℕ) };

    ghost view = { λ s. map (λ (k : Bor (List ℕ)). k.now) s.set.keys };
}

impl<'a> Names<'a> {
    ghost use Rattle.lq_ground.specs.Locals.{has};

    // No names.
    pub(crate) fn new(alloc: Global) -> Names<'a>
        ensures { result ≡ [] }
    {
        Names {
            set: IndexSet::new(alloc),
        }
    }

    // Adds a name, and says whether it was new.
    pub(crate) fn add(&mut self, name: &'a Name) -> Result<bool, AllocError>
        ensures known { IfOk result (λ new. new ≡ not (has self.old name.now)) }
        ensures names { OnOk result (self.new ≡ (if has self.old name.now then self.old else self.old ++ name.now ∷ [])) }
    {
        let new = self.set.insert(name.as_bytes())?;
        Ok(new)
    }
}
