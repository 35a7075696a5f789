ghost use Rattle.std.specs.Prelude.{◌≡◌, IfOk};

use lq_tree::Place;
use std::alloc::{AllocError, Global};
use std::marker::Model;

/// Where a line of execution stands among the forks: the number of forks that it has passed, the branch that it took
/// at the next one, the number of forks passed there, and so on, the outermost first. Contracts see the list of these
/// numbers (docs/LANGUAGE.md, "Races").
#[derive(Debug, Drop)]
pub struct Path {
    steps: Vec<u64>,
}

impl Model for Path {
    ghost use Rattle.std.specs.Prelude.{List, ℕ};

    ghost Value = { List ℕ };

    ghost view = { λ p. p.steps.items };
}

impl Path {
    /// The path of these numbers, copied; an error is want of memory.
    pub fn from_slice(alloc: Global, steps: &[u64]) -> Result<Path, AllocError>
        ensures { IfOk result (λ p. p ≡ steps.now) }
    {
        Ok(Path {
            steps: Vec::from_slice(alloc, steps)?,
        })
    }

    /// The numbers of the path.
    pub fn as_slice(&self) -> &[u64]
        ensures { result.now ≡ self.now }
    {
        self.steps.as_slice()
    }
}

/// An access: a load or a store whose address lies in its block (docs/LANGUAGE.md, "Memory").
#[derive(Debug, Drop)]
pub struct Entry {
    /// Where the line stood that made it.
    pub path: Path,
    /// Whether it is a store.
    pub write: bool,
    /// The number of the block, from 1.
    pub block: u32,
    /// The element in the block, from 0.
    pub element: u32,
    /// The field of the element, from 0.
    pub field: u32,
    /// The place of the statement.
    pub at: Place,
}
