//! How many units of each cell go to the first part of a split.
use std::marker::Brand;

/// A number of units of each cell. A call that passes `Brand` picks it in its proof, so nothing of it is there when the program runs.
pub trait Foot {
    ghost use Rattle.std.specs.Prelude.{ℕ};

    ghost foot: { ℕ → ℕ };
}

impl Foot for Brand {
    ghost foot = { λ _. 0 };
}
