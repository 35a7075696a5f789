//! What the tasks of the deques are.
use std::marker::Brand;

/// The number of the chunk that a task is, how many deques there are, and what holds of a task while it waits. A call that passes
/// `Brand` picks them in its proof, so nothing of them is there when the program runs.
pub trait Dealing<T> {
    ghost use Rattle.std.specs.Prelude.{ℕ};

    ghost number: { T → ℕ };

    ghost deques: { ℕ };

    ghost waiting: { T → Type 0 };
}

impl<T> Dealing<T> for Brand {
    ghost number = { λ _. 0 };

    ghost deques = { 1 };

    ghost waiting = { λ _. Unit {0} };
}
