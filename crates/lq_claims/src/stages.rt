//! What a slot holds before its chunk is claimed, and after it was given back.
use std::marker::Brand;

/// What it is for the chunk with a number to wait in a slot, and to lie there finished. A call that passes `Brand` picks both in
/// its proof, so nothing of them is there when the program runs.
pub trait Stages<S> {
    ghost use Rattle.std.specs.Prelude.{ℕ};

    ghost waiting: { ℕ → S → Type 0 };

    ghost finished: { ℕ → S → Type 0 };
}

impl<S> Stages<S> for Brand {
    ghost waiting = { λ _ _. Unit {0} };

    ghost finished = { λ _ _. Unit {0} };
}
