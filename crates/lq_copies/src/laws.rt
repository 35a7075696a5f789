//! What follows from the definitions alone: each law is the contract of a function that does nothing.

ghost use Rattle.std.specs.Prelude.{◌≡◌};
ghost use Rattle.lq_tree.specs.declared.program.Program.{Program};
ghost use Rattle.lq_copies.specs.Copied.{copied};

/// A copy has the structs of its source (docs/CODE.md, "Copies of functions").
pub fn copies_keep_structs()
    ensures { (p : Program) → (copied p).structs ≡ p.structs }
{}
