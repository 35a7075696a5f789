//! Laws of the definitions.

ghost use Rattle.std.specs.Prelude.{◌≡◌, ◌<◌, ◌^◌, ℕ, Bool, List};
ghost use Rattle.lq_tree.specs.declared.program.Program.{Program};
ghost use Rattle.lq_names.specs.declared.fault.Fault.{Fault};
ghost use Rattle.lq_names.specs.Broken.{IsLeastBroken};
ghost use Rattle.lq_names.specs.Counts.{program_sizes};
ghost use Rattle.lq_names.specs.InScope.{most_in_scope, program_sites};

/// At most one broken rule comes first.
pub fn one_least_fault()
    ensures { (p : Program) (fault other : Fault) → IsLeastBroken p fault → IsLeastBroken p other → fault ≡ other }
{}

/// The count of locals is the most variables that are in scope at once.
pub fn locals_are_most_in_scope()
    ensures { (p : Program) (prints allocates : List ℕ → Bool) → let most = most_in_scope (program_sites p prints allocates) in most < 2 ^ 64 → (program_sizes p).locals ≡ most }
{}
