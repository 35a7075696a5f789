//! What follows from the definitions alone: each law is the contract of a function that does nothing.

ghost use Rattle.std.specs.Prelude.{ℕ, ℤ, List, reverse};
ghost use Rattle.std.specs.List.{AllByRecursion};
ghost use Rattle.lq_linear.specs.Row.{Inequality, Meets};
ghost use Rattle.lq_linear.specs.Item.{MeetsItem};
ghost use Rattle.lq_linear.specs.Derivation.{Derives};
ghost use Rattle.lq_linear.specs.declared.item.Item.{Item};

/// Every valuation that meets the items meets each goal that they derive.
pub fn derived_goals_hold()
    ensures { (v : ℕ → ℤ) (multipliers : List ℕ) (items : List Item) (goal : Inequality)
        → AllByRecursion (MeetsItem v) items → Derives multipliers (reverse items) goal → Meets v goal }
{}
