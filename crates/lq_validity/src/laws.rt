//! What follows from the definitions alone: each law is the contract of a function that does nothing.

ghost use Rattle.std.specs.Prelude.{◌≡◌, ◌⊎◌};
ghost use Rattle.lq_linear.specs.Derivation.{Combination};
ghost use Rattle.lq_validity.specs.Order.{Before};

/// The order of combinations (docs/CHECKING.md, "Derivation") leaves nothing open: of two different combinations one
/// stands before the other, none stands before itself, and what stands before stands before all that follow.
pub fn combinations_stand_in_order()
    ensures either { (a b : Combination) → Before a b ⊎ (Before b a ⊎ (a ≡ b)) }
    ensures never_itself { (a : Combination) → Before a a → ⊥ }
    ensures passed_on { (a b c : Combination) → Before a b → Before b c → Before a c }
{}
