//! What follows from the definitions alone: each law is the contract of a function that does nothing.

ghost use Rattle.std.specs.Prelude.{◌≡◌, Some};
ghost use Rattle.lq_tree.specs.declared.limit.Quantity.{Quantity};
ghost use Rattle.lq_tree.specs.Limit.{row_of, numbered};

/// The number of a quantity in the table of limits leads back to it.
pub fn numbers_tell_quantities()
    ensures { (quantity : Quantity) → numbered (row_of quantity).number ≡ Some quantity }
{}
