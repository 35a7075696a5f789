//! What follows from the definitions alone: each law is the contract of a function that does nothing.

ghost use Rattle.std.specs.Prelude.{◌≡◌, ◌↔◌, ℤ, true, Some};
ghost use Rattle.lq_tree.specs.declared.plain.PExpr.{PExpr, Num, Null};
ghost use Rattle.lq_linear.specs.Form.{Linear, IsFormOf};
ghost use Rattle.lq_linear.specs.Row.{Inequality, IsBounded};
ghost use Rattle.lq_linear.specs.Collect.{as_form, as_row, collected};
ghost use Rattle.lq_symbolic.specs.declared.state.SymState.{SymState as State};
ghost use Rattle.lq_symbolic.specs.State.{new_null};
ghost use Rattle.lq_symbolic.specs.Value.{value};
ghost use Rattle.lq_symbolic.specs.Assume.{assumed};

/// What a sum is collected to is its form, and none where it has no form.
pub fn sums_are_collected()
    ensures { (sum form : Linear) → (as_form sum ≡ Some form) ↔ IsFormOf sum form }
{}

/// A row is left out exactly where it passes the bounds.
pub fn rows_are_collected()
    ensures bounded { (row made : Inequality) → as_row row ≡ Some made → IsBounded row }
    ensures found { (row : Inequality) → IsBounded row → as_row row ≡ Some (record { terms = collected row.terms; most = row.most }) }
{}

/// The value of null is new.
pub fn null_is_valued()
    ensures { (s : State) → value Null s ≡ new_null s }
{}

/// A number that is true tells nothing.
pub fn true_ints_tell_nothing()
    ensures { (n : ℤ) (s : State) → assumed true (Num n) s ≡ s }
{}
