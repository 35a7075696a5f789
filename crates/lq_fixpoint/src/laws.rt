//! What follows from the definitions alone: each law is the contract of a function that does nothing.

ghost use Rattle.std.specs.Prelude.{◌≡◌, ℕ, List};
ghost use Rattle.lq_templates.specs.declared.condition.Assign.{Assign};
ghost use Rattle.lq_templates.specs.declared.condition.Condition.{Condition};
ghost use Rattle.lq_templates.specs.Conditions.{IsGreatest};

/// The order in which rows are dropped makes no difference: there is at most one greatest assignment.
pub fn any_order()
    ensures { (multipliers : List ℕ) (full : Assign) (list : List Condition) (assign other : Assign)
        → IsGreatest multipliers full list assign → IsGreatest multipliers full list other → assign ≡ other }
{}
