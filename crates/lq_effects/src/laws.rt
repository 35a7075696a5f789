//! What follows from the definitions alone: each law is the contract of a function that does nothing.

ghost use Rattle.std.specs.Prelude.{◌≡◌, ℕ, List, []};
ghost use Rattle.lq_linear.specs.Form.{Linear};
ghost use Rattle.lq_templates.specs.declared.condition.Site.{Site};
ghost use Rattle.lq_symbolic.specs.declared.state.SymState.{SymState as State};
ghost use Rattle.lq_effects.specs.Effects.{asked_calls};

/// Without templates nothing is asked of the accesses of a call.
pub fn no_scope_no_effect()
    ensures { (site : Site) (scope : ℕ) (values : List Linear) (s : State) → asked_calls [] site scope values s ≡ [] }
{}
