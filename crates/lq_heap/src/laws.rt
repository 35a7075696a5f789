//! What follows from the definitions alone: each law is the contract of a function that does nothing.

ghost use Rattle.std.specs.Prelude.{◌≡◌, []};
ghost use Rattle.lq_templates.specs.declared.condition.Site.{Site};
ghost use Rattle.lq_symbolic.specs.declared.state.SymState.{SymState as State};
ghost use Rattle.lq_heap.specs.Records.{fold_all, folded};

/// Where all records are folded there is nothing more to fold.
pub fn folded_records_ask_nothing()
    ensures { (site : Site) (s : State) → fold_all site (folded s) ≡ [] }
{}
