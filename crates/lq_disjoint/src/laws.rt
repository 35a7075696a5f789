//! What follows from the definitions alone: each law is the contract of a function that does nothing.

ghost use Rattle.std.specs.Prelude.{◌≡◌, false, List, []};
ghost use Rattle.std.specs.Prelude.{◌∷◌, ℕ};
ghost use Rattle.lq_tree.specs.declared.place.Place.{Place};
ghost use Rattle.lq_linear.specs.Form.{Linear};
ghost use Rattle.lq_templates.specs.declared.condition.Given.{Given};
ghost use Rattle.lq_templates.specs.declared.template.Template.{Template};
ghost use Rattle.lq_templates.specs.Accesses.{Access};
ghost use Rattle.lq_disjoint.specs.declared.beside.Beside.{Beside};
ghost use Rattle.lq_disjoint.specs.Pairs.{clash, asked_cobegin};

/// Two reads never clash.
pub fn reads_never_clash()
    ensures { (a b : Access) → a.write ≡ false → b.write ≡ false → clash a b ≡ false }
{}

/// Which of two accesses is named first makes no difference.
pub fn clashes_turn()
    ensures { (a b : Access) → clash a b ≡ clash b a }
{}

/// A block alone has no pair.
pub fn one_branch_no_pair()
    ensures { (templates : List Template) (at : Place) (facts : List Given) (element : Linear) (block : Beside)
        → asked_cobegin templates at facts element (block ∷ []) ≡ [] }
{}
