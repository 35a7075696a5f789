//! What follows from the definitions alone: each law is the contract of a function that does nothing.

ghost use Rattle.std.specs.Prelude.{◌≡◌, ℕ, Bool, List, [], length};
ghost use Rattle.std.specs.List.{AllByRecursion};
ghost use Rattle.lq_templates.specs.declared.template.Template.{Template};
ghost use Rattle.lq_tree.specs.declared.plain.PProgram.{PProgram};
ghost use Rattle.lq_tree.specs.Formed.{IsFormed};
ghost use Rattle.lq_classes.specs.Classes.{var, class_at, AreClasses};
ghost use Rattle.lq_templates.specs.Accesses.{Access};
ghost use Rattle.lq_templates.specs.Classes.{ClassOf};
ghost use Rattle.lq_conditions.specs.Conditions.{conditions, functions_conditions};
ghost use Rattle.lq_conditions.specs.There.{AreThere};

/// Where there are no functions nothing is asked.
pub fn without_functions_nothing_is_asked()
    ensures { (p : PProgram) (class_of : ClassOf) (by : ℕ → Access → Bool) (templates : List Template) (number scopes before : ℕ)
        → functions_conditions p class_of by templates number scopes before [] ≡ [] }
{}

/// Each template that a condition of a formed program names, among its facts or its goals, is there.
pub fn named_templates_are_there()
    ensures { (p : PProgram) (rows : List (List ℕ)) (by : ℕ → Access → Bool) → IsFormed p → AreClasses p rows
        → let asked = conditions p (λ function slot. class_at rows (var function slot)) by
        in AllByRecursion (AreThere (length asked.templates)) asked.list }
{}
