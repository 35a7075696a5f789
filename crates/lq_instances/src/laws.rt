//! What follows from the definitions alone: each law is the contract of a function that does nothing.

ghost use Rattle.std.specs.Prelude.{◌≡◌, ℕ, List};
ghost use Rattle.lq_quals.specs.Quals.{IsQualsText};
ghost use Rattle.lq_quals.specs.declared.quals.Quals.{Quals};
ghost use Rattle.lq_templates.specs.declared.template.Template.{Template};
ghost use Rattle.lq_instances.specs.Instances.{instances};
ghost use Rattle.lq_instances.specs.Search.{searched_instances};
ghost use Rattle.lq_instances.specs.Stated.{AreDistinct, stated_instances};

use lq_quals::{atoms_differ, rows_are_bounded};

/// The instances of a template are those that a search finds in which placeholders that stand in the same multiples
/// get their locals in ascending order, each row the first time that it comes.
pub fn search_finds_instances()
    ensures { (t : Template) (quals : Quals) → instances t quals ≡ searched_instances t quals }
{}

/// What the qualifiers of a text state at a template whose names differ are rows: the test of instances leaves none out.
pub fn stated_instances_are_rows()
    ensures { (text : List ℕ) (quals : Quals) (t : Template) → IsQualsText text quals → AreDistinct t.names → instances t quals ≡ stated_instances t quals }
{
    atoms_differ();
    rows_are_bounded();
}
