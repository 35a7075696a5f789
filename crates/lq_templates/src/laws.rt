//! What follows from the definitions alone: each law is the contract of a function that does nothing.

ghost use Rattle.std.specs.Prelude.{◌≡◌, List};
ghost use Rattle.lq_tree.specs.declared.plain.PProgram.{PProgram};
ghost use Rattle.lq_templates.specs.Classes.{ClassOf};
ghost use Rattle.lq_templates.specs.Templates.{AreTemplates};
ghost use Rattle.lq_templates.specs.declared.template.Template.{Template};

/// A program has templates, and no two lists of them.
pub fn templates_are_settled()
    ensures some { (p : PProgram) (class_of : ClassOf) → (templates : List Template) × AreTemplates p class_of templates }
    ensures one { (p : PProgram) (class_of : ClassOf) (templates others : List Template)
        → AreTemplates p class_of templates → AreTemplates p class_of others → templates ≡ others }
{}
