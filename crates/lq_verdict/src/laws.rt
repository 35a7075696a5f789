//! What follows from the definitions alone: each law is the contract of a function that does nothing.

ghost use Rattle.std.specs.Prelude.{◌≡◌, ℕ, List};
ghost use Rattle.lq_tree.specs.declared.plain.PProgram.{PProgram};
ghost use Rattle.lq_linear.specs.Row.{Inequality};
ghost use Rattle.lq_linear.specs.Derivation.{Derives};
ghost use Rattle.lq_linear.specs.declared.item.Item.{Item};
ghost use Rattle.lq_quals.specs.declared.quals.Quals.{Quals};
ghost use Rattle.lq_validity.specs.Mults.{multipliers_for};
ghost use Rattle.lq_templates.specs.declared.condition.Assign.{Assign};
ghost use Rattle.lq_templates.specs.declared.condition.Conditions.{Conditions};
ghost use Rattle.lq_templates.specs.Conditions.{IsPart, IsSolution};
ghost use Rattle.lq_templates.specs.declared.condition.Condition.{Condition};
ghost use Rattle.lq_conditions.specs.Conditions.{IsGoodFor, IsValidFor};
ghost use Rattle.lq_full.specs.Full.{full};
ghost use Rattle.lq_verdict.specs.Verdict.{Accepts, IsGreatestOf};
ghost use Rattle.lq_verdict.specs.Claims.{assign_of};
ghost use Rattle.lq_verdict.specs.Audit.{IsRightFor, IsFirstBadFor};

/// What some items derive, these items with more among them derive.
pub fn more_items_derive_more()
    ensures { (multipliers : List ℕ) (few many : List Item) (goal : Inequality)
        → IsPart few many → Derives multipliers few goal → Derives multipliers many goal }
{}

/// What is good is valid: wherever symbols stand for numbers that meet the facts of a condition, they meet its goals.
pub fn good_assignments_are_valid()
    ensures { (multipliers : List ℕ) (assign : Assign) (list : List Condition)
        → IsGoodFor multipliers assign list → IsValidFor assign list }
{}

/// The assignment by which a program is accepted is a solution: it meets the conditions that ask for rows.
pub fn accepted_programs_meet_their_conditions()
    ensures { (p : PProgram) (quals : Quals) (asked : Conditions) (accepted : Accepts p quals asked)
        → IsSolution (multipliers_for p quals) (full quals asked.templates) asked.list accepted.assign }
{}

/// There is at most one greatest assignment.
pub fn greatest_is_one()
    ensures { (p : PProgram) (quals : Quals) (asked : Conditions) (assign other : Assign)
        → IsGreatestOf p quals asked assign → IsGreatestOf p quals asked other → assign ≡ other }
{}

/// A program is accepted exactly where its greatest assignment is good.
pub fn accepted_where_the_greatest_is_good()
    ensures good { (p : PProgram) (quals : Quals) (asked : Conditions) (greatest : Assign)
        → IsGreatestOf p quals asked greatest → Accepts p quals asked
        → IsGoodFor (multipliers_for p quals) greatest asked.list }
    ensures accepted { (p : PProgram) (quals : Quals) (asked : Conditions) (greatest : Assign)
        → IsGreatestOf p quals asked greatest → IsGoodFor (multipliers_for p quals) greatest asked.list
        → Accepts p quals asked }
{}

/// The rows of a right proof are valid: wherever symbols stand for numbers that meet the facts of a condition, they
/// meet its goals.
pub fn right_proofs_are_valid()
    ensures { (asked : Conditions) (text : List ℕ) (proof : IsRightFor asked text)
        → IsValidFor (assign_of asked.templates proof.lines) asked.list }
{}

/// A right proof has no bad entry, and no file has two first ones.
pub fn first_bad_entry_is_one()
    ensures none { (asked : Conditions) (text : List ℕ) (entry : ℕ)
        → IsRightFor asked text → ¬ IsFirstBadFor asked text entry }
    ensures one { (asked : Conditions) (text : List ℕ) (entry other : ℕ)
        → IsFirstBadFor asked text entry → IsFirstBadFor asked text other → entry ≡ other }
{}
