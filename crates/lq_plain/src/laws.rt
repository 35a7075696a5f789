//! What follows from the definitions alone: each law is the contract of a function that does nothing.

ghost use Rattle.std.specs.Prelude.{◌≡◌, ◌≢◌, ◌≤◌, List, ℕ, ℤ, None, length, map};
ghost use Rattle.lq_tree.specs.declared.program.Program.{Program};
ghost use Rattle.lq_tree.specs.declared.program.Func.{Func};
ghost use Rattle.lq_tree.specs.declared.plain.PFunc.{PFunc};
ghost use Rattle.lq_tree.specs.declared.limit.Quantity.TheVariants.{SourceBytes};
ghost use Rattle.lq_tree.specs.Limit.{row_of};
ghost use Rattle.lq_tree.specs.Formed.{IsFormed};
ghost use Rattle.lq_lexer.specs.declared.token.Token.{Token};
ghost use Rattle.lq_lexer.specs.Tokens.{Tokens};
ghost use Rattle.lq_lexer.specs.Shape.{IsShapely};
ghost use Rattle.lq_parser.specs.Spelling.{Spells};
ghost use Rattle.lq_meaning.specs.Ending.{Unruled};
ghost use Rattle.lq_meaning.specs.Meaning.{sequential};
ghost use Rattle.lq_meaning.specs.PlainMeaning.{sequential as plain_sequential};
ghost use Rattle.lq_plain.specs.Plain.{plain_program};
ghost use Rattle.lq_names.specs.declared.fault.Fault.{Fault};
ghost use Rattle.lq_names.specs.Broken.{IsBroken};
ghost use Rattle.lq_names.specs.Counts.{counts, first_passed};
ghost use Rattle.lq_plain.specs.Places.{StoresToPlaces};

/// The plain form has the structs of its source, and the functions in their order, by name.
pub fn functions_stay()
    ensures structs { (p : Program) → (plain_program p).structs ≡ p.structs }
    ensures names { (p : Program) → map (λ (f : PFunc). f.name) (plain_program p).funcs ≡ map (λ (f : Func). f.name) p.funcs }
{}

/// The plain form of a source that breaks no name rule, and whose stores go to places, keeps what the source does: its
/// sequential execution ends as that of the source does, and leaves the same world, with any fuel, any words and any input
/// (docs/LANGUAGE.md, "Plain form").
pub fn meaning_stays()
    ensures { (p : Program) → ((fault : Fault) → IsBroken p fault → ⊥) → StoresToPlaces p → (fuel words : ℕ) (input : List ℤ)
        → plain_sequential fuel words (plain_program p) input ≡ sequential fuel words p input }
{}

/// A source that breaks no name rule, and whose stores go to places, never meets a form that has no meaning.
pub fn meanings_have_rules()
    ensures { (p : Program) → ((fault : Fault) → IsBroken p fault → ⊥) → StoresToPlaces p → (fuel words : ℕ) (input : List ℤ)
        → (sequential fuel words p input).ending ≢ Unruled }
{}

/// In a tree that tokens spell each store goes to a place.
pub fn stores_go_to_places()
    ensures { (text : List ℕ) (tokens : List Token) (p : Program) → Spells text tokens p → StoresToPlaces p }
{}

/// The plain form of a source that tokens of a text within its limits spell, which keeps its counts and breaks no name rule,
/// is formed (docs/LANGUAGE.md, "What holds of a plain program").
pub fn plain_is_formed()
    ensures { (text : List ℕ) (tokens : List Token) (p : Program) → Tokens text tokens → length text ≤ (row_of SourceBytes).allowed → IsShapely text tokens → Spells text tokens p
        → first_passed (counts p) ≡ None → ((fault : Fault) → IsBroken p fault → ⊥) → IsFormed (plain_program p) }
{}
