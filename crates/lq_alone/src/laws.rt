//! What follows from the definitions alone: each law is the contract of a function that does nothing.

ghost use Rattle.std.specs.Prelude.{◌≡◌, ◌≢◌, ◌+◌, ◌<◌, ◌≤◌, ◌^◌, ℕ, ℤ, true, IsTrue, List, length, None};
ghost use Rattle.lq_tree.specs.declared.place.Place.{Place};
ghost use Rattle.lq_tree.specs.declared.limit.Quantity.TheVariants.{SourceBytes};
ghost use Rattle.lq_tree.specs.declared.plain.PProgram.{PProgram};
ghost use Rattle.lq_tree.specs.declared.program.Program.{Program};
ghost use Rattle.lq_tree.specs.Formed.{IsFormed};
ghost use Rattle.lq_tree.specs.Limit.{row_of};
ghost use Rattle.lq_lexer.specs.declared.token.Token.{Token};
ghost use Rattle.lq_lexer.specs.Tokens.{Tokens};
ghost use Rattle.lq_lexer.specs.Shape.{IsShapely};
ghost use Rattle.lq_parser.specs.Spelling.{Spells};
ghost use Rattle.lq_names.specs.declared.fault.Fault.{Fault};
ghost use Rattle.lq_names.specs.Broken.{IsBroken};
ghost use Rattle.lq_names.specs.Counts.{counts, first_passed};
ghost use Rattle.lq_meaning.specs.declared.memory.Address.{Address};
ghost use Rattle.lq_meaning.specs.Memory.{lies, word_at};
ghost use Rattle.lq_meaning.specs.World.{World};
ghost use Rattle.lq_meaning.specs.Ending.{Ending, Strayed, Spent};
ghost use Rattle.lq_meaning.specs.Meaning.{sequential as source_sequential};
ghost use Rattle.lq_meaning.specs.PlainMeaning.{sequential};
ghost use Rattle.lq_meaning.specs.Task.{Task, Ended, has_ended};
ghost use Rattle.lq_meaning.specs.Tasks.{IsRegular};
ghost use Rattle.lq_meaning.specs.Behaviour.{beginning};
ghost use Rattle.lq_log.specs.Race.{IsRaceFree};
ghost use Rattle.lq_machine.specs.Replay.{replay, replay_log};
ghost use Rattle.lq_plain.specs.Plain.{plain_program};
ghost use Rattle.lq_plain.specs.Places.{StoresToPlaces};
ghost use Rattle.lq_alone.specs.Alone.{alone};
ghost use Rattle.lq_alone.specs.Clean.{clean, IsClean};
ghost use Rattle.lq_alone.specs.Frame.{HasSameBlocks, HasSameWords, IsUnwritten, DoesTheSame};
ghost use Rattle.lq_alone.specs.Interleavings.{RunsAs};
ghost use Rattle.lq_alone.specs.declared.slice.Slice.{Slice};
ghost use Rattle.lq_alone.specs.Slice.{program};
ghost use Rattle.lq_alone.specs.Literal.{IsAccepted};

use lq_machine::first_leaves_run_in_order;
use lq_meaning::{formed_programs_have_regular_tasks, tasks_are_placed};
use lq_plain::{meaning_stays, plain_is_formed, stores_go_to_places};

/// A task that has ended is clean.
pub fn ended_tasks_are_clean()
    ensures { (fuel : ℕ) (ending : Ending) (w : World) → IsTrue (has_ended (Ended ending)) → clean fuel (Ended ending) w ≡ true }
{}

/// Every interleaving of a clean program is its sequential execution: whatever the picks, no access is a stray, no two
/// accesses race, and the run has the ending, the printed numbers and the cost of the sequential execution, and its memory
/// too unless the fuel is spent (docs/CHECKING.md, "What acceptance promises").
pub fn clean_programs_run_alike()
    ensures no_stray { (p : PProgram) → IsFormed p → (input : List ℤ) (words : ℕ) → IsClean p input words
        → (fuel : ℕ) → fuel ≤ 2 ^ 40 → (picks : List ℕ) (at : Place) → (replay fuel words p input picks).ending ≢ Strayed at }
    ensures no_race { (p : PProgram) → IsFormed p → (input : List ℤ) (words : ℕ) → IsClean p input words
        → (fuel : ℕ) → fuel ≤ 2 ^ 40 → (picks : List ℕ) → IsRaceFree (replay_log fuel words p input picks) }
    ensures printed { (p : PProgram) → IsFormed p → (input : List ℤ) (words : ℕ) → IsClean p input words
        → (fuel : ℕ) → fuel ≤ 2 ^ 40 → (picks : List ℕ)
        → (replay fuel words p input picks).world.printed ≡ (sequential fuel words p input).world.printed }
    ensures ending { (p : PProgram) → IsFormed p → (input : List ℤ) (words : ℕ) → IsClean p input words
        → (fuel : ℕ) → fuel ≤ 2 ^ 40 → (picks : List ℕ)
        → (replay fuel words p input picks).ending ≡ (sequential fuel words p input).ending }
    ensures cost { (p : PProgram) → IsFormed p → (input : List ℤ) (words : ℕ) → IsClean p input words
        → (fuel : ℕ) → fuel ≤ 2 ^ 40 → (picks : List ℕ)
        → (replay fuel words p input picks).world.cost ≡ (sequential fuel words p input).world.cost }
    ensures memory { (p : PProgram) → IsFormed p → (input : List ℤ) (words : ℕ) → IsClean p input words
        → (fuel : ℕ) → fuel ≤ 2 ^ 40 → (picks : List ℕ) → (sequential fuel words p input).ending ≢ Spent
        → (replay fuel words p input picks).world.memory ≡ (sequential fuel words p input).world.memory }
{
    formed_programs_have_regular_tasks();
    tasks_are_placed();
    first_leaves_run_in_order();
}

/// The same of sources, with the sequential execution of the source: of each that breaks no name rule and whose stores go to
/// places, where its plain form is formed and clean; and of each that the tokens of a text within its limits spell, and that
/// keeps its counts and breaks no name rule, where its plain form is clean.
pub fn clean_sources_run_alike()
    ensures well_named { (p : Program) → ((fault : Fault) → IsBroken p fault → ⊥) → StoresToPlaces p → IsFormed (plain_program p)
        → (input : List ℤ) (words : ℕ) → IsClean (plain_program p) input words → (fuel : ℕ) → fuel ≤ 2 ^ 40 → (picks : List ℕ)
        → RunsAs (plain_program p) input words fuel picks (source_sequential fuel words p input) }
    ensures spelled { (text : List ℕ) (tokens : List Token) (p : Program) → Tokens text tokens → length text ≤ (row_of SourceBytes).allowed
        → IsShapely text tokens → Spells text tokens p → first_passed (counts p) ≡ None → ((fault : Fault) → IsBroken p fault → ⊥)
        → (input : List ℤ) (words : ℕ) → IsClean (plain_program p) input words → (fuel : ℕ) → fuel ≤ 2 ^ 40 → (picks : List ℕ)
        → RunsAs (plain_program p) input words fuel picks (source_sequential fuel words p input) }
{
    clean_programs_run_alike();
    meaning_stays();
    stores_go_to_places();
    plain_is_formed();
}

/// Branches alone of a clean program come to its sequential execution: they have its ending, its printed numbers and its
/// cost, and its memory too unless the fuel is spent (docs/CHECKING.md, "What acceptance promises").
pub fn clean_branches_alone_run_in_order()
    ensures ending { (p : PProgram) → IsFormed p → (input : List ℤ) (words : ℕ) → IsClean p input words
        → (fuel : ℕ) → fuel ≤ 2 ^ 40
        → let b = beginning fuel words p input in
        (alone fuel b.task b.world).ending ≡ (sequential fuel words p input).ending }
    ensures printed { (p : PProgram) → IsFormed p → (input : List ℤ) (words : ℕ) → IsClean p input words
        → (fuel : ℕ) → fuel ≤ 2 ^ 40
        → let b = beginning fuel words p input in
        (alone fuel b.task b.world).world.printed ≡ (sequential fuel words p input).world.printed }
    ensures cost { (p : PProgram) → IsFormed p → (input : List ℤ) (words : ℕ) → IsClean p input words
        → (fuel : ℕ) → fuel ≤ 2 ^ 40
        → let b = beginning fuel words p input in
        (alone fuel b.task b.world).world.cost ≡ (sequential fuel words p input).world.cost }
    ensures memory { (p : PProgram) → IsFormed p → (input : List ℤ) (words : ℕ) → IsClean p input words
        → (fuel : ℕ) → fuel ≤ 2 ^ 40 → (sequential fuel words p input).ending ≢ Spent
        → let b = beginning fuel words p input in
        (alone fuel b.task b.world).world.memory ≡ (sequential fuel words p input).world.memory }
{
    formed_programs_have_regular_tasks();
    first_leaves_run_in_order();
}

/// A branch keeps to its frame: from another world of the same cost, which has the same words at the addresses that it
/// accesses, in blocks of the same sizes, it does the same, and it leaves all other words there as they are.
pub fn branches_keep_to_their_frame()
    ensures same { (fuel n : ℕ) (task : Task) (w there : World) → IsRegular task n true → fuel < w.cost + n → there.cost ≡ w.cost
        → HasSameBlocks w.memory there.memory → HasSameWords (alone fuel task w).accesses w.memory there.memory
        → DoesTheSame (alone fuel task w) (alone fuel task there) }
    ensures others { (fuel n : ℕ) (task : Task) (w there : World) (x : Address) → IsRegular task n true → fuel < w.cost + n → there.cost ≡ w.cost
        → HasSameBlocks w.memory there.memory → HasSameWords (alone fuel task w).accesses w.memory there.memory
        → IsUnwritten (alone fuel task w).accesses x → IsTrue (lies there.memory x)
        → word_at (alone fuel task there).world.memory x ≡ word_at there.memory x }
{}

/// A slice that the literal check accepts is clean on every input and with all words (docs/CHECKING.md, "The literal check").
pub fn accepted_slices_are_clean()
    ensures { (name : List ℕ) (s : Slice) → IsAccepted s → (input : List ℤ) (words : ℕ) → IsClean (plain_program (program name s)) input words }
{}
