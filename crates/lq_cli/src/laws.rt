//! What follows from the definitions alone: a law is the contract of a function that does no work.

ghost use Rattle.std.specs.Prelude.{◌≢◌, ℕ, ℤ, pos, List, map};
ghost use Rattle.lq_tree.specs.declared.program.Program.{Program};
ghost use Rattle.lq_meaning.specs.Meaning.{sequential};
ghost use Rattle.lq_cli.specs.declared.numbers.NumbersFile.TheVariants.{Picks};
ghost use Rattle.lq_cli.specs.CleanReplays.{AsksForClean};
ghost use Rattle.lq_cli.specs.Ends.{Ends};
ghost use Rattle.lq_cli.specs.Laws.{OneAnswer, TellsFiles, NoneFailed};
ghost use Rattle.lq_cli.specs.Liquid.{Answers};
ghost use Rattle.lq_cli.specs.Numbers.{AreNumbers};
ghost use Rattle.lq_cli.specs.Seen.{Seen};
ghost use Rattle.lq_cli.specs.commands.Replay.{Replay};

use lq_alone::clean_sources_run_alike;
use lq_lexer::laws::{fault_is_one, tokens_are_one, tokens_or_fault_alone};
use lq_names::one_least_fault;
use lq_parser::laws::tree_is_one;
use lq_plain::{meanings_have_rules, stores_go_to_places};
use lq_text::{one_fault, one_list, one_value};

/// The words of a command line have at most one answer by what the files hold, where the shelf tells that and no fetch
/// failed; where one failed, it is that one or the read fault (docs/COMMANDS.md, "Statuses").
pub fn one_answer()
    ensures { OneAnswer }
{
    one_value();
    one_list();
    one_fault();
    tokens_are_one();
    fault_is_one();
    tokens_or_fault_alone();
    tree_is_one();
    lq_parser::laws::fault_is_one();
    one_least_fault();
}

/// The replay of a source that is clean on its input tells neither a stray nor a race, and under every list of picks it
/// tells the sequential execution of the source (docs/CHECKING.md, "What acceptance promises").
pub fn clean_replays_run_in_order()
    ensures no_race { (words : List (List ℕ)) (s : Seen) → TellsFiles s → (c : Replay) (tree : Program) (given : List ℤ) → AsksForClean words s.held c tree given
        → (status : ℕ) (bytes : List ℕ) → Answers words s status bytes → (status ≢ 13) × (status ≢ 14) }
    ensures in_order { (words : List (List ℕ)) (s : Seen) → TellsFiles s → NoneFailed s → (c : Replay) (tree : Program) (given : List ℤ) (picked : List ℕ)
        → AsksForClean words s.held c tree given → AreNumbers s.held Picks c.picks (map pos picked)
        → (status : ℕ) (bytes : List ℕ) → Answers words s status bytes → Ends (sequential c.fuel c.words tree given) status bytes }
{
    one_answer();
    one_value();
    one_list();
    tokens_are_one();
    tree_is_one();
    stores_go_to_places();
    meanings_have_rules();
    clean_sources_run_alike();
}
