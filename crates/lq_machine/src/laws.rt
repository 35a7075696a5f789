//! What follows from the definitions alone: each law is the contract of a function that does nothing.

ghost use Rattle.std.specs.Prelude.{◌≡◌, ◌≢◌, ◌<◌, ℕ, ℤ, List};
ghost use Rattle.std.specs.List.{AllByRecursion};
ghost use Rattle.lq_tree.specs.declared.plain.PProgram.{PProgram};
ghost use Rattle.lq_tree.specs.Formed.{IsFormed};
ghost use Rattle.lq_meaning.specs.World.{World};
ghost use Rattle.lq_meaning.specs.Ending.{Ending, Unruled};
ghost use Rattle.lq_meaning.specs.Behaviour.{bounded};
ghost use Rattle.lq_meaning.specs.PlainMeaning.{sequential};
ghost use Rattle.lq_meaning.specs.Task.{Ended};
ghost use Rattle.lq_machine.specs.Run.{run};
ghost use Rattle.lq_machine.specs.Replay.{run_from, log_from, replay, replay_log};

use lq_meaning::{formed_programs_have_regular_tasks, tasks_in_order};

/// A task that has ended ends the run as it is, whatever is picked and however much fuel is left.
pub fn ended_tasks_stay()
    ensures { (fuel : ℕ) (picks : List ℕ) (ending : Ending) (w : World)
        → run fuel picks (Ended ending) w ≡ record { ending = ending; world = w } }
{}

/// Where the first leaf is picked at each step, the run of a formed plain program is its sequential execution
/// (docs/LANGUAGE.md, "Steps and picks").
pub fn first_leaves_run_in_order()
    ensures { (p : PProgram) → IsFormed p → (fuel words : ℕ) (input : List ℤ) (picks : List ℕ)
        → AllByRecursion (λ pick. pick ≡ 0) picks → replay fuel words p input picks ≡ sequential fuel words p input }
{
    tasks_in_order();
    formed_programs_have_regular_tasks();
}

/// The bound on the turns of loops makes no difference to runs and logs, once it is above the fuel.
pub fn bounds_of_tasks_do_not_matter()
    ensures outcomes { (p : PProgram) (fuel turns words : ℕ) (input : List ℤ) (picks : List ℕ) → fuel < turns
        → run_from fuel picks (bounded turns words p input) ≡ replay fuel words p input picks }
    ensures logs { (p : PProgram) (fuel turns words : ℕ) (input : List ℤ) (picks : List ℕ) → fuel < turns
        → log_from fuel picks (bounded turns words p input) ≡ replay_log fuel words p input picks }
{}

/// A replay of a formed plain program never ends for want of a rule (docs/LANGUAGE.md, "What holds of a plain program").
pub fn replays_have_rules()
    ensures { (p : PProgram) → IsFormed p → (fuel words : ℕ) (input : List ℤ) (picks : List ℕ) → (replay fuel words p input picks).ending ≢ Unruled }
{
    formed_programs_have_regular_tasks();
}
