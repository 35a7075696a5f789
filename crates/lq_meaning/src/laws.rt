//! What follows from the definitions alone: each law is the contract of a function that does nothing.

ghost use Rattle.std.specs.Prelude.{◌≡◌, ◌≢◌, ◌≤◌, ◌<◌, ◌-◌, ℕ, ℤ, false, List, [], Option, pos, length, slice_index_or, All, Some};
ghost use Rattle.std.specs.Option.{is_some};
ghost use Rattle.lq_tree.specs.declared.expr.Expr.{Expr};
ghost use Rattle.lq_tree.specs.declared.place.Place.{Place};
ghost use Rattle.lq_tree.specs.declared.plain.PExpr.{PExpr};
ghost use Rattle.lq_tree.specs.declared.plain.PKind.{PKind};
ghost use Rattle.lq_tree.specs.declared.plain.PProgram.{PProgram};
ghost use Rattle.lq_tree.specs.declared.program.Program.{Program};
ghost use Rattle.lq_tree.specs.declared.stmt.StmtKind.{StmtKind};
ghost use Rattle.lq_tree.specs.Formed.{IsFormed};
ghost use Rattle.lq_meaning.specs.declared.blocks.Span.{Span};
ghost use Rattle.lq_meaning.specs.Memory.{address, lies, word_at};
ghost use Rattle.lq_meaning.specs.Blocks.{Below, Laid, cell_of, OneAddress, memory_of};
ghost use Rattle.lq_meaning.specs.World.{World};
ghost use Rattle.lq_meaning.specs.Ending.{Spent};
ghost use Rattle.lq_meaning.specs.Meaning.{Context, Locals, exec, called, sequential};
ghost use Rattle.lq_meaning.specs.PlainMeaning.{Slots, Context as PlainContext, exec as plain_exec, called as plain_called, sequential as plain_sequential};
ghost use Rattle.lq_meaning.specs.PlainLaws.{CallsGrow as PlainCallsGrow, test as plain_test, exec_by as plain_exec_by};
ghost use Rattle.lq_meaning.specs.Behaviour.{bounded, beginning};
ghost use Rattle.lq_meaning.specs.InOrder.{run_in_order};
ghost use Rattle.lq_meaning.specs.Placed.{IsPlacedFrom};
ghost use Rattle.lq_meaning.specs.Tasks.{IsRegular};
ghost use Rattle.lq_meaning.specs.Laws.{RunGrows, StatementGrows, CallsGrow, Counts, AnyTwoBounds, TurnByTurn, test, exec_by};

/// A run never takes back a cost or a printed number, and its cost keeps within the fuel: no statement does where no
/// call does, no call does, and no whole run does (docs/LANGUAGE.md, "Costs" and "Fuel").
pub fn runs_only_grow()
    ensures statement { (c : Context) → CallsGrow c → (at : Place) (kind : StmtKind) → StatementGrows c.fuel (exec c at kind) }
    ensures call { (program : Program) (fuel more : ℕ) (at : Place) (name : List ℕ) (words : List ℤ)
        → RunGrows fuel (called program fuel more at name words) }
    ensures run { (fuel words : ℕ) (program : Program) (input : List ℤ)
        → (sequential fuel words program input).world.cost ≤ fuel }
{}

/// A run that ended with some fuel comes to the same with more (docs/LANGUAGE.md, "Fuel").
pub fn ended_runs_keep()
    ensures { (fuel more words : ℕ) (program : Program) (input : List ℤ) → fuel ≤ more
        → (sequential fuel words program input).ending ≢ Spent
        → sequential more words program input ≡ sequential fuel words program input }
{}

/// The number of turns on which a loop recurs makes no difference, once it is greater than the fuel that is left: for a
/// head and a body that take nothing back and a test that is counted, as those of statements are (docs/LANGUAGE.md, "Costs").
pub fn bounds_do_not_matter()
    ensures any_two { AnyTwoBounds Locals }
    ensures turn_by_turn { TurnByTurn Locals }
    ensures tests { (c : Context) → CallsGrow c → (at : Place) (condition : Option Expr) → Counts c.fuel (test c at condition) }
    ensures statements { (c : Context) → CallsGrow c → (bound : World → ℕ) → ((w : World) → c.fuel - w.cost < bound w)
        → (at : Place) (kind : StmtKind) (locals : Locals) (w : World)
        → exec c at kind locals w ≡ exec_by bound c at kind locals w }
{}

/// A run of a plain program never takes back a cost or a printed number, and its cost keeps within the fuel: no statement
/// does where no call does, no call does, and no whole run does (docs/LANGUAGE.md, "Costs" and "Fuel").
pub fn plain_runs_only_grow()
    ensures statement { (c : PlainContext) → PlainCallsGrow c → (at : Place) (kind : PKind) → StatementGrows c.fuel (plain_exec c at kind) }
    ensures call { (program : PProgram) (fuel more : ℕ) (at : Place) (function : ℕ) (words : List ℤ)
        → RunGrows fuel (plain_called program fuel more at function words) }
    ensures run { (fuel words : ℕ) (program : PProgram) (input : List ℤ)
        → (plain_sequential fuel words program input).world.cost ≤ fuel }
{}

/// A run of a plain program that ended with some fuel comes to the same with more (docs/LANGUAGE.md, "Fuel").
pub fn ended_plain_runs_keep()
    ensures { (fuel more words : ℕ) (program : PProgram) (input : List ℤ) → fuel ≤ more
        → (plain_sequential fuel words program input).ending ≢ Spent
        → plain_sequential more words program input ≡ plain_sequential fuel words program input }
{}

/// The number of turns on which a loop of a plain program recurs makes no difference, once it is greater than the fuel
/// that is left (docs/LANGUAGE.md, "Costs").
pub fn plain_bounds_do_not_matter()
    ensures any_two { AnyTwoBounds Slots }
    ensures turn_by_turn { TurnByTurn Slots }
    ensures tests { (c : PlainContext) → PlainCallsGrow c → (at : Place) (condition : PExpr) → Counts c.fuel (plain_test c at condition) }
    ensures statements { (c : PlainContext) → PlainCallsGrow c → (bound : World → ℕ) → ((w : World) → c.fuel - w.cost < bound w)
        → (at : Place) (kind : PKind) (slots : Slots) (w : World)
        → plain_exec c at kind slots w ≡ plain_exec_by bound c at kind slots w }
{}

/// The task of a plain program in order is its sequential execution, with any bound on the turns of its loops that is
/// above the fuel (docs/LANGUAGE.md, "Task tree").
pub fn tasks_in_order()
    ensures whole { (fuel words : ℕ) (p : PProgram) (input : List ℤ)
        → run_in_order fuel (beginning fuel words p input) ≡ plain_sequential fuel words p input }
    ensures any_bound { (fuel turns words : ℕ) (p : PProgram) (input : List ℤ) → fuel < turns
        → run_in_order fuel (bounded turns words p input) ≡ plain_sequential fuel words p input }
{}

/// Each leaf of the task of a plain program has the path of its branch, with a number that never falls along its line and
/// rises behind each fork (docs/LANGUAGE.md, "Races").
pub fn tasks_are_placed()
    ensures { (p : PProgram) (turns words : ℕ) (input : List ℤ) → IsPlacedFrom (bounded turns words p input).task [] 0 }
{}

/// In the task of a formed plain program no leaf is stuck within the bound on the turns of its loops, and no branch prints
/// or allocates (docs/LANGUAGE.md, "What holds of a plain program").
pub fn formed_programs_have_regular_tasks()
    ensures { (p : PProgram) → IsFormed p → (turns words : ℕ) (input : List ℤ) → IsRegular (bounded turns words p input).task turns false }
{}

/// Where blocks lie among cells, each address has its own cell (docs/LANGUAGE.md, "Memory").
pub fn addresses_have_their_own_cells()
    ensures { (spans : List Span) → Laid spans → OneAddress spans }
{}

/// In the memory that is taken from the cells of blocks, an address lies in its block where it has a cell, and has the
/// word that stands there (docs/LANGUAGE.md, "Memory").
pub fn words_stand_in_cells()
    ensures lies { (spans : List Span) (words : List ℤ) (block element field : ℕ) → All (Below (length words)) spans
        → lies (memory_of spans words) (address block element field) ≡ is_some (cell_of spans block (pos element) field) }
    ensures word { (spans : List Span) (words : List ℤ) (block element field cell : ℕ)
        → cell_of spans block (pos element) field ≡ Some cell
        → word_at (memory_of spans words) (address block element field) ≡ slice_index_or words cell (pos 0) }
{}
