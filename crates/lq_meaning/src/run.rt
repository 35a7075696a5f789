//! Runs a plain program in order (docs/LANGUAGE.md, "Sequential execution").

ghost use Rattle.std.specs.Prelude.{◌≡◌, ◌≢◌, ℕ, suc, ◌+◌, ◌^◌, ◌<◌, ◌≤◌, List, [], length, Some, Option, OnOk, IfOk, IfErr, IfSome, IfNone, IsSomeAnd, IsErrOf};
ghost use Rattle.lq_tree.specs.Formed.{IsFormed};
ghost use Rattle.lq_shelf.specs.Faults.{Rose};
ghost use Rattle.lq_shelf.specs.Sink.{Appends, AppendsPrefix};
ghost use Rattle.lq_meaning.specs.declared.line.Standing.TheVariants.{Due};
ghost use Rattle.lq_meaning.specs.Ending.{Unruled, Outcome};
ghost use Rattle.lq_meaning.specs.PlainMeaning.{sequential as plain_sequential};
ghost use Rattle.lq_meaning.specs.Behaviour.{bounded, context, main_task};
ghost use Rattle.lq_meaning.specs.InOrder.{run_in_order};
ghost use Rattle.lq_meaning.specs.Heap.{heap_world};
ghost use Rattle.lq_meaning.specs.Line.{standing_of};
ghost use Rattle.lq_meaning.specs.End.{Tells, IsOfRun, IsSinkFault};
ghost use Rattle.lq_meaning.specs.Printed.{number_lines};
ghost use Rattle.lq_meaning.specs.Runner.{IsUnderWay, Halts, Opens, begins_with, end_of};

use crate::heap::{Acted, Heap};
use crate::laws::{formed_programs_have_regular_tasks, tasks_in_order};
use crate::line::{Line, Standing};
use crate::lines::{Caught, Lines, Turn};
use crate::pointer::input_pointer;
use crate::printing::put_action;
use crate::{Action, End, Memory};
use lq_shelf::{Put, Sink};
use lq_tree::{PFunc, PProgram, Place, TrapKind};
use std::alloc::{AllocError, Global};

// Why a run goes on no more.
#[derive(Clone, Copy, Debug, PartialEq)]
enum Halt {
    Done,
    Trapped(Caught),
    Strayed(Place),
    Spent,
    Unruled,
    SinkFault,
    NoMemory,
}

impl From<AllocError> for Halt {
    ghost use Rattle.lq_meaning.specs.declared.run.Halt.TheVariants.{NoMemory};

    ghost from_gives = { λ _ halt. halt ≡ NoMemory };

    fn from(_: AllocError) -> Self {
        Halt::NoMemory
    }
}

impl From<Put> for Halt {
    ghost use Rattle.lq_meaning.specs.Runner.{halt_of};

    ghost from_gives = { λ put halt. halt ≡ halt_of put };

    fn from(put: Put) -> Self {
        match put {
            Put::Failed => Halt::SinkFault,
            Put::NoMemory => Halt::NoMemory,
        }
    }
}

// A run in progress: its heap, its cost so far, and its lines.
#[derive(Drop)]
struct Runner<'a> {
    heap: Heap,
    cost: u64,
    lines: Lines<'a>,
}

impl<'a> Runner<'a> {
    // Does the action that is due on the line on top.
    fn act<K: Sink>(
        &mut self,
        alloc: Global,
        p: &'a PProgram,
        fuel: u64,
        action: Action,
        at: Place,
        out: &mut K,
    ) -> Result<Turn, Halt>
        requires due { standing_of self.old.lines.top ≡ Due action at }
        requires within { self.old.cost ≤ fuel }
        ensures within { self.new.cost ≤ fuel }
        ensures goes_on { IfOk result (λ turn. (start : Option (List ℕ)) (o : Outcome) → IsUnderWay p.now fuel start (K.written out.old) self.old Turn.Run o
            → IsUnderWay p.now fuel start (K.written out.new) self.new turn o) }
        ensures halts { IfErr result (λ halt. (start : Option (List ℕ)) (o : Outcome) → IsUnderWay p.now fuel start (K.written out.old) self.old Turn.Run o
            → Halts halt self.new start (K.written out.new) o) }
        ensures failed { IsErrOf result Halt.SinkFault → Rose (K.faults out.old) (K.faults out.new) }
        ensures other { (IsErrOf result Halt.SinkFault → ⊥) → K.faults out.new ≡ K.faults out.old }
    {
        if self.cost == fuel {
            return Err(Halt::Spent);
        }
        let acted = self.heap.act(alloc, action)?;
        self.cost += 1;
        put_action(alloc, action, out)?;
        match acted {
            Acted::Answer(word) => {
                self.lines.top.answer(p, word)?;
                Ok(Turn::Run)
            }
            Acted::Trap(kind) => Ok(Turn::Leave(Some(Caught { kind, at }))),
            Acted::Stray => Err(Halt::Strayed(at)),
        }
    }

    // Leaves the line on top. The run ends with it where it was in no fork.
    fn leave(&mut self, p: &'a PProgram, trap: Option<Caught>) -> Result<Turn, Halt>
        ensures heap { self.new.heap ≡ self.old.heap }
        ensures cost { self.new.cost ≡ self.old.cost }
        ensures goes_on { IfOk result (λ turn. (fuel : ℕ) (start now : Option (List ℕ)) (o : Outcome) → IsUnderWay p.now fuel start now self.old (Turn.Leave trap) o
            → IsUnderWay p.now fuel start now self.new turn o) }
        ensures halts { IfErr result (λ halt. (fuel : ℕ) (start now : Option (List ℕ)) (o : Outcome) → IsUnderWay p.now fuel start now self.old (Turn.Leave trap) o
            → Halts halt self.new start now o) }
        ensures no_sink { IsErrOf result Halt.SinkFault → ⊥ }
    {
        match (self.lines.leave(p, trap)?, trap) {
            (Some(turn), _) => Ok(turn),
            (None, None) => Err(Halt::Done),
            (None, Some(caught)) => Err(Halt::Trapped(caught)),
        }
    }

    // Does what comes next.
    fn turn<K: Sink>(
        &mut self,
        alloc: Global,
        p: &'a PProgram,
        fuel: u64,
        turn: Turn,
        out: &mut K,
    ) -> Result<Turn, Halt>
        requires { self.old.cost ≤ fuel }
        ensures within { self.new.cost ≤ fuel }
        ensures goes_on { IfOk result (λ next. (start : Option (List ℕ)) (o : Outcome) → IsUnderWay p.now fuel start (K.written out.old) self.old turn o
            → IsUnderWay p.now fuel start (K.written out.new) self.new next o) }
        ensures halts { IfErr result (λ halt. (start : Option (List ℕ)) (o : Outcome) → IsUnderWay p.now fuel start (K.written out.old) self.old turn o
            → Halts halt self.new start (K.written out.new) o) }
        ensures failed { IsErrOf result Halt.SinkFault → Rose (K.faults out.old) (K.faults out.new) }
        ensures other { (IsErrOf result Halt.SinkFault → ⊥) → K.faults out.new ≡ K.faults out.old }
    {
        if let Turn::Leave(trap) = turn {
            return self.leave(p, trap);
        }
        match self.lines.top.standing() {
            Standing::Done => Ok(Turn::Leave(None)),
            Standing::Trapped { kind, at } => Ok(Turn::Leave(Some(Caught { kind, at }))),
            Standing::Due { action, at } => self.act(alloc, p, fuel, action, at, out),
            Standing::Fork => Ok(self.lines.enter(p)?),
            Standing::Unruled => Err(Halt::Unruled),
        }
    }

    // Goes on to the end of the run.
    fn run<K: Sink>(&mut self, alloc: Global, p: &'a PProgram, fuel: u64, out: &mut K) -> Halt
        requires { self.old.cost ≤ fuel }
        ensures halts { (start : Option (List ℕ)) (o : Outcome) → IsUnderWay p.now fuel start (K.written out.old) self.old Turn.Run o → Halts result self.new start (K.written out.new) o }
        ensures failed { result ≡ Halt.SinkFault → Rose (K.faults out.old) (K.faults out.new) }
        ensures other { result ≢ Halt.SinkFault → K.faults out.new ≡ K.faults out.old }
    {
        // Turns are counted since no measure is proved: one with an action adds to the cost, which the fuel bounds, and one
        // without makes the tree of what is left smaller. The count of 2^64 stands in for that measure; behind it, where no
        // run comes, the answer is want of memory.
        let mut turn = Turn::Run;
        for _ in 0..u64::MAX {
            match self.turn(alloc, p, fuel, turn, out) {
                Ok(next) => turn = next,
                Err(halt) => return halt,
            }
        }
        Halt::NoMemory
    }

    // The end of the run, by why it goes on no more. None where it came to a form without a rule.
    fn end(self, halt: Halt) -> Option<End>
        ensures { result ≡ end_of self.entry halt }
    {
        let Runner { heap, cost, .. } = self;
        let memory = heap.memory;
        match halt {
            Halt::Done => Some(End::Done { memory, cost }),
            Halt::Trapped(Caught { kind, at }) => Some(End::Trap {
                kind,
                at,
                memory,
                cost,
            }),
            Halt::Strayed(at) => Some(End::Stray { at }),
            Halt::Spent => Some(End::Fuel),
            Halt::SinkFault => Some(End::SinkFault),
            Halt::NoMemory => Some(End::NoMemory),
            Halt::Unruled => None,
        }
    }
}

// How a run begins: in `main`, or refused there, where the input does not fit into the words. There may be no `main`.
#[derive(Drop)]
enum Opening<'a> {
    Ready(Runner<'a>),
    Refused(Place),
    Missing,
}

// The run before its first action, in `main` on these arguments.
fn begin<'a>(
    alloc: Global,
    p: &'a PProgram,
    main: &'a PFunc,
    arguments: &[i64],
    heap: Heap,
) -> Result<Opening<'a>, AllocError>
    ensures { IfOk result (λ opening. begins_with p.now main.now arguments.now heap opening) }
{
    let mut line = Line::new(alloc);
    line.begin(p, main, arguments)?;
    Ok(Opening::Ready(Runner {
        heap,
        cost: 0,
        lines: Lines::new(alloc, line),
    }))
}

// How the run of a program begins on an input.
fn open<'a>(
    alloc: Global,
    p: &'a PProgram,
    input: &[i64],
    words: u32,
) -> Result<Opening<'a>, AllocError>
    ensures { IfOk result (λ opening. (fuel : ℕ) → Opens p.now fuel words (run_in_order fuel (bounded (suc fuel) words p.now input.now)) opening) }
{
    let Some(main) = p.funcs.get(p.main as usize) else {
        return Ok(Opening::Missing);
    };
    if main.params == 0 {
        return begin(alloc, p, main, &[], Heap::new(alloc, words));
    }
    if input.len() > words as usize {
        return Ok(Opening::Refused(main.at));
    }
    let heap = Heap::on_input(alloc, input, words)?;
    let arguments = [input_pointer(input), input.len() as i64];
    begin(alloc, p, main, &arguments, heap)
}

// Runs any plain program in order. None where it comes to a form without a rule.
pub(crate) fn run_any<K: Sink>(
    alloc: Global,
    p: &PProgram,
    input: &[i64],
    fuel: u64,
    words: u32,
    out: &mut K,
) -> Option<End>
    ensures tells { IfSome result (λ end. Tells end (plain_sequential fuel words p.now input.now)) }
    ensures all { IfSome result (λ end. IsOfRun end → Appends (K.written out.old) (K.written out.new) (number_lines (plain_sequential fuel words p.now input.now).world.printed)) }
    ensures prefix { AppendsPrefix (K.written out.old) (K.written out.new) (number_lines (plain_sequential fuel words p.now input.now).world.printed) }
    ensures failed { IsSomeAnd result IsSinkFault → Rose (K.faults out.old) (K.faults out.new) }
    ensures other { (IsSomeAnd result IsSinkFault → ⊥) → K.faults out.new ≡ K.faults out.old }
    ensures none { IfNone result ((plain_sequential fuel words p.now input.now).ending ≡ Unruled) }
{
    tasks_in_order();
    match open(alloc, p, input, words) {
        Err(AllocError) => Some(End::NoMemory),
        Ok(Opening::Missing) => None,
        Ok(Opening::Refused(at)) => Some(End::Trap {
            kind: TrapKind::Words,
            at,
            memory: Memory::new(alloc),
            cost: 0,
        }),
        Ok(Opening::Ready(mut runner)) => {
            let halt = runner.run(alloc, p, fuel, out);
            runner.end(halt)
        }
    }
}

/// Runs a plain program in order on an input, and writes what it prints, a line a number. Whatever is answered, the
/// first of these lines were written.
pub fn run_seq<K: Sink>(
    alloc: Global,
    p: &PProgram,
    input: &[i64],
    fuel: u64,
    words: u32,
    out: &mut K,
) -> End
    requires formed { IsFormed p.now }
    requires fuel { fuel ≤ 2 ^ 40 }
    requires words { words ≤ 1048576 }
    ensures tells { Tells result (plain_sequential fuel words p.now input.now) }
    ensures all { IsOfRun result → Appends (K.written out.old) (K.written out.new) (number_lines (plain_sequential fuel words p.now input.now).world.printed) }
    ensures prefix { AppendsPrefix (K.written out.old) (K.written out.new) (number_lines (plain_sequential fuel words p.now input.now).world.printed) }
    ensures failed { IsSinkFault result → Rose (K.faults out.old) (K.faults out.new) }
    ensures other { (IsSinkFault result → ⊥) → K.faults out.new ≡ K.faults out.old }
{
    tasks_in_order();
    formed_programs_have_regular_tasks();
    match run_any(alloc, p, input, fuel, words, out) {
        Some(end) => end,
        None => unreachable!(),
    }
}
