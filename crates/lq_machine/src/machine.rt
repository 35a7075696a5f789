//! The task machine: a program one costed action at a time, under picks (docs/LANGUAGE.md, "Steps and picks").

ghost use Rattle.std.specs.Prelude.{◌≡◌, ◌<◌, ◌≤◌, ◌+◌, ◌++◌, ◌∷◌, ℕ, ℤ, List, [], Option, None, IfOk, IfSome, OnOk, OnErr, IsErrOf};
ghost use Rattle.std.specs.Option.{option_to_list};
ghost use Rattle.lq_tree.specs.declared.plain.PProgram.{PProgram};
ghost use Rattle.lq_shelf.specs.Faults.{Rose};
ghost use Rattle.lq_meaning.specs.declared.heap.Heap.{Heap};
ghost use Rattle.lq_meaning.specs.Behaviour.{context, main_task};
ghost use Rattle.lq_meaning.specs.Control.{trapped};
ghost use Rattle.lq_meaning.specs.Entry as spec;
ghost use Rattle.lq_meaning.specs.declared.line.Standing.TheVariants.{Due};
ghost use Rattle.lq_meaning.specs.Heap.{heap_world};
ghost use Rattle.lq_meaning.specs.Line.{task_of, standing_of, IsBelow};
ghost use Rattle.lq_meaning.specs.Task.{Task, Ended};
ghost use Rattle.lq_machine.specs.declared.machine.StepFault.TheVariants.{SinkFault};
ghost use Rattle.lq_machine.specs.Forest.{over_by};
ghost use Rattle.lq_machine.specs.Around.{Crumb, way_of, branches_in, FitsAround};
ghost use Rattle.lq_machine.specs.Step.{runnable, access, logged};
ghost use Rattle.lq_machine.specs.Machine.{Stands, runnable_in, machine_world, Begins, Starts, Acts, Makes, Tries};

use crate::machine::forest::{DEEPEST, Forest, Seat};
use lq_log::{Entry, Path};
use lq_meaning::{Acted, Action, Address, Heap, Line, Standing, input_pointer, put_action};
use lq_shelf::{Put, Sink};
use lq_tree::{PFunc, PProgram, Place, TrapKind};
use std::alloc::{AllocError, Global};

mod forest;

pub use forest::Caught;

/// Why a step was not made.
#[derive(Clone, Copy, Debug, PartialEq)]
pub enum StepFault {
    /// The sink failed, and may have written the first ones of the bytes of a line.
    SinkFault,
    /// There was no memory.
    NoMemory,
}

impl From<AllocError> for StepFault {
    ghost use Rattle.lq_machine.specs.declared.machine.StepFault.TheVariants.{NoMemory};

    ghost from_gives = { λ _ fault. fault ≡ NoMemory };

    fn from(_: AllocError) -> Self {
        StepFault::NoMemory
    }
}

impl From<Put> for StepFault {
    ghost use Rattle.lq_machine.specs.Fault.{fault_of};

    ghost from_gives = { λ put fault. fault ≡ fault_of put };

    fn from(put: Put) -> Self {
        match put {
            Put::Failed => StepFault::SinkFault,
            Put::NoMemory => StepFault::NoMemory,
        }
    }
}

/// The task of a program, with its memory, its cost so far and the log of its accesses. Contracts see the task for each
/// bound on the turns of loops that is above the cost.
#[derive(Drop)]
pub struct Machine<'a> {
    alloc: Global,
    // The task: the lines of execution, and the forks above them.
    forest: Forest<'a>,
    /// The memory, and the words that are left for a calloc.
    pub heap: Heap,
    /// What the steps cost so far.
    pub cost: u64,
    /// The accesses so far, in the order of the steps.
    pub log: Vec<Entry>,
    stray: Option<Place>,
    // The nodes above the leaf of a step, kept for the memory that they take.
    way: Vec<usize>,
}

// The machine of a line alone, with this heap.
fn machine_of<'a>(
    alloc: Global,
    p: &'a PProgram,
    line: Line<'a>,
    heap: Heap,
) -> Result<Machine<'a>, AllocError>
    ensures { IfOk result (λ m. IsBelow 1 line.entry → Begins p.now m heap (λ turns. task_of p.now turns [] 0 line.entry)) }
{
    let mut forest = Forest::new(alloc)?;
    let seat = Seat {
        node: 0,
        number: 0,
        passed: 0,
    };
    forest.settle(p, seat, line, DEEPEST)?;
    Ok(Machine {
        alloc,
        forest,
        heap,
        cost: 0,
        log: Vec::new(alloc),
        stray: None,
        way: Vec::new(alloc),
    })
}

// The machine of `main` on these arguments, with this heap.
fn begin<'a>(
    alloc: Global,
    p: &'a PProgram,
    main: &'a PFunc,
    arguments: &[i64],
    heap: Heap,
) -> Result<Machine<'a>, AllocError>
    ensures { IfOk result (λ m. Begins p.now m heap (λ turns. main_task (context p.now turns) (Some main.now) arguments.now)) }
{
    let mut line = Line::new(alloc);
    line.begin(p, main, arguments)?;
    machine_of(alloc, p, line, heap)
}

// The machine of a program whose input does not fit into the words.
fn refused<'a>(alloc: Global, at: Place, words: u32) -> Result<Machine<'a>, AllocError>
    ensures { IfOk result (λ m. (p : PProgram) → (heap : Heap) × (heap_world heap 0 [] ≡ spec.start words) × Begins p m heap (λ _. Ended (trapped TrapKind.Words at))) }
{
    let mut forest = Forest::new(alloc)?;
    let seat = Seat {
        node: 0,
        number: 0,
        passed: 0,
    };
    let trap = Caught {
        kind: TrapKind::Words,
        at,
    };
    forest.end(seat, Some(trap));
    Ok(Machine {
        alloc,
        forest,
        heap: Heap::new(alloc, words),
        cost: 0,
        log: Vec::new(alloc),
        stray: None,
        way: Vec::new(alloc),
    })
}

/// The machine before the first step of a program on an input, with so many words.
pub fn start<'a>(
    alloc: Global,
    p: &'a PProgram,
    input: &[i64],
    words: u32,
) -> Result<Machine<'a>, AllocError>
    ensures { IfOk result (λ m. Starts p.now words input.now m) }
{
    let Some(main) = p.funcs.get(p.main as usize) else {
        return machine_of(alloc, p, Line::new(alloc), Heap::new(alloc, words));
    };
    if main.params == 0 {
        return begin(alloc, p, main, &[], Heap::new(alloc, words));
    }
    if input.len() > words as usize {
        return refused(alloc, main.at, words);
    }
    let heap = Heap::on_input(alloc, input, words)?;
    let arguments = [input_pointer(input), input.len() as i64];
    begin(alloc, p, main, &arguments, heap)
}

impl<'a> Machine<'a> {
    /// How many leaves are runnable. It takes no memory.
    pub fn runnable(&self) -> u64
        ensures value { result ≡ runnable_in self.now }
        ensures task { (p : PProgram) (turns : ℕ) (task : Task) → Stands p turns self.now task → result ≡ runnable task }
    {
        self.forest.runnable()
    }

    /// The trap by which the task ended, or none, where it has ended. It takes no memory.
    pub fn ended(&self) -> Option<Option<Caught>>
        ensures { (p : PProgram) (turns : ℕ) (task : Task) → Stands p turns self.now task → IfSome result (λ trap. task ≡ over_by trap) }
    {
        let counts = self.forest.counts(0);
        if counts.ended {
            Some(counts.trap)
        } else {
            None
        }
    }

    /// The place of the load or the store that left its block, if a step met one. It takes no memory.
    pub fn stray(&self) -> Option<Place>
        ensures { result ≡ self.now.stray }
    {
        self.stray
    }

    // Adds to the log what the action of a line does, whose leaf is below the nodes of the way.
    fn note(&mut self, seat: Seat, action: Action, at: Place) -> Result<(), AllocError>
        ensures log { IfOk result (λ _. (most : ℕ) (crumbs : List Crumb) (printed : List ℤ) → FitsAround self.old.forest.nodes.items most crumbs seat.node → self.old.way.items ≡ way_of crumbs
            → self.new.log.items ≡ self.old.log.items ++ logged (record { path = branches_in crumbs seat.number ++ seat.passed ∷ []; place = at }) action (machine_world self.old printed)) }
        ensures forest { self.new.forest ≡ self.old.forest }
        ensures way { self.new.way ≡ self.old.way }
        ensures heap { self.new.heap ≡ self.old.heap }
        ensures cost { self.new.cost ≡ self.old.cost }
        ensures stray { self.new.stray ≡ self.old.stray }
    {
        if let Some(entry) = self.entry(seat, action, at)? {
            self.log.push(entry)?;
        }
        Ok(())
    }

    // The entry of an action, where it is a load or a store that lies in its block.
    fn entry(&self, seat: Seat, action: Action, at: Place) -> Result<Option<Entry>, AllocError>
        ensures { IfOk result (λ entry. (most : ℕ) (crumbs : List Crumb) (printed : List ℤ) → FitsAround self.now.forest.nodes.items most crumbs seat.node → self.now.way.items ≡ way_of crumbs
            → option_to_list entry ≡ logged (record { path = branches_in crumbs seat.number ++ seat.passed ∷ []; place = at }) action (machine_world self.now printed)) }
    {
        match action {
            Action::Load {
                pointer,
                index,
                field,
            } => self.access(
                seat,
                at,
                false,
                self.heap.memory.reach(pointer, index, field),
            ),
            Action::Store {
                pointer,
                index,
                field,
                ..
            } => self.access(
                seat,
                at,
                true,
                self.heap.memory.reach(pointer, index, field),
            ),
            _ => Ok(None),
        }
    }

    // The entry of a load or a store at this address.
    fn access(
        &self,
        seat: Seat,
        at: Place,
        write: bool,
        address: Option<Address>,
    ) -> Result<Option<Entry>, AllocError>
        ensures { IfOk result (λ entry. (most : ℕ) (crumbs : List Crumb) → FitsAround self.now.forest.nodes.items most crumbs seat.node → self.now.way.items ≡ way_of crumbs
            → option_to_list entry ≡ access (record { path = branches_in crumbs seat.number ++ seat.passed ∷ []; place = at }) write address) }
    {
        let Some(address) = address else {
            return Ok(None);
        };
        let path = self.forest.path(seat, &self.way)?;
        Ok(Some(Entry {
            path: Path::from_slice(self.alloc, &path)?,
            write,
            block: address.block,
            element: address.element,
            field: address.field,
            at,
        }))
    }

    // Does the action that is due on a line, and gives the line behind it; none where the action strays.
    fn act(
        &mut self,
        p: &'a PProgram,
        line: Line<'a>,
        action: Action,
        at: Place,
    ) -> Result<Option<Line<'a>>, AllocError>
        ensures acts { IfOk result (λ after. standing_of line.entry ≡ Due action at → Acts p.now self.old self.new line.entry action at after) }
        ensures cost { IfOk result (λ _. self.new.cost ≡ self.old.cost + 1) }
        ensures forest { self.new.forest ≡ self.old.forest }
        ensures way { self.new.way ≡ self.old.way }
        ensures log { self.new.log ≡ self.old.log }
    {
        if self.cost == u64::MAX {
            return Err(AllocError);
        }
        let acted = self.heap.act(self.alloc, action)?;
        self.cost += 1;
        let mut line = line;
        match acted {
            Acted::Answer(word) => line.answer(p, word)?,
            Acted::Trap(kind) => line.trap(kind),
            Acted::Stray => {
                self.stray = Some(at);
                return Ok(None);
            }
        }
        Ok(Some(line))
    }

    /// Makes a step: the action of the leaf with this number among the runnable ones, modulo how many there are. A printed
    /// number is written as a line. After an error nothing is said of the machine.
    pub fn step<K: Sink>(
        &mut self,
        p: &'a PProgram,
        pick: u64,
        out: &mut K,
    ) -> Result<(), StepFault>
        requires { 0 < runnable_in self.old }
        ensures makes { OnOk result (Makes (K.written out.old) (K.written out.new) p.now self.old self.new pick) }
        ensures tries { OnErr result (Tries (K.written out.old) (K.written out.new) p.now self.old pick) }
        ensures failed { IsErrOf result SinkFault → Rose (K.faults out.old) (K.faults out.new) }
        ensures other { (IsErrOf result SinkFault → ⊥) → K.faults out.new ≡ K.faults out.old }
    {
        let runnable = self.forest.runnable();
        let (seat, line) = self.forest.pluck(pick % runnable, &mut self.way)?;
        let Standing::Due { action, at } = line.standing() else {
            return Err(StepFault::NoMemory);
        };
        self.note(seat, action, at)?;
        let Some(after) = self.act(p, line, action, at)? else {
            return Ok(());
        };
        put_action(self.alloc, action, out)?;
        self.forest.put_back(p, seat, after, &mut self.way)?;
        Ok(())
    }
}
