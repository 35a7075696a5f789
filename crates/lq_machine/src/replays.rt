//! The replay of a program under picks (docs/LANGUAGE.md, "Steps and picks").

ghost use Rattle.std.specs.Prelude.{◌≡◌, ◌≤◌, ◌^◌, ℕ, ℤ, List, drop, IfOk, OnOk, IsErrOf};
ghost use Rattle.lq_tree.specs.Formed.{IsFormed};
ghost use Rattle.lq_shelf.specs.Faults.{Rose};
ghost use Rattle.lq_shelf.specs.Sink.{Appends, AppendsPrefix};
ghost use Rattle.lq_meaning.specs.End.{Tells, IsOfRun};
ghost use Rattle.lq_meaning.specs.Printed.{number_lines};
ghost use Rattle.lq_machine.specs.declared.machine.StepFault.TheVariants.{SinkFault};
ghost use Rattle.lq_tree.specs.declared.plain.PProgram.{PProgram};
ghost use Rattle.lq_meaning.specs.Task.{Task};
ghost use Rattle.lq_machine.specs.Machine.{Stands, machine_world};
ghost use Rattle.lq_machine.specs.Run.{first_pick};
ghost use Rattle.lq_machine.specs.Step.{ending_of};
ghost use Rattle.lq_machine.specs.Replay.{replay as replay_of, replay_log};

use crate::machine::{Caught, Machine, StepFault, start};
use lq_log::Entry;
use lq_meaning::End;
use lq_shelf::Sink;
use lq_tree::PProgram;
use std::alloc::Global;

/// How a replay ended, and the accesses that it made, in the order of its steps.
#[derive(Drop)]
pub struct Replayed {
    pub end: End,
    pub log: Vec<Entry>,
}

// The pick of the step at this cost: behind the last one every pick is 0.
fn pick_at(picks: &[u64], cost: u64) -> u64
    ensures { result ≡ first_pick (drop cost picks.now) }
{
    picks.get(cost as usize).copied().unwrap_or(0)
}

// How a replay ended that has no runnable leaf. A task of a formed program has ended then.
fn finish(machine: Machine<'_>) -> Result<Replayed, StepFault>
    ensures tells { IfOk result (λ r. (p : PProgram) (turns : ℕ) (task : Task) (printed : List ℤ) → Stands p turns machine.entry task
        → Tells r.end (record { ending = ending_of task; world = machine_world machine.entry printed })) }
    ensures of_run { IfOk result (λ r. IsOfRun r.end) }
    ensures log { IfOk result (λ r. r.log ≡ machine.entry.log) }
    ensures failed { IsErrOf result SinkFault → ⊥ }
{
    let Some(trap) = machine.ended() else {
        return Err(StepFault::NoMemory);
    };
    let Machine {
        heap,
        cost,
        log,
        ..
    } = machine;
    let memory = heap.memory;
    let end = match trap {
        None => End::Done { memory, cost },
        Some(Caught { kind, at }) => End::Trap {
            kind,
            at,
            memory,
            cost,
        },
    };
    Ok(Replayed { end, log })
}

// A replay that ends before its task has.
fn stop(machine: Machine<'_>, end: End) -> Replayed
    ensures end { result.end ≡ end }
    ensures log { result.log ≡ machine.entry.log }
{
    let Machine { log, .. } = machine;
    Replayed { end, log }
}

/// Runs a formed program on an input, with so much fuel and so many words. Each step takes the leaf of its pick; behind the
/// last one every pick is 0. The printed numbers are written, a line each.
pub fn replay<K: Sink>(
    alloc: Global,
    p: &PProgram,
    input: &[i64],
    picks: &[u64],
    fuel: u64,
    words: u32,
    out: &mut K,
) -> Result<Replayed, StepFault>
    requires formed { IsFormed p.now }
    requires fuel { fuel ≤ 2 ^ 40 }
    requires words { words ≤ 1048576 }
    ensures tells { IfOk result (λ r. Tells r.end (replay_of fuel words p.now input.now picks.now)) }
    ensures of_run { IfOk result (λ r. IsOfRun r.end) }
    ensures log { IfOk result (λ r. r.log.items ≡ replay_log fuel words p.now input.now picks.now) }
    ensures all { OnOk result (Appends (K.written out.old) (K.written out.new) (number_lines (replay_of fuel words p.now input.now picks.now).world.printed)) }
    ensures prefix { AppendsPrefix (K.written out.old) (K.written out.new) (number_lines (replay_of fuel words p.now input.now picks.now).world.printed) }
    ensures failed { IsErrOf result SinkFault → Rose (K.faults out.old) (K.faults out.new) }
    ensures other { (IsErrOf result SinkFault → ⊥) → K.faults out.new ≡ K.faults out.old }
{
    let mut machine = start(alloc, p, input, words)?;
    while machine.runnable() > 0 {
        if machine.cost >= fuel {
            return Ok(stop(machine, End::Fuel));
        }
        let pick = pick_at(picks, machine.cost);
        machine.step(p, pick, out)?;
        if let Some(at) = machine.stray() {
            return Ok(stop(machine, End::Stray { at }));
        }
    }
    finish(machine)
}
