//! One line of execution of a plain program, on a stack of its own (docs/LANGUAGE.md, "Task tree").

ghost use Rattle.std.specs.Prelude.{◌≡◌, ℕ, suc, List, ◌<◌, ◌++◌, [], ◌∷◌, OnOk, Some};
ghost use Rattle.lq_tree.specs.declared.place.Place.{Place};
ghost use Rattle.lq_tree.specs.declared.plain.PProgram.{PProgram};
ghost use Rattle.lq_meaning.specs.declared.action.Action.{Action};
ghost use Rattle.lq_meaning.specs.declared.line.Standing.TheVariants.{Due, Fork};
ghost use Rattle.lq_meaning.specs.Control.{trapped};
ghost use Rattle.lq_meaning.specs.Ending.{Done, Unruled};
ghost use Rattle.lq_meaning.specs.Task.{Ended};
ghost use Rattle.lq_meaning.specs.PlainMeaning.{Slots};
ghost use Rattle.lq_meaning.specs.Behaviour.{Context, in_function};
ghost use Rattle.lq_meaning.specs.Line.{context_from, task_of, answered, children_of, behind_of, task_at, size_of, forks, left_of, standing_of, StandsAt, IsBelow};
ghost use Rattle.lq_meaning.specs.Line as spec;

mod branches;
mod calls;
mod due;
mod free;
mod slots;

use self::branches::index_of;
use self::slots::filled;
use crate::Action;
use lq_tree::{Branch, Items, PExpr, PFunc, PProgram, PStmt, Place, TrapKind};
use std::alloc::{AllocError, Global};

/// Where a line stands, once no free move is left.
#[derive(Clone, Copy, Debug, PartialEq)]
pub enum Standing {
    Done,
    Trapped { kind: TrapKind, at: Place },
    Due { action: Action, at: Place },
    /// In front of branches.
    Fork,
    /// At a form that has no rule.
    Unruled,
}

// A loop: the statements of its condition, the condition and the body.
#[derive(Clone, Copy)]
struct Repeat<'a> {
    at: Place,
    head: &'a [PStmt],
    condition: &'a PExpr,
    body: &'a [PStmt],
}

// What is left of a function behind the statements in hand.
#[derive(Drop)]
enum Part<'a> {
    Row(&'a [PStmt]),
    // The test of a loop, whose head is under way, behind so many turns.
    Test(Repeat<'a>, u64),
    // A loop behind so many turns, of which the last is under way.
    Again(Repeat<'a>, u64),
}

// An active function: the statements in hand, the parts behind them, of which the last comes first, and the slots.
#[derive(Drop)]
struct Frame<'a> {
    row: &'a [PStmt],
    parts: Items<Part<'a>>,
    slots: Items<i64>,
}

// A function that waits for a call, and the slot for what the call gives.
#[derive(Drop)]
struct Caller<'a> {
    frame: Frame<'a>,
    to: Option<u32>,
}

// Why a line makes no free move.
#[derive(Drop)]
enum Stop<'a> {
    Done,
    Trapped {
        kind: TrapKind,
        at: Place,
    },
    Unruled,
    // An action is due, whose word goes into the slot.
    Word {
        action: Action,
        at: Place,
        to: Option<u32>,
    },
    // A call is due, of the function with this number on these words.
    Call {
        at: Place,
        function: u32,
        words: Items<i64>,
        to: Option<u32>,
    },
    // A test is due, behind so many turns; whether the condition holds is known.
    Test {
        repeat: Repeat<'a>,
        made: u64,
        holds: bool,
    },
    Branches(&'a [Branch]),
    // So many iterations, from the low end in these steps; each begins with its index in the slot.
    Iterations {
        at: Place,
        slot: u32,
        low: i64,
        step: u64,
        count: u32,
        branch: &'a Branch,
    },
}

/// One line of execution. It makes the free moves until an action is due, it stands in front of a fork, or it has ended.
#[derive(Drop)]
pub struct Line<'a> {
    alloc: Global,
    // How many more functions may become active above the lowest one.
    most: u32,
    // The lowest function goes on with a branch, and ends with it.
    in_branch: bool,
    // The functions that wait for calls, from the lowest on.
    callers: Items<Caller<'a>>,
    frame: Frame<'a>,
    stop: Stop<'a>,
}

// How many functions more may become active while `main` is (docs/LANGUAGE.md, "Traps").
const MOST_ABOVE_MAIN: u32 = 1023;

// Where a line stands, of which so many functions more may become active.
fn standing_at(stop: &Stop<'_>, more: u32) -> Standing
    ensures { result ≡ spec.standing_at more stop.now }
{
    match stop {
        Stop::Done => Standing::Done,
        Stop::Trapped { kind, at } => Standing::Trapped {
            kind: *kind,
            at: *at,
        },
        Stop::Unruled => Standing::Unruled,
        Stop::Word { action, at, .. } => Standing::Due {
            action: *action,
            at: *at,
        },
        Stop::Call { at, .. } => Standing::Due {
            action: Action::Enter { more },
            at: *at,
        },
        Stop::Test { repeat, .. } => Standing::Due {
            action: Action::Test,
            at: repeat.at,
        },
        Stop::Branches(_) | Stop::Iterations { .. } => Standing::Fork,
    }
}

// How many branches there are, where a line stands in front of some.
fn size_at(stop: &Stop<'_>) -> u64
    ensures { (c : Context) (passed : ℕ) (slots : Slots) → result ≡ size_of (forks c passed slots stop.now) }
{
    match stop {
        Stop::Branches(blocks) => {
            let blocks = *blocks;
            blocks.len() as u64
        }
        Stop::Iterations { count, .. } => u64::from(*count),
        _ => 0,
    }
}

impl<'a> Line<'a> {
    /// A line that can't go on.
    pub fn new(alloc: Global) -> Line<'a>
        ensures task { (p : PProgram) (turns : ℕ) (branch : List ℕ) (passed : ℕ) → task_of p turns branch passed result ≡ Ended Unruled }
        ensures below { (turns : ℕ) → 0 < turns → IsBelow turns result }
    {
        Line {
            alloc,
            most: 0,
            in_branch: false,
            callers: Items::new(alloc),
            frame: Frame {
                row: &[],
                parts: Items::new(alloc),
                slots: Items::new(alloc),
            },
            stop: Stop::Unruled,
        }
    }

    /// Begins with a function as the first of 1,024, on these arguments. The line is done when the function ends.
    pub fn begin(
        &mut self,
        p: &'a PProgram,
        main: &'a PFunc,
        words: &[i64],
    ) -> Result<(), AllocError>
        ensures task { OnOk result ((turns : ℕ) (branch : List ℕ) (passed : ℕ) → 0 < turns
            → task_of p.now turns branch passed self.new ≡ in_function (context_from p.now turns branch 1023) (Some main.now) words.now (λ word passed. Ended Done) passed) }
        ensures below { OnOk result ((turns : ℕ) → 0 < turns → IsBelow turns self.new) }
    {
        let words = Items::from_slice(self.alloc, words)?;
        let slots = filled(words, main.slots.len())?;
        self.restart(MOST_ABOVE_MAIN, false, main.body.as_slice(), slots);
        self.settle(p)
    }

    /// Where the line stands. It takes no memory.
    pub fn standing(&self) -> Standing
        ensures value { result ≡ standing_of self.now }
        ensures task { (p : PProgram) (turns : ℕ) (branch : List ℕ) (passed : ℕ) → StandsAt result p turns branch passed self.now }
    {
        standing_at(&self.stop, self.more())
    }

    /// Goes on with the word of the action that is due, until the line stands again.
    pub fn answer(&mut self, p: &'a PProgram, word: i64) -> Result<(), AllocError>
        ensures task { OnOk result ((action : Action) (at : Place) (turns : ℕ) (branch : List ℕ) (passed : ℕ) → standing_of self.old ≡ Due action at → IsBelow turns self.old
            → task_of p.now (suc turns) branch passed self.new ≡ answered p.now (suc turns) branch passed self.old word) }
        ensures below { OnOk result ((turns : ℕ) → IsBelow turns self.old → IsBelow (suc turns) self.new) }
    {
        if self.resume(p, word)? {
            return Ok(());
        }
        self.settle(p)
    }

    /// The action that is due has trapped, and the line ends.
    pub fn trap(&mut self, kind: TrapKind)
        ensures task { (action : Action) (at : Place) (p : PProgram) (turns : ℕ) (branch : List ℕ) (passed : ℕ) → standing_of self.old ≡ Due action at
            → task_of p turns branch passed self.new ≡ Ended (trapped kind at) }
        ensures below { (turns : ℕ) → IsBelow turns self.old → IsBelow turns self.new }
    {
        if let Standing::Due { at, .. } = self.standing() {
            self.stop = Stop::Trapped { kind, at };
        }
    }

    /// How many branches the fork has in front of which the line stands, and 0 elsewhere.
    pub fn fork_size(&self) -> u64
        ensures { (p : PProgram) (turns : ℕ) (branch : List ℕ) (passed : ℕ) → result ≡ size_of (children_of p turns branch passed self.now) }
    {
        size_at(&self.stop)
    }

    /// Makes another line the branch with this number, from 0, of the fork in front of which this line stands.
    pub fn child(
        &self,
        p: &'a PProgram,
        number: u64,
        child: &mut Line<'a>,
    ) -> Result<(), AllocError>
        ensures task { OnOk result ((turns : ℕ) (branch : List ℕ) (passed : ℕ) → 0 < turns
            → task_of p.now turns (branch ++ passed ∷ number ∷ []) 0 child.new ≡ task_at (children_of p.now turns branch passed self.now) number) }
        ensures below { OnOk result ((turns : ℕ) → 0 < turns → IsBelow turns child.new) }
    {
        let slots = self.frame.slots.as_slice();
        match &self.stop {
            Stop::Branches(blocks) => {
                let blocks = *blocks;
                child.begin_block(p, self.more(), slots, blocks, number)
            }
            Stop::Iterations {
                at,
                slot,
                low,
                step,
                count,
                branch,
            } => match index_of(number, *count, *low, *step)? {
                Some(index) => {
                    child.begin_iteration(self.more(), slots, *at, *slot, index, branch)
                }
                None => {
                    child.nowhere();
                    Ok(())
                }
            },
            _ => {
                child.nowhere();
                Ok(())
            }
        }
    }

    /// Goes on behind the fork in front of which the line stands, whose branches are all done.
    pub fn pass_fork(&mut self, p: &'a PProgram) -> Result<(), AllocError>
        ensures task { OnOk result ((turns : ℕ) (branch : List ℕ) (passed : ℕ) → standing_of self.old ≡ Fork → IsBelow turns self.old
            → task_of p.now turns branch (suc passed) self.new ≡ behind_of p.now turns branch passed self.old) }
        ensures below { OnOk result ((turns : ℕ) → IsBelow turns self.old → IsBelow turns self.new) }
    {
        if !matches!(self.standing(), Standing::Fork) {
            return Ok(());
        }
        self.stop = Stop::Unruled;
        self.settle(p)
    }

    // How many functions more may become active.
    fn more(&self) -> u32
        ensures { result ≡ left_of self.now }
    {
        (self.most as usize).saturating_sub(self.callers.len()) as u32
    }
}
