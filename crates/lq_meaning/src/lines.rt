//! The lines of a run in order, on a stack: the line that runs, and below it those whose branches run
//! (docs/LANGUAGE.md, "Sequential execution").

ghost use Rattle.std.specs.Prelude.{◌≡◌, ℕ, suc, ◌≤◌, [], IfOk, Option, option_map};
ghost use Rattle.lq_meaning.specs.declared.line.Standing.TheVariants.{Fork};
ghost use Rattle.lq_meaning.specs.World.{World};
ghost use Rattle.lq_meaning.specs.Ending.{Trap, Outcome};
ghost use Rattle.lq_meaning.specs.Control.{Run, give, go_on};
ghost use Rattle.lq_meaning.specs.InOrder.{come_to};
ghost use Rattle.lq_meaning.specs.Line.{standing_of};
ghost use Rattle.lq_meaning.specs.Lines.{Level, IsLevel, Waits, IsRest, Leaves, rejoined};

use crate::Line;
use lq_tree::{PProgram, Place, TrapKind};
use std::alloc::{AllocError, Global};
use std::mem;

/// The trap that a branch ended by.
#[derive(Clone, Copy, Debug, PartialEq)]
pub struct Caught {
    pub kind: TrapKind,
    pub at: Place,
}

/// What comes next.
#[derive(Clone, Copy, Debug, PartialEq)]
pub enum Turn {
    /// The line on top goes on.
    Run,
    /// The line on top has ended, by this trap if it trapped.
    Leave(Option<Caught>),
}

// A fork whose branches run: its line, how many branches have begun, and the first trap of those that have ended.
#[derive(Drop)]
struct OpenFork<'a> {
    line: Line<'a>,
    begun: u64,
    trap: Option<Caught>,
}

/// The line that runs, and the forks in whose branches it runs, from the outermost on.
#[derive(Drop)]
pub struct Lines<'a> {
    alloc: Global,
    pub top: Line<'a>,
    forks: Vec<OpenFork<'a>>,
}

impl<'a> Lines<'a> {
    /// A line in no fork.
    pub fn new(alloc: Global, top: Line<'a>) -> Lines<'a>
        ensures top { result.top ≡ top.entry }
        ensures forks { result.forks.items ≡ [] }
    {
        Lines {
            alloc,
            top,
            forks: Vec::new(alloc),
        }
    }

    /// Begins the first branch of the fork in front of which the line on top stands.
    pub fn enter(&mut self, p: &'a PProgram) -> Result<Turn, AllocError>
        requires { standing_of self.old.top ≡ Fork }
        ensures { IfOk result (λ turn. (fuel : ℕ) (w : World) (o : Outcome) → IsRest p.now fuel self.old Turn.Run w o → IsRest p.now fuel self.new turn w o) }
    {
        let line = mem::replace(&mut self.top, Line::new(self.alloc));
        self.next_branch(
            p,
            OpenFork {
                line,
                begun: 0,
                trap: None,
            },
        )
    }

    /// Leaves the line on top, which has ended, for the next branch or for the line behind the fork. None where it
    /// was in no fork.
    pub fn leave(
        &mut self,
        p: &'a PProgram,
        trap: Option<Caught>,
    ) -> Result<Option<Turn>, AllocError>
        ensures { IfOk result (λ turn. (fuel : ℕ) (w : World) (o : Outcome) → IsRest p.now fuel self.old (Turn.Leave trap) w o → Leaves p.now fuel self.new trap w o turn) }
    {
        let Some(mut fork) = self.forks.pop() else {
            return Ok(None);
        };
        fork.trap = fork.trap.or(trap);
        Ok(Some(self.next_branch(p, fork)?))
    }

    // Begins the next branch of a fork, in place of the line on top. Behind the last one the line of the fork goes on,
    // or ends by the first trap of a branch.
    fn next_branch(&mut self, p: &'a PProgram, fork: OpenFork<'a>) -> Result<Turn, AllocError>
        ensures { IfOk result (λ turn. (fuel : ℕ) (w : World) (level : Level) (next : Option Trap → Run (Option Trap)) → w.cost ≤ fuel
            → IsLevel p.now fuel (suc w.cost) fork.entry level → Waits p.now fuel (suc w.cost) self.old.forks.items give next
            → IsRest p.now fuel self.new turn w (come_to (go_on (rejoined fuel level w) next))) }
    {
        let mut fork = fork;
        if fork.begun < fork.line.fork_size() {
            fork.line.child(p, fork.begun, &mut self.top)?;
            fork.begun += 1;
            self.forks.push(fork)?;
            return Ok(Turn::Run);
        }
        if fork.trap.is_some() {
            return Ok(Turn::Leave(fork.trap));
        }
        fork.line.pass_fork(p)?;
        self.top = fork.line;
        Ok(Turn::Run)
    }
}
