//! The free moves of a line.

ghost use Rattle.std.specs.Prelude.{◌≡◌, ◌+◌, ℕ, suc, true, List, OnOk, IfOk, []};
ghost use Rattle.std.specs.Option.{option_copied};
ghost use Rattle.lq_tree.specs.declared.plain.PProgram.{PProgram};
ghost use Rattle.lq_tree.specs.declared.plain.PKind.TheVariants as of_kind;
ghost use Rattle.lq_meaning.specs.Line.{task_of, IsBelow};
ghost use Rattle.lq_meaning.specs.Weight.{weight, weight_of};
ghost use Rattle.lq_meaning.specs.Moves.{Moved, moving, doing, ending, SetsAside, Turns, EndsFor};
ghost use Rattle.lq_meaning.specs.Control as control;

use super::due::{call, calloc, each, load, print, store, test};
use super::slots::put;
use super::{Caller, Frame, Line, Part, Repeat, Stop};
use crate::value::value;
use lq_tree::{PExpr, PKind, PProgram, PStmt, Place};
use std::alloc::AllocError;

// One of two lists of statements, by whether a word is true or 0.
fn by_truth<'a>(word: i64, holds: &'a [PStmt], fails: &'a [PStmt]) -> &'a [PStmt]
    ensures { result.now ≡ control.by_truth word holds.now fails.now }
{
    if word != 0 { holds } else { fails }
}

// How a line ends whose lowest function returns a word or has reached its end.
fn end_of<'a>(in_branch: bool, word: Option<i64>) -> Stop<'a>
    ensures { (p : PProgram) → EndsFor p in_branch word result }
{
    match word {
        Some(_) if in_branch => Stop::Unruled,
        _ => Stop::Done,
    }
}

impl<'a> Frame<'a> {
    // Puts the statements in hand, if any are left, on top of the parts, so that others can be taken in hand.
    pub(super) fn set_aside(&mut self) -> Result<(), AllocError>
        ensures { OnOk result (SetsAside self.old self.new) }
    {
        if self.row.is_empty() {
            return Ok(());
        }
        self.parts.push(Part::Row(self.row))
    }

    // Begins a turn of a loop, of which so many were made.
    pub(super) fn turn(&mut self, repeat: Repeat<'a>, made: u64) -> Result<(), AllocError>
        ensures { OnOk result (Turns repeat.entry made self.old self.new) }
    {
        self.parts.push(Part::Test(repeat, made))?;
        self.row = repeat.head;
        Ok(())
    }
}

impl<'a> Line<'a> {
    // Makes free moves until the line stands.
    pub(super) fn settle(&mut self, p: &'a PProgram) -> Result<(), AllocError>
        ensures task { OnOk result ((turns : ℕ) (branch : List ℕ) (passed : ℕ) → IsBelow turns self.old
            → task_of p.now turns branch passed self.new ≡ moving p.now self.old turns branch passed) }
        ensures below { OnOk result ((turns : ℕ) → IsBelow turns self.old → IsBelow turns self.new) }
    {
        loop {
            if self.step(p)? {
                return Ok(());
            }
        }
    }

    // One free move, or the line stands.
    fn step(&mut self, p: &'a PProgram) -> Result<bool, AllocError>
        ensures { IfOk result (λ stands. Moved p.now self.old (moving p.now self.old) (weight_of self.old) stands self.new) }
    {
        match self.frame.row.split_first() {
            Some((statement, rest)) => {
                self.frame.row = rest;
                self.statement(p, statement)
            }
            None => self.next_part(),
        }
    }

    // Stands for this reason.
    pub(super) fn stand(&mut self, stop: Stop<'a>) -> bool
        ensures value { result ≡ true }
        ensures after { self.new ≡ record self.old { stop = stop.entry } }
    {
        self.stop = stop;
        true
    }

    // Does a statement in front of those in hand.
    fn statement(&mut self, p: &'a PProgram, statement: &'a PStmt) -> Result<bool, AllocError>
        ensures { IfOk result (λ stands. Moved p.now self.old (doing p.now self.old statement.now.at statement.now.kind) (weight_of self.old + suc (weight statement.now.kind)) stands self.new) }
    {
        let at = statement.at;
        let slots = self.frame.slots.as_slice();
        let stop = match &statement.kind {
            PKind::Set(to, e) => return Ok(self.set(at, *to, e)),
            PKind::Load(to, base, index, field) => load(slots, at, *to, *base, index, *field),
            PKind::Store(base, index, field, e) => store(slots, at, *base, index, *field, e),
            PKind::Calloc(to, count, ctype) => calloc(p, slots, at, *to, count, ctype)?,
            PKind::Call(to, function, args) => {
                call(self.alloc, slots, at, *to, *function, args.as_slice())?
            }
            PKind::If(e, body, other) => {
                return self.choose(at, e, body.as_slice(), other.as_slice());
            }
            PKind::While(head, condition, body) => {
                return self.begin_loop(Repeat {
                    at,
                    head: head.as_slice(),
                    condition,
                    body: body.as_slice(),
                });
            }
            PKind::Cobegin(blocks) => Stop::Branches(blocks.as_slice()),
            PKind::Foreach(slot, low, high, step, branch) => {
                match each(slots, at, *slot, low, high, *step, branch) {
                    Some(stop) => stop,
                    None => return Ok(false),
                }
            }
            PKind::Print(e) => print(slots, at, e),
            PKind::Return(e) => return Ok(self.give(at, e.as_ref())),
        };
        Ok(self.stand(stop))
    }

    // Puts a value into a slot.
    fn set(&mut self, at: Place, to: u32, e: &PExpr) -> bool
        ensures { (p : PProgram) → Moved p self.old (doing p self.old at (of_kind.Set to e.now)) (weight_of self.old + 1) result self.new }
    {
        match value(self.frame.slots.as_slice(), e) {
            Ok(word) => {
                put(&mut self.frame.slots, Some(to), word);
                false
            }
            Err(kind) => self.stand(Stop::Trapped { kind, at }),
        }
    }

    // Goes on with statements by a condition.
    fn choose(
        &mut self,
        at: Place,
        e: &PExpr,
        body: &'a [PStmt],
        other: &'a [PStmt],
    ) -> Result<bool, AllocError>
        ensures { IfOk result (λ stands. (p : PProgram) → Moved p self.old (doing p self.old at (of_kind.If e.now body.now other.now)) (weight_of self.old + suc (weight (of_kind.If e.now body.now other.now))) stands self.new) }
    {
        match value(self.frame.slots.as_slice(), e) {
            Ok(word) => {
                let row = by_truth(word, body, other);
                if row.is_empty() {
                    return Ok(false);
                }
                self.frame.set_aside()?;
                self.frame.row = row;
                Ok(false)
            }
            Err(kind) => Ok(self.stand(Stop::Trapped { kind, at })),
        }
    }

    // Begins a loop.
    fn begin_loop(&mut self, repeat: Repeat<'a>) -> Result<bool, AllocError>
        ensures { IfOk result (λ stands. (p : PProgram) → Moved p self.old (doing p self.old repeat.entry.at (of_kind.While repeat.entry.head.now repeat.entry.condition.now repeat.entry.body.now)) (weight_of self.old + suc (weight (of_kind.While repeat.entry.head.now repeat.entry.condition.now repeat.entry.body.now))) stands self.new) }
    {
        self.frame.set_aside()?;
        self.frame.turn(repeat, 0)?;
        Ok(false)
    }

    // Returns a value, or 0.
    fn give(&mut self, at: Place, e: Option<&PExpr>) -> bool
        ensures { (p : PProgram) → Moved p self.old (doing p self.old at (of_kind.Return (option_copied e.entry))) (weight_of self.old + 1) result self.new }
    {
        let Some(e) = e else {
            return self.leave(Some(0));
        };
        match value(self.frame.slots.as_slice(), e) {
            Ok(word) => self.leave(Some(word)),
            Err(kind) => self.stand(Stop::Trapped { kind, at }),
        }
    }

    // Leaves the active function, which returns a word or has reached its end.
    fn leave(&mut self, word: Option<i64>) -> bool
        ensures { (p : PProgram) → Moved p self.old (ending p self.old word) (weight_of self.old) result self.new }
    {
        match self.callers.pop() {
            Some(Caller { frame, to }) => {
                self.frame = frame;
                put(&mut self.frame.slots, to, word.unwrap_or(0));
                false
            }
            None => self.stand(end_of(self.in_branch, word)),
        }
    }

    // Goes on with the next part, where no statements are in hand.
    fn next_part(&mut self) -> Result<bool, AllocError>
        requires { self.old.frame.row.now ≡ [] }
        ensures { IfOk result (λ stands. (p : PProgram) → Moved p self.old (moving p self.old) (weight_of self.old) stands self.new) }
    {
        match self.frame.parts.pop() {
            None => Ok(self.leave(None)),
            Some(Part::Row(row)) => {
                self.frame.row = row;
                Ok(false)
            }
            Some(Part::Test(repeat, made)) => {
                let stop = test(self.frame.slots.as_slice(), repeat, made);
                Ok(self.stand(stop))
            }
            Some(Part::Again(repeat, made)) => {
                if repeat.head.is_empty() {
                    let stop = test(self.frame.slots.as_slice(), repeat, made);
                    return Ok(self.stand(stop));
                }
                self.frame.turn(repeat, made)?;
                Ok(false)
            }
        }
    }
}
