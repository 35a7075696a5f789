//! How a line begins, and how it goes on from where it stands.

ghost use Rattle.std.specs.Prelude.{◌≡◌, ℕ, ℤ, suc, [], List, Option, OnOk, IfOk};
ghost use Rattle.lq_tree.specs.declared.place.Place.{Place};
ghost use Rattle.lq_meaning.specs.declared.action.Action.{Action};
ghost use Rattle.lq_meaning.specs.declared.line.Standing.TheVariants.{Due};
ghost use Rattle.lq_meaning.specs.declared.line.Stop.TheVariants as of_stop;
ghost use Rattle.lq_meaning.specs.Control.{GoesOn};
ghost use Rattle.lq_meaning.specs.PlainMeaning.{into};
ghost use Rattle.lq_meaning.specs.Line.{answered, inside_call, left_of, onward, standing_of, IsBelow};
ghost use Rattle.lq_meaning.specs.Moves.{came_to, Repeats};

use super::slots::{filled, put};
use super::{Caller, Frame, Line, Part, Repeat, Stop};
use lq_tree::{Items, PProgram, PStmt};
use std::alloc::AllocError;
use std::mem;

impl<'a> Frame<'a> {
    // Goes on with the body of a loop, of which so many turns were made before.
    fn repeat(&mut self, repeat: Repeat<'a>, made: u64) -> Result<(), AllocError>
        ensures { OnOk result (Repeats repeat.entry made self.old self.new) }
    {
        let Some(more) = made.checked_add(1) else {
            return Err(AllocError);
        };
        self.set_aside()?;
        self.parts.push(Part::Again(repeat, more))?;
        self.row = repeat.body;
        Ok(())
    }
}

impl<'a> Line<'a> {
    // Begins anew in front of these statements, of a branch or of a function.
    pub(super) fn restart(
        &mut self,
        most: u32,
        in_branch: bool,
        row: &'a [PStmt],
        slots: Items<i64>,
    )
        ensures { self.new ≡ record { alloc = self.old.alloc; most = most; in_branch = in_branch; callers = []; frame = record { row = row.entry; parts = []; slots = slots }; stop = of_stop.Unruled } }
    {
        let alloc = self.alloc;
        *self = Line {
            alloc,
            most,
            in_branch,
            callers: Items::new(alloc),
            frame: Frame {
                row,
                parts: Items::new(alloc),
                slots,
            },
            stop: Stop::Unruled,
        };
    }

    // Goes on inside a call whose action was answered, or behind it where no more functions may become active.
    fn enter(
        &mut self,
        p: &'a PProgram,
        function: u32,
        words: Items<i64>,
        to: Option<u32>,
        word: i64,
    ) -> Result<bool, AllocError>
        ensures same { IfOk result (λ stands. (turns : ℕ) (branch : List ℕ) (passed : ℕ)
            → came_to stands p.now self.new turns branch passed ≡ inside_call p.now turns branch (left_of self.old) function words word (λ word. onward p.now turns branch self.old (GoesOn (into to self.old.frame.slots word))) passed) }
        ensures below { OnOk result ((turns : ℕ) → IsBelow turns self.old → IsBelow turns self.new) }
    {
        if self.more() == 0 {
            put(&mut self.frame.slots, to, word);
            return Ok(false);
        }
        let Some(callee) = p.funcs.get(function as usize) else {
            return Ok(self.stand(Stop::Unruled));
        };
        let frame = Frame {
            row: callee.body.as_slice(),
            parts: Items::new(self.alloc),
            slots: filled(words, callee.slots.len())?,
        };
        let frame = mem::replace(&mut self.frame, frame);
        self.callers.push(Caller { frame, to })?;
        Ok(false)
    }

    // Takes the word of a call that is due.
    fn resume_call(&mut self, p: &'a PProgram, word: i64) -> Result<bool, AllocError>
        ensures same { IfOk result (λ stands. (at : Place) (function : ℕ) (words : List ℤ) (to : Option ℕ) (turns : ℕ) (branch : List ℕ) (passed : ℕ) → self.old.stop ≡ of_stop.Call at function words to
            → came_to stands p.now self.new turns branch passed ≡ answered p.now turns branch passed self.old word) }
        ensures below { OnOk result ((turns : ℕ) → IsBelow turns self.old → IsBelow (suc turns) self.new) }
    {
        match mem::replace(&mut self.stop, Stop::Unruled) {
            Stop::Call {
                function,
                words,
                to,
                ..
            } => self.enter(p, function, words, to, word),
            stop => Ok(self.stand(stop)),
        }
    }

    // Takes the word of the action that is due. Where it is no call, nothing is moved out of the line.
    pub(super) fn resume(&mut self, p: &'a PProgram, word: i64) -> Result<bool, AllocError>
        ensures same { IfOk result (λ stands. (action : Action) (at : Place) (turns : ℕ) (branch : List ℕ) (passed : ℕ) → standing_of self.old ≡ Due action at
            → came_to stands p.now self.new turns branch passed ≡ answered p.now turns branch passed self.old word) }
        ensures below { OnOk result ((turns : ℕ) → IsBelow turns self.old → IsBelow (suc turns) self.new) }
    {
        match &self.stop {
            Stop::Word { to, .. } => {
                let to = *to;
                put(&mut self.frame.slots, to, word);
                Ok(false)
            }
            Stop::Test {
                repeat,
                made,
                holds,
            } => {
                let (repeat, made, holds) = (*repeat, *made, *holds);
                if !holds {
                    return Ok(false);
                }
                self.frame.repeat(repeat, made)?;
                Ok(false)
            }
            Stop::Call { .. } => self.resume_call(p, word),
            _ => Ok(true),
        }
    }
}
