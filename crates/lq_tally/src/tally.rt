//! The list, and the count.

ghost use Rattle.std.specs.Prelude.{◌≡◌, ◌↔◌, ◌≤◌, ◌+◌, [], ◌∷◌, length, IsTrue, IfOk, OnOk};
ghost use Rattle.lq_templates.specs.Conditions.{asks};
ghost use Rattle.lq_tally.specs.Tally.{tallied};

use lq_chain::Chain;
use lq_templates::{Condition, Given, Rule, Site};
use sqlite_items::Items;
use std::alloc::{AllocError, Global};

// How many conditions are kept, which is how many a program may have.
const MOST: usize = 4_096;

/// The conditions that have been asked: the first 4,096, and how many there are. A program with more is refused, and the
/// refusal tells their number.
#[derive(Drop)]
pub struct Tally {
    pub kept: Items<Condition>,
    pub count: u64,
}

impl Tally {
    /// Nothing has been asked.
    pub fn new(alloc: Global) -> Tally
        ensures { result ≡ record { kept = []; count = 0 } }
    {
        Tally {
            kept: Items::new(alloc),
            count: 0,
        }
    }

    /// Whether conditions are counted only.
    pub fn is_full(&self) -> bool
        ensures { IsTrue result ↔ (4096 ≤ length self.now.kept) }
    {
        self.kept.len() >= MOST
    }

    /// One more condition is asked.
    pub fn push(&mut self, condition: Condition) -> Result<(), AllocError>
        ensures { OnOk result (self.new ≡ tallied (condition ∷ []) self.old) }
    {
        let count = self.count.checked_add(1).ok_or(AllocError)?;
        if !self.is_full() {
            self.kept.push(condition)?;
        }
        self.count = count;
        Ok(())
    }

    /// A condition with one goal is asked. Its facts are shared with those that are given, and not looked at where
    /// conditions are counted only.
    pub fn ask(
        &mut self,
        alloc: Global,
        rule: Rule,
        site: Site,
        facts: &Chain<Given>,
        goal: Given,
    ) -> Result<(), AllocError>
        ensures { OnOk result (self.new ≡ tallied (asks rule site facts.now goal ∷ []) self.old) }
    {
        if self.is_full() {
            return self.count_more(1);
        }
        let mut goals = Items::new(alloc);
        goals.push(goal)?;
        self.push(Condition {
            facts: facts.copy()?,
            goals,
            rule,
            site,
        })
    }

    /// So many more conditions are counted, behind those that are kept. Where their number would pass 2^64 - 1, the answer
    /// is want of memory.
    pub fn count_more(&mut self, more: u64) -> Result<(), AllocError>
        ensures { OnOk result (self.new ≡ record self.old { count = self.old.count + more }) }
    {
        self.count = self.count.checked_add(more).ok_or(AllocError)?;
        Ok(())
    }
}
