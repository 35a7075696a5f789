//! The multiples of facts, and the table of their sums.

ghost use Rattle.std.specs.Prelude.{◌≡◌, ◌+◌, ◌^◌, ◌<◌, ◌≤◌, ◌⊎◌, [], ◌∷◌, ◌++◌, IsTrue, IfOk, OnOk, Contains, length};
ghost use Rattle.std.specs.List.{AllByRecursion};

use crate::marks::is_marked;
use crate::sum::Sum;
use crate::table::{Table, completes_some, put_sum};
use std::alloc::{AllocError, Global};
use std::collections::HashMap;

/// A multiple of the row with this number.
#[derive(Clone, Copy)]
pub(crate) struct Multiple {
    pub(crate) number: u32,
    pub(crate) sum: Sum,
}

/// The multiples of facts, and the table of the sums of at most two of them.
#[derive(Drop)]
pub(crate) struct Pool {
    pub(crate) multiples: Vec<Multiple>,
    pub(crate) table: Table,
}

impl Pool {
    ghost use Rattle.lq_validity.specs.Marks.{IsMarked};
    ghost use Rattle.lq_validity.specs.Sum.{IsNear, plus};
    ghost use Rattle.lq_validity.specs.Table.{CompletesSome};
    ghost use Rattle.lq_validity.specs.Pool.{AreNear, HasSums, HasMultiples, PutsPairs, PutsFact, PutsFacts, Serves, AreUseful};

    /// The pool without facts.
    pub(crate) fn new(alloc: Global) -> Result<Pool, AllocError>
        ensures empty { IfOk result (λ pool. pool.multiples.items ≡ []) }
        ensures sums { IfOk result (λ pool. HasSums pool.multiples.items pool.table) }
    {
        let mut table = HashMap::new(alloc);
        put_sum(&mut table, Sum::NONE)?;
        Ok(Pool {
            multiples: Vec::new(alloc),
            table,
        })
    }

    /// Puts a multiple into the pool.
    pub(crate) fn put(&mut self, multiple: Multiple) -> Result<(), AllocError>
        requires near { AreNear self.old.multiples.items }
        requires small { IsNear (2 ^ 114) multiple.sum }
        requires sums { HasSums self.old.multiples.items self.old.table }
        ensures added { OnOk result (self.new.multiples.items ≡ self.old.multiples.items ++ multiple ∷ []) }
        ensures sums { OnOk result (HasSums self.new.multiples.items self.new.table) }
    {
        self.multiples.push(multiple)?;
        put_sum(&mut self.table, multiple.sum)?;
        Pool::put_pairs(&mut self.table, self.multiples.as_slice(), multiple.sum)
    }

    /// Puts the multiples of a row into the pool, where it is marked.
    fn put_fact(
        &mut self,
        sums: &[Sum],
        multipliers: &[u32],
        mark: bool,
        number: u32,
    ) -> Result<(), AllocError>
        requires near { AreNear self.old.multiples.items }
        requires small { AllByRecursion (IsNear (2 ^ 82)) sums.now }
        requires sums { HasSums self.old.multiples.items self.old.table }
        ensures { OnOk result (PutsFact multipliers.now sums.now mark number self.old.multiples.items self.new.multiples.items self.new.table) }
    {
        if mark {
            for multiplier in multipliers {
                self.put(Multiple {
                    number,
                    sum: Sum::multiple_of(sums, *multiplier, number),
                })?;
            }
        }
        Ok(())
    }

    /// Puts the multiples of the marked rows behind the first ones into the pool.
    pub(crate) fn put_facts(
        &mut self,
        sums: &[Sum],
        multipliers: &[u32],
        marks: &[bool],
        first: usize,
    ) -> Result<(), AllocError>
        requires near { AreNear self.old.multiples.items }
        requires small { AllByRecursion (IsNear (2 ^ 82)) sums.now }
        requires sums { HasSums self.old.multiples.items self.old.table }
        requires few { length marks.now < 2 ^ 32 }
        requires there { HasMultiples multipliers.now (λ n. IsMarked marks.now n × (n ≤ first)) sums.now self.old.multiples.items }
        ensures { OnOk result (PutsFacts multipliers.now sums.now (IsMarked marks.now) self.new.multiples.items self.new.table) }
    {
        for place in first..marks.len() {
            self.put_fact(sums, multipliers, marks[place], place as u32 + 1)?;
        }
        Ok(())
    }

    /// Marks the facts that may take part in a combination that gives one of the wanted sums.
    pub(crate) fn useful(
        &self,
        alloc: Global,
        marks: &[bool],
        wanted: &[Sum],
        leads: &[bool],
    ) -> Result<Vec<bool>, AllocError>
        requires near { AreNear self.now.multiples.items }
        requires few { length marks.now < 2 ^ 32 }
        requires wanted { AllByRecursion (IsNear (2 ^ 120)) wanted.now }
        ensures { IfOk result (λ useful. AreUseful self.now.multiples.items self.now.table marks.now wanted.now leads.now useful.items) }
    {
        let mut useful = Vec::new(alloc);
        for (place, mark) in marks.iter().enumerate() {
            useful.push(self.is_useful(*mark, wanted, leads, place as u32 + 1))?;
        }
        Ok(useful)
    }

    /// Whether the row with this number is marked and some multiple of it serves.
    fn is_useful(&self, mark: bool, wanted: &[Sum], leads: &[bool], number: u32) -> bool
        requires near { AreNear self.now.multiples.items }
        requires wanted { AllByRecursion (IsNear (2 ^ 120)) wanted.now }
        ensures marked { IsTrue result → IsTrue mark }
        ensures serving { IsTrue mark → (a : Multiple) → Contains self.now.multiples.items a → a.number ≡ number
            → Serves self.now.multiples.items self.now.table wanted.now leads.now a → IsTrue result }
    {
        if mark {
            for multiple in &self.multiples {
                if self.serves_row(wanted, leads, *multiple, number) {
                    return true;
                }
            }
        }
        false
    }

    /// Whether the multiple is one of this row, and serves.
    fn serves_row(&self, wanted: &[Sum], leads: &[bool], multiple: Multiple, number: u32) -> bool
        requires near { AreNear self.now.multiples.items }
        requires small { IsNear (2 ^ 114) multiple.sum }
        requires wanted { AllByRecursion (IsNear (2 ^ 120)) wanted.now }
        ensures { multiple.number ≡ number
            → Serves self.now.multiples.items self.now.table wanted.now leads.now multiple → IsTrue result }
    {
        multiple.number == number && self.serves(wanted, leads, multiple)
    }

    /// Whether the multiple, alone or with another, can be completed, where one of them leads.
    fn serves(&self, wanted: &[Sum], leads: &[bool], multiple: Multiple) -> bool
        requires near { AreNear self.now.multiples.items }
        requires small { IsNear (2 ^ 114) multiple.sum }
        requires wanted { AllByRecursion (IsNear (2 ^ 120)) wanted.now }
        ensures { Serves self.now.multiples.items self.now.table wanted.now leads.now multiple → IsTrue result }
    {
        if is_marked(leads, multiple.number) && completes_some(&self.table, wanted, multiple.sum) {
            return true;
        }
        for other in &self.multiples {
            if self.serves_with(wanted, leads, multiple, *other) {
                return true;
            }
        }
        false
    }

    /// Whether both multiples added up can be completed, where one of them leads.
    fn serves_with(
        &self,
        wanted: &[Sum],
        leads: &[bool],
        multiple: Multiple,
        other: Multiple,
    ) -> bool
        requires small { IsNear (2 ^ 114) multiple.sum }
        requires other { IsNear (2 ^ 114) other.sum }
        requires wanted { AllByRecursion (IsNear (2 ^ 120)) wanted.now }
        ensures { IsMarked leads.now multiple.number ⊎ IsMarked leads.now other.number
            → CompletesSome self.now.table wanted.now (plus multiple.sum other.sum) → IsTrue result }
    {
        (is_marked(leads, multiple.number) || is_marked(leads, other.number))
            && completes_some(&self.table, wanted, multiple.sum.plus(other.sum))
    }

    /// Puts the sums of this one and each multiple into the table.
    fn put_pairs(table: &mut Table, multiples: &[Multiple], sum: Sum) -> Result<(), AllocError>
        requires near { AreNear multiples.now }
        requires small { IsNear (2 ^ 114) sum }
        ensures { OnOk result (PutsPairs multiples.now sum table.old table.new) }
    {
        for multiple in multiples {
            put_sum(table, sum.plus(multiple.sum))?;
        }
        Ok(())
    }
}
