//! The search in its order.

ghost use Rattle.std.specs.Prelude.{◌≡◌, ◌*◌, ◌^◌, ◌+◌, ◌<◌, ◌≤◌, [], ◌∷◌, ◌↔◌, IsTrue, IfOk, length, reverse};
ghost use Rattle.lq_linear.specs.Item.{rows};
ghost use Rattle.lq_validity.specs.Marks.{IsMarked};
ghost use Rattle.lq_linear.specs.Ascend.{Ascend};
ghost use Rattle.lq_linear.specs.Derivation.{IsConsequence, IsContradiction};
ghost use Rattle.lq_validity.specs.Narrow.{KnowsWeights};
ghost use Rattle.lq_validity.specs.Families.{SettledBy, WithParts, WithNumbers, WithNumbersBy, WithMore, WithMoreAt, WithFew, FindsFirst};

use crate::marks::is_marked;
use crate::sum::Sum;
use lq_linear::{Combo, Item, LooseRow, WIDTH, is_consequence, is_contradiction};
use sqlite_items::Items;
use std::alloc::{AllocError, Global};

/// What is searched. The marks tell which rows are facts; `direct` leaves contradictions out. The
/// sums are those of all rows, and the weight is that of the goal.
#[derive(Clone, Copy)]
pub(crate) struct Search<'a> {
    pub(crate) alloc: Global,
    pub(crate) items: &'a [Item],
    pub(crate) marks: &'a [bool],
    pub(crate) multipliers: &'a [u32],
    pub(crate) direct: bool,
    pub(crate) sums: &'a [Sum],
    pub(crate) weight: i128,
}

impl<'a> Search<'a> {
    /// The first combination of all.
    pub(crate) fn first(&self, goal: &LooseRow) -> Result<Option<Combo>, AllocError>
        requires marks { length self.now.marks.now < 3 * 2 ^ 30 }
        requires ascending { Ascend (0 ∷ self.now.multipliers.now) }
        requires weighed { KnowsWeights self.now.sums.now self.now.weight (rows (reverse self.now.items.now)) goal.now }
        ensures { IfOk result (FindsFirst (WithFew self.now.multipliers.now (IsMarked self.now.marks.now)
            (rows (reverse self.now.items.now)) goal.now self.now.direct (WIDTH + 1))) }
    {
        let mut numbers = Vec::new(self.alloc);
        for left in 0..WIDTH + 1 {
            if let Some(combo) = self.first_of(goal, left, &mut numbers, 1)? {
                return Ok(Some(combo));
            }
        }
        Ok(None)
    }

    /// The first without a row.
    pub(crate) fn first_alone(&self, goal: &LooseRow) -> Result<Option<Combo>, AllocError>
        requires marks { length self.now.marks.now < 3 * 2 ^ 30 }
        requires ascending { Ascend (0 ∷ self.now.multipliers.now) }
        requires weighed { KnowsWeights self.now.sums.now self.now.weight (rows (reverse self.now.items.now)) goal.now }
        ensures { IfOk result (FindsFirst (WithMore self.now.multipliers.now (IsMarked self.now.marks.now)
            (rows (reverse self.now.items.now)) goal.now self.now.direct [] 0 1)) }
    {
        let mut numbers = Vec::new(self.alloc);
        self.first_of(goal, 0, &mut numbers, 1)
    }

    /// The first with the rows of these numbers and `left` more, from the number `from` on.
    #[cycle(positions)]
    fn first_of(
        &self,
        goal: &LooseRow,
        left: usize,
        numbers: &mut Vec<u32>,
        from: u32,
    ) -> Result<Option<Combo>, AllocError>
        requires room { length numbers.old.items + left ≤ WIDTH }
        requires marks { length self.now.marks.now < 3 * 2 ^ 30 }
        requires ascending { Ascend (0 ∷ self.now.multipliers.now) }
        requires weighed { KnowsWeights self.now.sums.now self.now.weight (rows (reverse self.now.items.now)) goal.now }
        ensures first { IfOk result (FindsFirst (WithMore self.now.multipliers.now (IsMarked self.now.marks.now)
            (rows (reverse self.now.items.now)) goal.now self.now.direct numbers.old.items left from)) }
        ensures same { IfOk result (λ _. numbers.new.items ≡ numbers.old.items) }
    {
        if left == 0 {
            let mut parts = Vec::new(self.alloc);
            return self.first_multiplied(goal, numbers.as_slice(), &mut parts);
        }
        let end = self.marks.len() as u32 + 1;
        for number in from..end {
            if let Some(combo) = self.first_at(goal, left, numbers, number)? {
                return Ok(Some(combo));
            }
        }
        Ok(None)
    }

    /// The first whose next row has this number.
    #[cycle(positions)]
    fn first_at(
        &self,
        goal: &LooseRow,
        left: usize,
        numbers: &mut Vec<u32>,
        number: u32,
    ) -> Result<Option<Combo>, AllocError>
        requires some { 0 < left }
        requires room { length numbers.old.items + left ≤ WIDTH }
        requires number { number ≤ 3 * 2 ^ 30 }
        requires marks { length self.now.marks.now < 3 * 2 ^ 30 }
        requires ascending { Ascend (0 ∷ self.now.multipliers.now) }
        requires weighed { KnowsWeights self.now.sums.now self.now.weight (rows (reverse self.now.items.now)) goal.now }
        ensures first { IfOk result (FindsFirst (WithMoreAt self.now.multipliers.now (IsMarked self.now.marks.now)
            (rows (reverse self.now.items.now)) goal.now self.now.direct numbers.old.items left number)) }
        ensures same { IfOk result (λ _. numbers.new.items ≡ numbers.old.items) }
    {
        if !is_marked(self.marks, number) {
            return Ok(None);
        }
        numbers.push(number)?;
        let found = self.first_of(goal, left - 1, numbers, number + 1)?;
        numbers.pop();
        Ok(found)
    }

    /// The first with these parts and further ones of the rows with these numbers.
    #[cycle(multipliers)]
    fn first_multiplied(
        &self,
        goal: &LooseRow,
        numbers: &[u32],
        parts: &mut Vec<(u32, u32)>,
    ) -> Result<Option<Combo>, AllocError>
        requires room { length parts.old.items + length numbers.now ≤ WIDTH }
        requires ascending { Ascend (0 ∷ self.now.multipliers.now) }
        requires weighed { KnowsWeights self.now.sums.now self.now.weight (rows (reverse self.now.items.now)) goal.now }
        ensures first { IfOk result (FindsFirst (WithNumbers self.now.multipliers.now
            (rows (reverse self.now.items.now)) goal.now self.now.direct parts.old.items numbers.now)) }
        ensures same { IfOk result (λ _. parts.new.items ≡ parts.old.items) }
    {
        let Some((number, rest)) = numbers.split_first() else {
            return self.first_divided(goal, parts.as_slice());
        };
        for multiplier in self.multipliers {
            if let Some(combo) = self.first_multiplied_by(
                goal,
                *number,
                *multiplier,
                rest,
                parts,
            )? {
                return Ok(Some(combo));
            }
        }
        Ok(None)
    }

    /// The first whose next part has this multiplier.
    #[cycle(multipliers)]
    fn first_multiplied_by(
        &self,
        goal: &LooseRow,
        number: u32,
        multiplier: u32,
        rest: &[u32],
        parts: &mut Vec<(u32, u32)>,
    ) -> Result<Option<Combo>, AllocError>
        requires room { length parts.old.items + length rest.now < WIDTH }
        requires ascending { Ascend (0 ∷ self.now.multipliers.now) }
        requires weighed { KnowsWeights self.now.sums.now self.now.weight (rows (reverse self.now.items.now)) goal.now }
        ensures first { IfOk result (FindsFirst (WithNumbersBy self.now.multipliers.now
            (rows (reverse self.now.items.now)) goal.now self.now.direct parts.old.items number rest.now multiplier)) }
        ensures same { IfOk result (λ _. parts.new.items ≡ parts.old.items) }
    {
        parts.push((multiplier, number))?;
        let found = self.first_multiplied(goal, rest, parts)?;
        parts.pop();
        Ok(found)
    }

    /// The first with just these parts.
    fn first_divided(
        &self,
        goal: &LooseRow,
        parts: &[(u32, u32)],
    ) -> Result<Option<Combo>, AllocError>
        requires room { length parts.now ≤ WIDTH }
        requires ascending { Ascend (0 ∷ self.now.multipliers.now) }
        requires weighed { KnowsWeights self.now.sums.now self.now.weight (rows (reverse self.now.items.now)) goal.now }
        ensures { IfOk result (FindsFirst (WithParts self.now.multipliers.now
            (rows (reverse self.now.items.now)) goal.now self.now.direct parts.now)) }
    {
        for divisor in self.multipliers {
            if let Some(void) = self.settled_by(goal, parts, *divisor) {
                return Ok(Some(Combo {
                    void,
                    divisor: *divisor,
                    parts: Items::from_slice(self.alloc, parts)?,
                }));
            }
        }
        Ok(None)
    }

    /// Whether the parts give the goal with this divisor, and if so, whether as a contradiction.
    fn settled_by(&self, goal: &LooseRow, parts: &[(u32, u32)], divisor: u32) -> Option<bool>
        requires room { length parts.now ≤ WIDTH }
        requires positive { 0 < divisor }
        requires weighed { KnowsWeights self.now.sums.now self.now.weight (rows (reverse self.now.items.now)) goal.now }
        ensures { SettledBy self.now.direct (rows (reverse self.now.items.now)) goal.now parts.now divisor result }
    {
        if self.follows(goal, parts, divisor) {
            return Some(false);
        }
        if !self.direct && divisor == 1 && self.contradicts(goal, parts) {
            return Some(true);
        }
        None
    }

    /// Whether the multiples of the rows give the goal as a consequence; their weights are compared
    /// first.
    fn follows(&self, goal: &LooseRow, parts: &[(u32, u32)], divisor: u32) -> bool
        requires room { length parts.now ≤ WIDTH }
        requires positive { 0 < divisor }
        requires weighed { KnowsWeights self.now.sums.now self.now.weight (rows (reverse self.now.items.now)) goal.now }
        ensures { IsTrue result ↔ IsConsequence (rows (reverse self.now.items.now)) parts.now divisor goal.now }
    {
        Sum::weight_of(self.sums, parts) == i128::from(divisor) * self.weight
            && is_consequence(self.items, parts, divisor, goal)
    }

    /// Whether the multiples of the rows contradict each other; their weight is looked at first.
    fn contradicts(&self, goal: &LooseRow, parts: &[(u32, u32)]) -> bool
        requires room { length parts.now ≤ WIDTH }
        requires weighed { KnowsWeights self.now.sums.now self.now.weight (rows (reverse self.now.items.now)) goal.now }
        ensures { IsTrue result ↔ IsContradiction (rows (reverse self.now.items.now)) parts.now }
    {
        let _ = goal;
        Sum::weight_of(self.sums, parts) == 0 && is_contradiction(self.items, parts)
    }
}
