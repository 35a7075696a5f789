//! Sums of multiples of rows, as far as weights tell.

use lq_linear::{LooseRow, WIDTH};

/// What the form of a sum weighs, and what the sum is at most.
#[derive(Clone, Copy)]
pub(crate) struct Sum {
    pub(crate) weight: i128,
    pub(crate) most: i128,
}

impl Sum {
    ghost use Rattle.std.specs.Prelude.{◌≡◌, ℕ, ◌+◌, ◌^◌, ◌≤◌, length};
    ghost use Rattle.std.specs.List.{AllByRecursion};
    ghost use Rattle.lq_linear.specs.Terms.{IsWithin};
    ghost use Rattle.lq_validity.specs.Sum.{sum_of, no_sum, multiple, plus, part_sum, parts_sum, IsNear};

    /// The empty sum.
    pub(crate) const NONE: Sum = Sum { weight: 0, most: 0 };

    /// A row as a sum.
    pub(crate) fn of(row: &LooseRow) -> Sum
        ensures value { result ≡ sum_of row.now }
        ensures near { IsNear (2 ^ 82) result }
    {
        Sum {
            weight: row.weight(),
            most: i128::from(row.most()),
        }
    }

    /// A multiple.
    pub(crate) fn times(self, multiplier: u32) -> Sum
        requires { IsNear (2 ^ 82) self }
        ensures value { result ≡ multiple multiplier self }
        ensures near { IsNear (2 ^ 114) result }
    {
        Sum {
            weight: i128::from(multiplier) * self.weight,
            most: i128::from(multiplier) * self.most,
        }
    }

    /// Both added up.
    pub(crate) fn plus(self, other: Sum) -> Sum
        requires first { IsNear (2 ^ 120) self }
        requires second { IsNear (2 ^ 114) other }
        ensures value { result ≡ plus self other }
        ensures near { (n : ℕ) → IsNear n self → IsNear (n + 2 ^ 114) result }
    {
        Sum {
            weight: self.weight + other.weight,
            most: self.most + other.most,
        }
    }

    /// A multiple of the row with this number, where the rows are given as sums.
    pub(crate) fn multiple_of(sums: &[Sum], multiplier: u32, number: u32) -> Sum
        requires { AllByRecursion (IsNear (2 ^ 82)) sums.now }
        ensures value { result ≡ part_sum sums.now (multiplier, number) }
        ensures near { IsNear (2 ^ 114) result }
    {
        let place = (number as usize).saturating_sub(1);
        sums.get(place)
            .copied()
            .unwrap_or(Sum::NONE)
            .times(multiplier)
    }

    /// What the multiples of rows weigh, added up.
    pub(crate) fn weight_of(sums: &[Sum], parts: &[(u32, u32)]) -> i128
        requires near { AllByRecursion (IsNear (2 ^ 82)) sums.now }
        requires few { length parts.now ≤ WIDTH }
        ensures value { result ≡ (parts_sum sums.now parts.now).weight }
        ensures near { IsWithin (2 ^ 117) result }
    {
        let mut total = 0;
        for (multiplier, number) in parts {
            total += Sum::multiple_of(sums, *multiplier, *number).weight;
        }
        total
    }
}
