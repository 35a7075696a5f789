//! Tables of sums by their weight.

ghost use Rattle.std.specs.Prelude.{◌≡◌, ◌↔◌, ◌^◌, IsTrue, OnOk};
ghost use Rattle.std.specs.List.{AllByRecursion};
ghost use Rattle.lq_validity.specs.Sum.{IsNear};
ghost use Rattle.lq_validity.specs.Table.{PutsSum, Completes, CompletesSome};

use crate::sum::Sum;
use std::alloc::AllocError;
use std::collections::HashMap;

/// For each weight the least number that a sum with this weight is at most.
pub(crate) type Table = HashMap<i128, i128>;

/// Puts a sum into the table.
pub(crate) fn put_sum(table: &mut Table, sum: Sum) -> Result<(), AllocError>
    requires { IsNear (2 ^ 120) sum }
    ensures { OnOk result (PutsSum sum table.old table.new) }
{
    if let Some(most) = table.get(&sum.weight) {
        if *most <= sum.most {
            return Ok(());
        }
    }
    table.insert(sum.weight, sum.most)?;
    Ok(())
}

/// Whether the table has what, added to the sum, is as wanted.
pub(crate) fn completes(table: &Table, wanted: Sum, sum: Sum) -> bool
    requires wanted { IsNear (2 ^ 120) wanted }
    requires sum { IsNear (2 ^ 120) sum }
    ensures { IsTrue result ↔ Completes table.now wanted sum }
{
    match table.get(&(wanted.weight - sum.weight)) {
        None => false,
        Some(most) => *most <= wanted.most - sum.most,
    }
}

/// The same, for one of several sums that are wanted.
pub(crate) fn completes_some(table: &Table, wanted: &[Sum], sum: Sum) -> bool
    requires wanted { AllByRecursion (IsNear (2 ^ 120)) wanted.now }
    requires sum { IsNear (2 ^ 120) sum }
    ensures { CompletesSome table.now wanted.now sum → IsTrue result }
{
    for one in wanted {
        if completes(table, *one, sum) {
            return true;
        }
    }
    false
}
