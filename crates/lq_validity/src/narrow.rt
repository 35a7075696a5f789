//! Marks that are narrowed to what a goal needs.

ghost use Rattle.std.specs.Prelude.{◌≡◌, ◌^◌, ◌<◌, IfOk, length};
ghost use Rattle.lq_validity.specs.Sum.{IsNear};
ghost use Rattle.lq_validity.specs.Narrow.{wanted_for, AreWanted, IsPool, KeepsConsequences, KeepsContradictions};

use crate::pool::Pool;
use crate::rows::rows_with;
use crate::sum::Sum;
use lq_linear::LooseRow;
use std::alloc::{AllocError, Global};

/// What a combination with this divisor has to weigh and to be at most.
fn wanted_sum(goal: &LooseRow, divisor: u32) -> Sum
    ensures value { result ≡ wanted_for goal.now divisor }
    ensures near { IsNear (2 ^ 120) result }
{
    let Sum { weight, most } = Sum::of(goal).times(divisor);
    Sum {
        weight,
        most: most + (i128::from(divisor) - 1),
    }
}

/// The same for each divisor.
fn wanted_sums(alloc: Global, multipliers: &[u32], goal: &LooseRow) -> Result<Vec<Sum>, AllocError>
    ensures { IfOk result (λ wanted. AreWanted multipliers.now goal.now wanted.items) }
{
    let mut wanted = Vec::new(alloc);
    for divisor in multipliers {
        wanted.push(wanted_sum(goal, *divisor))?;
    }
    Ok(wanted)
}

/// The symbol of these terms that stands in the fewest rows.
fn rarest(rows: &[LooseRow], terms: &[(u32, i64)]) -> Option<u32> {
    let mut rarest = None;
    let mut least = usize::MAX;
    for (symbol, _) in terms {
        let count = count_with(rows, *symbol);
        if count < least {
            least = count;
            rarest = Some(*symbol);
        }
    }
    rarest
}

/// In how many rows the symbol stands.
fn count_with(rows: &[LooseRow], symbol: u32) -> usize {
    rows.iter()
        .filter(|row| row.coefficient(symbol) != 0)
        .count()
}

/// Keeps the marks of facts that may take part in a consequence.
pub(crate) fn keep_consequences(
    alloc: Global,
    rows: &[LooseRow],
    pool: &Pool,
    marks: &[bool],
    multipliers: &[u32],
    goal: &LooseRow,
    terms: &[(u32, i64)],
) -> Result<Vec<bool>, AllocError>
    requires pool { IsPool multipliers.now marks.now rows.now pool.now.multiples.items pool.now.table }
    requires few { length marks.now < 2 ^ 32 }
    ensures { IfOk result (λ useful. KeepsConsequences multipliers.now marks.now useful.items rows.now goal.now) }
{
    let wanted = wanted_sums(alloc, multipliers, goal)?;
    let Some(symbol) = rarest(rows, terms) else {
        return pool.useful(alloc, marks, wanted.as_slice(), marks);
    };
    if goal.coefficient(symbol) == 0 {
        return pool.useful(alloc, marks, wanted.as_slice(), marks);
    }
    let leads = rows_with(alloc, rows, symbol)?;
    pool.useful(alloc, marks, wanted.as_slice(), leads.as_slice())
}

/// Keeps the marks of facts that may take part in a contradiction.
pub(crate) fn keep_contradictions(
    alloc: Global,
    rows: &[LooseRow],
    pool: &Pool,
    marks: &[bool],
    multipliers: &[u32],
) -> Result<Vec<bool>, AllocError>
    requires pool { IsPool multipliers.now marks.now rows.now pool.now.multiples.items pool.now.table }
    requires few { length marks.now < 2 ^ 32 }
    ensures { IfOk result (λ useful. KeepsContradictions multipliers.now marks.now useful.items rows.now) }
{
    let _ = rows;
    let _ = multipliers;
    let wanted = [Sum {
        weight: 0,
        most: -1,
    }];
    pool.useful(alloc, marks, &wanted, marks)
}
