ghost use Rattle.std.specs.Prelude.{◌≡◌, ◌≤◌, IfOk};
ghost use Rattle.lq_work.specs.Numbers.{numbers as numbers_of};
ghost use Rattle.lq_work.specs.Work.{source_of as text_of_source, quals_of as text_of_quals, workload};

use crate::texts::{SORT_QUALS, SORT_SOURCE, STRIDE_QUALS, STRIDE_SOURCE};
use crate::{Kind, Work};
use sqlite_items::Items;
use std::alloc::{AllocError, Global};

/// The workload of a kind with `n` numbers as input (docs/COMMANDS.md, "Workloads").
pub fn make(alloc: Global, kind: Kind, n: u32) -> Result<Work, AllocError>
    requires least { 1 ≤ n }
    requires most { n ≤ 65536 }
    ensures { IfOk result (λ work. work ≡ workload kind n) }
{
    Ok(Work {
        source: Items::from_slice(alloc, source_of(kind))?,
        quals: Items::from_slice(alloc, quals_of(kind))?,
        input: numbers(alloc, n)?,
    })
}

#[tactic(auto, unfolding(crate::specs::Texts::sort_source, crate::specs::Texts::stride_source))]
fn source_of(kind: Kind) -> &'static [u8]
    ensures { result.now ≡ text_of_source kind }
{
    match kind {
        Kind::Sort => SORT_SOURCE,
        Kind::Stride => STRIDE_SOURCE,
    }
}

#[tactic(auto, unfolding(crate::specs::Texts::sort_quals, crate::specs::Texts::stride_quals))]
fn quals_of(kind: Kind) -> &'static [u8]
    ensures { result.now ≡ text_of_quals kind }
{
    match kind {
        Kind::Sort => SORT_QUALS,
        Kind::Stride => STRIDE_QUALS,
    }
}

/// The numbers of the input, each made of the one before it, and the first of `n`.
fn numbers(alloc: Global, n: u32) -> Result<Items<i64>, AllocError>
    requires { n ≤ 65536 }
    ensures { IfOk result (λ made. made ≡ numbers_of n) }
{
    let mut made = Vec::new(alloc);
    let mut number = u64::from(n);
    for _ in 0..n {
        number = (number * 1_103_515_245 + 12_345) % 2_147_483_648;
        made.push(number as i64)?;
    }
    Ok(Items::from_vec(made))
}
