ghost use Rattle.std.specs.Prelude.{◌≡◌, ℕ, ◌<◌};
ghost use Rattle.lq_words.specs.Part.{units_at, value_at, HasAll, IsBeside};

use super::*;
use lq_meaning::Words;
use std::marker::Brand;
use std::test::Fail;
use std::thread::{Threads, join};

#[test]
fn takes_cells_for_blocks(rt: HostRuntime) -> Result<(), Fail> {
    let (mut memory, _whole) = WordMemory::make(rt.alloc(), 3, 3)?;
    assert_eq!(rt; memory.grow(2), true);
    assert_eq!(rt; memory.grow(2), false);
    assert_eq!(rt; memory.grow(1), true);
    assert_eq!(rt; memory.grow(1), false);
    Ok(())
}

#[test]
fn parts_share_a_cell(rt: HostRuntime) -> Result<(), Fail> {
    let (memory, whole) = WordMemory::make(rt.alloc(), 2, 3)?;
    let (mut first, mut second) = memory.part::<Brand>(whole);
    memory.store(&mut first, 0, 7);
    assert_eq!(rt; memory.load(&mut first, 1), 0);
    assert_eq!(rt; memory.load(&mut second, 1), 0);
    let whole = memory.rejoin(first, second);
    let values = memory.close(rt.alloc(), whole)?;
    assert_eq!(rt; values.as_slice(), [7, 0].as_slice());
    Ok(())
}

// Two threads store into a cell of their own each, and their parts are put together again.
fn store_both<R: Threads + Sync>(
    rt: &R,
    memory: &WordMemory,
    whole: Part,
    first: i64,
    second: i64,
) -> Part
    requires home { whole.home ≡ memory.now.home }
    requires all { (0 < whole.all) × HasAll whole 0 × HasAll whole 1 }
    ensures first { value_at result 0 ≡ first }
    ensures second { value_at result 1 ≡ second }
    ensures units { (cell : ℕ) → units_at result cell ≡ units_at whole cell }
    ensures same { IsBeside whole result }
{
    let (mut one, mut other) = memory.part::<Brand>(whole);
    let (one, other) = join(
        rt,
        move || {
            memory.store(&mut one, 0, first);
            one
        },
        move || {
            memory.store(&mut other, 1, second);
            other
        },
    );
    memory.rejoin(one, other)
}

#[test]
fn threads_store(rt: HostRuntime) -> Result<(), Fail> {
    let (memory, whole) = WordMemory::make(rt.alloc(), 2, 2)?;
    let whole = store_both(&rt, &memory, whole, 5, -6);
    let values = memory.close(rt.alloc(), whole)?;
    assert_eq!(rt; values.as_slice(), [5, -6].as_slice());
    Ok(())
}

// Copies the word of one cell into another.
fn copy_word<W: Words>(words: &mut W, from: u32, to: u32)
    requires from { W.can_read words.old from }
    requires to { W.can_write words.old to }
    ensures copied { W.word_of words.new to ≡ W.word_of words.old from }
    ensures kept { W.keeps words.old words.new }
{
    let word = words.get(from);
    words.set(to, word);
}

#[test]
fn part_as_words(rt: HostRuntime) -> Result<(), Fail> {
    let (memory, mut whole) = WordMemory::make(rt.alloc(), 2, 1)?;
    memory.store(&mut whole, 0, -9);
    let mut words = SharedWords::new(&memory, whole);
    copy_word(&mut words, 0, 1);
    let whole = words.into_part();
    let values = memory.close(rt.alloc(), whole)?;
    assert_eq!(rt; values.as_slice(), [-9, -9].as_slice());
    Ok(())
}
