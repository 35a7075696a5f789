mod lines;
mod runs;

use crate::{Acted, Action, Address, Blocks, Heap, Memory};
use lq_tree::TrapKind;
use std::alloc::{AllocError, Global};
use std::test::Fail;

// The pointer word of a block's first element.
const BLOCK: i64 = 1 << 32;

// The word that a pointer, an index and a field reach.
fn word(memory: &Memory, pointer: i64, index: i64, field: u32) -> Option<i64> {
    let at = memory.reach(pointer, index, field)?;
    Some(memory.word_at(at.block, at.element, at.field))
}

// Makes it another one, if there is one.
fn put(memory: &mut Memory, pointer: i64, index: i64, field: u32, word: i64) {
    if let Some(at) = memory.reach(pointer, index, field) {
        memory.set_word(at.block, at.element, at.field, word);
    }
}

// A block of three elements of one field, and one of two elements of two.
fn two_blocks(alloc: Global) -> Result<Memory, AllocError> {
    let mut memory = Memory::new(alloc);
    memory.allocate(alloc, 1, 3)?;
    memory.allocate(alloc, 2, 2)?;
    Ok(memory)
}

#[test]
fn new_words_are_0(rt: HostRuntime) -> Result<(), Fail> {
    let memory = two_blocks(rt.alloc())?;
    for (pointer, field) in [
        (BLOCK, 0),
        (BLOCK + 2, 0),
        (2 * BLOCK, 0),
        (2 * BLOCK + 1, 1),
    ] {
        assert!(rt; word(&memory, pointer, 0, field) == Some(0));
    }
    Ok(())
}

#[test]
fn keeps_words_by_block_element_and_field(rt: HostRuntime) -> Result<(), Fail> {
    let mut memory = two_blocks(rt.alloc())?;
    put(&mut memory, BLOCK, 2, 0, -5);
    put(&mut memory, 2 * BLOCK, 0, 1, i64::MIN);
    put(&mut memory, 2 * BLOCK, 1, 0, 7);
    let words = [
        (BLOCK + 1, 0, 0),
        (BLOCK + 2, 0, -5),
        (2 * BLOCK, 0, 0),
        (2 * BLOCK, 1, i64::MIN),
        (2 * BLOCK + 1, 0, 7),
        (2 * BLOCK + 1, 1, 0),
    ];
    for (pointer, field, now) in words {
        assert!(rt; word(&memory, pointer, 0, field) == Some(now));
    }
    Ok(())
}

// A block of three elements of two fields.
#[test]
fn reaches_only_what_lies_in_a_block(rt: HostRuntime) -> Result<(), Fail> {
    let mut memory = Memory::new(rt.alloc());
    memory.allocate(rt.alloc(), 2, 3)?;
    let last = Address {
        block: 1,
        element: 2,
        field: 1,
    };
    assert!(rt; memory.reach(BLOCK + 1, 1, 1) == Some(last));
    let outside = [
        (BLOCK + 1, 2, 1),
        (BLOCK + 1, -2, 0),
        (BLOCK + 1, i64::MAX, 0),
        (BLOCK, 0, 2),
        (0, 0, 0),
        (-1, 0, 0),
        (2 * BLOCK, 0, 0),
    ];
    for (pointer, index, field) in outside {
        assert!(rt; memory.reach(pointer, index, field).is_none());
    }
    Ok(())
}

// Whether a heap answers these actions so, one after the other.
fn answers(alloc: Global, heap: &mut Heap, rows: &[(Action, Acted)]) -> Result<bool, AllocError> {
    for (action, answer) in rows {
        if heap.act(alloc, *action)? != *answer {
            return Ok(false);
        }
    }
    Ok(true)
}

#[test]
fn callocs_are_tested_for_their_count_and_then_for_words(rt: HostRuntime) -> Result<(), Fail> {
    let mut heap = Heap::new(rt.alloc(), 5);
    let rows = [
        (allocate(0, 1), Acted::Trap(TrapKind::Count)),
        (allocate(-1, 1), Acted::Trap(TrapKind::Count)),
        (allocate(3, 2), Acted::Trap(TrapKind::Words)),
        (allocate(i64::MAX, u32::MAX), Acted::Trap(TrapKind::Words)),
        (allocate(2, 2), Acted::Answer(BLOCK)),
        (allocate(1, 1), Acted::Answer(2 * BLOCK)),
        (allocate(1, 1), Acted::Trap(TrapKind::Words)),
    ];
    assert!(rt; answers(rt.alloc(), &mut heap, &rows)?);
    Ok(())
}

// In a block of two elements of two fields.
#[test]
fn loads_and_stores_answer_words(rt: HostRuntime) -> Result<(), Fail> {
    let mut heap = Heap::new(rt.alloc(), 5);
    let rows = [
        (allocate(2, 2), Acted::Answer(BLOCK)),
        (store(BLOCK, 1, -7), Acted::Answer(-7)),
        (load(BLOCK + 1, 0), Acted::Answer(-7)),
        (load(BLOCK, 0), Acted::Answer(0)),
        (load(BLOCK, 2), Acted::Stray),
        (store(2 * BLOCK, -1, 3), Acted::Stray),
    ];
    assert!(rt; answers(rt.alloc(), &mut heap, &rows)?);
    Ok(())
}

#[test]
fn other_actions_touch_no_memory(rt: HostRuntime) -> Result<(), Fail> {
    let mut heap = Heap::new(rt.alloc(), 0);
    let rows = [
        (Action::Print { number: -4 }, Acted::Answer(-4)),
        (Action::Enter { more: 0 }, Acted::Trap(TrapKind::Depth)),
        (Action::Enter { more: 1 }, Acted::Answer(0)),
        (Action::Test, Acted::Answer(0)),
        (Action::Start, Acted::Answer(0)),
    ];
    assert!(rt; answers(rt.alloc(), &mut heap, &rows)?);
    Ok(())
}

// A calloc.
fn allocate(count: i64, fields: u32) -> Action {
    Action::Allocate { count, fields }
}

// A load of the first field of an element.
fn load(pointer: i64, index: i64) -> Action {
    Action::Load {
        pointer,
        index,
        field: 0,
    }
}

// A store there.
fn store(pointer: i64, index: i64, word: i64) -> Action {
    Action::Store {
        pointer,
        index,
        field: 0,
        word,
    }
}

// The input is block 1, and leaves the rest of the words.
#[test]
fn begins_with_the_input(rt: HostRuntime) -> Result<(), Fail> {
    let mut heap = Heap::on_input(rt.alloc(), [8, 9].as_slice(), 3)?;
    let rows = [
        (load(BLOCK, 1), Acted::Answer(9)),
        (allocate(2, 1), Acted::Trap(TrapKind::Words)),
        (allocate(1, 1), Acted::Answer(2 * BLOCK)),
    ];
    assert!(rt; answers(rt.alloc(), &mut heap, &rows)?);
    Ok(())
}

#[test]
fn an_empty_input_is_no_block(rt: HostRuntime) -> Result<(), Fail> {
    let mut heap = Heap::on_input(rt.alloc(), [].as_slice(), 3)?;
    let rows = [
        (load(BLOCK, 0), Acted::Stray),
        (allocate(3, 1), Acted::Answer(BLOCK)),
    ];
    assert!(rt; answers(rt.alloc(), &mut heap, &rows)?);
    Ok(())
}

// Two elements of two fields from cell 1 on, one word at cell 0, and a block without an element.
fn three_blocks(alloc: Global) -> Result<Blocks, AllocError> {
    let mut blocks = Blocks::new(alloc);
    blocks.add(1, 2, 2)?;
    blocks.add(0, 1, 1)?;
    blocks.add(7, 1, 0)?;
    Ok(blocks)
}

#[test]
fn finds_cells_of_blocks(rt: HostRuntime) -> Result<(), Fail> {
    let blocks = three_blocks(rt.alloc())?;
    for (block, element, field, cell) in [(1, 0, 0, 1), (1, 1, 1, 4), (2, 0, 0, 0)] {
        assert!(rt; blocks.cell(block, element, field) == Some(cell));
    }
    Ok(())
}

#[test]
fn finds_no_cell_outside_of_blocks(rt: HostRuntime) -> Result<(), Fail> {
    let blocks = three_blocks(rt.alloc())?;
    let outside = [
        (1, 2, 0),
        (1, 0, 2),
        (1, -1, 0),
        (1, i128::MAX, 0),
        (3, 0, 0),
        (0, 0, 0),
        (4, 0, 0),
    ];
    for (block, element, field) in outside {
        assert!(rt; blocks.cell(block, element, field).is_none());
    }
    Ok(())
}

// The words of two blocks, of which one stands before the other.
#[test]
fn takes_the_words_of_blocks(rt: HostRuntime) -> Result<(), Fail> {
    let mut blocks = Blocks::new(rt.alloc());
    blocks.add(1, 2, 1)?;
    blocks.add(0, 1, 1)?;
    let memory = Memory::of(rt.alloc(), &blocks, [5, 6, 7, 8].as_slice())?;
    assert!(rt; word(&memory, BLOCK, 0, 0) == Some(6));
    assert!(rt; word(&memory, BLOCK, 0, 1) == Some(7));
    assert!(rt; word(&memory, 2 * BLOCK, 0, 0) == Some(5));
    assert!(rt; word(&memory, BLOCK, 1, 0).is_none());
    Ok(())
}
