//! The memory of a run, with the words that are left for a calloc, and what actions do to it.

ghost use Rattle.std.specs.Prelude.{◌≡◌, ℕ, ◌+◌, ◌≤◌, ℤ, List, [], length, IfOk};
ghost use Rattle.lq_meaning.specs.Entry.{start, start_on};
ghost use Rattle.lq_meaning.specs.Memory.{reach};
ghost use Rattle.lq_meaning.specs.World.{act, take_words, allocated, loaded, stored, entered};
ghost use Rattle.lq_meaning.specs.Heap.{heap_world, comes, printed_by};

use crate::{Action, Memory};
use lq_tree::TrapKind;
use sqlite_items::Items;
use std::alloc::{AllocError, Global};

// A pointer word has room for the numbers of so many blocks.
const MOST_BLOCKS: usize = (1 << 31) - 1;

/// What comes of an action: a word, a trap, or a stray.
#[derive(Clone, Copy, Debug, PartialEq)]
pub enum Acted {
    Answer(i64),
    Trap(TrapKind),
    /// The access lies in no block.
    Stray,
}

/// The memory of a run, and the words that are left for a calloc.
#[derive(Drop)]
pub struct Heap {
    pub memory: Memory,
    left: u32,
}

impl Heap {
    /// The heap of a run without an input, which has so many words.
    pub fn new(alloc: Global, words: u32) -> Heap
        ensures { heap_world result 0 [] ≡ start words }
    {
        Heap {
            memory: Memory::new(alloc),
            left: words,
        }
    }

    /// The heap of a run on an input, which is its first block and takes its share of the words.
    pub fn on_input(alloc: Global, input: &[i64], words: u32) -> Result<Heap, AllocError>
        requires { length input.now ≤ words }
        ensures { IfOk result (λ heap. heap_world heap 0 [] ≡ start_on words input.now) }
    {
        let mut memory = Memory::new(alloc);
        if !input.is_empty() {
            memory.push(1, Items::from_slice(alloc, input)?)?;
        }
        Ok(Heap {
            memory,
            left: words - input.len() as u32,
        })
    }

    /// Does an action. A print is left to the caller: here it only answers its number. After an error nothing is said of
    /// the heap.
    pub fn act(&mut self, alloc: Global, action: Action) -> Result<Acted, AllocError>
        ensures { IfOk result (λ acted. (cost : ℕ) (printed : List ℤ) → act action (heap_world self.old cost printed) ≡ comes acted (heap_world self.new (cost + 1) (printed_by action printed))) }
    {
        match action {
            Action::Allocate { count, fields } => self.allocate(alloc, count, fields),
            Action::Load {
                pointer,
                index,
                field,
            } => Ok(self.load(pointer, index, field)),
            Action::Store {
                pointer,
                index,
                field,
                word,
            } => Ok(self.store(pointer, index, field, word)),
            Action::Print { number } => Ok(Acted::Answer(number)),
            Action::Enter { more: 0 } => Ok(Acted::Trap(TrapKind::Depth)),
            Action::Enter { .. } | Action::Test | Action::Start => Ok(Acted::Answer(0)),
        }
    }

    // A calloc: the count is tested before the words.
    fn allocate(&mut self, alloc: Global, count: i64, fields: u32) -> Result<Acted, AllocError>
        ensures { IfOk result (λ acted. (cost : ℕ) (printed : List ℤ) → allocated (heap_world self.old cost printed) count fields ≡ comes acted (heap_world self.new cost printed)) }
    {
        match u64::try_from(count) {
            Ok(count) if count > 0 => self.take_words(alloc, fields, count),
            _ => Ok(Acted::Trap(TrapKind::Count)),
        }
    }

    // A calloc of so many elements.
    fn take_words(&mut self, alloc: Global, fields: u32, count: u64) -> Result<Acted, AllocError>
        ensures { IfOk result (λ acted. (cost : ℕ) (printed : List ℤ) → take_words (heap_world self.old cost printed) fields count ≡ comes acted (heap_world self.new cost printed)) }
    {
        let left = self.left;
        let size = u128::from(count) * u128::from(fields);
        if size > u128::from(left) {
            return Ok(Acted::Trap(TrapKind::Words));
        }
        let blocks = self.memory.len();
        if blocks >= MOST_BLOCKS {
            return Err(AllocError);
        }
        let size = size as u32;
        self.memory.add_zeros(alloc, fields, size)?;
        self.left = left - size;
        Ok(Acted::Answer((blocks as i64 + 1) * (1 << 32)))
    }

    // A load answers the word of its address.
    fn load(&self, pointer: i64, index: i64, field: u32) -> Acted
        ensures { (cost : ℕ) (printed : List ℤ) → loaded (heap_world self.now cost printed) (reach self.now.memory pointer index field) ≡ comes result (heap_world self.now cost printed) }
    {
        match self.memory.reach(pointer, index, field) {
            Some(at) => Acted::Answer(self.memory.word_at(at.block, at.element, at.field)),
            None => Acted::Stray,
        }
    }

    // A store answers the word that it wrote.
    fn store(&mut self, pointer: i64, index: i64, field: u32, word: i64) -> Acted
        ensures { (cost : ℕ) (printed : List ℤ) → stored (heap_world self.old cost printed) (reach self.old.memory pointer index field) word ≡ comes result (heap_world self.new cost printed) }
    {
        match self.memory.reach(pointer, index, field) {
            Some(at) => {
                self.memory.set_word(at.block, at.element, at.field, word);
                Acted::Answer(word)
            }
            None => Acted::Stray,
        }
    }
}
