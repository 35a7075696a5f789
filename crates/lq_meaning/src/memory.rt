ghost use Rattle.std.specs.Prelude.{◌≡◌, ◌≢◌, ℕ, ◌<◌, ◌≤◌, ◌^◌, pos, ◌+ℤ◌, [], ◌∷◌, ◌++◌, length, All, IsTrue, IfOk, OnOk, OnErr, IfSome, IfNone};
ghost use Rattle.lq_meaning.specs.declared.memory.Address.{Address};
ghost use Rattle.lq_meaning.specs.Blocks.{Below, memory_of};
ghost use Rattle.lq_meaning.specs.Memory.{address, lies, reach, word_at, with_word, with_zeros, with_block};

use crate::blocks::Blocks;
use crate::pointer::{block_of, offset_of};
use sqlite_items::Items;
use std::alloc::{AllocError, Global};
use std::marker::Model;

/// A block of memory: elements of so many fields, one word a field.
#[derive(Drop)]
pub struct Block {
    /// How many fields an element has.
    pub fields: u32,
    /// The words in order of element and field.
    pub words: Items<i64>,
}

/// Where a word stands: its block, from 1, and in it the element and the field, from 0 (docs/LANGUAGE.md, "Memory").
#[derive(Clone, Copy, Debug, PartialEq)]
pub struct Address {
    pub block: u32,
    pub element: u32,
    pub field: u32,
}

/// The blocks of a run, numbered from 1.
#[derive(Drop)]
pub struct Memory {
    blocks: Vec<Block>,
}

impl Model for Memory {
    ghost use Rattle.std.specs.Prelude.{List};
    ghost use Rattle.lq_meaning.specs.declared.memory.Block.{Block};

    ghost Value = { List Block };

    ghost view = { λ m. m.blocks.items };

    ghost use Rattle.lq_meaning.specs.Memory.{Addressable};

    ghost invariant = { λ m. Addressable m.blocks.items };
}

impl Memory {
    /// A memory without a block.
    pub fn new(alloc: Global) -> Memory
        ensures { result ≡ [] }
    {
        Memory {
            blocks: Vec::new(alloc),
        }
    }

    /// The memory of these blocks, whose words stand in their cells.
    pub fn of(alloc: Global, blocks: &Blocks, words: &[i64]) -> Result<Memory, AllocError>
        requires { All (Below (length words.now)) blocks.now }
        ensures { IfOk result (λ memory. memory ≡ memory_of blocks.now words.now) }
    {
        let mut memory = Memory::new(alloc);
        let spans = blocks.spans();
        for span in spans {
            let own = Items::from_slice(alloc, span.words_in(words))?;
            memory.push(span.fields, own)?;
        }
        Ok(memory)
    }

    /// Adds a block of so many elements, all of whose words are 0. A refusal changes nothing.
    pub fn allocate(&mut self, alloc: Global, fields: u32, count: u32) -> Result<(), AllocError>
        ensures ok { OnOk result (self.new ≡ with_block self.old fields count) }
        ensures err { OnErr result (self.new ≡ self.old) }
    {
        match count.checked_mul(fields) {
            Some(size) => self.add_zeros(alloc, fields, size),
            None => Err(AllocError),
        }
    }

    /// Adds a block of so many words, all of which are 0. A refusal changes nothing.
    pub(crate) fn add_zeros(
        &mut self,
        alloc: Global,
        fields: u32,
        size: u32,
    ) -> Result<(), AllocError>
        ensures ok { OnOk result (self.new ≡ with_zeros self.old fields size) }
        ensures err { OnErr result (self.new ≡ self.old) }
    {
        let words = Vec::from_elem(alloc, 0i64, size as usize)?;
        self.push(fields, Items::from_vec(words))
    }

    /// Adds a block of these words. A refusal changes nothing.
    pub(crate) fn push(&mut self, fields: u32, words: Items<i64>) -> Result<(), AllocError>
        requires { length words ≤ 2 ^ 32 }
        ensures ok { OnOk result (self.new ≡ self.old ++ record { fields = fields; words = words } ∷ []) }
        ensures err { OnErr result (self.new ≡ self.old) }
    {
        self.blocks.push(Block { fields, words })?;
        Ok(())
    }

    /// How many blocks there are.
    pub(crate) fn len(&self) -> usize
        ensures { result ≡ length self.now }
    {
        self.blocks.len()
    }

    /// The address that a pointer word and an index reach, where it lies in its block.
    pub fn reach(&self, pointer: i64, index: i64, field: u32) -> Option<Address>
        ensures { result ≡ reach self.now pointer index field }
    {
        // A use of the field makes the invariant known: no element has a number past the range of `u32`.
        let _blocks = &self.blocks;
        let block = block_of(pointer);
        let element = element_at(offset_of(pointer), index)?;
        if self.lies(block, element, field) {
            Some(Address {
                block,
                element,
                field,
            })
        } else {
            None
        }
    }

    // Whether an address lies in its block.
    fn lies(&self, block: u32, element: u32, field: u32) -> bool
        ensures { result ≡ lies self.now (address block element field) }
    {
        if block == 0 {
            return false;
        }
        match self.blocks.get(block as usize - 1) {
            Some(block) => block.has(element, field),
            None => false,
        }
    }

    /// The word at an address that lies in its block.
    pub fn word_at(&self, block: u32, element: u32, field: u32) -> i64
        requires { IsTrue (lies self.now (address block element field)) }
        ensures { result ≡ word_at self.now (address block element field) }
    {
        self.blocks[block as usize - 1].word_at(element, field)
    }

    /// Makes the word at an address, which lies in its block, another one.
    pub fn set_word(&mut self, block: u32, element: u32, field: u32, word: i64)
        requires { IsTrue (lies self.old (address block element field)) }
        ensures { self.new ≡ with_word self.old (address block element field) word }
    {
        self.blocks[block as usize - 1].set_word(element, field, word);
    }
}

// The number that is so far from an offset, where an element may have it.
fn element_at(offset: u32, index: i64) -> Option<u32>
    ensures some { IfSome result (λ element. pos offset +ℤ index ≡ pos element) }
    ensures none { IfNone result ((element : ℕ) → element < 2 ^ 32 → pos offset +ℤ index ≢ pos element) }
{
    u32::try_from(i64::from(offset).checked_add(index)?).ok()
}

impl Block {
    ghost use Rattle.std.specs.Prelude.{ℕ, ◌+◌, ◌*◌, ◌<◌, pos, length, slice_index_or, slice_set};
    ghost use Rattle.lq_meaning.specs.Memory.{elements, has};

    // Whether the block has an element and a field of these numbers; a division would cost each access more.
    fn has(&self, element: u32, field: u32) -> bool
        ensures { result ≡ has self.now element field }
    {
        field < self.fields
            && (u64::from(element) + 1) * u64::from(self.fields) <= self.words.len() as u64
    }

    fn position(&self, element: u32, field: u32) -> usize
        requires element { element < elements self.now }
        requires field { field < self.now.fields }
        ensures value { result ≡ element * self.now.fields + field }
        ensures within { result < length self.now.words }
    {
        element as usize * self.fields as usize + field as usize
    }

    fn word_at(&self, element: u32, field: u32) -> i64
        requires element { element < elements self.now }
        requires field { field < self.now.fields }
        ensures { result ≡ slice_index_or self.now.words (element * self.now.fields + field) (pos 0) }
    {
        self.words.as_slice()[self.position(element, field)]
    }

    fn set_word(&mut self, element: u32, field: u32, word: i64)
        requires element { element < elements self.old }
        requires field { field < self.old.fields }
        ensures fields { self.new.fields ≡ self.old.fields }
        ensures words { self.new.words ≡ slice_set self.old.words (element * self.old.fields + field) word }
    {
        let position = self.position(element, field);
        self.words.set(position, word);
    }
}
