//! A part as words that a run may read and write.
ghost use Rattle.std.specs.Prelude.{◌≡◌};

use crate::memory::WordMemory;
use crate::part::Part;
use lq_meaning::Words;
use std::marker::Model;

/// A part beside its memory. Contracts see it as the part.
#[derive(Drop)]
pub struct SharedWords<'a> {
    memory: &'a WordMemory,
    part: Part,
}

impl<'a> Model for SharedWords<'a> {
    ghost use Rattle.std.specs.Prelude.{◌≡◌};
    ghost use Rattle.lq_words.specs.Part.{Holding};

    ghost Value = { Holding };

    ghost view = { λ s. s.part };

    ghost invariant = { λ s. s.part.home ≡ s.memory.now.home };
}

impl<'a> SharedWords<'a> {
    /// The words of a memory, as a part of it may use them.
    pub fn new(memory: &'a WordMemory, part: Part) -> SharedWords<'a>
        requires { part.home ≡ memory.now.home }
        ensures { result ≡ part }
    {
        SharedWords { memory, part }
    }

    /// The part again.
    pub fn into_part(self) -> Part
        ensures { result ≡ self.entry }
    {
        let SharedWords { memory: _, part } = self;
        part
    }
}

impl<'a> Words for SharedWords<'a> {
    ghost use Rattle.lq_words.specs.Part.{HasUnit, value_at, KeepsUnits};
    ghost use Rattle.lq_words.specs.Words.{MayWrite, keeps_itself as itself, keeps_on as further, keeps_reads as same_reads, keeps_writes as same_writes};

    ghost can_read = { HasUnit };

    ghost can_write = { MayWrite };

    ghost word_of = { value_at };

    ghost keeps = { KeepsUnits };

    ghost reads_written = { λ _ _ may. may.0 };

    ghost keeps_itself = { itself };

    ghost keeps_on = { further };

    ghost keeps_reads = { same_reads };

    ghost keeps_writes = { same_writes };

    fn get(&mut self, cell: u32) -> i64 {
        self.memory.load(&mut self.part, cell)
    }

    fn set(&mut self, cell: u32, value: i64) {
        self.memory.store(&mut self.part, cell, value);
    }
}
