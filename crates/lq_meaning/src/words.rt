//! Words that a run may read and write: a plain list, or a part of a memory that threads share.

/// Cells with a word each, some of which may be read, and some of those written.
pub trait Words {
    ghost use Rattle.std.specs.Prelude.{◌≡◌, ◌≢◌, ◌↔◌, ℕ, ℤ};

    // Which cells may be read.
    ghost can_read: { Self → ℕ → Type 0 };
    // Which of them may be written.
    ghost can_write: { Self → ℕ → Type 0 };
    // The word of a cell that may be read.
    ghost word_of: { Self → ℕ → ℤ };
    // All else than the words stays.
    ghost keeps: { Self → Self → Type 0 };

    /// The word of a cell that may be read.
    fn get(&mut self, cell: u32) -> i64
        requires { can_read self.old cell }
        ensures value { result ≡ word_of self.old cell }
        ensures same { self.new ≡ self.old };

    /// Writes a cell that may be written.
    fn set(&mut self, cell: u32, value: i64)
        requires { can_write self.old cell }
        ensures written { word_of self.new cell ≡ value }
        ensures others { (other : ℕ) → other ≢ cell → word_of self.new other ≡ word_of self.old other }
        ensures kept { keeps self.old self.new };

    // A cell that may be written may be read.
    ghost reads_written: { (s : Self) (cell : ℕ) → can_write s cell → can_read s cell };

    ghost keeps_itself: { (s : Self) → keeps s s };

    ghost keeps_on: { (s t u : Self) → keeps s t → keeps t u → keeps s u };
    // The same cells may be read and written.
    ghost keeps_reads: { (s t : Self) (cell : ℕ) → keeps s t → can_read s cell ↔ can_read t cell };

    ghost keeps_writes: { (s t : Self) (cell : ℕ) → keeps s t → can_write s cell ↔ can_write t cell };
}

/// A plain list lets each of its places be read and written.
impl Words for Vec<i64> {
    ghost use Rattle.std.specs.Prelude.{refl};
    ghost use Rattle.std.proofs.Common.{◌∙◌};
    ghost use Rattle.lq_meaning.specs.Words.{IsPlace, word_in, SamePlaces, same_place};

    ghost can_read = { IsPlace };

    ghost can_write = { IsPlace };

    ghost word_of = { word_in };

    ghost keeps = { SamePlaces };

    ghost reads_written = { λ _ _ place. place };

    ghost keeps_itself = { λ _. refl };

    ghost keeps_on = { λ _ _ _ first second. first ∙ second };

    ghost keeps_reads = { same_place };

    ghost keeps_writes = { same_place };

    fn get(&mut self, cell: u32) -> i64 {
        self[cell as usize]
    }

    fn set(&mut self, cell: u32, value: i64) {
        self[cell as usize] = value;
    }
}

#[cfg(test)]
mod tests {
    use super::*;
    use std::test::Fail;

    // Copies the word of one cell into another.
    fn copy_word<W: Words>(words: &mut W, from: u32, to: u32)
        requires from { W.can_read words.old from }
        requires to { W.can_write words.old to }
    {
        let word = words.get(from);
        words.set(to, word);
    }

    #[test]
    fn list_as_words(rt: HostRuntime) -> Result<(), Fail> {
        let mut list = vec![in rt.alloc(); -9, 4]?;
        copy_word(&mut list, 0, 1);
        assert_eq!(rt; list.as_slice(), [-9, -9].as_slice());
        Ok(())
    }
}
