//! The chunks of a fork.

ghost use Rattle.std.specs.Prelude.{◌≡◌, ◌≤◌, ◌<◌, min, slice_get, Some, List};
ghost use Rattle.lq_runner.specs.declared.chunks.Chunk.{Chunk as Range};
ghost use Rattle.lq_runner.specs.Chunks.{AreChunks, chunk};

/// A chunk of a fork: some of its branches or iterations that follow each other. They are known by their ordinals, which
/// begin at 0.
#[derive(Clone, Copy)]
pub struct Chunk {
    /// The ordinal of the first of them.
    pub first: u64,
    /// How many they are.
    pub length: u64,
}

/// The first ordinal and the length of one of the chunks into which `n` branches or iterations are cut, where there are at
/// most `most` chunks (docs/THREADS.md, "Chunks"). Chunks are numbered from 0.
pub fn range_of(n: u64, most: u64, number: u64) -> (u64, u64)
    requires some { 1 ≤ n }
    requires most { 1 ≤ most }
    requires number { number < min n most }
    ensures { (chunks : List Range) → AreChunks n most chunks → slice_get chunks number ≡ Some (chunk result.0 result.1) }
{
    let count = n.min(most);
    let size = n / count;
    let larger = n % count;
    if number < larger {
        (number * (size + 1), size + 1)
    } else {
        (number * size + larger, size)
    }
}
