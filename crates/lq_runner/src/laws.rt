//! What follows from the definitions alone: each law is the contract of a function that does nothing.

ghost use Rattle.std.specs.Prelude.{◌≡◌, ◌≤◌, ◌<◌, ℕ, IsTrue, List, length, map, flat_map};
ghost use Rattle.std.specs.List.{range_with_len};
ghost use Rattle.lq_meaning.specs.declared.blocks.Span.{Span};
ghost use Rattle.lq_meaning.specs.Blocks.{Laid};
ghost use Rattle.lq_meaning.specs.World.{World};
ghost use Rattle.lq_meaning.specs.Task.{Task, Tasks, Fork};
ghost use Rattle.lq_alone.specs.Alone.{alone_each};
ghost use Rattle.lq_alone.specs.Clean.{clean};
ghost use Rattle.lq_runner.specs.declared.chunks.Chunk.{Chunk};
ghost use Rattle.lq_runner.specs.Chunks.{ordinals, Follow, AreChunks};
ghost use Rattle.lq_runner.specs.Share.{groups_of, IsEnough, Suffices};

use lq_meaning::addresses_have_their_own_cells;

/// Any number of branches is cut into chunks, where at least one chunk is allowed (docs/THREADS.md, "Chunks").
pub fn every_fork_is_cut()
    ensures { (n most : ℕ) → 1 ≤ most → (chunks : List Chunk) × AreChunks n most chunks }
{}

/// The ordinals of the chunks, one chunk after the other, are those of the fork (docs/THREADS.md, "Chunks").
pub fn chunks_cover_the_ordinals()
    ensures { (n most : ℕ) (chunks : List Chunk) → AreChunks n most chunks → flat_map ordinals chunks ≡ range_with_len 0 n }
{}

/// The share of a clean fork: where its branches are dealt out in groups that follow each other, and the whole has enough, the
/// units of the groups sum to the whole's, and suffice for what each group reads and writes (docs/THREADS.md, "Shares").
pub fn clean_forks_share_their_units()
    ensures { (spans : List Span) → Laid spans → (fuel : ℕ) (children : Tasks) (parent : Task) (w : World)
        → IsTrue (clean fuel (Fork children parent) w)
        → (dealt : List (Chunk × ℕ)) → 0 < length dealt
        → Follow 0 (map (λ (d : Chunk × ℕ). d.0) dealt) (length (alone_each fuel children w))
        → (all : ℕ) (whole : ℕ → ℕ)
        → let groups = groups_of (alone_each fuel children w) dealt in
        IsEnough spans all whole groups → Suffices spans all whole groups }
{
    addresses_have_their_own_cells();
}
