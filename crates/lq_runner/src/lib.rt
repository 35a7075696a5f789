//! How the work of a fork is dealt out: the chunks into which its branches are cut, and the units of each cell that go with
//! each chunk.
#![tactic(auto)]

mod chunks;
mod laws;
#[cfg(test)]
mod tests;

pub use chunks::{Chunk, range_of};
pub use laws::{chunks_cover_the_ordinals, clean_forks_share_their_units, every_fork_is_cut};
