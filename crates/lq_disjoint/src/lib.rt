//! Pairs: what the checker asks of each two branches of a parallel statement.
#![tactic(auto)]

mod beside;
mod laws;
mod pair;
mod pairs;
#[cfg(test)]
mod tests;

pub use beside::Beside;
pub use laws::{clashes_turn, one_branch_no_pair, reads_never_clash};
pub use pairs::{pairs_cobegin, pairs_foreach, pairs_of};
