//! Branches of a parallel statement.

use lq_symbolic::Start;
use lq_tree::Place;

/// A branch: the place of its block, and how its scope starts.
#[derive(Drop)]
pub struct Beside {
    pub place: Place,
    pub start: Start,
}
