//! What a pass knows of a deque.
use std::collections::LinkedList;

/// What a pass knows. No value of it is made.
pub struct View {
    /// How many of the 1,024 stakes it has.
    pub stakes: u64,
    /// The numbers of the chunks that it put into the deque, in their order.
    pub put: LinkedList<u64>,
    /// The numbers of the chunks that it took, in their order.
    pub taken: LinkedList<u64>,
}
