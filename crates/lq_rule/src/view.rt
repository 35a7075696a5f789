//! What a seat knows of the words.
use std::collections::LinkedList;

/// How many cells there are, and how many units of each.
#[derive(Clone, Copy)]
pub struct Supply {
    pub cells: u32,
    pub units: u32,
}

/// How many units of each cell are held, and the word of each cell of which a unit is. No value of it is made.
pub struct Held {
    pub units: LinkedList<u64>,
    pub words: LinkedList<u64>,
}

/// What a seat knows. No value of it is made.
pub struct View {
    /// How many units of a cell all its units are. A view that is spent has 0 here.
    pub all: u64,
    pub own: Held,
    /// What came in by a join, until the look that ends the join.
    pub joined: Held,
}
