//! What a seat knows of the claims.
use std::collections::LinkedList;

/// How many chunks there are to claim, and how many workers claim them.
#[derive(Clone, Copy)]
pub struct Round {
    pub chunks: u64,
    pub workers: u64,
}

/// What a seat knows. No value of it is made.
pub struct View {
    /// How many chunks there are. A view that is spent has 0 here.
    pub chunks: u64,
    /// How many numbers it may still draw.
    pub draws: u64,
    /// How many of the 1,024 stakes it has.
    pub stakes: u64,
    /// Whether it drew a number past the last chunk.
    pub past: bool,
    /// The numbers that it claimed and has not given back, the last one first.
    pub held: LinkedList<u64>,
    /// The numbers that it claimed and gave back.
    pub returned: LinkedList<u64>,
}
