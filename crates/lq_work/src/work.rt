use sqlite_items::Items;

/// What a workload does (docs/COMMANDS.md, "Workloads").
#[derive(Clone, Copy, Debug, PartialEq, Eq)]
pub enum Kind {
    /// Sorts its input in parallel.
    Sort,
    /// Writes four elements for each number of its input, in parallel.
    Stride,
}

/// A source with the qualifiers that let it be accepted, and an input for it (docs/COMMANDS.md, "Workloads").
#[derive(Debug, Drop)]
pub struct Work {
    pub source: Items<u8>,
    pub quals: Items<u8>,
    pub input: Items<i64>,
}
