use lq_tree::Place;
use sqlite_items::Items;

/// A store of a literal at a literal index of the array.
#[derive(Clone, Copy)]
pub struct Store {
    /// The place of the statement.
    pub at: Place,
    pub index: u64,
    pub value: i64,
}

/// A statement behind the blocks.
#[derive(Clone, Copy)]
pub enum Step {
    Store(Store),
    /// A print of the word at an index, and the place of the statement.
    Print { at: Place, index: u64 },
}

/// A source of the slice: a `main` that allocates one array, stores literals in two blocks side by side and
/// prints.
#[derive(Drop)]
pub struct Slice {
    /// The place of `main`.
    pub main: Place,
    /// The place of the declaration of the array.
    pub declaration: Place,
    /// How many elements the array has.
    pub count: u64,
    /// The stores before the blocks.
    pub before: Items<Store>,
    /// The place of the `cobegin`.
    pub fork: Place,
    /// The place of the first block, and its stores.
    pub left: Block,
    /// The place of the second block, and its stores.
    pub right: Block,
    /// The stores and prints behind the blocks.
    pub after: Items<Step>,
    /// The place of the `return`.
    pub end: Place,
}

/// A block of the `cobegin`: its place, and its stores.
#[derive(Drop)]
pub struct Block {
    pub at: Place,
    pub stores: Items<Store>,
}
