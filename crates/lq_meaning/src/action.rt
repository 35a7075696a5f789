/// What a program does that costs 1: it touches the memory, the words that are left, the output or the count of active
/// functions, or it is counted alone (docs/LANGUAGE.md, "Costs").
#[derive(Clone, Copy, Debug, PartialEq)]
pub enum Action {
    /// A calloc of so many elements of so many fields.
    Allocate {
        count: i64,
        fields: u32,
    },
    Load {
        pointer: i64,
        index: i64,
        field: u32,
    },
    Store {
        pointer: i64,
        index: i64,
        field: u32,
        word: i64,
    },
    Print {
        number: i64,
    },
    /// A call, where so many more functions may become active.
    Enter {
        more: u32,
    },
    /// The test of a loop.
    Test,
    /// The start of an iteration of a `foreach`.
    Start,
}
