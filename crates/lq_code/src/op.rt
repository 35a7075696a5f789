use sqlite_items::Items;

/// An operator that makes one word of two: those of the plain tree but `&&` and `||`, for which there are jumps.
#[derive(Clone, Copy, Debug, PartialEq, Eq)]
pub enum Operator {
    Mul,
    Div,
    Rem,
    Add,
    Sub,
    Lt,
    Le,
    Gt,
    Ge,
    Eq,
    Ne,
}

/// What an instruction does (docs/CODE.md, "Instructions"). Slots, functions and instructions are named by their
/// numbers, from 0.
#[derive(Debug, Drop)]
pub enum Op {
    /// Pushes the number.
    Num(i64),
    /// Pushes the word of the slot.
    Get(u32),
    /// Pops the word of the slot.
    Put(u32),
    Neg,
    Not,
    IsNull,
    Bin(Operator),
    /// A pointer so many elements further on.
    Shift,
    /// Goes to the instruction.
    Jump(u32),
    /// Goes to the instruction where the word that is popped is 0.
    JumpZero(u32),
    /// The slot gets the word at the base slot, the index that is popped, and the field.
    Load { to: u32, base: u32, field: u32 },
    /// Stores a word at the base slot, an index and the field; the word is popped before the index.
    Store { base: u32, field: u32 },
    /// The slot gets a block of so many elements as are popped.
    Calloc { to: u32, fields: u32 },
    /// The slot, if any, gets what the function gives on the arguments that are popped, the last one first.
    Call { to: Option<u32>, function: u32 },
    /// The test of a loop: goes to the instruction where the word that is popped is 0.
    Test(u32),
    /// A `cobegin`: its branches begin at the starts, and behind them the code goes on at the end.
    Fork { end: u32, starts: Items<u32> },
    /// A `foreach`: the high end and then the low end are popped, its iteration begins at the next instruction, and behind
    /// all iterations the code goes on at the end.
    Each { slot: u32, step: u32, end: u32 },
    Print,
    Return,
    /// The end of a branch or an iteration.
    End,
}
