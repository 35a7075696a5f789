use thiserror::Error;

/// Why bytes are not the code of a program (docs/CODE.md, "Bytes" and "Valid code").
#[derive(Debug, Drop, Error)]
pub enum CodeFault {
    /// The first byte of the first field that is wrong, or the end of the code where more bytes follow.
    #[error("wrong bytes at {at}")]
    Bytes { at: u64 },
    /// The first instruction that breaks a rule of valid code, by the number of its function and its own.
    #[error("invalid instruction {instr} in function {func}")]
    Invalid { func: u32, instr: u32 },
    /// Memory ran out.
    #[error("out of memory")]
    NoMemory,
}
