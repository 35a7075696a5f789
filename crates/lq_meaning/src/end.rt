use crate::Memory;
use lq_tree::{Place, TrapKind};

/// How a run ends, with the memory and the cost where they are told.
#[derive(Drop)]
pub enum End {
    /// `main` returned.
    Done {
        memory: Memory,
        cost: u64,
    },
    /// The run trapped.
    Trap {
        kind: TrapKind,
        at: Place,
        memory: Memory,
        cost: u64,
    },
    /// A load or a store left its block.
    Stray {
        at: Place,
    },
    /// The fuel was spent, and an action was due.
    Fuel,
    /// The sink failed.
    SinkFault,
    /// There was no memory for the run itself.
    NoMemory,
}
