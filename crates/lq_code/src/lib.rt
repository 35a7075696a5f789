//! Stack code: the types of code, what the code of a plain program is, its bytes, which code is valid, and what it does when it
//! runs in order.
#![tactic(auto)]

mod code;
mod fault;
mod laws;
mod op;

pub use code::{CFunc, Code, Instr};
pub use fault::CodeFault;
pub use laws::{code_keeps_functions, faults_exclude_each_other};
pub use op::{Op, Operator};
