//! What the checker knows of a program's slots at a point of its text, the values of expressions and what conditions tell.
//! Later crates make of them the conditions of a program.
#![tactic(auto)]

mod assume;
mod expression;
mod forms;
mod fresh;
mod laws;
mod records;
mod state;
mod value;

pub use forms::{copy_form, symbol, zero};
pub use laws::{null_is_valued, rows_are_collected, sums_are_collected, true_ints_tell_nothing};
pub use records::OpenRecords;
pub use state::{FieldType, Opened, Start, SymState};
pub use value::{SymPtr, SymValue, all_parts};
