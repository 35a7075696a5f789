//! Open records: how the checker opens, reads, writes and folds them.
#![tactic(auto)]

mod fields;
mod folding;
mod laws;
mod opened;
mod opening;
mod reaching;
mod same;
#[cfg(test)]
mod tests;

pub use fields::{read_field, write_field};
pub use folding::{ask_folds, fold, zero_parts};
pub use laws::folded_records_ask_nothing;
pub use opening::open_record;
pub use reaching::reach;
