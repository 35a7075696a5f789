//! Effects: what the checker asks of scopes about the accesses in them.
#![tactic(auto)]

mod ask;
mod effect;
mod laws;
mod table;
#[cfg(test)]
mod tests;

pub use ask::{ask_access, ask_call, effect_rows};
pub use effect::Effect;
pub use laws::no_scope_no_effect;
pub use table::EffectTable;
