//! Workloads: programs of any size whose output is known.
#![tactic(auto)]

#[cfg(test)]
mod tests;
mod texts;
mod work;
mod workload;

pub use work::{Kind, Work};
pub use workload::make;
