//! Files of qualifiers: read into rows over numbered atoms, and written.
#![tactic(auto)]

mod collect;
mod comparison;
mod laws;
mod qualifier;
mod quals;
mod side;
mod spacing;
mod split;
mod term;
mod writing;

pub use laws::{atoms_differ, one_bad_line, one_reading, rows_are_bounded};
pub use qualifier::Qualifier;
pub use quals::{QualFault, Quals, read_quals};
pub use writing::write_quals;
