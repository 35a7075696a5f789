//! Accesses.

/// Which words a load or store goes to, and which of the two it is. Classes are numbered from 1, fields from 0.
#[derive(Clone, Copy)]
pub struct Access {
    pub class: u32,
    pub field: u32,
    pub write: bool,
}
