//! Effect templates.

use lq_templates::Access;

/// An effect template: its number, from 1, and the access that it stands for.
#[derive(Clone, Copy)]
pub struct Effect {
    pub number: u32,
    pub access: Access,
}
