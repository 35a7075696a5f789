//! Why instances are not given.

use lq_tree::Limit;
use std::alloc::AllocError;

/// Why the instances of a template are not given.
#[derive(Clone, Copy, Debug, PartialEq, Eq)]
pub enum TemplateFault {
    /// There are more of them than the limit allows.
    Limit(Limit),
    /// There was no memory for them.
    NoMemory,
}

impl From<AllocError> for TemplateFault {
    ghost use Rattle.std.specs.Prelude.{◌≡◌};
    ghost use Rattle.lq_instances.specs.declared.fault.TemplateFault.TheVariants.{NoMemory};

    ghost from_gives = { λ _ fault. fault ≡ NoMemory };

    fn from(_failed: AllocError) -> TemplateFault {
        TemplateFault::NoMemory
    }
}
