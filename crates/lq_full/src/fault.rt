//! Why the conditions of a program, or their full assignment, are not given.

use lq_instances::TemplateFault;
use lq_tree::Limit;
use std::alloc::AllocError;
use thiserror::Error;

/// Why the conditions of a program, or their full assignment, are not given.
#[derive(Clone, Copy, Debug, PartialEq, Eq, Error)]
pub enum ConditionsFault {
    /// There are more conditions, instances or facts than the limit allows.
    #[error("a limit is passed")]
    Limit(Limit),
    /// There was no memory.
    #[error("out of memory")]
    NoMemory,
}

impl From<AllocError> for ConditionsFault {
    ghost use Rattle.std.specs.Prelude.{◌≡◌};
    ghost use Rattle.lq_full.specs.declared.fault.ConditionsFault.TheVariants.{NoMemory};

    ghost from_gives = { λ _ fault. fault ≡ NoMemory };

    fn from(_failed: AllocError) -> ConditionsFault {
        ConditionsFault::NoMemory
    }
}

impl From<Limit> for ConditionsFault {
    ghost use Rattle.std.specs.Prelude.{◌≡◌};
    ghost use Rattle.lq_full.specs.declared.fault.ConditionsFault.TheVariants.{Limit as Passes};

    ghost from_gives = { λ limit fault. fault ≡ Passes limit };

    fn from(limit: Limit) -> ConditionsFault {
        ConditionsFault::Limit(limit)
    }
}

impl From<TemplateFault> for ConditionsFault {
    ghost use Rattle.std.specs.Prelude.{◌≡◌};
    ghost use Rattle.lq_full.specs.Faults.{fault_of};

    ghost from_gives = { λ told fault. fault ≡ fault_of told };

    fn from(told: TemplateFault) -> ConditionsFault {
        match told {
            TemplateFault::Limit(limit) => ConditionsFault::Limit(limit),
            TemplateFault::NoMemory => ConditionsFault::NoMemory,
        }
    }
}
