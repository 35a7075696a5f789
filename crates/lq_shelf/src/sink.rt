ghost use Rattle.std.specs.Prelude.{◌≡◌, ◌≤◌, ℕ, List, [], Option, OnOk, IsOk, IsErrOf};
ghost use Rattle.lq_shelf.specs.declared.sink.Put.TheVariants.{NoMemory};
ghost use Rattle.lq_shelf.specs.Faults.{Rose};
ghost use Rattle.lq_shelf.specs.Sink.{Appends, AppendsPrefix};

use std::alloc::AllocError;

/// Why a put does not write all of its bytes.
#[derive(Clone, Copy, Debug, PartialEq, Eq)]
pub enum Put {
    /// The sink failed, and may have written the first ones of the bytes.
    Failed,
    /// There was no memory, and nothing was written.
    NoMemory,
}

impl From<AllocError> for Put {
    ghost from_gives = { λ _ error. error ≡ NoMemory };

    fn from(_: AllocError) -> Self {
        Put::NoMemory
    }
}

/// An output that takes bytes, one piece after the other (docs/ARCHITECTURE.md, "Traits of the
/// outside").
pub trait Sink {
    /// The bytes written so far, where the sink tells that.
    ghost written: { Self → Option (List ℕ) };

    /// How often a put has failed: a count that never falls.
    ghost faults: { Self → ℕ };

    /// Writes all the bytes. An empty piece is `Ok`.
    fn put(&mut self, bytes: &[u8]) -> Result<(), Put>
        ensures ok { OnOk result (Appends (written self.old) (written self.new) bytes.now) }
        ensures ok_count { OnOk result (faults self.new ≡ faults self.old) }
        ensures empty { bytes.now ≡ [] → IsOk result }

        // Whatever is answered, what was written are the first ones of the bytes.
        ensures prefix { AppendsPrefix (written self.old) (written self.new) bytes.now }

        // `Failed` has a cause: a fault that was counted in this call.
        ensures failed_rose { IsErrOf result Put.Failed → Rose (faults self.old) (faults self.new) }

        ensures no_memory { IsErrOf result Put.NoMemory → written self.new ≡ written self.old }
        ensures no_memory_count { IsErrOf result Put.NoMemory → faults self.new ≡ faults self.old }

        ensures never_falls { faults self.old ≤ faults self.new };
}
