ghost use Rattle.std.specs.Prelude.{◌≡◌, ◌≢◌, ◌≤◌, ℕ, List, length, IfOk, OnOk, IsErrOf};
ghost use Rattle.std.specs.IoError.{error_kind};
ghost use Rattle.std.specs.declared.io.ErrorKind.TheVariants.{OutOfMemory};
ghost use Rattle.lq_shelf.specs.declared.shelf.Fetch.TheVariants.{Failed, NoMemory};
ghost use Rattle.lq_shelf.specs.Faults.{Rose};
ghost use Rattle.lq_shelf.specs.Shelf.{Holding, AreFirstOf};

use std::alloc::AllocError;
use std::io::{self, ErrorKind};

/// Why a fetch gives nothing.
#[derive(Clone, Copy, Debug, PartialEq, Eq)]
pub enum Fetch {
    /// The shelf failed, or has no file of this name.
    Failed,
    /// There was no memory for the bytes, or for the name of a fault.
    NoMemory,
}

impl From<AllocError> for Fetch {
    ghost from_gives = { λ _ error. error ≡ NoMemory };

    fn from(_: AllocError) -> Self {
        Fetch::NoMemory
    }
}

/// Want of memory is told as such, and any other error as a fault.
impl From<io::Error> for Fetch {
    ghost from_gives = { λ error answer. (error_kind error ≡ OutOfMemory → answer ≡ NoMemory)
        × (error_kind error ≢ OutOfMemory → answer ≡ Failed) };

    fn from(error: io::Error) -> Self {
        if error.kind() == ErrorKind::OutOfMemory {
            Fetch::NoMemory
        } else {
            Fetch::Failed
        }
    }
}

/// Named files that can be fetched (docs/ARCHITECTURE.md, "Traits of the outside").
pub trait Shelf {
    /// What the shelf holds under a name, where it tells that.
    ghost holding: { Self → List ℕ → Holding };

    /// How often a fetch has failed: a count that never falls.
    ghost faults: { Self → ℕ };

    /// The name of the last fetch that failed.
    ghost failed_name: { Self → List ℕ };

    /// The first `most` bytes of what is held under the name, or all where it is shorter. It
    /// changes nothing that is held. A missing name is a fault.
    fn fetch(&mut self, name: &str, most: usize) -> Result<Vec<u8>, Fetch>
        ensures first { IfOk result
            (λ bytes. AreFirstOf (holding self.old name.now) most bytes.items) }
        ensures within { IfOk result (λ bytes. length bytes.items ≤ most) }
        ensures unchanged { (other : List ℕ) → holding self.new other ≡ holding self.old other }

        // `Failed` has a cause: a fault that was counted in this call, of this name.
        ensures failed_rose { IsErrOf result Fetch.Failed →
            Rose (faults self.old) (faults self.new) }
        ensures failed_here { IsErrOf result Fetch.Failed → failed_name self.new ≡ name.now }

        // The other answers leave the count and the name.
        ensures ok_count { OnOk result (faults self.new ≡ faults self.old) }
        ensures ok_name { OnOk result (failed_name self.new ≡ failed_name self.old) }
        ensures no_memory_count { IsErrOf result Fetch.NoMemory →
            faults self.new ≡ faults self.old }
        ensures no_memory_name { IsErrOf result Fetch.NoMemory →
            failed_name self.new ≡ failed_name self.old }

        ensures never_falls { faults self.old ≤ faults self.new };
}
