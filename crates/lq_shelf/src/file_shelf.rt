ghost use Rattle.std.specs.Prelude.{◌≡◌, []};
ghost use Rattle.lq_shelf.specs.Shelf.{Untold};

use crate::reader_shelf::{Opener, ReaderShelf};
use std::rt::Files;
use std::{fs, io};

/// The files of the machine, by their paths.
#[derive(Drop)]
pub struct MachineFiles<'r, R> {
    rt: &'r R,
}

impl<R: Files> Opener for MachineFiles<'_, R> {
    type File = R::File;

    ghost holding = { λ _ _. Untold };

    fn open(&self, name: &str) -> io::Result<R::File> {
        fs::open(self.rt, name)
    }
}

/// The shelf over the files of the machine. It tells nothing of what they hold.
pub type FileShelf<'r, R> = ReaderShelf<MachineFiles<'r, R>>;

impl<'r, R: Files + AllocGlobal> ReaderShelf<MachineFiles<'r, R>> {
    /// The files that this runtime opens, with a count of faults that starts at 0.
    pub fn new(rt: &'r R) -> Self
        ensures { result ≡ record { opener = record { rt = rt.entry }; faults = 0; failed_name = [] } }
    {
        ReaderShelf::over(rt.alloc(), MachineFiles { rt })
    }
}
