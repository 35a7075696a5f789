ghost use Rattle.std.specs.Prelude.{◌≡◌, None, false, refl};

use crate::writer_sink::{Steady, WriterSink};
use std::io::{self, Printer};

/// The sink over standard output. It tells nothing of what is written.
pub type StdSink<'r, R> = WriterSink<Printer<'r, R>>;

impl<R: Print> Steady for Printer<'_, R> {
    ghost tells = { false };

    ghost is_steady = { λ _. refl };
}

impl<'r, R: Print> WriterSink<Printer<'r, R>> {
    /// The standard output of this runtime, with a count of faults that starts at 0.
    pub fn new(rt: &'r R) -> Self
        ensures { result ≡ record { written = None; faults = 0 } }
    {
        WriterSink::over(io::writer(rt))
    }
}
