ghost use Rattle.std.specs.Prelude.{◌≡◌, ◌<◌, ◌≤◌, ℕ, Bool, [], take, length, is_some, OnOk, OnErr, IsOk, IsErrOf};
ghost use Rattle.std.specs.Io.KnownBytes.{Appends as MayAppend};
ghost use Rattle.lq_shelf.specs.Faults.{next_count};
ghost use Rattle.lq_shelf.specs.Sink.{Appends};
ghost use Rattle.lq_shelf.specs.WriterSink.{AppendsPart};

use crate::sink::{Put, Sink};
use std::io::{self, ErrorKind, Write};
use std::marker::Model;

/// A writer that always tells which bytes it holds, or never does.
pub trait Steady: Write {
    /// Whether it tells them.
    ghost tells: { Bool };

    /// It stays so, whatever is written.
    ghost is_steady: { (writer : Self) → is_some (Self.contents writer) ≡ tells };
}

/// A sink over any writer. It keeps nothing back: the bytes of a put have been written when it
/// returns.
#[derive(Drop)]
pub struct WriterSink<W: Write> {
    writer: W,
    faults: u64,
}

impl<W: Write> Model for WriterSink<W> {
    ghost use Rattle.lq_shelf.specs.WriterSink.{WriterSinkState};

    ghost Value = { WriterSinkState };

    ghost view = { λ s. record { written = W.contents s.writer; faults = s.faults } };
}

impl<W: Write> WriterSink<W> {
    /// A sink over this writer, with a count of faults that starts at 0.
    pub fn over(writer: W) -> Self
        ensures { result ≡ record { written = W.contents writer; faults = 0 } }
    {
        WriterSink { writer, faults: 0 }
    }
}

impl<W: Steady> Sink for WriterSink<W> {
    ghost written = { λ s. s.written };

    ghost faults = { λ s. s.faults };

    /// Each error of a write is a fault, and so is a write of no bytes. Takes no memory.
    fn put(&mut self, bytes: &[u8]) -> Result<(), Put>
        ensures empty { bytes.now ≡ [] → IsOk result }

        // `Ok` exactly where all of the bytes were written, `Failed` exactly where only the first
        // ones were, as far as the writer tells them.
        ensures ok { OnOk result (Appends self.old.written self.new.written bytes.now) }
        ensures failed { OnErr result (AppendsPart self.old.written self.new.written bytes.now) }

        // The count rises by one at `Failed`, and at nothing else.
        ensures ok_count { OnOk result (self.new.faults ≡ self.old.faults) }
        ensures failed_count { OnErr result (self.new.faults ≡ next_count self.old.faults) }

        ensures no_memory { ¬ IsErrOf result Put.NoMemory }
        ensures never_falls { self.old.faults ≤ self.new.faults }
    {
        match write_whole(&mut self.writer, bytes) {
            Ok(()) => Ok(()),
            Err(_) => {
                self.faults = self.faults.saturating_add(1);
                Err(Put::Failed)
            }
        }
    }
}

// Writes all of the bytes, or fails after the first ones. A write of no bytes fails.
fn write_whole<W: Write>(to: &mut W, bytes: &[u8]) -> io::Result<()>
    ensures empty { bytes.now ≡ [] → IsOk result }
    ensures ok { OnOk result (MayAppend (W.contents to.old) (W.contents to.new) bytes.now) }
    ensures err { OnErr result ((count : ℕ) × (count < length bytes.now)
        × MayAppend (W.contents to.old) (W.contents to.new) (take count bytes.now)) }
{
    let mut rest = bytes;
    'pieces: while !rest.is_empty() {
        let count = to.write(rest)?;
        if count == 0 {
            return Err(io::Error::from(ErrorKind::WriteZero));
        }
        rest = &rest[count..];
    }
    Ok(())
}

#[cfg(test)]
mod tests;
