ghost use Rattle.std.specs.Prelude.{◌≡◌, ◌≢◌, ◌≤◌, ◌++◌, ◌==◌, [], take, Some, OnOk, IsOk, IsErrOf, IsNone, IsSomeAnd, option_map, find};
ghost use Rattle.lq_shelf.specs.Faults.{next_count};
ghost use Rattle.lq_shelf.specs.MemSink.{bytes_before_failure};

use crate::sink::{Put, Sink};
use std::alloc::Global;
use std::marker::Model;

/// Output kept in memory, for tests.
#[derive(Drop)]
pub struct MemSink {
    written: Vec<u8>,
    fails: Vec<(u64, usize)>,
    calls: u64,
    faults: u64,
}

impl Model for MemSink {
    ghost use Rattle.lq_shelf.specs.MemSink.{MemSinkState};

    ghost Value = { MemSinkState };

    ghost view = { λ s. record {
      written = s.written.items;
      fails = s.fails.items;
      calls = s.calls;
      faults = s.faults;
    } };
}

impl MemSink {
    /// A sink to which nothing is written. Of its calls of `put`, one whose piece isn't empty fails
    /// where its number, from 1 and over all calls, stands in `fails`, after so many bytes or the
    /// whole piece. Of entries with one number the first counts.
    pub fn new(alloc: Global, fails: Vec<(u64, usize)>) -> Self
        ensures { result ≡ record { written = []; fails = fails.items; calls = 0; faults = 0 } }
    {
        MemSink {
            written: Vec::new(alloc),
            fails,
            calls: 0,
            faults: 0,
        }
    }

    /// The bytes written so far. Takes no memory.
    pub fn written(&self) -> &[u8]
        ensures { result.now ≡ self.now.written }
    {
        &self.written
    }
}

impl Sink for MemSink {
    ghost written = { λ s. Some s.written };

    ghost faults = { λ s. s.faults };

    fn put(&mut self, bytes: &[u8]) -> Result<(), Put>
        ensures empty { bytes.now ≡ [] → IsOk result }

        // A call fails exactly where its number is listed and its piece isn't empty, but for want of
        // memory.
        ensures not_failing { OnOk result
            (bytes.now ≢ [] → IsNone (bytes_before_failure self.old)) }
        ensures failing { IsErrOf result Put.Failed → bytes.now ≢ [] }

        ensures ok { OnOk result (self.new ≡ record self.old {
          written = self.old.written ++ bytes.now;
          calls = next_count self.old.calls;
        }) }
        ensures no_memory { IsErrOf result Put.NoMemory → self.new ≡ record self.old {
          calls = next_count self.old.calls;
        } }
        ensures failed { IsErrOf result Put.Failed → IsSomeAnd (bytes_before_failure self.old)
            (λ after. self.new ≡ record self.old {
              written = self.old.written ++ take after bytes.now;
              calls = next_count self.old.calls;
              faults = next_count self.old.faults;
            }) }

        ensures never_falls { self.old.faults ≤ self.new.faults }
    {
        self.calls = self.calls.saturating_add(1);
        match failure_at(&self.fails, self.calls) {
            Some(after) if !bytes.is_empty() => {
                self.written
                    .extend_from_slice(&bytes[..after.min(bytes.len())])?;
                self.faults = self.faults.saturating_add(1);
                Err(Put::Failed)
            }
            _ => Ok(self.written.extend_from_slice(bytes)?),
        }
    }
}

// After how many bytes the call of this number fails, where it is listed.
fn failure_at(fails: &[(u64, usize)], number: u64) -> Option<usize>
    ensures { result ≡ option_map (λ entry. entry.1) (find (λ entry. entry.0 == number) fails.now) }
{
    fails
        .iter()
        .find(|entry| entry.0 == number)
        .map(|entry| entry.1)
}
