ghost use Rattle.std.specs.Prelude.{◌≡◌, ◌≤◌, [], take, IfOk, OnOk, IsErrOf, bytes_eq, find, option_copied, option_map, string_bytes};
ghost use Rattle.lq_shelf.specs.Faults.{next_count};
ghost use Rattle.lq_shelf.specs.Shelf.{AreFirstOf};
ghost use Rattle.lq_shelf.specs.MemShelf.{files_of, holding_of, FailsNext};

use crate::shelf::{Fetch, Shelf};
use std::alloc::{AllocError, Global};
use std::marker::Model;

/// Files in memory, for tests.
#[derive(Drop)]
pub struct MemShelf {
    alloc: Global,
    files: Vec<(String, Vec<u8>)>,
    fails: Vec<u64>,
    calls: u64,
    faults: u64,
    failed_name: String,
}

impl Model for MemShelf {
    ghost use Rattle.std.specs.Prelude.{string_bytes};
    ghost use Rattle.lq_shelf.specs.MemShelf.{MemShelfState, files_of};

    ghost Value = { MemShelfState };

    ghost view = { λ s. record {
      files = files_of s.files.items;
      fails = s.fails.items;
      calls = s.calls;
      faults = s.faults;
      failed_name = string_bytes s.failed_name;
    } };
}

impl MemShelf {
    /// A shelf that holds these files, of files of one name the first. Of its calls of `fetch`,
    /// those fail whose number, from 1, stands in `fails`.
    pub fn new(alloc: Global, files: Vec<(String, Vec<u8>)>, fails: Vec<u64>) -> Self
        ensures { result ≡ record {
          files = files_of files.items;
          fails = fails.items;
          calls = 0;
          faults = 0;
          failed_name = [];
        } }
    {
        MemShelf {
            alloc,
            files,
            fails,
            calls: 0,
            faults: 0,
            failed_name: String::new(alloc),
        }
    }

    // Counts a fault at this name, and gives the answer. The memory for the name is taken first.
    fn fail(&mut self, name: &str) -> Fetch
        ensures failed { result ≡ Fetch.Failed → self.new ≡ record self.old {
          faults = next_count self.old.faults;
          failed_name = name.now;
        } }
        ensures no_memory { result ≡ Fetch.NoMemory → self.new ≡ self.old }
        ensures never_falls { self.old.faults ≤ self.new.faults }
    {
        match String::from_str(self.alloc, name) {
            Ok(failed_name) => {
                self.failed_name = failed_name;
                self.faults = self.faults.saturating_add(1);
                Fetch::Failed
            }
            Err(_) => Fetch::NoMemory,
        }
    }
}

impl Shelf for MemShelf {
    ghost holding = { λ s. holding_of s.files };

    ghost faults = { λ s. s.faults };

    ghost failed_name = { λ s. s.failed_name };

    #[tactic(auto, using(crate::proofs::Files::holding_of_found))]
    fn fetch(&mut self, name: &str, most: usize) -> Result<Vec<u8>, Fetch>
        ensures first { IfOk result
            (λ bytes. AreFirstOf (holding_of self.old.files name.now) most bytes.items) }

        // A call fails exactly where its number is listed or the name is missing, but for want of
        // memory.
        ensures not_failing { OnOk result (¬ FailsNext self.old name.now) }
        ensures failing { IsErrOf result Fetch.Failed → FailsNext self.old name.now }

        ensures ok { OnOk result (self.new ≡ record self.old {
          calls = next_count self.old.calls;
        }) }
        ensures no_memory { IsErrOf result Fetch.NoMemory → self.new ≡ record self.old {
          calls = next_count self.old.calls;
        } }
        ensures failed { IsErrOf result Fetch.Failed → self.new ≡ record self.old {
          calls = next_count self.old.calls;
          faults = next_count self.old.faults;
          failed_name = name.now;
        } }

        ensures never_falls { self.old.faults ≤ self.new.faults }
    {
        self.calls = self.calls.saturating_add(1);
        if self.fails.contains(&self.calls) {
            return Err(self.fail(name));
        }
        match bytes_of(&self.files, name) {
            Some(bytes) => Ok(first_bytes(self.alloc, bytes, most)?),
            None => Err(self.fail(name)),
        }
    }
}

// The bytes of the first file of this name.
fn bytes_of<'a>(files: &'a [(String, Vec<u8>)], name: &str) -> Option<&'a [u8]>
    ensures { option_copied result ≡ option_map (λ file. file.1.items)
        (find (λ file. bytes_eq (string_bytes file.0) name.now) files.now) }
{
    files
        .iter()
        .find(|file| file.0.as_str() == name)
        .map(|file| file.1.as_slice())
}

// The first `most` of the bytes.
fn first_bytes(alloc: Global, bytes: &[u8], most: usize) -> Result<Vec<u8>, AllocError>
    ensures { IfOk result (λ first. first.items ≡ take most bytes.now) }
{
    bytes[..most.min(bytes.len())].to_vec(alloc)
}
