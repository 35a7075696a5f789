ghost use Rattle.std.specs.Prelude.{◌≡◌, ◌<◌, ◌≤◌, ℕ, List, [], take, length, vec_len, IfOk, OnOk, IsErrOf, IfSome};
ghost use Rattle.lq_shelf.specs.Faults.{next_count};
ghost use Rattle.lq_shelf.specs.Shelf.{Holding, AreFirstOf};
ghost use Rattle.lq_shelf.specs.ReaderShelf.{GivesHeld};

use crate::shelf::{Fetch, Shelf};
use std::alloc::{AllocError, Global};
use std::io::{self, Read};
use std::marker::Model;

// How many bytes one read asks for at most.
const PIECE: usize = 65536;

/// What opens files by their names.
pub trait Opener {
    /// An open file, which is read from its beginning.
    type File: Read + Drop;

    /// What is held under a name, where it tells that.
    ghost holding: { Self → List ℕ → Holding };

    /// The file of this name. Of a missing name there is none.
    fn open(&self, name: &str) -> io::Result<Self::File>
        ensures { IfOk result
            (λ file. GivesHeld (holding self.now name.now) (Self.File.remaining file)) };
}

/// A shelf over what opens files. It holds what can be read from them.
#[derive(Drop)]
pub struct ReaderShelf<O: Opener> {
    opener: O,
    alloc: Global,
    faults: u64,
    failed_name: String,
}

impl<O: Opener> Model for ReaderShelf<O> {
    ghost use Rattle.std.specs.Prelude.{string_bytes};
    ghost use Rattle.lq_shelf.specs.ReaderShelf.{ReaderShelfState};

    ghost Value = { ReaderShelfState O };

    ghost view = { λ s. record {
      opener = s.opener;
      faults = s.faults;
      failed_name = string_bytes s.failed_name;
    } };
}

impl<O: Opener> ReaderShelf<O> {
    /// A shelf over this opener, with a count of faults that starts at 0.
    pub fn over(alloc: Global, opener: O) -> Self
        ensures { result ≡ record { opener = opener; faults = 0; failed_name = [] } }
    {
        ReaderShelf {
            opener,
            alloc,
            faults: 0,
            failed_name: String::new(alloc),
        }
    }
}

impl<O: Opener> Shelf for ReaderShelf<O> {
    ghost holding = { λ s. O.holding s.opener };

    ghost faults = { λ s. s.faults };

    ghost failed_name = { λ s. s.failed_name };

    /// A read ends at the end of the file or after `most` bytes. Each error but want of memory is a
    /// fault.
    fn fetch(&mut self, name: &str, most: usize) -> Result<Vec<u8>, Fetch>
        ensures first { IfOk result
            (λ bytes. AreFirstOf (O.holding self.old.opener name.now) most bytes.items) }
        ensures within { IfOk result (λ bytes. length bytes.items ≤ most) }
        ensures ok { OnOk result (self.new ≡ self.old) }
        ensures no_memory { IsErrOf result Fetch.NoMemory → self.new ≡ self.old }
        ensures failed { IsErrOf result Fetch.Failed → self.new ≡ record self.old {
          faults = next_count self.old.faults;
          failed_name = name.now;
        } }

        // Whatever is answered, the files are opened by what opened them before.
        ensures same_opener { self.new.opener ≡ self.old.opener }
        ensures never_falls { self.old.faults ≤ self.new.faults }
    {
        // The memory for the name is taken before the file is opened.
        let failed_name = String::from_str(self.alloc, name)?;
        match read_file(self.alloc, &self.opener, name, most) {
            Ok(bytes) => Ok(bytes),
            Err(Fetch::NoMemory) => Err(Fetch::NoMemory),
            Err(Fetch::Failed) => {
                self.failed_name = failed_name;
                self.faults = self.faults.saturating_add(1);
                Err(Fetch::Failed)
            }
        }
    }
}

// The first `most` bytes of what is held under the name.
fn read_file<O: Opener>(
    alloc: Global,
    opener: &O,
    name: &str,
    most: usize,
) -> Result<Vec<u8>, Fetch>
    ensures first { IfOk result
        (λ bytes. AreFirstOf (O.holding opener.now name.now) most bytes.items) }
    ensures within { IfOk result (λ bytes. length bytes.items ≤ most) }
{
    let mut file = opener.open(name)?;
    read_first(alloc, &mut file, most)
}

// The first `most` bytes that the reader gives, or all where it ends before: a read of no bytes is
// its end. The bytes come through a buffer of one piece, since `most` may be far more than there are.
fn read_first<F: Read>(alloc: Global, from: &mut F, most: usize) -> Result<Vec<u8>, Fetch>
    ensures within { IfOk result (λ bytes. length bytes.items ≤ most) }
    ensures first { IfOk result
        (λ bytes. IfSome (F.remaining from.old) (λ left. bytes.items ≡ take most left)) }
{
    let mut piece = empty_piece(alloc)?;
    let mut bytes = Vec::new(alloc);
    'pieces: while bytes.len() < most {
        let room = piece.len().min(most - bytes.len());
        let part = &mut piece[..room];
        let count = from.read(part)?;
        if count == 0 {
            return Ok(bytes);
        }
        bytes.extend_from_slice(&part[..count])?;
    }
    Ok(bytes)
}

fn empty_piece(alloc: Global) -> Result<Vec<u8>, AllocError>
    ensures { IfOk result (λ piece. 0 < vec_len piece) }
{
    vec![in alloc; 0u8; PIECE]
}

#[cfg(test)]
mod tests;
