ghost use Rattle.lq_shelf.specs.Shelf.{Untold, Contents};

use super::{Fetch, Opener, ReaderShelf, Shelf};
use std::io::{self, Cursor, ErrorKind, Read};
use std::test::Fail;

// One file under every name.
#[derive(Drop)]
struct OneFile {
    bytes: Vec<u8>,
}

impl Opener for OneFile {
    type File = Cursor<Vec<u8>>;

    ghost holding = { λ opener _. Contents opener.bytes.items };

    fn open(&self, _name: &str) -> io::Result<Cursor<Vec<u8>>> {
        Ok(Cursor::new(self.bytes.clone()?))
    }
}

// Gives five bytes, at most two a read, and then its end or an error.
#[derive(Drop)]
struct Fading {
    left: &'static [u8],
    error: Option<ErrorKind>,
}

impl Read for Fading {
    fn read(&mut self, buffer: &mut [u8]) -> io::Result<usize> {
        let count = buffer.len().min(2).min(self.left.len());
        if let (0, Some(kind)) = (count, self.error) {
            return Err(kind.into());
        }
        buffer[..count].copy_from_slice(&self.left[..count]);
        self.left = &self.left[count..];
        Ok(count)
    }
}

// Files that end in the way that their names say.
#[derive(Drop)]
struct FadingFiles;

impl Opener for FadingFiles {
    type File = Fading;

    ghost holding = { λ _ _. Untold };

    fn open(&self, name: &str) -> io::Result<Fading> {
        let error = match name {
            "gone" => return Err(ErrorKind::NotFound.into()),
            "too large to open" => return Err(ErrorKind::OutOfMemory.into()),
            "broken" => Some(ErrorKind::Other),
            "too large to read" => Some(ErrorKind::OutOfMemory),
            _ => None,
        };
        Ok(Fading {
            left: b"whole",
            error,
        })
    }
}

fn faults_of<O: Opener>(shelf: &ReaderShelf<O>) -> u64 {
    shelf.faults
}

fn failed_name_of<O: Opener>(shelf: &ReaderShelf<O>) -> &str {
    shelf.failed_name.as_str()
}

#[test]
fn errors_of_files_are_faults(rt: HostRuntime) {
    let mut shelf = ReaderShelf::over(rt.alloc(), FadingFiles);
    let calls: [(&str, usize, Result<&[u8], Fetch>, u64, &str); 8] = [
        ("good", 9, Ok(b"whole"), 0, ""),
        ("gone", 9, Err(Fetch::Failed), 1, "gone"),
        ("too large to open", 9, Err(Fetch::NoMemory), 1, "gone"),
        ("broken", 9, Err(Fetch::Failed), 2, "broken"),
        ("broken", 3, Ok(b"who"), 2, "broken"),
        ("too large to read", 9, Err(Fetch::NoMemory), 2, "broken"),
        ("good", 5, Ok(b"whole"), 2, "broken"),
        ("broken", 0, Ok(b""), 2, "broken"),
    ];
    for (name, most, answer, faults, failed_name) in calls {
        let fetched = shelf.fetch(name, most);
        let bytes = match &fetched {
            Ok(bytes) => Ok(bytes.as_slice()),
            Err(error) => Err(*error),
        };
        assert_eq!(rt; bytes, answer, "{name} {most}");
        assert_eq!(rt; faults_of(&shelf), faults, "{name} {most}");
        assert_eq!(rt; failed_name_of(&shelf), failed_name, "{name} {most}");
    }
}

#[test]
fn a_told_file_is_read_from_its_beginning(rt: HostRuntime) -> Result<(), Fail> {
    let bytes = b"in memory".to_vec(rt.alloc())?;
    let mut shelf = ReaderShelf::over(rt.alloc(), OneFile { bytes });
    for (most, text) in [(2, "in"), (9, "in memory"), (100, "in memory"), (0, "")] {
        let fetched = shelf.fetch("any", most);
        let is_read = fetched.is_ok_and(|bytes| bytes.as_slice() == text.as_bytes());
        assert!(rt; is_read, "{most}");
    }
    Ok(())
}
