ghost use Rattle.std.specs.Prelude.{true, false, refl};

use super::{Put, Sink, Steady, WriterSink};
use std::io::{self, ErrorKind, Write};
use std::test::Fail;

impl Steady for Vec<u8> {
    ghost tells = { true };

    ghost is_steady = { λ _. refl };
}

// Takes at most three bytes a write, and fails once there is room for no more.
#[derive(Drop)]
struct Narrow {
    written: Vec<u8>,
    room: usize,
    last: io::Result<usize>,
}

impl Write for Narrow {
    fn write(&mut self, bytes: &[u8]) -> io::Result<usize> {
        let count = bytes.len().min(3).min(self.room);
        if count == 0 {
            return std::mem::replace(&mut self.last, Ok(0)).map(|_| 0);
        }
        self.written.extend_from_slice(&bytes[..count])?;
        self.room -= count;
        Ok(count)
    }

    fn flush(&mut self) -> io::Result<()> {
        Ok(())
    }
}

impl Steady for Narrow {
    ghost tells = { false };

    ghost is_steady = { λ _. refl };
}

// What a full writer answers: an error, want of memory too, or that it took no bytes.
#[test]
fn a_full_writer_is_a_fault(rt: HostRuntime) -> Result<(), Fail> {
    let answers = [
        Err(ErrorKind::StorageFull.into()),
        Err(ErrorKind::OutOfMemory.into()),
        Ok(0),
    ];
    for last in answers {
        let written = Vec::new(rt.alloc());
        let mut sink = WriterSink::over(Narrow {
            written,
            room: 8,
            last,
        });
        assert_eq!(rt; sink.put(b"abcd"), Ok(()));
        assert_eq!(rt; sink.faults, 0);
        assert_eq!(rt; sink.put(b"efghij"), Err(Put::Failed));
        assert_eq!(rt; sink.faults, 1);
        assert_eq!(rt; sink.put(b""), Ok(()));
        assert_eq!(rt; sink.put(b"k"), Err(Put::Failed));
        assert_eq!(rt; sink.faults, 2);
        assert_eq!(rt; sink.writer.written.as_slice(), b"abcdefgh".as_slice());
    }
    Ok(())
}

#[test]
fn a_writer_in_memory_takes_all(rt: HostRuntime) {
    let mut sink = WriterSink::over(Vec::new(rt.alloc()));
    for piece in ["one", "", " and two"] {
        assert_eq!(rt; sink.put(piece.as_bytes()), Ok(()));
    }
    assert_eq!(rt; sink.writer.as_slice(), b"one and two".as_slice());
    assert_eq!(rt; sink.faults, 0);
}
