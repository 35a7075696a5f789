use crate::{Fetch, FileShelf, Gate, MemShelf, MemSink, OpenGate, Put, Shelf, Sink, StdSink};
use std::alloc::{AllocError, Global};
use std::fs;
use std::test::Fail;

fn file(alloc: Global, name: &str, bytes: &[u8]) -> Result<(String, Vec<u8>), AllocError> {
    Ok((String::from_str(alloc, name)?, bytes.to_vec(alloc)?))
}

// Whether a fetch gives these bytes, or fails where there are none.
fn gives<H: Shelf>(shelf: &mut H, name: &str, most: usize, bytes: Option<&[u8]>) -> bool {
    match (shelf.fetch(name, most), bytes) {
        (Ok(fetched), Some(bytes)) => fetched.as_slice() == bytes,
        (Err(error), None) => error == Fetch::Failed,
        _ => false,
    }
}

fn passes<G: Gate + Sync>(gate: &G) {
    gate.pass(0);
}

#[test]
fn a_shelf_in_memory_fails_by_number(rt: HostRuntime) -> Result<(), Fail> {
    let alloc = rt.alloc();
    let mut files = Vec::new(alloc);
    for (name, bytes) in [("a", "first"), ("b", "other"), ("a", "second")] {
        files.push(file(alloc, name, bytes.as_bytes())?)?;
    }
    let mut shelf = MemShelf::new(alloc, files, vec![in alloc; 2, 5]?);
    let calls = [
        ("a", 9, Some("first")),
        ("a", 9, None),
        ("a", 3, Some("fir")),
        ("c", 9, None),
        ("b", 9, None),
        ("b", 5, Some("other")),
        ("b", 0, Some("")),
    ];
    for (name, most, text) in calls {
        let bytes = text.map(|text| text.as_bytes());
        assert!(rt; gives(&mut shelf, name, most, bytes), "{name} {most}");
    }
    Ok(())
}

#[test]
fn a_sink_in_memory_fails_by_number(rt: HostRuntime) -> Result<(), Fail> {
    let alloc = rt.alloc();
    let fails = vec![in alloc; (2, 1), (2, 0), (3, 0), (4, 7)]?;
    let mut sink = MemSink::new(alloc, fails);
    let calls = [
        ("ab", Ok(()), "ab"),
        ("cd", Err(Put::Failed), "abc"),
        ("", Ok(()), "abc"),
        ("ef", Err(Put::Failed), "abcef"),
        ("gh", Ok(()), "abcefgh"),
    ];
    for (piece, answer, written) in calls {
        assert_eq!(rt; sink.put(piece.as_bytes()), answer, "{piece}");
        assert_eq!(rt; sink.written(), written.as_bytes(), "{piece}");
    }
    Ok(())
}

#[test]
fn files_are_fetched(rt: HostRuntime) -> Result<(), Fail> {
    fs::write(&rt, "notes", "some text")?;
    let mut shelf = FileShelf::new(&rt);
    assert!(rt; gives(&mut shelf, "notes", 1 << 40, Some(b"some text")));
    assert!(rt; gives(&mut shelf, "notes", 4, Some(b"some")));
    assert!(rt; gives(&mut shelf, "nothing", 4, None));
    // A folder opens, and can't be read.
    assert!(rt; gives(&mut shelf, ".", 4, None));
    assert!(rt; gives(&mut shelf, "notes", 9, Some(b"some text")));
    Ok(())
}

#[test]
fn standard_output_takes_bytes(rt: HostRuntime) {
    let mut sink = StdSink::new(&rt);
    for piece in ["put on ", "", "standard output\n"] {
        assert_eq!(rt; sink.put(piece.as_bytes()), Ok(()));
    }
}

#[test]
fn a_gate_is_passed() {
    passes(&OpenGate);
}
