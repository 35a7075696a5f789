use super::{Asked, ample, call, status_of};
use lq_shelf::MemSink;
use std::alloc::{AllocError, Global};
use std::test::Fail;

// A source passes a limit by its middle part, so many times: what stands before the part, the part, how often it
// stands, what stands behind it, and the line that is due.
const SOURCES: [(&str, &str, u32, &str, &str); 11] = [
    ("", " ", 262_145, "", "limit source bytes 262145 262144\n"),
    ("", " ", 300_000, "", "limit source bytes 262145 262144\n"),
    (
        "int main(void){return ",
        "(",
        64,
        "0;}",
        "limit brackets 65 64\n",
    ),
    (
        "int main(void){return ",
        "(",
        69,
        "0;}",
        "limit brackets 70 64\n",
    ),
    (
        "int main(void){return ",
        "!",
        511,
        "0;}",
        "limit stretch 513 512\n",
    ),
    ("", "void f(){}", 257, "", "limit functions 257 256\n"),
    ("", "struct S{int x;};", 65, "", "limit structs 65 64\n"),
    ("struct S{", "int x;", 17, "};", "limit fields 17 16\n"),
    ("int main(void){", "int a;", 33, "}", "limit locals 33 32\n"),
    (
        "int main(void){cobegin{",
        "{}",
        17,
        "}}",
        "limit branches 17 16\n",
    ),
    (
        "int main(void){if(0){}",
        "else if(0){}",
        64,
        "}",
        "limit arms 65 64\n",
    ),
];

const NO_STORES: &str =
    "int main(void) {\n  int *a = calloc(1, sizeof(int));\n  cobegin {\n    { }\n    { }\n  }\n  return 0;\n}\n";

// Behind a text a part, so many times.
fn push_all(text: &mut Vec<u8>, part: &str, count: u32) -> Result<(), AllocError> {
    for _ in 0..count {
        text.extend_from_slice(part.as_bytes())?;
    }
    Ok(())
}

// The source of a row.
fn source_of(
    alloc: Global,
    head: &str,
    part: &str,
    count: u32,
    tail: &str,
) -> Result<Vec<u8>, AllocError> {
    let mut source = Vec::from_slice(alloc, head.as_bytes())?;
    push_all(&mut source, part, count)?;
    source.extend_from_slice(tail.as_bytes())?;
    Ok(source)
}

#[test]
fn tells_the_limits_of_sources(rt: HostRuntime) -> Result<(), Fail> {
    let alloc = rt.alloc();
    for (head, part, count, tail, written) in SOURCES {
        let source = source_of(alloc, head, part, count, tail)?;
        let mut out = MemSink::new(alloc, vec![in alloc; (2, 1)]?);
        let told = status_of(alloc, &ample(&source), &mut out)?;
        assert_eq!(rt; told, 7, "{written}");
        assert_eq!(rt; out.written(), written.as_bytes());
    }
    Ok(())
}

// What a replay without stores tells of picks that pass a limit.
fn picks_told(alloc: Global, picks: &[u8]) -> Result<(u8, Vec<u8>), AllocError> {
    let asked = Asked {
        picks,
        ..ample(NO_STORES.as_bytes())
    };
    let mut out = MemSink::new(alloc, vec![in alloc; (2, 1)]?);
    let status = status_of(alloc, &asked, &mut out)?;
    Ok((status, out.written().to_vec(alloc)?))
}

#[test]
fn tells_the_limit_of_pick_numbers(rt: HostRuntime) -> Result<(), Fail> {
    let alloc = rt.alloc();
    let mut picks = Vec::new(alloc);
    push_all(&mut picks, "0\n", 1_048_577)?;
    let (status, written) = picks_told(alloc, &picks)?;
    assert_eq!(rt; status, 7);
    assert_eq!(rt;
        written.as_slice(),
        b"limit pick numbers 1048577 1048576\n".as_slice()
    );
    Ok(())
}

#[test]
fn tells_the_limit_of_pick_bytes(rt: HostRuntime) -> Result<(), Fail> {
    let alloc = rt.alloc();
    // Of one byte more no more than the limit and one are fetched.
    let picks = vec![in alloc; b' '; 33_554_434]?;
    let (status, written) = picks_told(alloc, &picks)?;
    assert_eq!(rt; status, 7);
    assert_eq!(rt;
        written.as_slice(),
        b"limit pick bytes 33554433 33554432\n".as_slice()
    );
    Ok(())
}

// What `seq` tells of an input that passes a limit, of a source that takes none.
fn input_told(alloc: Global, input: &[u8]) -> Result<(u8, Vec<u8>), AllocError> {
    let mut out = MemSink::new(alloc, vec![in alloc; (2, 1)]?);
    let files = [("s", b"int main(void) {}".as_slice()), ("i", input)];
    let status = call(alloc, &["seq", "s", "i", "7", "100"], &files, &[], &mut out)?;
    Ok((status, out.written().to_vec(alloc)?))
}

#[test]
fn tells_the_limits_of_inputs(rt: HostRuntime) -> Result<(), Fail> {
    let alloc = rt.alloc();
    let mut numbers = Vec::new(alloc);
    push_all(&mut numbers, "0\n", 1_048_577)?;
    let (status, written) = input_told(alloc, &numbers)?;
    assert_eq!(rt; status, 7);
    assert_eq!(rt;
        written.as_slice(),
        b"limit input numbers 1048577 1048576\n".as_slice()
    );
    let bytes = vec![in alloc; b' '; 33_554_434]?;
    let (status, written) = input_told(alloc, &bytes)?;
    assert_eq!(rt; status, 7);
    assert_eq!(rt;
        written.as_slice(),
        b"limit input bytes 33554433 33554432\n".as_slice()
    );
    Ok(())
}
