use lq_cli::liquid;
use lq_shelf::{MemShelf, MemSink, OpenGate};
use std::alloc::{AllocError, Global};

mod limits;
mod names;
mod replays;
mod sequences;

// The status of a call with these words, on these files, of which some fetches fail.
fn call(
    alloc: Global,
    words: &[&str],
    files: &[(&str, &[u8])],
    failing: &[u64],
    out: &mut MemSink,
) -> Result<u8, AllocError> {
    let mut held = Vec::new(alloc);
    for (name, text) in files {
        held.push((String::from_str(alloc, name)?, text.to_vec(alloc)?))?;
    }
    let mut shelf = MemShelf::new(alloc, held, failing.to_vec(alloc)?);
    let mut asked = Vec::new(alloc);
    for word in words {
        asked.push(String::from_str(alloc, word)?)?;
    }
    Ok(liquid(alloc, &asked, &mut shelf, out, &OpenGate))
}

// What a call is asked to replay, and the fetches of its files that fail.
#[derive(Clone, Copy)]
struct Asked<'a> {
    source: &'a [u8],
    input: &'a [u8],
    picks: &'a [u8],
    fuel: &'a str,
    words: &'a str,
    failing: &'a [u64],
}

// A replay of a source without numbers, with fuel and words enough.
fn ample(source: &[u8]) -> Asked<'_> {
    Asked {
        source,
        input: b"",
        picks: b"",
        fuel: "7",
        words: "100",
        failing: &[],
    }
}

// The status of a replay.
fn status_of(alloc: Global, asked: &Asked<'_>, out: &mut MemSink) -> Result<u8, AllocError> {
    let words = [
        "replay",
        "s.c",
        "s.input",
        "s.picks",
        asked.fuel,
        asked.words,
    ];
    let files = [
        ("s.c", asked.source),
        ("s.input", asked.input),
        ("s.picks", asked.picks),
    ];
    call(alloc, &words, &files, asked.failing, out)
}
