//! The program: the files and the standard output of the machine, and the words of its command line.
#![tactic(auto)]

use lq_cli::liquid;
use lq_shelf::{FileShelf, OpenGate, StdSink};
use std::env;
use std::io::{self, ErrorKind};
use std::process::ExitCode;

// The status where there is no memory for the words (docs/COMMANDS.md, "Statuses").
const NO_MEMORY: u8 = 11;

// The words behind the program's name.
fn words(rt: &HostRuntime) -> io::Result<Vec<String>> {
    let mut words = Vec::new(rt.alloc());
    for word in env::args(rt)?.skip(1) {
        words.push(word)?;
    }
    Ok(words)
}

fn main(rt: HostRuntime) -> ExitCode {
    let words = match words(&rt) {
        Ok(words) => words,
        Err(error) if error.kind() == ErrorKind::OutOfMemory => return ExitCode::from(NO_MEMORY),
        // A word that is not UTF-8 is none of the forms, and no words are none either.
        Err(_) => Vec::new(rt.alloc()),
    };
    let mut shelf = FileShelf::new(&rt);
    let mut out = StdSink::new(&rt);
    ExitCode::from(liquid(rt.alloc(), &words, &mut shelf, &mut out, &OpenGate))
}
