//! `seq SRC INPUT FUEL WORDS`: the sequential execution of a source.

ghost use Rattle.std.specs.Prelude.{◌≡◌, ℕ, ◌^◌, ◌≤◌, map, string_bytes, IfSome, IfNone};
ghost use Rattle.lq_meaning.specs.Meaning.{sequential};
ghost use Rattle.lq_cli.specs.Answered.{Told, Answered};
ghost use Rattle.lq_cli.specs.Ends.{Ends};
ghost use Rattle.lq_cli.specs.Readers.{IsTree, AreFiles};
ghost use Rattle.lq_cli.specs.Seen.{shelf_state, sink_state};
ghost use Rattle.lq_cli.specs.Stop.{Reading};
ghost use Rattle.lq_cli.specs.commands.Seq.{Seq, Spells, SeqAnswers, command_of};

use crate::answer::NO_MEMORY;
use crate::end::tell_end;
use crate::numbers::{NumbersFile, fetch_numbers};
use crate::stop::Stop;
use crate::text::{Source, fetch_source};
use crate::words::{after_name, first_word, read_room};
use lq_meaning::run_seq;
use lq_plain::{meaning_stays, meanings_have_rules, plain, plain_is_formed, stores_go_to_places};
use lq_shelf::{Shelf, Sink};
use lq_tree::Program;
use std::alloc::Global;

const MOST_FUEL: u64 = 1 << 40;

/// What the words ask for.
#[derive(Clone, Copy)]
pub struct SeqWords<'a> {
    /// The name of the source.
    pub source: &'a str,
    /// The name of the input.
    pub input: &'a str,
    pub fuel: u64,
    /// How many words the run may allocate.
    pub words: u32,
}

/// What the words of a command line ask for, where they ask for `seq`.
pub fn read_seq(words: &[String]) -> Option<SeqWords<'_>>
    ensures some { IfSome result (λ w. Spells (map string_bytes words.now) (command_of w)) }
    ensures none { IfNone result ((c : Seq) → ¬ Spells (map string_bytes words.now) c) }
{
    let words = after_name("seq", words)?;
    let (source, words) = first_word(words)?;
    let (input, words) = first_word(words)?;
    let room = read_room(MOST_FUEL, words)?;
    Some(SeqWords {
        source,
        input,
        fuel: room.fuel,
        words: room.words,
    })
}

/// The source and the input of a run.
#[derive(Drop)]
pub struct Files {
    pub source: Source,
    pub input: Vec<i64>,
}

// The files that the words name.
fn fetch_files<'a, H: Shelf>(
    alloc: Global,
    words: &SeqWords<'a>,
    shelf: &mut H,
) -> Result<Files, Stop<'a>>
    ensures { Reading (AreFiles (H.holding shelf.old) (command_of words.now)) (SeqAnswers (command_of words.now))
        (shelf_state H.holding H.faults H.failed_name shelf.old) (shelf_state H.holding H.faults H.failed_name shelf.new) result }
{
    let source = fetch_source(alloc, shelf, words.source)?;
    let input = fetch_numbers(alloc, shelf, NumbersFile::Input, words.input)?;
    Ok(Files { source, input })
}

// Runs the plain form of a source, which does what the source does, and tells the end.
fn run<K: Sink>(
    alloc: Global,
    tree: &Program,
    input: &[i64],
    fuel: u64,
    words: u32,
    out: &mut K,
) -> u8
    requires tree { IsTree tree.now }
    requires fuel { fuel ≤ 2 ^ 40 }
    requires words { words ≤ 1048576 }
    ensures { Told (Ends (sequential fuel words tree.now input.now)) (sink_state K.written K.faults out.old) (sink_state K.written K.faults out.new) result }
{
    stores_go_to_places();
    plain_is_formed();
    meaning_stays();
    meanings_have_rules();
    let Ok(p) = plain(alloc, tree) else {
        return NO_MEMORY;
    };
    let end = run_seq(alloc, &p, input, fuel, words, out);
    tell_end(alloc, end, out)
}

/// Does what the words ask for, and gives the status (docs/COMMANDS.md, "seq").
pub fn seq<H: Shelf, K: Sink>(alloc: Global, words: &SeqWords<'_>, shelf: &mut H, out: &mut K) -> u8
    requires fuel { words.now.fuel ≤ 2 ^ 40 }
    requires words { words.now.words ≤ 1048576 }
    ensures { Answered (SeqAnswers (command_of words.now))
        (shelf_state H.holding H.faults H.failed_name shelf.old) (shelf_state H.holding H.faults H.failed_name shelf.new)
        (sink_state K.written K.faults out.old) (sink_state K.written K.faults out.new) result }
{
    match fetch_files(alloc, words, shelf) {
        Ok(files) => run(
            alloc,
            &files.source.tree,
            &files.input,
            words.fuel,
            words.words,
            out,
        ),
        Err(stop) => stop.tell(alloc, out),
    }
}
