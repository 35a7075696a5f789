//! `replay SRC INPUT PICKS FUEL WORDS`: the run of a source under picks.

ghost use Rattle.std.specs.Prelude.{◌≡◌, ◌+◌, ◌<◌, ◌≤◌, pos, length, map, unsigned_abs, string_bytes, IfOk, IfSome, IfNone};
ghost use Rattle.lq_plain.specs.Plain.{plain_program};
ghost use Rattle.lq_meaning.specs.End.{IsOfRun};
ghost use Rattle.lq_meaning.specs.Ending.{Outcome};
ghost use Rattle.lq_log.specs.Race.{IsRace};
ghost use Rattle.lq_machine.specs.Replay.{replay as run_of, replay_log};
ghost use Rattle.lq_cli.specs.Answered.{Told, Answered};
ghost use Rattle.lq_cli.specs.Ends.{RunOf};
ghost use Rattle.lq_cli.specs.Numbers.{AreNumbers, NumbersAnswers};
ghost use Rattle.lq_cli.specs.Readers.{IsTree, IsReady};
ghost use Rattle.lq_cli.specs.Replayed.{stray_of as stray_in, ComesFirst, TellsItsEnd};
ghost use Rattle.lq_cli.specs.Seen.{SinkState, shelf_state, sink_state};
ghost use Rattle.lq_cli.specs.Stop.{Reading};
ghost use Rattle.lq_cli.specs.commands.Replay.{Replay, Spells, ReplayEnds, ReplayAnswers, command_of};

use crate::answer::{Answer, NO_MEMORY, SINK_FAULT};
use crate::end::tell_end;
use crate::numbers::{NumbersFile, fetch_numbers};
use crate::stop::Stop;
use crate::text::{Source, fetch_source};
use crate::words::{after_name, first_word, read_room};
use lq_log::{Entry, first_race};
use lq_machine::{Replayed, StepFault, replays_have_rules};
use lq_meaning::End;
use lq_plain::{plain, plain_is_formed};
use lq_shelf::{Shelf, Sink};
use lq_tree::Place;
use std::alloc::{AllocError, Global};

const MOST_FUEL: u64 = 4_194_304;

/// What the words ask for.
#[derive(Clone, Copy)]
pub struct ReplayWords<'a> {
    /// The name of the source.
    pub source: &'a str,
    /// The name of the input.
    pub input: &'a str,
    /// The name of the picks.
    pub picks: &'a str,
    pub fuel: u64,
    /// How many words the run may allocate.
    pub words: u32,
}

/// What the words of a command line ask for, where they ask for `replay`.
pub fn read_replay(words: &[String]) -> Option<ReplayWords<'_>>
    ensures some { IfSome result (λ w. Spells (map string_bytes words.now) (command_of w)) }
    ensures none { IfNone result ((c : Replay) → ¬ Spells (map string_bytes words.now) c) }
{
    let words = after_name("replay", words)?;
    let (source, words) = first_word(words)?;
    let (input, words) = first_word(words)?;
    let (picks, words) = first_word(words)?;
    let room = read_room(MOST_FUEL, words)?;
    Some(ReplayWords {
        source,
        input,
        picks,
        fuel: room.fuel,
        words: room.words,
    })
}

// Numbers of which none is negative, as picks.
fn picks_of(alloc: Global, numbers: &[i64]) -> Result<Vec<u64>, AllocError>
    ensures { IfOk result (λ picks. picks.items ≡ map unsigned_abs numbers.now) }
{
    let mut picks = Vec::new(alloc);
    for number in numbers {
        picks.push(number.unsigned_abs())?;
    }
    Ok(picks)
}

// The picks of the file of this name.
fn fetch_picks<'a, H: Shelf>(
    alloc: Global,
    shelf: &mut H,
    name: &'a str,
) -> Result<Vec<u64>, Stop<'a>>
    ensures { Reading (λ picks. AreNumbers (H.holding shelf.old) NumbersFile.Picks name.now (map pos picks.items)) (NumbersAnswers NumbersFile.Picks name.now)
        (shelf_state H.holding H.faults H.failed_name shelf.old) (shelf_state H.holding H.faults H.failed_name shelf.new) result }
{
    let numbers = fetch_numbers(alloc, shelf, NumbersFile::Picks, name)?;
    Ok(picks_of(alloc, &numbers)?)
}

/// The source, the input and the picks of a run.
#[derive(Drop)]
pub struct Ready {
    pub source: Source,
    pub input: Vec<i64>,
    pub picks: Vec<u64>,
}

// The files that the words name.
fn fetch_ready<'a, H: Shelf>(
    alloc: Global,
    words: &ReplayWords<'a>,
    shelf: &mut H,
) -> Result<Ready, Stop<'a>>
    ensures { Reading (IsReady (H.holding shelf.old) (command_of words.now)) (ReplayAnswers (command_of words.now))
        (shelf_state H.holding H.faults H.failed_name shelf.old) (shelf_state H.holding H.faults H.failed_name shelf.new) result }
{
    let source = fetch_source(alloc, shelf, words.source)?;
    let input = fetch_numbers(alloc, shelf, NumbersFile::Input, words.input)?;
    let picks = fetch_picks(alloc, shelf, words.picks)?;
    Ok(Ready {
        source,
        input,
        picks,
    })
}

// Where a run met a stray.
fn stray_of(end: &End) -> Option<Place>
    ensures { result ≡ stray_in end.now }
{
    match end {
        End::Stray { at } => Some(*at),
        _ => None,
    }
}

// The line of a race of these entries.
fn race_of(log: &[Entry], i: usize, j: usize) -> Answer<'static>
    requires first { i < length log.now }
    requires second { j < length log.now }
    ensures { (race : IsRace log.now i j) → result ≡ Answer.Race (i + 1) (j + 1) race.first.at race.second.at }
{
    Answer::Race(i as u64 + 1, j as u64 + 1, log[i].at, log[j].at)
}

// What is told in place of the end of a replay: its stray, or else the least race of its log.
fn comes_first(alloc: Global, replayed: &Replayed) -> Result<Option<Answer<'static>>, AllocError>
    ensures some { IfOk result (λ found. IfSome found (ComesFirst replayed.now)) }
    ensures none { IfOk result (λ found. IfNone found (TellsItsEnd replayed.now)) }
{
    if let Some(at) = stray_of(&replayed.end) {
        return Ok(Some(Answer::Stray(at)));
    }
    match first_race(alloc, &replayed.log)? {
        Some((i, j)) => Ok(Some(race_of(&replayed.log, i, j))),
        None => Ok(None),
    }
}

// Tells a replay whose numbers are written, and gives the status.
fn tell_replayed<K: Sink>(alloc: Global, replayed: Replayed, out: &mut K) -> u8
    requires { IsOfRun replayed.end }
    ensures { (o : Outcome) (before : SinkState) → RunOf replayed.end o before (sink_state K.written K.faults out.old)
        → Told (ReplayEnds o replayed.log.items) before (sink_state K.written K.faults out.new) result }
{
    match comes_first(alloc, &replayed) {
        Ok(Some(answer)) => answer.tell(alloc, out),
        Ok(None) => tell_end(alloc, replayed.end, out),
        Err(_) => NO_MEMORY,
    }
}

// Runs the plain form of a source under the picks, and tells what came of it.
fn run<K: Sink>(alloc: Global, ready: &Ready, fuel: u64, words: u32, out: &mut K) -> u8
    requires tree { IsTree ready.now.source.tree }
    requires fuel { fuel ≤ 4194304 }
    requires words { words ≤ 1048576 }
    ensures { Told (ReplayEnds (run_of fuel words (plain_program ready.now.source.tree) ready.now.input.items ready.now.picks.items)
        (replay_log fuel words (plain_program ready.now.source.tree) ready.now.input.items ready.now.picks.items))
        (sink_state K.written K.faults out.old) (sink_state K.written K.faults out.new) result }
{
    plain_is_formed();
    replays_have_rules();
    let Ok(p) = plain(alloc, &ready.source.tree) else {
        return NO_MEMORY;
    };
    match lq_machine::replay(alloc, &p, &ready.input, &ready.picks, fuel, words, out) {
        Ok(replayed) => tell_replayed(alloc, replayed, out),
        Err(StepFault::SinkFault) => SINK_FAULT,
        Err(StepFault::NoMemory) => NO_MEMORY,
    }
}

/// Does what the words ask for, and gives the status (docs/COMMANDS.md, "replay").
pub fn replay<H: Shelf, K: Sink>(
    alloc: Global,
    words: &ReplayWords<'_>,
    shelf: &mut H,
    out: &mut K,
) -> u8
    requires fuel { words.now.fuel ≤ 4194304 }
    requires words { words.now.words ≤ 1048576 }
    ensures { Answered (ReplayAnswers (command_of words.now))
        (shelf_state H.holding H.faults H.failed_name shelf.old) (shelf_state H.holding H.faults H.failed_name shelf.new)
        (sink_state K.written K.faults out.old) (sink_state K.written K.faults out.new) result }
{
    match fetch_ready(alloc, words, shelf) {
        Ok(ready) => run(alloc, &ready, words.fuel, words.words, out),
        Err(stop) => stop.tell(alloc, out),
    }
}
