ghost use Rattle.std.specs.Prelude.{map, string_bytes};
ghost use Rattle.lq_cli.specs.Answered.{Answered};
ghost use Rattle.lq_cli.specs.CleanReplays.{TellsClean};
ghost use Rattle.lq_cli.specs.Liquid.{Answers};
ghost use Rattle.lq_cli.specs.Seen.{shelf_state, sink_state, seen};

use crate::answer::Answer;
use crate::commands::replay::{read_replay, replay};
use crate::commands::seq::{read_seq, seq};
use crate::laws::clean_replays_run_in_order;
use lq_shelf::{Gate, Shelf, Sink};
use std::alloc::Global;

/// Does what the words of a command line ask (docs/COMMANDS.md), reads files from the shelf, writes to the sink and
/// gives the status.
pub fn liquid<H: Shelf, K: Sink, G: Gate + Sync>(
    alloc: Global,
    words: &[String],
    shelf: &mut H,
    out: &mut K,
    _gate: &G,
) -> u8
    // The status and the bytes are an answer to the words by what the files hold, that of the command that the words
    // ask for, unless the sink fails or memory runs out.
    ensures answered { Answered (Answers (map string_bytes words.now))
        (shelf_state H.holding H.faults H.failed_name shelf.old) (shelf_state H.holding H.faults H.failed_name shelf.new)
        (sink_state K.written K.faults out.old) (sink_state K.written K.faults out.new) result }
    // The replay of a source that is clean on its input tells neither a stray nor a race, and tells the sequential execution
    // whatever the picks are.
    ensures clean { TellsClean (map string_bytes words.now)
        (seen (shelf_state H.holding H.faults H.failed_name shelf.old) (shelf_state H.holding H.faults H.failed_name shelf.new))
        (sink_state K.written K.faults out.old) (sink_state K.written K.faults out.new) result }
{
    clean_replays_run_in_order();
    answer(alloc, words, shelf, out)
}

// Does what the words ask.
fn answer<H: Shelf, K: Sink>(alloc: Global, words: &[String], shelf: &mut H, out: &mut K) -> u8
    ensures { Answered (Answers (map string_bytes words.now))
        (shelf_state H.holding H.faults H.failed_name shelf.old) (shelf_state H.holding H.faults H.failed_name shelf.new)
        (sink_state K.written K.faults out.old) (sink_state K.written K.faults out.new) result }
{
    if let Some(words) = read_seq(words) {
        return seq(alloc, &words, shelf, out);
    }
    if let Some(words) = read_replay(words) {
        return replay(alloc, &words, shelf, out);
    }
    Answer::BadWords.tell(alloc, out)
}
