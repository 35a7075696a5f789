ghost use Rattle.lq_meaning.specs.Ending.{Outcome};
ghost use Rattle.lq_cli.specs.Answered.{Told};
ghost use Rattle.lq_cli.specs.Ends.{Ends, RunOf};
ghost use Rattle.lq_cli.specs.Seen.{SinkState, sink_state};

use crate::answer::{Answer, NO_MEMORY, SINK_FAULT};
use lq_meaning::End;
use lq_shelf::Sink;
use std::alloc::Global;

/// Tells the end of a run whose numbers are written, and gives the status (docs/COMMANDS.md, "Statuses").
pub fn tell_end<K: Sink>(alloc: Global, end: End, out: &mut K) -> u8
    ensures { (o : Outcome) (before : SinkState) → RunOf end o before (sink_state K.written K.faults out.old)
        → Told (Ends o) before (sink_state K.written K.faults out.new) result }
{
    match end {
        End::Done { .. } => 0,
        End::Trap { kind, at, .. } => Answer::Trap(kind, at).tell(alloc, out),
        End::Stray { at } => Answer::Stray(at).tell(alloc, out),
        End::Fuel => Answer::Fuel.tell(alloc, out),
        End::SinkFault => SINK_FAULT,
        End::NoMemory => NO_MEMORY,
    }
}
