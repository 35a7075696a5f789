ghost use Rattle.std.specs.Prelude.{◌≡◌};
ghost use Rattle.lq_cli.specs.Answered.{Told};
ghost use Rattle.lq_cli.specs.Seen.{sink_state};
ghost use Rattle.lq_cli.specs.Stop.{StopAnswers};

use crate::answer::{Answer, NO_MEMORY};
use lq_shelf::Sink;
use lq_tree::Limit;
use std::alloc::{AllocError, Global};

/// Where the reading of files stops.
#[derive(Clone, Copy, Debug, PartialEq, Eq)]
pub enum Stop<'a> {
    /// An answer comes before anything is done.
    Told(Answer<'a>),
    NoMemory,
}

impl From<AllocError> for Stop<'_> {
    ghost use Rattle.std.specs.Prelude.{◌≡◌};
    ghost use Rattle.lq_cli.specs.declared.stop.Stop.TheVariants.{NoMemory};

    ghost from_gives = { λ _ stop. stop ≡ NoMemory };

    fn from(_: AllocError) -> Self {
        Stop::NoMemory
    }
}

impl From<Limit> for Stop<'_> {
    ghost use Rattle.std.specs.Prelude.{◌≡◌};
    ghost use Rattle.lq_cli.specs.Stop.{stop_of_limit};

    ghost from_gives = { λ limit stop. stop ≡ stop_of_limit limit };

    fn from(limit: Limit) -> Self {
        Stop::Told(Answer::Limit(limit))
    }
}

impl Stop<'_> {
    /// Writes the line of the answer, and gives the status.
    pub fn tell<K: Sink>(&self, alloc: Global, out: &mut K) -> u8
        ensures { Told (StopAnswers self.now) (sink_state K.written K.faults out.old) (sink_state K.written K.faults out.new) result }
    {
        match self {
            Stop::Told(answer) => answer.tell(alloc, out),
            Stop::NoMemory => NO_MEMORY,
        }
    }
}
