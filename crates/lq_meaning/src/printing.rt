//! Writes what a run prints (docs/LANGUAGE.md, "Statements").

ghost use Rattle.std.specs.Prelude.{◌≡◌, [], OnOk, IsErrOf};
ghost use Rattle.lq_shelf.specs.Faults.{Rose};
ghost use Rattle.lq_shelf.specs.Sink.{Appends, AppendsPrefix};
ghost use Rattle.lq_meaning.specs.Heap.{printed_by};
ghost use Rattle.lq_meaning.specs.Printed.{number_line, number_lines};

use crate::Action;
use lq_shelf::{Put, Sink};
use lq_text::put_number;
use std::alloc::Global;

// Writes the line of a number, as one piece.
fn put_line<K: Sink>(alloc: Global, number: i64, out: &mut K) -> Result<(), Put>
    ensures ok { OnOk result (Appends (K.written out.old) (K.written out.new) (number_line number)) }
    ensures prefix { AppendsPrefix (K.written out.old) (K.written out.new) (number_line number) }
    ensures failed { IsErrOf result Put.Failed → Rose (K.faults out.old) (K.faults out.new) }
    ensures other { (IsErrOf result Put.Failed → ⊥) → K.faults out.new ≡ K.faults out.old }
{
    let mut line = Vec::new(alloc);
    put_number(&mut line, number)?;
    line.extend_from_slice(b"\n")?;
    out.put(&line)
}

/// Writes the line of an action that prints: the number in decimal and a line feed, as one piece. Other actions write
/// nothing. After an error the first bytes of the line may have been written.
pub fn put_action<K: Sink>(alloc: Global, action: Action, out: &mut K) -> Result<(), Put>
    ensures ok { OnOk result (Appends (K.written out.old) (K.written out.new) (number_lines (printed_by action []))) }
    ensures prefix { AppendsPrefix (K.written out.old) (K.written out.new) (number_lines (printed_by action [])) }
    ensures failed { IsErrOf result Put.Failed → Rose (K.faults out.old) (K.faults out.new) }
    ensures other { (IsErrOf result Put.Failed → ⊥) → K.faults out.new ≡ K.faults out.old }
{
    match action {
        Action::Print { number } => put_line(alloc, number, out),
        _ => Ok(()),
    }
}
