//! The end of a journal.
ghost use Rattle.std.specs.Prelude.{◌≡◌, ◌++◌, OnOk};
ghost use Rattle.ppq_handler.specs.ppq_outside.Told.{HasOneCause, TakesAll, TakesPart};
ghost use Rattle.ppq_handler.specs.Agenda.{ending_text};

use crate::line::put_ending;
use ppq_handler::Ending;
use ppq_text::{Failed, Gathered, Host, OnHeap, Sink};

// Writes what was gathered and the line of the ending.
pub(crate) fn end_journal<H: Host, O: Sink>(
    rt: &H,
    ending: Ending,
    lines: &mut Gathered<OnHeap>,
    out: &mut O,
) -> Result<(), Failed>
    ensures all { OnOk result (TakesAll (O.told out.old) (O.told out.new) (lines.old ++ ending_text ending)) }
    ensures part { TakesPart (O.told out.old) (O.told out.new) (lines.old ++ ending_text ending) }
    ensures cause { HasOneCause (O.faults out.old) (O.faults out.new) result }
{
    put_ending(rt, ending, lines, out)?;
    lines.put(rt, out)
}
