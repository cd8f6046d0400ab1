//! The lines of a round.
ghost use Rattle.std.specs.Prelude.{◌≡◌, length, flat_map};
ghost use Rattle.ppq_text.specs.Gathering.{GathersAll};
ghost use Rattle.ppq_handler.specs.Agenda.{entry_text};
ghost use Rattle.ppq_event.specs.Going.{entries_of};

use crate::line::put_entry;
use ppq_handler::{Outcome, Triple};
use ppq_text::{Failed, Gathered, Host, OnHeap, Sink};

// Gathers the lines of events and what was answered to them, in their order.
pub(crate) fn put_lines<H: Host, O: Sink>(
    rt: &H,
    events: &[Triple],
    answers: &[Option<Outcome>],
    lines: &mut Gathered<OnHeap>,
    out: &mut O,
) -> Result<(), Failed>
    requires { length answers.now ≡ length events.now }
    ensures { GathersAll (O.told out.old) (O.told out.new) (O.faults out.old) (O.faults out.new) lines.old (flat_map entry_text (entries_of events.now answers.now)) lines.new result }
{
    'putting: for i in 0..events.len() {
        put_entry(rt, events[i], answers[i], lines, out)?;
    }
    Ok(())
}
