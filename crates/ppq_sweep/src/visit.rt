//! A node comes up.
ghost use Rattle.std.specs.Prelude.{OnOk, IfErr};
ghost use Rattle.ppq_queue.specs.Shown.{AllTell};
ghost use Rattle.ppq_text.specs.Gathering.{Gathers};
ghost use Rattle.ppq_sweep.specs.Levels.{line_of};
ghost use Rattle.ppq_sweep.specs.Notes.{ComesUp, raised};
ghost use Rattle.ppq_sweep.specs.Queues.{MovesOn, QueuesAfter};
ghost use Rattle.ppq_sweep.specs.Swept.{SinkAfter, StopsAtLine};

use crate::SweepFault;
use crate::line::put_line;
use crate::node::{hear, tell};
use ppq_queue::{Gate, Host, Pair, Queue, Slot};
use ppq_text::{Gathered, InPlace, Sink};

// A node comes up: it takes its notes, its line is gathered, and it tells its level along its edges.
pub(crate) fn visit<H: Host, S: Slot + Send + Sync, O: Sink, G: Gate>(
    rt: &H,
    edges: &mut Queue<S, Pair>,
    notes: &mut Queue<S, Pair>,
    node: u64,
    lines: &mut Gathered<InPlace>,
    out: &mut O,
    gate: &G,
) -> Result<(), SweepFault>
where
    H::Dir: Send,
    ensures moves { MovesOn edges.old edges.new notes.old notes.new }
    ensures queues { QueuesAfter edges.old edges.new notes.old notes.new result }
    ensures sink { SinkAfter (O.faults out.old) (O.faults out.new) result }
    ensures comes { OnOk result (AllTell edges.old.slots → AllTell notes.old.slots → ComesUp node edges.old.bag edges.new.bag notes.old.bag notes.new.bag) }
    ensures line { OnOk result (AllTell notes.old.slots → Gathers (O.told out.old) (O.told out.new) lines.old (line_of node (raised node notes.old.bag)) lines.new) }
    ensures stops { IfErr result (λ fault. AllTell notes.old.slots → StopsAtLine (O.told out.old) (O.told out.new) lines.old (line_of node (raised node notes.old.bag)) lines.new fault) }
{
    let level = match hear(rt, notes, node, gate) {
        Ok(level) => level,
        Err(fault) => return Err(SweepFault::Queue(fault)),
    };
    if let Err(_failed) = put_line(rt, node, level, lines, out) {
        return Err(SweepFault::Write);
    }
    match tell(rt, edges, notes, node, level, gate) {
        Ok(()) => Ok(()),
        Err(fault) => Err(SweepFault::Queue(fault)),
    }
}
