//! The sweep over all nodes.
ghost use Rattle.std.specs.Prelude.{◌≡◌, ◌≤◌, ◌+◌, [], max, OnOk, IfErr};
ghost use Rattle.ppq_queue.specs.Shown.{AllTell};
ghost use Rattle.ppq_queue.specs.Holding.{Keeps};
ghost use Rattle.ppq_text.specs.ppq_outside.Told.{TakesAll, TakesPart};
ghost use Rattle.ppq_sweep.specs.Levels.{sweep_text};
ghost use Rattle.ppq_sweep.specs.Queues.{HoldsEdges, MovesOn, QueuesAfter};
ghost use Rattle.ppq_sweep.specs.Swept.{SinkAfter, HasSwept, StopsSweep, StopsByQueue, FinishesBy};

use crate::SweepFault;
use crate::visit::visit;
use ppq_queue::{Gate, Host, Pair, Queue, Slot};
use ppq_text::{Gathered, InPlace, Sink};

// All nodes come up, in ascending order, until a call fails.
fn visit_all<H: Host, S: Slot + Send + Sync, O: Sink, G: Gate>(
    rt: &H,
    edges: &mut Queue<S, Pair>,
    notes: &mut Queue<S, Pair>,
    nodes: u64,
    lines: &mut Gathered<InPlace>,
    out: &mut O,
    gate: &G,
) -> Result<(), SweepFault>
where
    H::Dir: Send,
    requires few { nodes ≤ 4_294_967_296 }
    requires none { AllTell notes.old.slots → notes.old.bag ≡ [] }
    requires empty { lines.old ≡ [] }
    ensures moves { MovesOn edges.old edges.new notes.old notes.new }
    ensures queues { QueuesAfter edges.old edges.new notes.old notes.new result }
    ensures sink { SinkAfter (O.faults out.old) (O.faults out.new) result }
    ensures swept { OnOk result (HoldsEdges nodes edges.old → AllTell notes.old.slots → HasSwept nodes (O.told out.old) (O.told out.new) edges.old.bag edges.new.bag notes.new.bag lines.new) }
    ensures stops { IfErr result (λ fault. HoldsEdges nodes edges.old → AllTell notes.old.slots → StopsSweep nodes (O.told out.old) (O.told out.new) edges.old.bag lines.new fault) }
{
    'nodes: for node in 0..nodes {
        visit(rt, edges, notes, node, lines, out, gate)?;
    }
    Ok(())
}

// Writes what was gathered before a sweep ended or was stopped.
fn finish<H: Host, O: Sink>(
    rt: &H,
    swept: Result<(), SweepFault>,
    lines: &mut Gathered<InPlace>,
    out: &mut O,
) -> Result<(), SweepFault>
    ensures { FinishesBy (O.told out.old) (O.told out.new) (O.faults out.old) (O.faults out.new) lines.old swept result }
{
    let written = match swept {
        Ok(()) => lines.put(rt, out),
        Err(SweepFault::Queue(_fault)) => lines.put(rt, out),
        Err(SweepFault::Write) => return swept,
    };
    match written {
        Ok(()) => swept,
        Err(_failed) => Err(SweepFault::Write),
    }
}

/// Prints the level of each node, in ascending order: a line `v level` for each `v` below `nodes`.
///
/// `edges` has a pair for each edge: it leads from the key to the value, which is greater, and below `nodes`. An edge
/// may stand there several times. A node's level is 0 if no edge ends at it, and else one more than the greatest level
/// of a node from which one does. `notes` is an empty queue. Both are empty after `Ok`.
///
/// An edge costs a push, two looks and two pops, and a node two looks and its line. Nothing is allocated; output is put
/// in pieces of at most 4,096 bytes. The gate is entered by merges of the queues.
///
/// `Write`: the sink failed; it took a prefix of the lines. `Queue`: in one of the queues no block was free, or one
/// failed; the lines of some first nodes were written. As many notes wait at most as there are edges, so a queue that
/// has room for these, has room for the notes too. If blocks return other bytes than were written, or `edges` has
/// records that are no edges, the sweep ends all the same, with any numbers.
pub fn levels<H: Host, S: Slot + Send + Sync, O: Sink, G: Gate>(
    rt: &H,
    edges: &mut Queue<S, Pair>,
    notes: &mut Queue<S, Pair>,
    nodes: u64,
    out: &mut O,
    gate: &G,
) -> Result<(), SweepFault>
where
    H::Dir: Send,
    requires few { nodes ≤ 4_294_967_296 }
    requires none { notes.old.size ≡ 0 }

    // The levels, if the contents of both queues are visible and the one holds edges: after `Ok` the sink took all lines, after a
    // fault a prefix of them; and whole lines, if it was a queue that stopped the sweep.
    ensures done { OnOk result (HoldsEdges nodes edges.old → AllTell notes.old.slots → TakesAll (O.told out.old) (O.told out.new) (sweep_text edges.old.bag nodes)) }
    ensures emptied { OnOk result (HoldsEdges nodes edges.old → AllTell notes.old.slots → (edges.new.bag ≡ []) × (notes.new.bag ≡ [])) }
    ensures part { IfErr result (λ fault. HoldsEdges nodes edges.old → AllTell notes.old.slots → TakesPart (O.told out.old) (O.told out.new) (sweep_text edges.old.bag nodes)) }
    ensures lines { IfErr result (λ fault. HoldsEdges nodes edges.old → AllTell notes.old.slots → StopsByQueue nodes (O.told out.old) (O.told out.new) edges.old.bag fault) }

    // Causes.
    ensures sink { SinkAfter (O.faults out.old) (O.faults out.new) result }
    ensures queues { QueuesAfter edges.old edges.new notes.old notes.new result }

    // What stays: no more records are counted in both queues than there were edges, so the notes never were more.
    ensures edges { Keeps edges.old edges.new }
    ensures notes { Keeps notes.old notes.new }
    ensures sizes { edges.new.size + notes.new.size ≤ edges.old.size }
    ensures edges_peak { edges.new.peak ≡ edges.old.peak }
    ensures notes_peak { notes.new.peak ≤ max notes.old.peak edges.old.size }
{
    // Nothing is done for an empty queue, but it says whether a block had failed before.
    if let Err(fault) = notes.top(rt, gate) {
        return Err(SweepFault::Queue(fault));
    }
    notes.known();
    let mut lines = Gathered::new(InPlace::new());
    let swept = visit_all(rt, edges, notes, nodes, &mut lines, out, gate);
    finish(rt, swept, &mut lines, out)
}
