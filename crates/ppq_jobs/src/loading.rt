//! Loads the edges of a record file.
ghost use Rattle.std.specs.Prelude.{◌≡◌, ◌≤◌, All, length};
ghost use Rattle.ppq_sweep.specs.ppq_queue.Holding.{Keeps};
ghost use Rattle.ppq_engine.specs.ppq_files.Lengths.{IsRecordLength};
ghost use Rattle.ppq_engine.specs.ppq_files.Reading.{HasLength, ReadsFile, CountsBy};
ghost use Rattle.ppq_engine.specs.ppq_load.Loading.{LoadCountsFrom};
ghost use Rattle.ppq_engine.specs.ppq_load.ppq_session.Dealing.{IsGoing};
ghost use Rattle.ppq_jobs.specs.Edges.{wanted_of};
ghost use Rattle.ppq_jobs.specs.Loading.{DealsEdges, LoadsEdges, answer_of};

use crate::Graph;
use crate::looking::first_bad;
use ppq_engine::{Context, Library, LoadFault, Piece, Pieces, Session};
use ppq_sweep::{Gate, Host, Pair, Queue, QueueFault, Slot};
use std::alloc::Global;

// How many bytes an edge has in a file.
pub(crate) const WIDTH: usize = 16;

// Reads a file piece by piece, and deals the edges of each to the passes of a session, until one stops. A piece with
// a record that is no edge is not dealt; the first such record's number is returned, counted from 1.
fn deal_edges<H: Host, S: Slot + Send + Sync, L: Library, G: Gate>(
    context: &Context<H>,
    library: &mut L,
    graph: &Graph<'_>,
    room: &mut [u8],
    session: &mut Session<S, Pair>,
    gate: &G,
) -> Result<Option<u64>, LoadFault>
where
    H::Dir: Send,
    requires going { All IsGoing session.old.passes }
    requires room { 16 ≤ length room.old }
    requires bytes { IsRecordLength 16 graph.now.bytes }
    requires length { HasLength (L.told library.old) graph.now.name.now graph.now.bytes }
    ensures deals { DealsEdges S.shown (L.told library.old) (L.replied library.new) (wanted_of graph.now) session.old session.new result }
    ensures reads { ReadsFile L.told L.replied graph.now.name.now graph.now.bytes library.old library.new }
    ensures counts { CountsBy LoadCountsFrom (L.faults library.old) (L.faults library.new) result }
{
    let mut pieces = Pieces::new(graph.name, graph.bytes);
    let mut number: u64 = 1;
    'pieces: while !pieces.is_over::<Pair>() {
        let bytes = match pieces.next::<Pair, H, L>(context, library, room) {
            Ok(bytes) => bytes,
            Err(fault) => return Err(LoadFault::from(fault)),
        };
        let piece = &room[..bytes];
        if let Some(bad) = first_bad(piece, graph.nodes, number) {
            return Ok(Some(bad));
        }
        if !session.deal(context.rt, &Piece::new(piece), gate) {
            return Ok(None);
        }
        number += (bytes / WIDTH) as u64;
    }
    Ok(None)
}

// What was answered first: a fault of reading, or a record that is no edge, comes before what the end of the session says.
fn first_answer(
    dealt: Result<Option<u64>, LoadFault>,
    ended: Result<(), QueueFault>,
) -> Result<Option<u64>, LoadFault>
    ensures { result ≡ answer_of dealt ended }
{
    match dealt {
        Ok(None) => match ended {
            Ok(()) => Ok(None),
            Err(fault) => Err(LoadFault::Queue { fault }),
        },
        Ok(Some(_bad)) => dealt,
        Err(_fault) => dealt,
    }
}

// Adds the edges of a file to a queue, in a session. Each pass gets an equal part of a piece of the file, once its
// records were looked at. If one is no edge, the number of the first such record is returned, counted from 1. The
// queue then has some edges of the file, as after a fault.
pub(crate) fn load_edges<H: Host, S: Slot + Send + Sync, L: Library, G: Gate>(
    rt: &H,
    alloc: Global,
    library: &mut L,
    graph: &Graph<'_>,
    room: &mut [u8],
    queue: Queue<S, Pair>,
    gate: &G,
) -> (Queue<S, Pair>, Result<Option<u64>, LoadFault>)
where
    H::Dir: Send,
    requires room { 16 ≤ length room.old }
    requires bytes { IsRecordLength 16 graph.now.bytes }
    requires length { HasLength (L.told library.old) graph.now.name.now graph.now.bytes }
    ensures loads { LoadsEdges (L.told library.old) (L.replied library.new) (wanted_of graph.now) queue result.0 result.1 }
    ensures kept { Keeps queue result.0 }
    ensures reads { ReadsFile L.told L.replied graph.now.name.now graph.now.bytes library.old library.new }
    ensures counts { CountsBy LoadCountsFrom (L.faults library.old) (L.faults library.new) result.1 }
{
    queue.known();
    match Session::begin(rt, alloc, queue, gate) {
        Ok(mut session) => {
            let context = Context { rt, alloc };
            let dealt = deal_edges(&context, library, graph, room, &mut session, gate);
            let (queue, ended) = session.end(rt, gate);
            (queue, first_answer(dealt, ended))
        }
        Err((queue, fault)) => (queue, Err(LoadFault::from(fault))),
    }
}
