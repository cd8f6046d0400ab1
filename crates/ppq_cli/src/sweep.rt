//! The top call of a graph.
ghost use Rattle.std.specs.Prelude.{◌≤◌, ◌<◌, ◌^◌};
ghost use Rattle.ppq_files.specs.Lengths.{IsRecordLength};
ghost use Rattle.ppq_files.specs.Reading.{HasLength};
ghost use Rattle.ppq_words.specs.SweepReading.{as_sweep_reading};
ghost use Rattle.ppq_cli.specs.SweepOver.{SweepsOver};
ghost use Rattle.ppq_cli.specs.SweepWords.{SweepsWords};

use crate::context::Context;
use crate::device::{device_for, without_blocks};
use crate::lengths::end_of_length;
use crate::plan::half_plan_for;
use ppq_files::record_length;
use ppq_jobs::{End, Ended, Graph, run_graph};
use ppq_words::{
    Gate, Host, Library, Memory, Pair, Rack, Sink, SweepArguments, read_sweep_words,
    sweep_words_mean,
};

// Makes the device, with blocks for two queues of edges, and sweeps over a graph whose file has so many bytes, unless
// half of the budget is below the fixed part of one queue; the outcome then has twice that part in the unit of the
// budget. All blocks that were made come back.
fn sweep_over<H: Host, L: Library, K: Rack, O: Sink, G: Gate>(
    context: &Context<H, G>,
    arguments: &SweepArguments,
    bytes: u64,
    library: &mut L,
    rack: &mut K,
    out: &mut O,
) -> Ended<K::Slot>
where
    H::Dir: Send,
    K::Slot: Send + Sync,
    requires few { arguments.now.nodes ≤ 4_294_967_296 }
    requires bytes { IsRecordLength 16 bytes }
    requires length { HasLength (L.told library.old) arguments.now.edges.now bytes }
    ensures { SweepsOver L.Library K.Rack O.Sink K.Slot.shown (as_sweep_reading arguments.now) bytes library.old library.new rack.old rack.new out.old out.new result }
{
    let graph = Graph {
        name: arguments.edges,
        bytes,
        nodes: arguments.nodes,
    };
    let plan = half_plan_for::<Pair>(&arguments.given);
    match device_for::<Pair, H, K, G>(context, &plan, arguments.device, rack) {
        Ok(blocks) => run_graph(
            context.rt,
            context.alloc,
            &graph,
            plan.sizes,
            blocks,
            library,
            out,
            context.gate,
        ),
        Err(ended) => ended,
    }
}

/// Does all that the program does with a graph, with the outside handed in: reads the arguments, asks for the length
/// of the file of edges that they name, makes the device, and sweeps over the graph with two queues, one for the edges
/// and one for notes on their way. Each queue has half of the budget and half of the device.
///
/// After `Done` the sink took a line for each node, from node 0 on: its number, and its level, which is the greatest
/// number of edges on a path that ends at the node. After every other outcome it took a prefix of these lines. All blocks
/// that the rack made come back, each once. No file but that of the edges is read, and not past its length. Each
/// outcome comes only for its cause, and `Usage`, `NoScript`, `BadEdge` with 0 and `BudgetTooSmall` if and only if they
/// are due, in this order, unless an allocation or the library failed; these four make no block. A file that is not
/// refused, of edges alone, ends `Done` or `Memory`, unless the outcome names a fault, if there is room for the edges.
///
/// - `NoScript`: there is no such file of edges.
/// - `BadEdge`, with 0: its length is no multiple of 16 bytes, or above 68,719,476,736 bytes.
/// - `BadEdge`, with another number: the record with that number, counted from 1, is the first one of the file that is no
///   edge: its first number is not below its second, or its second is not below the number of nodes.
/// - `BudgetTooSmall`: half of the budget is below the fixed part of one queue; `need` is twice that part.
/// - `NoFreeBlock`: half of the device has fewer blocks than are enough for the edges, and these are above one heap.
/// - `FileChanged`, with line 0: the library is not visible to proofs, said a length of the file, and a read in front
///   of it returned nothing.
/// - `Memory`: an allocation failed, before the first output.
///
/// All other outcomes are those of [`run_words`](crate::run_words).
pub fn sweep_words<H: Host, L: Library, K: Rack, O: Sink, G: Gate>(
    context: &Context<H, G>,
    words: &[String],
    library: &mut L,
    rack: &mut K,
    out: &mut O,
) -> Ended<K::Slot>
where
    H::Dir: Send,
    K::Slot: Send + Sync,
    requires library { L.faults library.old < 2 ^ 63 }
    requires rack { K.faults rack.old < 2 ^ 63 }
    requires sink { O.faults out.old < 2 ^ 63 }
    ensures { SweepsWords L.Library K.Rack O.Sink K.Slot.shown words.now library.old library.new rack.old rack.new out.old out.new result }
{
    // So the number of nodes is known to be in its range.
    sweep_words_mean();
    let found = match read_sweep_words(context.alloc, words) {
        Ok(found) => found,
        Err(Memory) => return without_blocks(context.alloc, End::Memory),
    };
    let Some(arguments) = found else {
        return without_blocks(context.alloc, End::Usage);
    };
    let files = ppq_files::Context {
        rt: context.rt,
        alloc: context.alloc,
    };
    match record_length::<Pair, H, L>(&files, library, arguments.edges) {
        Ok(bytes) => sweep_over(context, &arguments, bytes, library, rack, out),
        Err(fault) => without_blocks(context.alloc, end_of_length(fault, End::BadEdge { at: 0 })),
    }
}
