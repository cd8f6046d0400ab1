//! Sweeps over a graph.
ghost use Rattle.std.specs.Prelude.{◌≡◌, ◌≤◌, ◌+◌, ◌++◌, ◌⊎◌, ℕ, All, length, map, false};
ghost use Rattle.ppq_sweep.specs.ppq_outside.Told.{TakesAll, TakesPart, Rose, Remembers, RepliesOnly};
ghost use Rattle.ppq_sweep.specs.ppq_queue.Shown.{AllTell};
ghost use Rattle.ppq_sweep.specs.Levels.{sweep_text};
ghost use Rattle.ppq_engine.specs.ppq_array.Kept.{SameSlots, HasFailed};
ghost use Rattle.ppq_engine.specs.ppq_files.Lengths.{IsRecordLength};
ghost use Rattle.ppq_engine.specs.ppq_files.Reading.{HasLength, IsReadWithin, ReadsFile};
ghost use Rattle.ppq_engine.specs.Refusal.{HasNoRoom};
ghost use Rattle.ppq_engine.specs.Ends.{class_of, HasSurelyRun, budget_refusal, BeganOrRefused};
ghost use Rattle.ppq_engine.specs.declared.end.End.TheVariants.{Done, ReadFault, WriteFault, DeviceFault, NoFreeBlock, FileChanged, BadEdge};
ghost use Rattle.ppq_jobs.specs.Edges.{wanted_of, edge_count, OfEdges, FindsBad, FindsNone};
ghost use Rattle.ppq_jobs.specs.Ending.{IsOpened, HasShrunk};
ghost use Rattle.ppq_jobs.specs.Sweeping.{AreNewHalves, EndsGraph};

use crate::Graph;
use crate::ends::{swept, unloaded};
use crate::halves::{Halves, split, together};
use crate::loading::{WIDTH, load_edges};
use ppq_engine::{End, Ended, Library, unopened};
use ppq_sweep::{Gate, Host, Pair, Queue, Sink, Sizes, Slot, levels};
use std::alloc::Global;

// Loads the edges of a graph into an empty queue, and sweeps over it with another for the notes.
fn sweep_opened<H: Host, S: Slot + Send + Sync, L: Library, O: Sink, G: Gate>(
    rt: &H,
    alloc: Global,
    graph: &Graph<'_>,
    piece: &mut [u8],
    edges: Queue<S, Pair>,
    notes: Queue<S, Pair>,
    library: &mut L,
    out: &mut O,
    gate: &G,
) -> (Queue<S, Pair>, Queue<S, Pair>, End)
where
    H::Dir: Send,
    requires piece { 16 ≤ length piece.old }
    requires edges { IsOpened edges }
    requires notes { IsOpened notes }
    requires sizes { notes.sizes ≡ edges.sizes }
    requires few { graph.now.nodes ≤ 4_294_967_296 }
    requires bytes { IsRecordLength 16 graph.now.bytes }
    requires length { HasLength (L.told library.old) graph.now.name.now graph.now.bytes }
    ensures ends { EndsGraph (L.told library.old) (L.replied library.new) (wanted_of graph.now) (edges.slots ++ notes.slots) (result.0.slots ++ result.1.slots) edges.sizes (O.told out.old) (O.told out.new) (O.faults out.old) (O.faults out.new) (L.faults library.old) (L.faults library.new) result.2 }
    ensures edges_slots { SameSlots edges.slots result.0.slots }
    ensures notes_slots { SameSlots notes.slots result.1.slots }
    ensures reads { ReadsFile L.told L.replied graph.now.name.now graph.now.bytes library.old library.new }
    ensures later { O.faults out.old ≤ O.faults out.new }
    ensures library_later { L.faults library.old ≤ L.faults library.new }
{
    edges.known();
    // So the count of the sink is known to be one of its type.
    let _faults = out.faults();
    let (edges, loaded) = load_edges(rt, alloc, library, graph, piece, edges, gate);
    let bad = match loaded {
        Ok(bad) => bad,
        Err(fault) => return (edges, notes, unloaded(fault, graph.bytes)),
    };
    if let Some(at) = bad {
        return (edges, notes, End::BadEdge { at });
    }
    let mut edges = edges;
    let mut notes = notes;
    match levels(rt, &mut edges, &mut notes, graph.nodes, out, gate) {
        Ok(()) => (edges, notes, End::Done),
        Err(fault) => (edges, notes, swept(fault)),
    }
}

/// Prints the level of each node of a graph, on two queues of these sizes. The first half of the blocks is for the
/// edges and the second for the notes, and all come back. The edges of the file are added by all workers, each piece
/// of the file once its records were looked at; then `levels` of `ppq_sweep` sweeps over the nodes. The memory
/// for a piece of the file and for lists of blocks is allocated before the queues are opened.
///
/// `Done`: the sink took the lines of all nodes, and no call of a block failed. `WriteFault`: the sink failed; it took a
/// prefix of them. `DeviceFault`: the block with that number failed; the sink took a prefix of the lines.
/// `NoFreeBlock`: a run of records found no free block, which comes only if half of the device has fewer blocks than
/// the edges want, and these are more than one heap holds; no call of a block failed. With any other end nothing was written.
/// `BadEdge`: the record with this number, counted from 1, is the first that is no edge. `ReadFault`: the library failed.
/// `FileChanged`, on line 0: the file ended at `got`, before the length `said` of the graph, and the library is not visible
/// to proofs. `BudgetTooSmall` comes if and only if the budget of one queue is below its fixed part, unless an allocation
/// failed. `Memory`: an allocation failed. No other end comes.
///
/// What is said of the output holds if the contents of the blocks and of the library are visible to proofs. When
/// each end comes, and which blocks come back, is said of all blocks and libraries.
pub fn run_graph<H: Host, S: Slot + Send + Sync, L: Library, O: Sink, G: Gate>(
    rt: &H,
    alloc: Global,
    graph: &Graph<'_>,
    sizes: Sizes,
    slots: Vec<S>,
    library: &mut L,
    out: &mut O,
    gate: &G,
) -> Ended<S>
where
    H::Dir: Send,
    requires slots { AreNewHalves sizes 16 (map S.shown slots.items) }
    requires few { graph.now.nodes ≤ 4_294_967_296 }
    requires bytes { IsRecordLength 16 graph.now.bytes }
    requires length { HasLength (L.told library.old) graph.now.name.now graph.now.bytes }

    // What is written, if slots and library tell; and nothing unless the sweep was begun.
    ensures done { result.end ≡ Done → AllTell (map S.shown slots.items) → OfEdges (L.told library.old) (wanted_of graph.now) (λ edges. TakesAll (O.told out.old) (O.told out.new) (sweep_text edges graph.now.nodes)) }
    ensures part { AllTell (map S.shown slots.items) → OfEdges (L.told library.old) (wanted_of graph.now) (λ edges. TakesPart (O.told out.old) (O.told out.new) (sweep_text edges graph.now.nodes)) }
    ensures nothing { HasSurelyRun (class_of result.end) ⊎ (O.told out.new ≡ O.told out.old) }

    // When each end comes.
    ensures answer { BeganOrRefused (budget_refusal sizes) result.end ⊎ ((at : ℕ) × (result.end ≡ BadEdge at)) }
    ensures bad { (at : ℕ) → result.end ≡ BadEdge at → FindsBad (L.told library.old) (L.replied library.new) (wanted_of graph.now) at }
    ensures good { (result.end ≡ Done) ⊎ (result.end ≡ WriteFault) → FindsNone (L.told library.old) (L.replied library.new) (wanted_of graph.now) }
    ensures read { result.end ≡ ReadFault → Rose (L.faults library.old) (L.faults library.new) }
    ensures write { result.end ≡ WriteFault → Rose (O.faults out.old) (O.faults out.new) }
    ensures failed { (number : ℕ) → result.end ≡ DeviceFault number → HasFailed number (map S.shown result.blocks.items) }
    ensures full { result.end ≡ NoFreeBlock → HasNoRoom sizes false (edge_count (wanted_of graph.now)) }
    ensures changed { (line said got : ℕ) → result.end ≡ FileChanged line said got → HasShrunk (L.told library.old) (L.replied library.new) graph.now.name.now graph.now.bytes line said got }
    ensures later { O.faults out.old ≤ O.faults out.new }
    ensures stays { ¬ (result.end ≡ WriteFault) → O.faults out.new ≡ O.faults out.old }

    // All blocks come back, each once, and no count of a block falls; after `Done` and `NoFreeBlock` no call of a block
    // failed.
    ensures blocks { SameSlots (map S.shown slots.items) (map S.shown result.blocks.items) }
    ensures unfailed { (result.end ≡ Done) ⊎ (result.end ≡ NoFreeBlock) → All (λ s. s.faults ≡ 0) (map S.shown result.blocks.items) }

    // No file changes, and the library's count rises only with `ReadFault`. It is asked for no length, and for no byte of
    // another file or past the graph's length.
    ensures files { L.told library.new ≡ L.told library.old }
    ensures remembers { Remembers (L.replied library.old) (L.replied library.new) }
    ensures asks { RepliesOnly (L.replied library.old) (L.replied library.new) (IsReadWithin graph.now.name.now graph.now.bytes) }
    ensures library_later { L.faults library.old ≤ L.faults library.new }
    ensures library_stays { ¬ (result.end ≡ ReadFault) → L.faults library.new ≡ L.faults library.old }
{
    let half = sizes.blocks();
    let Ok(piece) = vec![in alloc; 0u8; sizes.batch() as usize * WIDTH] else {
        return Ended {
            end: End::Memory,
            blocks: slots,
        };
    };
    let Ok(halves) = Halves::new(alloc, half) else {
        return Ended {
            end: End::Memory,
            blocks: slots,
        };
    };
    let Halves { second, all } = halves;
    let (first, second) = split(slots, second, half as usize);
    let edges: Queue<S, Pair> = match Queue::open(alloc, sizes, first) {
        Ok(edges) => edges,
        Err((first, fault)) => {
            return Ended {
                end: unopened(fault),
                blocks: together(all, first, second),
            };
        }
    };
    let notes: Queue<S, Pair> = match Queue::open(alloc, sizes, second) {
        Ok(notes) => notes,
        Err((second, fault)) => {
            return Ended {
                end: unopened(fault),
                blocks: together(all, edges.close(), second),
            };
        }
    };
    let mut piece = piece;
    let (edges, notes, end) = sweep_opened(
        rt, alloc, graph, &mut piece, edges, notes, library, out, gate,
    );
    Ended {
        end,
        blocks: together(all, edges.close(), notes.close()),
    }
}
