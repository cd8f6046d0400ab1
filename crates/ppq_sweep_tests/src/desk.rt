//! A sweep over blocks in memory.
use ppq_budget::Sizes;
use ppq_outside::{Host, MemRack, MemSink, MemSlot, OpenGate, Slot};
use ppq_queue::Queue;
use ppq_record::Pair;
use ppq_sweep::{SweepFault, levels};
use ppq_testkit::{opened, pushed};
use std::alloc::Global;
use std::test::Fail;

// Two workers, two records a block, one block a heap, 200 blocks, and a budget without a buffer.
pub(crate) fn small() -> Option<Sizes> {
    Sizes::new(2, 2, 1, 372, 200)
}

// An edge.
pub(crate) fn edge(from: u64, to: u64) -> Pair {
    Pair {
        key: from,
        value: to,
    }
}

// The graph of a sweep, and the sizes of its two queues.
#[derive(Clone, Copy)]
pub(crate) struct Job<'a> {
    pub(crate) edges: &'a [Pair],
    pub(crate) nodes: u64,
    pub(crate) sizes: Option<Sizes>,
    pub(crate) note_sizes: Option<Sizes>,
}

// The graph of these edges, with small queues.
pub(crate) fn small_job(edges: &[Pair], nodes: u64) -> Job<'_> {
    Job {
        edges,
        nodes,
        sizes: small(),
        note_sizes: small(),
    }
}

// What a sweep returned, and how often blocks of both queues were written.
#[derive(Clone, Copy)]
pub(crate) struct Swept {
    pub(crate) answer: Result<(), SweepFault>,
    pub(crate) edge_writes: u64,
    pub(crate) note_writes: u64,
}

// How often these blocks were written.
fn writes_of(blocks: &[MemSlot]) -> u64 {
    let mut writes: u64 = 0;
    for block in blocks {
        writes = writes.saturating_add(block.writes());
    }
    writes
}

// Sweeps the graph of a job, whose queues are over these two devices.
pub(crate) fn run_job<H: Host>(
    rt: &H,
    alloc: Global,
    job: Job<'_>,
    rack: &mut MemRack,
    note_rack: &mut MemRack,
    out: &mut MemSink,
) -> Result<Swept, Fail>
where
    H::Dir: Send,
{
    let empty = opened(rt, alloc, rack, job.sizes)?;
    let mut edges = pushed(rt, empty, job.edges)?;
    let mut notes = opened(rt, alloc, note_rack, job.note_sizes)?;
    if notes.size() != 0 || job.nodes > 4_294_967_296 {
        return Err(Fail::from("no empty queue, or too many nodes"));
    }
    let answer = levels(rt, &mut edges, &mut notes, job.nodes, out, &OpenGate);
    let blocks: Vec<MemSlot> = edges.close();
    let note_blocks = notes.close();
    Ok(Swept {
        answer,
        edge_writes: writes_of(&blocks),
        note_writes: writes_of(&note_blocks),
    })
}
