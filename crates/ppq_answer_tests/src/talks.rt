//! Talks over blocks, a source and a sink in memory, told as small plain values.

use ppq_answer::{Answered, Incoming, Outcome, serve};
use ppq_budget::Sizes;
use ppq_outside::{Host, MemRack, MemSink, MemSlot, MemSource, OpenGate, Slot};
use ppq_record::{Fields, Pair};
use ppq_testkit::blocks_of;
use std::alloc::Global;
use std::process::Abort;

// How much the sink of a talk has room for, in bytes.
const ROOM: usize = 262_144;

// The number of a call that is never made.
pub(crate) const NEVER: u64 = u64::MAX;

// How the bytes of a talk come, and what fails.
#[derive(Clone, Copy)]
pub(crate) struct Plan {
    // How many bytes a call of the source gives at the most.
    pub most: usize,
    // The number of the source's call that fails.
    pub read: u64,
    // The number of the put that fails, and how many bytes of it are taken.
    pub put: (u64, usize),
    // The number of the call of block 0 that fails.
    pub block: u64,
}

impl Plan {
    // Nothing fails, and so many bytes come a call.
    pub(crate) fn plain(most: usize) -> Plan {
        Plan {
            most,
            read: NEVER,
            put: (NEVER, 0),
            block: NEVER,
        }
    }
}

// How a talk ended, and what it left.
#[derive(Drop)]
pub(crate) struct Told {
    pub outcome: Outcome,
    // What was written.
    pub wrote: Vec<u8>,
    // How many blocks were made, and how many came back.
    pub made: usize,
    pub blocks: usize,
    // How many writes they had in all.
    pub writes: u64,
}

// How many writes these blocks had in all.
fn writes_of(blocks: &[MemSlot]) -> u64 {
    let mut writes = 0u64;
    for slot in blocks {
        writes = writes.saturating_add(slot.writes());
    }
    writes
}

// A talk about records of the type `R`, whose requests are these bytes, on a queue of these sizes. The first frame of all, which
// names the records, is not among them.
pub(crate) fn told_of<H: Host + Abort, R: Fields + Send + Sync>(
    rt: &H,
    alloc: Global,
    input: &[u8],
    sizes: Option<Sizes>,
    plan: Plan,
) -> Told
where
    H::Dir: Send,
{
    let sizes = sizes.expect(rt, "a number is out of range");
    let calls = vec![in alloc; (0, plan.block)].expect(rt, "no memory");
    let made = sizes.blocks() as usize;
    let mut rack = MemRack::failing(calls, Vec::new(alloc));
    let slots = match blocks_of::<H, R>(rt, alloc, &mut rack, sizes) {
        Ok(slots) => slots,
        Err(_) => panic!(rt; "no block"),
    };
    let reads = vec![in alloc; plan.read].expect(rt, "no memory");
    let bytes = input.to_vec(alloc).expect(rt, "no memory");
    let mut source = MemSource::new(bytes, plan.most, reads);
    let puts = vec![in alloc; plan.put].expect(rt, "no memory");
    let mut sink = MemSink::failing(alloc, ROOM, puts).expect(rt, "no memory");
    let mut incoming = Incoming::new(alloc).expect(rt, "no memory");
    let Answered { outcome, blocks } = serve::<H, MemSlot, R, MemSource, MemSink, OpenGate>(
        rt,
        alloc,
        sizes,
        slots,
        &mut incoming,
        &mut source,
        &mut sink,
        &OpenGate,
    );
    Told {
        outcome,
        wrote: sink.bytes().to_vec(alloc).expect(rt, "no memory"),
        made,
        blocks: blocks.len(),
        writes: writes_of(&blocks),
    }
}

// A talk about pairs ends so, and writes this; and all blocks come back.
pub(crate) fn ends<H: Host + Abort>(
    rt: &H,
    alloc: Global,
    input: &[u8],
    sizes: Option<Sizes>,
    plan: Plan,
    outcome: Outcome,
    wants: &[u8],
) -> u64
where
    H::Dir: Send,
{
    let told = told_of::<H, Pair>(rt, alloc, input, sizes, plan);
    if told.outcome != outcome || told.wrote.as_slice() != wants {
        panic!(rt; "ended with {:?}, and wrote {:?}", told.outcome, told.wrote);
    }
    assert!(rt; told.blocks == told.made);
    told.writes
}
