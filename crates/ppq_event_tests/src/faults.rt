//! A call of a block or of the sink fails, or no block is free.
use crate::desk::{Job, forks, run_job, small};
use ppq_budget::Sizes;
use ppq_event::{QueueFault, SimFault};
use ppq_outside::{Host, MemRack, MemSink, OpenGate};
use ppq_record::Triple;
use ppq_testkit::triple;
use std::alloc::Global;
use std::process::Abort;
use std::test::Fail;

// An event of which there come twice as many as its word, less one.
fn forking(word: u64) -> [Triple; 1] {
    [triple(1, 2, word)]
}

// How a run ends that writes to this sink.
fn writes<H: Host + Abort>(
    rt: &H,
    alloc: Global,
    out: &mut MemSink,
) -> Result<Option<SimFault>, Fail>
where
    H::Dir: Send,
{
    let events = forking(4);
    let job = Job {
        sizes: small(),
        events: &events,
        until: 100,
        most: 100,
    };
    let mut roster = forks(alloc)?;
    let mut rack = MemRack::new();
    let ended = run_job(rt, alloc, job, &mut roster, &mut rack, out, &OpenGate)?;
    Ok(ended.err())
}

#[test]
fn a_sink_that_fails_stops_the_run_with_a_prefix(rt: HostRuntime) -> Result<(), Fail> {
    let alloc = rt.alloc();
    let mut whole = MemSink::new(alloc, 4096)?;
    assert_eq!(rt; writes(&rt, alloc, &mut whole)?, None);
    let mut short = MemSink::failing(alloc, 4096, vec![in alloc; (1, 10)]?)?;
    assert_eq!(rt; writes(&rt, alloc, &mut short)?, Some(SimFault::Write));
    assert!(rt; whole.bytes().starts_with(short.bytes()));
    assert_eq!(rt; short.bytes().len(), 10);
    Ok(())
}

// How a run ends on a device of so many blocks, of whose block 0 a call may fail.
fn ends<H: Host + Abort>(
    rt: &H,
    alloc: Global,
    blocks: u32,
    rack: MemRack,
) -> Result<Option<SimFault>, Fail>
where
    H::Dir: Send,
{
    let mut rack = rack;
    let events = forking(1024);
    let job = Job {
        sizes: Sizes::new(2, 2, 1, 172 + u64::from(blocks), blocks),
        events: &events,
        until: 100,
        most: 5000,
    };
    let mut out = MemSink::new(alloc, 100_000)?;
    let mut roster = forks(alloc)?;
    let ended = run_job(rt, alloc, job, &mut roster, &mut rack, &mut out, &OpenGate)?;
    Ok(ended.err())
}

#[test]
fn a_block_that_fails_and_a_device_without_a_free_one_stop_the_run(
    rt: HostRuntime,
) -> Result<(), Fail> {
    let alloc = rt.alloc();
    assert_eq!(rt; ends(&rt, alloc, 4000, MemRack::new())?, None);
    let failing = MemRack::failing(vec![in alloc; (0, 2)]?, Vec::new(alloc));
    assert_eq!(rt;
        ends(&rt, alloc, 4000, failing)?,
        Some(SimFault::Queue(QueueFault::Device { number: 0 }))
    );
    assert_eq!(rt;
        ends(&rt, alloc, 12, MemRack::new())?,
        Some(SimFault::Queue(QueueFault::NoFreeBlock))
    );
    Ok(())
}
