//! A call of a block or of the sink fails, no block is free, or blocks return other bytes than were written.
use crate::desk::{Job, edge, run_job, small, small_job};
use ppq_budget::Sizes;
use ppq_outside::{Host, MemRack, MemSink};
use ppq_record::Pair;
use ppq_sweep::{QueueFault, SweepFault};
use std::alloc::{AllocError, Global};
use std::process::Abort;
use std::test::Fail;

// Edges from the first node to so many others.
fn star(alloc: Global, targets: u64) -> Result<Vec<Pair>, AllocError> {
    let mut edges = Vec::new(alloc);
    for target in 0..targets {
        edges.push(edge(0, target.saturating_add(1)))?;
    }
    Ok(edges)
}

#[test]
fn a_sink_that_fails_stops_the_sweep_with_a_prefix(rt: HostRuntime) -> Result<(), Fail> {
    let alloc = rt.alloc();
    let edges = [edge(0, 2), edge(1, 2), edge(2, 3)];
    let mut out = MemSink::failing(alloc, 4096, vec![in alloc; (1, 10)]?)?;
    let swept = run_job(
        &rt,
        alloc,
        small_job(&edges, 4),
        &mut MemRack::new(),
        &mut MemRack::new(),
        &mut out,
    )?;
    assert_eq!(rt; swept.answer, Err(SweepFault::Write));
    assert_eq!(rt; out.bytes(), b"0 0\n1 0\n2 ".as_slice());
    Ok(())
}

// Why the sweep of a star of 200 edges stops, where the notes have a device of so many blocks, and these fail as planned;
// and what the sink took.
fn stops<H: Host + Abort>(
    rt: &H,
    alloc: Global,
    blocks: u32,
    rack: MemRack,
    note_rack: MemRack,
    out: &mut MemSink,
) -> Result<Option<SweepFault>, Fail>
where
    H::Dir: Send,
{
    let (mut rack, mut note_rack) = (rack, note_rack);
    let edges = star(alloc, 200)?;
    let job = Job {
        edges: &edges,
        nodes: 201,
        sizes: small(),
        note_sizes: Sizes::new(2, 2, 1, 172 + u64::from(blocks), blocks),
    };
    let swept = run_job(rt, alloc, job, &mut rack, &mut note_rack, out)?;
    Ok(swept.answer.err())
}

#[test]
fn a_device_without_a_free_block_stops_the_sweep(rt: HostRuntime) -> Result<(), Fail> {
    let alloc = rt.alloc();
    let mut out = MemSink::new(alloc, 4096)?;
    assert_eq!(rt;
        stops(&rt, alloc, 200, MemRack::new(), MemRack::new(), &mut out)?,
        None
    );
    assert!(rt; out.bytes().starts_with(b"0 0\n1 1\n2 1\n"));
    assert!(rt; out.bytes().ends_with(b"199 1\n200 1\n"));
    // the first node's notes do not fit; its line was gathered before it told them
    let mut short = MemSink::new(alloc, 4096)?;
    assert_eq!(rt;
        stops(&rt, alloc, 12, MemRack::new(), MemRack::new(), &mut short)?,
        Some(SweepFault::Queue(QueueFault::NoFreeBlock))
    );
    assert_eq!(rt; short.bytes(), b"0 0\n".as_slice());
    Ok(())
}

#[test]
fn a_block_that_fails_stops_the_sweep(rt: HostRuntime) -> Result<(), Fail> {
    let alloc = rt.alloc();
    let failing = MemRack::failing(vec![in alloc; (0, 1)]?, Vec::new(alloc));
    let mut out = MemSink::new(alloc, 4096)?;
    assert_eq!(rt;
        stops(&rt, alloc, 200, MemRack::new(), failing, &mut out)?,
        Some(SweepFault::Queue(QueueFault::Device { number: 0 }))
    );
    assert_eq!(rt; out.bytes(), b"0 0\n".as_slice());
    Ok(())
}

#[test]
fn blocks_that_forge_do_not_keep_a_sweep_from_ending(rt: HostRuntime) -> Result<(), Fail> {
    let alloc = rt.alloc();
    for seed in 1..4u64 {
        let mut out = MemSink::new(alloc, 100_000)?;
        let stopped = stops(
            &rt,
            alloc,
            200,
            MemRack::forging(seed),
            MemRack::forging(seed.wrapping_mul(7)),
            &mut out,
        )?;
        assert!(rt; stopped.is_none());
        assert!(rt; out.bytes().starts_with(b"0 "));
    }
    Ok(())
}
