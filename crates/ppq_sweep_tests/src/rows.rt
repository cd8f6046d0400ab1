//! Worked examples: two workers, two records a block, one block a heap.
use crate::desk::{edge, run_job, small_job};
use ppq_outside::{Host, MemRack, MemSink};
use ppq_record::Pair;
use std::alloc::Global;
use std::process::Abort;
use std::test::Fail;

// Whether the sweep of these edges is this text.
fn writes<H: Host + Abort>(
    rt: &H,
    alloc: Global,
    edges: &[Pair],
    nodes: u64,
    text: &str,
) -> Result<bool, Fail>
where
    H::Dir: Send,
{
    let mut out = MemSink::new(alloc, 4096)?;
    let swept = run_job(
        rt,
        alloc,
        small_job(edges, nodes),
        &mut MemRack::new(),
        &mut MemRack::new(),
        &mut out,
    )?;
    Ok(swept.answer.is_ok() && out.bytes() == text.as_bytes())
}

#[test]
fn levels_are_those_that_were_worked_out_by_hand(rt: HostRuntime) -> Result<(), Fail> {
    let alloc = rt.alloc();
    // an edge that stands twice
    let twice = [edge(0, 1), edge(0, 2), edge(1, 2), edge(0, 1)];
    assert!(rt; writes(&rt, alloc, &twice, 4, "0 0\n1 1\n2 2\n3 0\n")?);
    // no node; no edge
    assert!(rt; writes(&rt, alloc, &[], 0, "")?);
    assert!(rt; writes(&rt, alloc, &[], 3, "0 0\n1 0\n2 0\n")?);
    // a short way and a long one, pushed in the opposite order
    let ways = [
        edge(3, 4),
        edge(2, 3),
        edge(1, 2),
        edge(0, 1),
        edge(0, 3),
        edge(0, 4),
    ];
    assert!(rt; writes(&rt, alloc, &ways, 5, "0 0\n1 1\n2 2\n3 3\n4 4\n")?);
    // nodes without edges between, and two sources with different levels
    let apart = [edge(5, 6), edge(1, 6), edge(1, 5), edge(0, 5), edge(0, 1)];
    assert!(rt;
        writes(
            &rt,
            alloc,
            &apart,
            8,
            "0 0\n1 1\n2 0\n3 0\n4 0\n5 2\n6 3\n7 0\n"
        )?
    );
    Ok(())
}
