//! Random acyclic graphs of few nodes, against the rule written a second time; with queues of tiny sizes.
use crate::desk::{Job, edge, run_job};
use crate::model::text_of;
use ppq_budget::Sizes;
use ppq_outside::{Host, MemRack, MemSink};
use ppq_record::Pair;
use ppq_testkit::draw;
use std::alloc::{AllocError, Global};
use std::process::Abort;
use std::test::Fail;

// So many edges between so many nodes, at least two, some of them more than once.
fn drawn(alloc: Global, seed: &mut u64, nodes: u64, count: u64) -> Result<Vec<Pair>, AllocError> {
    let mut edges = Vec::new(alloc);
    for _ in 0..count {
        let (one, other) = (draw(seed, nodes), draw(seed, nodes));
        if one != other {
            edges.push(edge(one.min(other), one.max(other)))?;
        }
    }
    Ok(edges)
}

// Whether the sweep of these edges is the model's, with so many workers.
fn agrees<H: Host + Abort>(
    rt: &H,
    alloc: Global,
    workers: u32,
    edges: &[Pair],
    nodes: u64,
) -> Result<bool, Fail>
where
    H::Dir: Send,
{
    let sizes = Sizes::new(workers, 2, 1, 3000, 400);
    let job = Job {
        edges,
        nodes,
        sizes,
        note_sizes: sizes,
    };
    let mut out = MemSink::new(alloc, 4096)?;
    let swept = run_job(
        rt,
        alloc,
        job,
        &mut MemRack::new(),
        &mut MemRack::new(),
        &mut out,
    )?;
    Ok(swept.answer.is_ok() && out.bytes() == text_of(alloc, edges, nodes)?.as_slice())
}

#[test]
fn random_graphs_are_swept_as_the_rule_says(rt: HostRuntime) -> Result<(), Fail> {
    let alloc = rt.alloc();
    let mut seed = 11;
    for round in 0..16u64 {
        let nodes = 1 + draw(&mut seed, 14);
        let edges = drawn(alloc, &mut seed, nodes, round * 4)?;
        for workers in [1, 2, 5] {
            assert!(rt; agrees(&rt, alloc, workers, &edges, nodes)?);
        }
    }
    Ok(())
}
