//! A chain with short cuts, whose edges and notes do not fit into memory, and more lines than are gathered at once.
use crate::desk::{edge, run_job, small_job};
use crate::model::text_of;
use ppq_outside::{MemRack, MemSink};
use ppq_record::Pair;
use std::alloc::{AllocError, Global};
use std::process::Abort;
use std::test::Fail;

// An edge to each node from the one before it, but for the last node, and one from the half of the node before it.
fn chain(alloc: Global) -> Result<Vec<Pair>, AllocError> {
    let mut edges = Vec::new(alloc);
    for node in 1..120u64 {
        edges.push(edge(node - 1, node))?;
        edges.push(edge(node / 2, node + 1))?;
    }
    Ok(edges)
}

#[test]
fn a_chain_is_swept_over_blocks(rt: HostRuntime) -> Result<(), Fail> {
    let alloc = rt.alloc();
    let edges = chain(alloc)?;
    let mut out = MemSink::new(alloc, 4096)?;
    let swept = run_job(
        &rt,
        alloc,
        small_job(&edges, 121),
        &mut MemRack::new(),
        &mut MemRack::new(),
        &mut out,
    )?;
    assert!(rt; swept.answer.is_ok());
    assert!(rt; out.bytes().starts_with(b"0 0\n1 1\n2 2\n3 3\n"));
    assert!(rt; out.bytes().ends_with(b"118 118\n119 119\n120 60\n"));
    assert_eq!(rt; out.bytes(), text_of(alloc, &edges, 121)?.as_slice());
    assert!(rt; swept.edge_writes > 0 && swept.note_writes > 0);
    Ok(())
}

#[test]
fn more_lines_than_are_gathered_at_once_are_put_in_pieces(rt: HostRuntime) -> Result<(), Fail> {
    let alloc = rt.alloc();
    let edges = [edge(7, 1500), edge(1500, 1999)];
    let mut whole = MemSink::new(alloc, 100_000)?;
    let swept = run_job(
        &rt,
        alloc,
        small_job(&edges, 2000),
        &mut MemRack::new(),
        &mut MemRack::new(),
        &mut whole,
    )?;
    assert!(rt; swept.answer.is_ok());
    // 10 lines of 4 bytes, 90 of 5, 900 of 6 and 1000 of 7
    assert_eq!(rt; whole.bytes().len(), 12_890);
    assert!(rt; whole.bytes().ends_with(b"1998 0\n1999 2\n"));
    assert_eq!(rt; whole.bytes(), text_of(alloc, &edges, 2000)?.as_slice());
    // the third piece fails, of which 5 bytes are taken; a piece has more than 4,054 bytes
    let mut short = MemSink::failing(alloc, 100_000, vec![in alloc; (3, 5)]?)?;
    let stopped = run_job(
        &rt,
        alloc,
        small_job(&edges, 2000),
        &mut MemRack::new(),
        &mut MemRack::new(),
        &mut short,
    )?;
    assert!(rt; stopped.answer.is_err());
    assert!(rt; short.bytes().len() > 2 * 4054 && short.bytes().len() <= 2 * 4096 + 5);
    assert!(rt; whole.bytes().starts_with(short.bytes()));
    Ok(())
}
