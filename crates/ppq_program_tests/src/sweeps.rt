//! Whole graphs over memory: what `ppq sweep` writes, and how it ends.
ghost use Rattle.std.specs.Prelude.{◌≡◌, ◌<◌, ◌^◌, max};

use crate::memory::{run, sink_in};
use ppq_cli::{report, status};
use ppq_outside::{Host, Library, MemLibrary, MemRack, MemSlot, Rack, Slot};
use std::alloc::Global;
use std::process::Abort;

// Two queues, each of two workers, two records a block, a heap of one block, 200 blocks and just the fixed part of the
// budget.
const SIZES: &str = "--device d --blocks 400 --workers 2 --block 2 --heap 1 --memory 744";

// A node, and the one that an edge leads to from it.
type Edge = (u64, u64);

// What the program does: its status, what it writes and what it reports.
type Outcome<'a> = (u8, &'a [u8], &'a [u8]);

// The bytes of a record file.
fn bytes_of(rt: &impl Abort, alloc: Global, edges: &[Edge]) -> Vec<u8> {
    let mut bytes = Vec::new(alloc);
    for edge in edges {
        for number in [edge.0, edge.1] {
            bytes
                .extend_from_slice(&number.to_be_bytes())
                .expect(rt, "memory");
        }
    }
    bytes
}

// A library with the record file `g` of these bytes.
fn library_of(rt: &impl Abort, alloc: Global, bytes: &[u8]) -> MemLibrary
    ensures { ⟦<MemLibrary as Library>⟧.faults result ≡ 0 }
{
    let mut library = MemLibrary::new(alloc);
    library.add(alloc, "g", bytes).expect(rt, "memory");
    library
}

// Asserts that these are the blocks with the numbers from 0 on, each once, and so many.
fn are_first(rt: &impl Abort, alloc: Global, blocks: &[MemSlot], count: usize, line: &str) {
    let mut seen = vec![in alloc; false; count].expect(rt, "memory");
    for block in blocks {
        if let Some(is_seen) = seen.get_mut(block.number() as usize) {
            *is_seen = true;
        }
    }
    assert_eq!(rt; blocks.len(), count, "{line}");
    assert!(rt; !seen.as_slice().contains(&false), "{line}");
}

// Asserts what the program does for a line of words over a library and a device, and that the blocks that were made
// come back. Returns how many.
fn does_over<H: Host + Abort>(
    rt: &H,
    alloc: Global,
    line: &str,
    library: &mut MemLibrary,
    rack: &mut MemRack,
    outcome: Outcome,
) -> usize
where
    H::Dir: Send,
    requires library { ⟦<MemLibrary as Library>⟧.faults library.old < 2 ^ 63 }
    requires rack { ⟦<MemRack as Rack>⟧.faults rack.old < 2 ^ 63 }
{
    let mut sink = sink_in(rt, alloc);
    let ended = run(rt, alloc, line, library, rack, &mut sink);
    let mut errors = sink_in(rt, alloc);
    report(rt, &ended.end, &mut errors).expect(rt, "the report was not taken");
    assert_eq!(rt; status(&ended.end), outcome.0, "{line}");
    assert_eq!(rt; sink.bytes(), outcome.1, "{line}");
    assert_eq!(rt; errors.bytes(), outcome.2, "{line}");
    are_first(rt, alloc, &ended.blocks, rack.made().len(), line);
    ended.blocks.len()
}

// Asserts what the program does for a line of words and a record file `g`, over an outside that does not fail. Returns
// how many blocks were made.
fn does<H: Host + Abort>(rt: &H, alloc: Global, line: &str, bytes: &[u8], outcome: Outcome) -> usize
where
    H::Dir: Send,
{
    let mut library = library_of(rt, alloc, bytes);
    does_over(rt, alloc, line, &mut library, &mut MemRack::new(), outcome)
}

// Graphs, how many nodes there are, and what the program does.
const GRAPHS: &[(&[Edge], u64, Outcome<'static>)] = &[
    (
        &[(0, 1), (0, 2), (1, 2), (0, 1)],
        4,
        (0, b"0 0\n1 1\n2 2\n3 0\n", b""),
    ),
    // no edge, no node, and one node
    (&[], 0, (0, b"", b"")),
    (&[], 1, (0, b"0 0\n", b"")),
    // an edge to its own node, downwards, to no node, and to the first one that is none
    (&[(0, 1), (2, 2)], 4, (14, b"", b"ppq: edge 2 is bad\n")),
    (
        &[(0, 1), (1, 3), (3, 1)],
        4,
        (14, b"", b"ppq: edge 3 is bad\n"),
    ),
    (
        &[(0, 18446744073709551615), (2, 2)],
        4,
        (14, b"", b"ppq: edge 1 is bad\n"),
    ),
    (&[(3, 4)], 4, (14, b"", b"ppq: edge 1 is bad\n")),
    (&[(0, 1)], 0, (14, b"", b"ppq: edge 1 is bad\n")),
    // the greatest node that there can be, and one more
    (
        &[(0, 4294967295), (4294967295, 4294967296)],
        4294967296,
        (14, b"", b"ppq: edge 2 is bad\n"),
    ),
];

#[test]
fn a_graph_writes_the_level_of_each_node_or_its_first_bad_edge_is_named(rt: HostRuntime) {
    let alloc = rt.alloc();
    for (edges, nodes, outcome) in GRAPHS {
        let bytes = bytes_of(&rt, alloc, edges);
        let line = format!(in alloc; "sweep g {SIZES} --nodes {nodes}");
        let line = line.expect(&rt, "memory");
        let made = does(&rt, alloc, line.as_str(), &bytes, *outcome);
        assert_eq!(rt; made, 400, "{line}");
    }
}

// Lines of words, how many blocks are made, and what the program does with two edges `0 1`.
const SIZED: &[(&str, usize)] = &[
    // an odd budget, and an odd number of blocks
    (
        "sweep g --device d --blocks 401 --workers 2 --block 2 --heap 1 --memory 745 --nodes 2",
        400,
    ),
    // no block, also where there is one; what one heap holds needs none
    (
        "sweep g --device d --blocks 0 --workers 2 --block 2 --heap 1 --memory 344 --nodes 2",
        0,
    ),
    (
        "sweep g --device d --blocks 1 --workers 2 --block 2 --heap 1 --memory 344 --nodes 2",
        0,
    ),
    // the budget in bytes; options in another order
    (
        "sweep --nodes=2 --memory-bytes 11904 --heap 1 g --block 2 --workers 2 --blocks 400 --device d",
        400,
    ),
];

#[test]
fn each_queue_has_half_of_the_blocks_and_half_of_the_budget(rt: HostRuntime) {
    let alloc = rt.alloc();
    let bytes = bytes_of(&rt, alloc, &[(0, 1), (0, 1)]);
    for (line, blocks) in SIZED {
        let made = does(&rt, alloc, line, &bytes, (0, b"0 0\n1 1\n", b""));
        assert_eq!(rt; made, *blocks, "{line}");
    }
}

// What the program reports if it cannot read its arguments.
const USAGE: &[u8] =
    b"ppq: usage: ppq run SCRIPT --device FILE --blocks D --workers P --block B --heap H (--memory M | --memory-bytes N) [--form text|bytes]\n";

// Lines of words, how many bytes of zeros the record file `g` has, the status and the report.
const REFUSED: &[(&str, usize, u8, &[u8])] = &[
    // no reading
    ("sweep", 32, 2, USAGE),
    (
        "sweep g --device d --blocks 400 --workers 2 --block 2 --heap 1 --memory 744",
        32,
        2,
        USAGE,
    ),
    (
        "sweep g --device d --blocks 400 --workers 2 --block 2 --heap 1 --memory 744 --nodes 4 --nodes 4",
        32,
        2,
        USAGE,
    ),
    (
        "sweep g --device d --blocks 400 --workers 2 --block 2 --heap 1 --memory 744 --nodes 4294967297",
        32,
        2,
        USAGE,
    ),
    (
        "sweep g --device d --blocks 400 --workers 2 --block 2 --heap 1 --memory 744 --nodes 4 --form text",
        32,
        2,
        USAGE,
    ),
    (
        "sweep g --device d --blocks 400 --workers 2 --block 2 --heap 1 --memory 744 --nodes 4 --until 9",
        32,
        2,
        USAGE,
    ),
    // no such file, also where the budget is too small
    (
        "sweep h --device d --blocks 400 --workers 2 --block 2 --heap 1 --memory 1 --nodes 4",
        32,
        11,
        b"ppq: no such script\n",
    ),
    // a part of an edge, also where the budget is too small
    (
        "sweep g --device d --blocks 400 --workers 2 --block 2 --heap 1 --memory 744 --nodes 4",
        15,
        14,
        b"ppq: edge 0 is bad\n",
    ),
    (
        "sweep g --device d --blocks 400 --workers 2 --block 2 --heap 1 --memory 1 --nodes 4",
        33,
        14,
        b"ppq: edge 0 is bad\n",
    ),
    // half of the budget is below the fixed part of one queue, also where the first edge is bad
    (
        "sweep g --device d --blocks 400 --workers 2 --block 2 --heap 1 --memory 743 --nodes 4",
        32,
        7,
        b"ppq: memory too small, need 744\n",
    ),
    (
        "sweep g --device d --blocks 400 --workers 2 --block 2 --heap 1 --memory-bytes 11903 --nodes 4",
        32,
        7,
        b"ppq: memory too small, need 11904\n",
    ),
];

#[test]
fn a_graph_that_is_refused_writes_nothing_and_makes_no_block(rt: HostRuntime) {
    let alloc = rt.alloc();
    for (line, zeros, ends, says) in REFUSED {
        let bytes = vec![in alloc; 0u8; *zeros].expect(&rt, "memory");
        let made = does(&rt, alloc, line, &bytes, (*ends, b"", says));
        assert_eq!(rt; made, 0, "{line}");
    }
}

// So many edges, each from a node of its own to the last node; but the one at a place is another one.
fn star_with(rt: &impl Abort, alloc: Global, length: u64, place: u64, other: Edge) -> Vec<Edge> {
    let mut edges = Vec::new(alloc);
    for at in 0..length {
        let edge = if at == place { other } else { (at, length) };
        edges.push(edge).expect(rt, "memory");
    }
    edges
}

// Asserts that this edge is found to be bad at each place of a short file, by so many workers.
fn is_bad_anywhere<H: Host + Abort>(rt: &H, alloc: Global, workers: u32, bad: Edge)
where
    H::Dir: Send,
{
    let line = format!(in alloc;
        "sweep g --device d --blocks 400 --workers {workers} --block 2 --heap 1 --memory 884 --nodes 21"
    );
    let line = line.expect(rt, "memory");
    for place in 0..20u64 {
        let bytes = bytes_of(rt, alloc, &star_with(rt, alloc, 20, place, bad));
        let number = place.saturating_add(1);
        let says = format!(in alloc; "ppq: edge {number} is bad\n").expect(rt, "memory");
        does(rt, alloc, line.as_str(), &bytes, (14, b"", says.as_bytes()));
    }
}

#[test]
fn a_bad_edge_is_named_at_each_place_of_a_file(rt: HostRuntime) {
    for workers in [1, 2, 4, 7] {
        is_bad_anywhere(&rt, rt.alloc(), workers, (5, 5));
    }
    for bad in [(6, 5), (0, 21), (30, 40), (18446744073709551615, 0)] {
        is_bad_anywhere(&rt, rt.alloc(), 2, bad);
    }
}

// The next of generated numbers, those of Knuth's MMIX; its upper half below a bound.
fn drawn(seed: &mut u64, below: u64) -> u64
    ensures { result < max below 1 }
{
    let next = seed
        .wrapping_mul(6364136223846793005)
        .wrapping_add(1442695040888963407);
    *seed = next;
    (next >> 32) % below.max(1)
}

// Lifts the targets of all edges from a node above that node's level.
fn lift(levels: &mut [u64], edges: &[Edge], node: u64) {
    let level = levels.get(node as usize).copied().unwrap_or(0);
    for edge in edges {
        if edge.0 == node {
            if let Some(target) = levels.get_mut(edge.1 as usize) {
                *target = (*target).max(level.saturating_add(1));
            }
        }
    }
}

// The lines of so many nodes. A node's level is settled when all lesser ones have lifted their targets.
fn text_of(rt: &impl Abort, alloc: Global, edges: &[Edge], nodes: u64) -> String {
    let mut levels = vec![in alloc; 0u64; nodes as usize].expect(rt, "memory");
    for node in 0..nodes {
        lift(&mut levels, edges, node);
    }
    let mut text = "".to_string(alloc).expect(rt, "memory");
    for (node, level) in levels.iter().enumerate() {
        let line = format!(in alloc; "{node} {level}\n").expect(rt, "memory");
        text.push_str(line.as_str()).expect(rt, "memory");
    }
    text
}

// Asserts that so many workers write the lines of a graph of up to a thousand edges.
fn writes_levels<H: Host + Abort>(rt: &H, alloc: Global, workers: u32, edges: &[Edge], nodes: u64)
where
    H::Dir: Send,
{
    let text = text_of(rt, alloc, edges, nodes);
    let bytes = bytes_of(rt, alloc, edges);
    let line = format!(in alloc;
        "sweep g --device d --blocks 2400 --workers {workers} --block 2 --heap 1 --memory 3000 --nodes {nodes}"
    );
    let line = line.expect(rt, "memory");
    does(rt, alloc, line.as_str(), &bytes, (0, text.as_bytes(), b""));
}

// So many edges between so many nodes, some of them more than once, in no order.
fn random(rt: &impl Abort, alloc: Global, seed: &mut u64, count: u64, nodes: u64) -> Vec<Edge> {
    let mut edges = Vec::new(alloc);
    for _ in 0..count {
        let (one, other) = (drawn(seed, nodes), drawn(seed, nodes));
        if one != other {
            let edge = (one.min(other), one.max(other));
            edges.push(edge).expect(rt, "memory");
        }
    }
    edges
}

#[test]
fn random_graphs_have_the_levels_of_the_rule_by_every_number_of_workers(rt: HostRuntime) {
    let alloc = rt.alloc();
    let mut seed = 5;
    for round in 0..8u64 {
        let nodes = 2 + drawn(&mut seed, 30);
        let edges = random(&rt, alloc, &mut seed, 12 * round, nodes);
        for workers in [1, 2, 4, 7] {
            writes_levels(&rt, alloc, workers, &edges, nodes);
        }
    }
}

// A graph of a kind, by its number: a chain from its end, a star from its middle outwards, and one inwards, both with
// nodes that have no edge, and one edge a thousand times.
fn graph(rt: &impl Abort, alloc: Global, kind: u32) -> Vec<Edge> {
    let mut edges = Vec::new(alloc);
    let count = if kind == 3 { 1_000 } else { 300 };
    for i in 0..count {
        let edge: Edge = match kind {
            0 => (299u64.saturating_sub(i), 300u64.saturating_sub(i)),
            1 => (7, 310u64.saturating_sub(i)),
            2 => (i, 310),
            _ => (3, 5),
        };
        edges.push(edge).expect(rt, "memory");
    }
    edges
}

#[test]
fn chains_stars_and_an_edge_a_thousand_times_have_the_levels_of_the_rule(rt: HostRuntime) {
    let alloc = rt.alloc();
    for kind in 0..4u32 {
        let edges = graph(&rt, alloc, kind);
        for workers in [1, 4] {
            writes_levels(&rt, alloc, workers, &edges, 320);
        }
    }
}

#[test]
fn a_graph_above_64_kilobytes_is_swept(rt: HostRuntime) {
    let alloc = rt.alloc();
    let mut edges = Vec::new(alloc);
    let mut text = "".to_string(alloc).expect(&rt, "memory");
    for node in 0..4_200u64 {
        edges.push((node, 4_200)).expect(&rt, "memory");
        let line = format!(in alloc; "{node} 0\n").expect(&rt, "memory");
        text.push_str(line.as_str()).expect(&rt, "memory");
    }
    text.push_str("4200 1\n").expect(&rt, "memory");
    let bytes = bytes_of(&rt, alloc, &edges);
    assert!(rt; bytes.len() > 65_536);
    let line =
        "sweep g --device d --blocks 400 --workers 2 --block 64 --heap 1 --memory 20000 --nodes 4201";
    does(&rt, alloc, line, &bytes, (0, text.as_bytes(), b""));
}

#[test]
fn a_device_without_room_for_the_edges_has_no_free_block(rt: HostRuntime) {
    let alloc = rt.alloc();
    let bytes = bytes_of(&rt, alloc, &graph(&rt, alloc, 1));
    let line =
        "sweep g --device d --blocks 24 --workers 2 --block 2 --heap 1 --memory 368 --nodes 320";
    let made = does(&rt, alloc, line, &bytes, (6, b"", b"ppq: no free block\n"));
    assert_eq!(rt; made, 24);
}

#[test]
fn blocks_before_one_that_cannot_be_made_come_back_of_both_queues(rt: HostRuntime) {
    let alloc = rt.alloc();
    let line = format!(in alloc; "sweep g {SIZES} --nodes 4").expect(&rt, "memory");
    for block in [0u32, 3, 199, 200, 203, 399] {
        let makes = vec![in alloc; block].expect(&rt, "memory");
        let mut rack = MemRack::failing(Vec::new(alloc), makes);
        let mut library = library_of(&rt, alloc, &bytes_of(&rt, alloc, &[(0, 1)]));
        let refused = (
            10,
            b"".as_slice(),
            b"ppq: cannot make the device\n".as_slice(),
        );
        let back = does_over(&rt, alloc, line.as_str(), &mut library, &mut rack, refused);
        assert_eq!(rt; back, block as usize);
    }
}

// Asserts how a graph ends of which reads give only so many bytes: it writes nothing.
fn is_cut<H: Host + Abort>(rt: &H, alloc: Global, bytes: &[u8], cut: u64)
where
    H::Dir: Send,
{
    let line = format!(in alloc; "sweep g {SIZES} --nodes 21").expect(rt, "memory");
    let said = bytes.len();
    let says = format!(in alloc; "ppq: line 0: file changed, said {said}, got {cut}\n");
    let says = says.expect(rt, "memory");
    let mut library = library_of(rt, alloc, bytes);
    library.shrink("g", cut);
    let outcome = (9, b"".as_slice(), says.as_bytes());
    does_over(
        rt,
        alloc,
        line.as_str(),
        &mut library,
        &mut MemRack::new(),
        outcome,
    );
    assert_eq!(rt; library.faults(), 0);
}

#[test]
fn a_graph_that_is_shrunk_while_it_is_read_has_changed(rt: HostRuntime) {
    let alloc = rt.alloc();
    let bytes = bytes_of(&rt, alloc, &star_with(&rt, alloc, 20, 20, (0, 1)));
    // four edges, 64 bytes, are read at once
    for cut in [0, 1, 16, 63, 64, 65, 256, 319] {
        is_cut(&rt, alloc, &bytes, cut);
    }
}
