//! A run of a script, an agenda or a graph over memory, of which one call fails.
ghost use Rattle.std.specs.Prelude.{◌≡◌};

use crate::call::{Call, Faults};
use crate::cases::{Case, Text};
use ppq_cli::{
    CountHandler, End, Ended, ForkHandler, Handler, MortalHandler, RelayHandler, all_words,
};
use ppq_outside::{
    Host, Library, MemLibrary, MemRack, MemSink, MemSlot, OpenGate, Rack, Sink, Slot,
};
use std::alloc::Global;
use std::process::Abort;

// How much a sink has room for.
const ROOM: usize = 1_048_576;

// How much a put takes that fails, in bytes.
const TAKEN: usize = 3;

// A file of two records, `5 1` and `3 9`.
const TWO: &[u8] = b"\0\0\0\0\0\0\0\x05\0\0\0\0\0\0\0\x01\0\0\0\0\0\0\0\x03\0\0\0\0\0\0\0\x09";

// The events of an agenda: time, target and word.
const EVENTS: &[&[u64]] = &[
    &[1, 2, 8],
    &[1, 1, 3],
    &[2, 0, 5],
    &[2, 5, 9],
    &[3, 4, 2],
    &[3, 8, 6],
    &[4, 12, 0],
    &[4, 12, 7],
];

// The edges of a graph.
const EDGES: &[&[u64]] = &[
    &[3, 4],
    &[1, 6],
    &[0, 6],
    &[0, 3],
    &[0, 4],
    &[2, 4],
    &[4, 5],
    &[1, 9],
    &[5, 6],
    &[2, 3],
    &[1, 8],
    &[4, 9],
    &[4, 8],
    &[3, 6],
    &[6, 9],
    &[4, 6],
];

/// A roster as the program has it.
pub type Roster = Vec<Option<Box<dyn Handler + Send>>>;

// The program's roster: Count, Relay and Fork by turns at 12 places, and Mortal at 4 more.
fn roster_of(rt: &impl Abort, alloc: Global) -> Roster {
    let mut roster: Roster = Vec::new(alloc);
    for i in 0..16u64 {
        let handler: Box<dyn Handler + Send> = match i % 3 {
            _ if i >= 12 => Box::new(alloc, MortalHandler::new()).expect(rt, "memory"),
            0 => Box::new(alloc, CountHandler::new()).expect(rt, "memory"),
            1 => Box::new(alloc, RelayHandler::new()).expect(rt, "memory"),
            _ => Box::new(alloc, ForkHandler::new()).expect(rt, "memory"),
        };
        roster.push(Some(handler)).expect(rt, "memory");
    }
    roster
}

// The bytes of a record file.
fn bytes_of(rt: &impl Abort, alloc: Global, records: &[&[u64]]) -> Vec<u8> {
    let mut bytes = Vec::new(alloc);
    for record in records {
        for number in *record {
            let put = bytes.extend_from_slice(&number.to_be_bytes());
            put.expect(rt, "memory");
        }
    }
    bytes
}

/// The words of a line.
pub fn words_in(rt: &impl Abort, alloc: Global, line: &str) -> Vec<String> {
    let mut words = Vec::new(alloc);
    for word in line.split(' ') {
        let word = word.to_string(alloc).expect(rt, "memory");
        words.push(word).expect(rt, "memory");
    }
    words
}

/// A library with the script `s`, the file `f` of two records, the agenda `e` and the graph `g`.
pub fn library_of(rt: &impl Abort, alloc: Global, script: &[u8], call: Call) -> MemLibrary
    ensures { ⟦<MemLibrary as Library>⟧.faults result ≡ 0 }
{
    let mut library = MemLibrary::new(alloc);
    library.add(alloc, "s", script).expect(rt, "memory");
    library.add(alloc, "f", TWO).expect(rt, "memory");
    let events = bytes_of(rt, alloc, EVENTS);
    library.add(alloc, "e", &events).expect(rt, "memory");
    let edges = bytes_of(rt, alloc, EDGES);
    library.add(alloc, "g", &edges).expect(rt, "memory");
    if let Call::Library { call } = call {
        library.fail_call(call).expect(rt, "memory");
    }
    library
}

fn rack_of(rt: &impl Abort, alloc: Global, call: Call) -> MemRack
    ensures { ⟦<MemRack as Rack>⟧.faults result ≡ 0 }
{
    let mut calls = Vec::new(alloc);
    if let Call::Block { number, call } = call {
        calls.push((number, call)).expect(rt, "memory");
    }
    MemRack::failing(calls, Vec::new(alloc))
}

/// A sink with room, of which a put fails.
pub fn sink_of(rt: &impl Abort, alloc: Global, call: Call) -> MemSink
    ensures { ⟦<MemSink as Sink>⟧.faults result ≡ 0 }
{
    let mut puts = Vec::new(alloc);
    if let Call::Put { call } = call {
        puts.push((call, TAKEN)).expect(rt, "memory");
    }
    MemSink::failing(alloc, ROOM, puts).expect(rt, "memory")
}

/// How a run of a script ended, and what it left.
#[derive(Drop)]
pub struct Ran<S: Slot> {
    /// How it ended.
    pub end: End,
    /// The blocks that came back.
    pub blocks: Vec<S>,
    /// Whether it wrote a prefix of what the script writes.
    pub is_prefix: bool,
    /// How many bytes it wrote.
    pub written: usize,
    /// How many calls failed, but for those of blocks.
    pub faults: Faults,
}

/// What a run of a script left that ended so.
pub fn ran_of<S: Slot>(
    ended: Ended<S>,
    text: &Text,
    library: &MemLibrary,
    rack_faults: u64,
    sink: &MemSink,
) -> Ran<S> {
    Ran {
        end: ended.end,
        blocks: ended.blocks,
        is_prefix: text.output.starts_with(sink.bytes()),
        written: sink.bytes().len(),
        faults: Faults {
            blocks: 0,
            block: 0,
            library: library.faults(),
            rack: rack_faults,
            sink: sink.faults(),
        },
    }
}

/// Runs the script, the agenda or the graph of a case, of which a call fails.
pub fn run<H: Host + Abort>(
    rt: &H,
    alloc: Global,
    case: &Case,
    text: &Text,
    call: Call,
) -> Ran<MemSlot>
where
    H::Dir: Send,
{
    let words = words_in(rt, alloc, case.words);
    let mut library = library_of(rt, alloc, &text.script, call);
    let mut rack = rack_of(rt, alloc, call);
    let mut sink = sink_of(rt, alloc, call);
    let roster = roster_of(rt, alloc);
    assert!(rt; !roster.is_empty() && roster.len() <= 65_536);
    let ended = all_words(
        rt,
        alloc,
        &words,
        roster,
        &mut library,
        &mut rack,
        &OpenGate,
        &mut sink,
    );
    ran_of(ended, text, &library, rack.faults(), &sink)
}

// How many calls of blocks failed, of all and of the one with a number.
fn block_faults<S: Slot>(blocks: &[S], number: u32) -> (u64, u64) {
    let (mut all, mut one) = (0u64, 0u64);
    for block in blocks {
        all = all.saturating_add(block.faults());
        if block.number() == number {
            one = one.saturating_add(block.faults());
        }
    }
    (all, one)
}

/// What failed in a run.
pub fn faults_of<S: Slot>(ran: &Ran<S>, call: Call) -> Faults {
    let number = match call {
        Call::Block { number, call: _ } => number,
        _ => 0,
    };
    let (blocks, block) = block_faults(&ran.blocks, number);
    Faults {
        blocks,
        block,
        ..ran.faults
    }
}

// Marks a number that was not marked yet, and is in range. Whether it was one.
fn mark(seen: &mut [bool], number: usize) -> bool {
    if number >= seen.len() || seen[number] {
        return false;
    }
    seen[number] = true;
    true
}

/// Whether these are so many blocks, with the numbers from 0 on, each once.
pub fn are_all<S: Slot>(rt: &impl Abort, alloc: Global, blocks: &[S], count: usize) -> bool {
    let mut seen = vec![in alloc; false; count].expect(rt, "memory");
    let mut are_new = true;
    for block in blocks {
        are_new &= mark(&mut seen, block.number() as usize);
    }
    are_new && blocks.len() == count
}

/// Whether no more of these blocks were read than written.
pub fn are_read_rarely<S: Slot>(blocks: &[S]) -> bool {
    let (mut reads, mut writes) = (0u64, 0u64);
    for block in blocks {
        reads = reads.saturating_add(block.reads());
        writes = writes.saturating_add(block.writes());
    }
    reads <= writes
}

// Puts all calls of a block behind a list.
fn put_calls(rt: &impl Abort, calls: &mut Vec<Call>, block: &MemSlot) {
    let number = block.number();
    let count = block.reads().saturating_add(block.writes());
    for call in 1..=count {
        let put = calls.push(Call::Block { number, call });
        put.expect(rt, "memory");
    }
}

/// All calls of blocks.
pub fn calls_of(rt: &impl Abort, alloc: Global, blocks: &[MemSlot]) -> Vec<Call> {
    let mut calls = Vec::new(alloc);
    for block in blocks {
        put_calls(rt, &mut calls, block);
    }
    calls
}
