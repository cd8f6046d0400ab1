//! What the tests over memory share: words, a library, a sink, and a run of them.
ghost use Rattle.std.specs.Prelude.{◌≡◌, ◌<◌, ◌^◌};

use ppq_cli::{End, Ended, Handler, all_words};
use ppq_outside::{
    Host, Library, MemLibrary, MemRack, MemSink, MemSlot, OpenGate, Rack, Sink, Slot,
};
use std::alloc::Global;
use std::process::Abort;

/// How much a sink of these tests has room for.
pub const ROOM: usize = 1_048_576;

/// Two workers, two records a block, a heap of one block, 200 blocks, and just the fixed part of the
/// budget: the third record of a queue is written to a block.
pub const SIZES: &str = "run s --device d --blocks 200 --workers 2 --block 2 --heap 1 --memory 372";

/// A file of two records, `5 1` and `3 9`.
pub const TWO: &[u8] = b"\0\0\0\0\0\0\0\x05\0\0\0\0\0\0\0\x01\0\0\0\0\0\0\0\x03\0\0\0\0\0\0\0\x09";

/// A file of two records of three numbers, `5 1 2` and `3 9 4`.
pub const TRIPLES: &[u8] =
    b"\0\0\0\0\0\0\0\x05\0\0\0\0\0\0\0\x01\0\0\0\0\0\0\0\x02\0\0\0\0\0\0\0\x03\0\0\0\0\0\0\0\x09\0\0\0\0\0\0\0\x04";

/// A record `7 7`.
pub const SEVEN: &[u8] = b"\0\0\0\0\0\0\0\x07\0\0\0\0\0\0\0\x07";

/// The words of a line.
pub fn words_in(rt: &impl Abort, alloc: Global, line: &str) -> Vec<String> {
    let mut words = Vec::new(alloc);
    for word in line.split(' ') {
        let word = word.to_string(alloc).expect(rt, "memory");
        words.push(word).expect(rt, "memory");
    }
    words
}

/// A text with so many copies of another behind it.
pub fn repeated(
    rt: &impl Abort,
    alloc: Global,
    front: &[u8],
    text: &[u8],
    count: usize,
) -> Vec<u8> {
    let mut all = front.to_vec(alloc).expect(rt, "memory");
    for _ in 0..count {
        all.extend_from_slice(text).expect(rt, "memory");
    }
    all
}

/// A library with the script `s`, an empty file `e`, the file `f` of two records, the file `triples` of two records of
/// three numbers, the file `sevens` of so many records `7 7`, and the file `long` of 33 bytes.
pub fn library_of(rt: &impl Abort, alloc: Global, script: &[u8], sevens: usize) -> MemLibrary
    ensures { ⟦<MemLibrary as Library>⟧.faults result ≡ 0 }
{
    let mut library = MemLibrary::new(alloc);
    let bytes = repeated(rt, alloc, b"", SEVEN, sevens);
    library.add(alloc, "s", script).expect(rt, "memory");
    library.add(alloc, "e", b"").expect(rt, "memory");
    library.add(alloc, "f", TWO).expect(rt, "memory");
    library.add(alloc, "triples", TRIPLES).expect(rt, "memory");
    library.add(alloc, "sevens", &bytes).expect(rt, "memory");
    library.add(alloc, "long", &[0; 33]).expect(rt, "memory");
    library
}

/// A sink with room.
pub fn sink_in(rt: &impl Abort, alloc: Global) -> MemSink
    ensures { ⟦<MemSink as Sink>⟧.faults result ≡ 0 }
{
    MemSink::new(alloc, ROOM).expect(rt, "memory")
}

/// How a line of words ends, over a library, a rack and a sink, with a roster of no handler.
pub fn run<H: Host + Abort, L: Library>(
    rt: &H,
    alloc: Global,
    line: &str,
    library: &mut L,
    rack: &mut MemRack,
    sink: &mut MemSink,
) -> Ended<MemSlot>
where
    H::Dir: Send,
    requires library { L.faults library.old < 2 ^ 63 }
    requires rack { ⟦<MemRack as Rack>⟧.faults rack.old < 2 ^ 63 }
    requires sink { ⟦<MemSink as Sink>⟧.faults sink.old < 2 ^ 63 }
{
    let words = words_in(rt, alloc, line);
    let mut roster: Vec<Option<Box<dyn Handler + Send>>> = Vec::new(alloc);
    roster.push(None).expect(rt, "memory");
    all_words(rt, alloc, &words, roster, library, rack, &OpenGate, sink)
}

/// Asserts how a line of words ends, over a library, a rack and a sink, and what the sink holds then.
/// Gives the blocks that came back.
pub fn ends<H: Host + Abort, L: Library>(
    rt: &H,
    alloc: Global,
    line: &str,
    library: &mut L,
    rack: &mut MemRack,
    sink: &mut MemSink,
    end: End,
    output: &[u8],
) -> Vec<MemSlot>
where
    H::Dir: Send,
    requires library { L.faults library.old < 2 ^ 63 }
    requires rack { ⟦<MemRack as Rack>⟧.faults rack.old < 2 ^ 63 }
    requires sink { ⟦<MemSink as Sink>⟧.faults sink.old < 2 ^ 63 }
{
    let ended = run(rt, alloc, line, library, rack, sink);
    assert_eq!(rt; ended.end, end, "{line}");
    assert_eq!(rt; sink.bytes(), output, "{line}");
    ended.blocks
}

/// What a run did with its device.
#[derive(Clone, Copy)]
pub struct Used {
    /// How many blocks were made.
    pub made: usize,
    /// The number of the first block that was written, if there is one.
    pub written: Option<u32>,
}

// The number of the first block that was written, if there is one.
fn first_written(blocks: &[MemSlot]) -> Option<u32> {
    for block in blocks {
        if block.writes() > 0 {
            return Some(block.number());
        }
    }
    None
}

/// Asserts how a script ends under a line of words, over an outside that does not fail, and what it writes.
pub fn gives<H: Host + Abort>(
    rt: &H,
    alloc: Global,
    line: &str,
    script: &[u8],
    end: End,
    output: &[u8],
) -> Used
where
    H::Dir: Send,
{
    let mut library = library_of(rt, alloc, script, 2);
    let mut rack = MemRack::new();
    let mut sink = sink_in(rt, alloc);
    let blocks = ends(
        rt,
        alloc,
        line,
        &mut library,
        &mut rack,
        &mut sink,
        end,
        output,
    );
    Used {
        made: rack.made().len(),
        written: first_written(&blocks),
    }
}
