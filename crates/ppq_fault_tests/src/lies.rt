//! Each read of each block lies in turn: it gives other bytes than the block was given, and returns Ok. Over blocks
//! with sums that is a failed call, so that no script writes other records.
ghost use Rattle.std.specs.Prelude.{◌≡◌};

use crate::call::Call;
use crate::cases::{CASES, Case, Text, text_of};
use crate::runs::{Ran, library_of, ran_of, run, sink_of, words_in};
use crate::turns::has_failed;
use ppq_cli::{CheckedRack, run_checked};
use ppq_lying::{Checked, Lie, LyingRack, LyingSlot};
use ppq_outside::{Host, MemSlot, OpenGate, Rack, Slot};
use std::alloc::Global;
use std::process::Abort;
use std::test::Fail;

// A read of a block.
#[derive(Clone, Copy, Debug)]
struct Read {
    number: u32,
    // how many reads of the block come before
    before: u64,
}

impl Read {
    // What fails where this read does.
    fn call(self) -> Call {
        Call::Block {
            number: self.number,
            call: self.before.saturating_add(1),
        }
    }
}

// How a read lies.
#[derive(Clone, Copy, Debug)]
enum Kind {
    // a bit of the last byte of the block's first number is turned
    TurnedBit,
    // what the block was given before
    OlderVersion,
    // what another block was given
    OtherBlock,
    Zeros,
}

const KINDS: [Kind; 4] = [
    Kind::TurnedBit,
    Kind::OlderVersion,
    Kind::OtherBlock,
    Kind::Zeros,
];

// Where blocks are read so many times or more, every tenth of these reads lies in turn, else each.
const MANY: usize = 100;

const EVERY: usize = 10;

// All reads of blocks.
fn reads_of(rt: &impl Abort, alloc: Global, blocks: &[MemSlot]) -> Vec<Read> {
    let mut reads = Vec::new(alloc);
    for block in blocks {
        let number = block.number();
        for before in 0..block.reads() {
            let put = reads.push(Read { number, before });
            put.expect(rt, "memory");
        }
    }
    reads
}

// What a block holds.
fn bytes_of<H: Host + Abort>(rt: &H, alloc: Global, block: &mut MemSlot) -> Vec<u8> {
    let mut bytes = vec![in alloc; 0; block.size()].expect(rt, "memory");
    block.read(rt, &mut bytes).expect(rt, "a read");
    bytes
}

// What the first written block holds that has another number, or nothing.
fn bytes_of_another<H: Host + Abort>(
    rt: &H,
    alloc: Global,
    blocks: &mut [MemSlot],
    number: u32,
) -> Vec<u8> {
    for block in blocks.iter_mut() {
        if block.number() != number && block.writes() > 0 {
            return bytes_of(rt, alloc, block);
        }
    }
    Vec::new(alloc)
}

// What a read of the block with this number gives.
fn lie_of<H: Host + Abort>(
    rt: &H,
    alloc: Global,
    kind: Kind,
    case: &Case,
    blocks: &mut [MemSlot],
    number: u32,
) -> Lie {
    match kind {
        Kind::TurnedBit => Lie::Bit(7),
        Kind::OlderVersion => Lie::Older,
        Kind::OtherBlock => Lie::Bytes(bytes_of_another(rt, alloc, blocks, number)),
        Kind::Zeros => Lie::Bytes(vec![in alloc; 0; case.block].expect(rt, "memory")),
    }
}

// Runs the script of a case over blocks with sums, of which a read lies.
fn run_lying<H: Host + Abort>(
    rt: &H,
    alloc: Global,
    case: &Case,
    text: &Text,
    read: Read,
    lie: Lie,
) -> Ran<Checked<LyingSlot>>
where
    H::Dir: Send,
{
    let words = words_in(rt, alloc, case.words);
    let mut library = library_of(rt, alloc, &text.script, Call::No);
    let mut rack = CheckedRack::new(LyingRack::new(read.number, read.before, lie));
    let mut sink = sink_of(rt, alloc, Call::No);
    let ended = run_checked(
        rt,
        alloc,
        &words,
        &mut library,
        &mut rack,
        &OpenGate,
        &mut sink,
    );
    ran_of(ended, text, &library, rack.faults(), &sink)
}

// Lets each read of each block lie in turn, in one way. How many of these reads were failed calls.
fn each_lies<H: Host + Abort>(rt: &H, alloc: Global, case: &Case, kind: Kind) -> u64
where
    H::Dir: Send,
{
    let text = text_of(rt, alloc, case);
    let mut honest = run(rt, alloc, case, &text, Call::No);
    let reads = reads_of(rt, alloc, &honest.blocks);
    let mut failed = 0u64;
    for (at, read) in reads.iter().enumerate() {
        if reads.len() < MANY || at % EVERY == 0 {
            let lie = lie_of(rt, alloc, kind, case, &mut honest.blocks, read.number);
            let ran = run_lying(rt, alloc, case, &text, *read, lie);
            let is_failed = has_failed(rt, alloc, case, &text, read.call(), &ran);
            failed = failed.saturating_add(u64::from(is_failed));
        }
    }
    failed
}

// Lets reads of blocks lie in one way, for each script.
fn each_script_lies<H: Host + Abort>(rt: &H, alloc: Global, kind: Kind) -> Result<(), Fail>
where
    H::Dir: Send,
{
    let mut all = 0u64;
    for case in CASES {
        let failed = each_lies(rt, alloc, case, kind);
        println!(rt; "{kind:?}: {failed} reads failed")?;
        all = all.saturating_add(failed);
    }
    assert!(rt; all > 0, "{kind:?}");
    Ok(())
}

#[test]
fn a_read_that_lies_is_a_failed_call_and_nothing_wrong_is_written(
    rt: HostRuntime,
) -> Result<(), Fail> {
    for kind in KINDS {
        each_script_lies(&rt, rt.alloc(), kind)?;
    }
    Ok(())
}
