//! Generated scripts: as few blocks are written and read as the work of a script says, however it ends.
ghost use Rattle.std.specs.Prelude.{◌≡◌, ◌<◌, max};

use crate::memory::{library_of, run, sink_in};
use ppq_cli::End;
use ppq_outside::{Host, MemRack, MemSlot, Rack, Slot};
use std::alloc::Global;
use std::process::Abort;

// The words of a line, and the workers, the records of a block and the blocks of a heap in them.
#[derive(Clone, Copy)]
struct Sizes {
    words: &'static str,
    workers: u64,
    block: u64,
    heap: u64,
}

const SIZES: &[Sizes] = &[
    Sizes {
        words: "run s --device d --blocks 2000 --workers 1 --block 2 --heap 1 --memory 2158",
        workers: 1,
        block: 2,
        heap: 1,
    },
    Sizes {
        words: "run s --device d --blocks 2000 --workers 2 --block 2 --heap 1 --memory 2172",
        workers: 2,
        block: 2,
        heap: 1,
    },
    Sizes {
        words: "run s --device d --blocks 1200 --workers 3 --block 4 --heap 2 --memory 1620",
        workers: 3,
        block: 4,
        heap: 2,
    },
    Sizes {
        words: "run s --device d --blocks 400 --workers 4 --block 16 --heap 2 --memory 2064",
        workers: 4,
        block: 16,
        heap: 2,
    },
];

// The next number of Knuth's MMIX sequence; its upper half below a bound.
fn draw(seed: &mut u64, below: u64) -> u64
    ensures { result < max below 1 }
{
    let next = seed
        .wrapping_mul(6364136223846793005)
        .wrapping_add(1442695040888963407);
    *seed = next;
    (next >> 32) % below.max(1)
}

// A script, how many records its commands push, and how many sessions they begin.
#[derive(Drop)]
struct Script {
    text: Vec<u8>,
    records: u64,
    sessions: u64,
}

impl Script {
    // Puts a line that pushes so many records and begins so many sessions.
    fn put(&mut self, rt: &impl Abort, line: &[u8], records: u64, sessions: u64) {
        self.text.extend_from_slice(line).expect(rt, "memory");
        self.records = self.records.saturating_add(records);
        self.sessions = self.sessions.saturating_add(sessions);
    }

    // Puts a line that pushes a record, by a pass of a session or by none.
    fn put_push(&mut self, rt: &impl Abort, alloc: Global, word: &str, key: u64) {
        let line = format!(in alloc; "{word} {key} 0\n").expect(rt, "memory");
        self.put(rt, line.as_bytes(), 1, 0);
    }

    // Puts a bulk session in which pass 0 pushes so many records.
    fn put_bulk(&mut self, rt: &impl Abort, alloc: Global, seed: &mut u64, count: u64) {
        self.put(rt, b"bulk_begin\n", 0, 1);
        for _ in 0..count {
            self.put_push(rt, alloc, "bulk_push 0", draw(seed, 50));
        }
        self.put(rt, b"bulk_end\n", 0, 0);
    }

    // Puts a limit session of so many pushes and pops.
    fn put_limit(&mut self, rt: &impl Abort, alloc: Global, seed: &mut u64, count: u64) {
        self.put(rt, b"limit_begin 20 0\n", 0, 1);
        for _ in 0..count {
            if draw(seed, 3) == 0 {
                self.put(rt, b"limit_pop\n", 0, 0);
            } else {
                let key = draw(seed, 30).saturating_add(20);
                self.put_push(rt, alloc, "limit_push 0", key);
            }
        }
        self.put(rt, b"limit_end\n", 0, 0);
    }

    // Puts a command, or a session.
    fn put_any(&mut self, rt: &impl Abort, alloc: Global, seed: &mut u64) {
        match draw(seed, 40) {
            0 => {
                let (key, count) = (draw(seed, 1_000), draw(seed, 60));
                let line = format!(in alloc; "gen {key} {count}\n").expect(rt, "memory");
                self.put(rt, line.as_bytes(), count, 1);
            }
            1 => self.put(rt, b"bulk f\n", 2, 1),
            2 => {
                let count = draw(seed, 40);
                self.put_bulk(rt, alloc, seed, count);
            }
            3 => {
                let count = draw(seed, 40);
                self.put_limit(rt, alloc, seed, count);
            }
            4 => self.put(rt, b"bulk_pop 5\n", 0, 0),
            5 => self.put(rt, b"drain 7\n", 0, 0),
            6..=12 => self.put(rt, b"pop\n", 0, 0),
            _ => self.put_push(rt, alloc, "push", draw(seed, 50)),
        }
    }
}

// A script of so many commands and sessions, in which all is popped in the end.
fn script_of(rt: &impl Abort, alloc: Global, seed: &mut u64, count: u64) -> Script {
    let mut script = Script {
        text: Vec::new(alloc),
        records: 0,
        sessions: 0,
    };
    for _ in 0..count {
        script.put_any(rt, alloc, seed);
    }
    script.put(rt, b"drain 100000\n", 0, 0);
    script
}

impl Sizes {
    // How many records may be written, by blocks, for a script: with n records, f heaps that they fill, s sessions, p
    // workers and blocks of B records, 8 * (n + p * B * (f + s)) + 2 * B * (2 * f + (p + 2) * s).
    fn bound(self, script: &Script) -> u64 {
        let heap = self.heap.saturating_mul(self.block).max(1);
        let heaps = script.records.div_ceil(heap);
        let batches = heaps
            .saturating_add(script.sessions)
            .saturating_mul(self.workers)
            .saturating_mul(self.block);
        let runs = self
            .workers
            .saturating_add(2)
            .saturating_mul(script.sessions)
            .saturating_add(heaps.saturating_mul(2));
        let records = script.records.saturating_add(batches).saturating_mul(8);
        runs.saturating_mul(self.block)
            .saturating_mul(2)
            .saturating_add(records)
    }
}

// How many blocks were written and read.
#[derive(Clone, Copy)]
struct Transfers {
    writes: u64,
    reads: u64,
}

impl Transfers {
    // Those of these blocks beside those of others.
    fn with(self, blocks: &[MemSlot]) -> Transfers {
        let mut all = self;
        for block in blocks {
            all.writes = all.writes.saturating_add(block.writes());
            all.reads = all.reads.saturating_add(block.reads());
        }
        all
    }
}

const NONE: Transfers = Transfers {
    writes: 0,
    reads: 0,
};

// Runs a script over a rack, and asserts how few blocks were written and read for it. Gives what was, and how it ended.
fn run_few<H: Host + Abort>(
    rt: &H,
    alloc: Global,
    sizes: Sizes,
    script: &Script,
    rack: &mut MemRack,
) -> (Transfers, End)
where
    H::Dir: Send,
    requires { ⟦<MemRack as Rack>⟧.faults rack.old ≡ 0 }
{
    let mut library = library_of(rt, alloc, &script.text, 0);
    let mut sink = sink_in(rt, alloc);
    let ended = run(rt, alloc, sizes.words, &mut library, rack, &mut sink);
    let few = NONE.with(&ended.blocks);
    let written = few.writes.saturating_mul(sizes.block);
    let bound = sizes.bound(script);
    assert!(rt; written <= bound, "{written} of {bound}: {}", sizes.words);
    for block in &ended.blocks {
        assert!(rt; block.reads() <= block.writes(), "{}", sizes.words);
    }
    (few, ended.end)
}

// Runs a script over blocks that do not fail, and over blocks of which one fails. Gives what was done without a fault,
// and whether the other run met one.
fn run_both<H: Host + Abort>(
    rt: &H,
    alloc: Global,
    sizes: Sizes,
    script: &Script,
    seed: &mut u64,
) -> (Transfers, bool)
where
    H::Dir: Send,
{
    let (few, end) = run_few(rt, alloc, sizes, script, &mut MemRack::new());
    assert_eq!(rt; end, End::Done, "{}", sizes.words);
    let mut calls = Vec::new(alloc);
    let call = (draw(seed, 8) as u32, draw(seed, 2).saturating_add(1));
    calls.push(call).expect(rt, "memory");
    let mut rack = MemRack::failing(calls, Vec::new(alloc));
    let (_, end) = run_few(rt, alloc, sizes, script, &mut rack);
    (few, end != End::Done)
}

// Runs so many generated scripts with these sizes. Blocks are written and read, and some calls of them fail.
fn run_all<H: Host + Abort>(rt: &H, alloc: Global, sizes: Sizes, scripts: u64, seed: &mut u64)
where
    H::Dir: Send,
{
    let (mut all, mut failed) = (NONE, 0u64);
    for _ in 0..scripts {
        let count = draw(seed, 250);
        let script = script_of(rt, alloc, seed, count);
        let (few, has_failed) = run_both(rt, alloc, sizes, &script, seed);
        all.writes = all.writes.saturating_add(few.writes);
        all.reads = all.reads.saturating_add(few.reads);
        failed = failed.saturating_add(u64::from(has_failed));
    }
    assert!(rt;
        (all.writes > 0) & (all.reads > 0) & (failed > 0),
        "{}",
        sizes.words
    );
}

#[test]
fn no_more_blocks_are_written_than_the_work_of_a_script_says(rt: HostRuntime) {
    let mut seed = 1;
    for sizes in SIZES {
        run_all(&rt, rt.alloc(), *sizes, 10, &mut seed);
    }
}
