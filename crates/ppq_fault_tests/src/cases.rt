//! The scripts of these tests, an agenda and a graph.

use std::alloc::Global;
use std::process::Abort;

/// A script, the words that it is run with, and what it does where no call fails.
#[derive(Clone, Copy)]
pub struct Case {
    /// The words of the command line.
    pub words: &'static str,
    /// How many blocks the device has.
    pub blocks: usize,
    /// How many bytes a block has.
    pub block: usize,
    /// The script begins with pushes of the keys from this one down to 1, with the value 0.
    pub falling: u64,
    /// The script's further lines.
    pub lines: &'static [u8],
    /// What these write.
    pub output: &'static [u8],
    /// The script ends with so many lines `top`.
    pub tops: usize,
}

// Two workers, two records a block, a heap of one block, and just the fixed part of the budget.
const SMALL: &str = "run s --device d --blocks 200 --workers 2 --block 2 --heap 1 --memory 372";

/// The scripts.
pub const CASES: &[Case] = &[
    // pushes, a file, and records that come back from blocks
    Case {
        words: SMALL,
        blocks: 200,
        block: 32,
        falling: 20,
        lines: b"size\nbulk f\nbulk_pop 9\nsize\n",
        output: b"20\n1 0\n2 0\n3 0\n3 9\n4 0\n5 0\n5 1\n6 0\n7 0\n13\n",
        tops: 0,
    },
    // two passes
    Case {
        words: SMALL,
        blocks: 200,
        block: 32,
        falling: 8,
        lines: b"bulk_begin\nbulk_push 1 2 0\nbulk_push 0 1 0\nbulk_push 1 2 0\nbulk_push 1 0 5\nbulk_push 0 7 7\nbulk_push 0 9 9\nbulk_push 0 3 3\nbulk_end\nsize\nbulk_pop 9\n",
        output: b"15\n0 5\n1 0\n1 0\n2 0\n2 0\n2 0\n3 0\n3 3\n4 0\n",
        tops: 0,
    },
    // pops below a limit, beside pushes by two passes
    Case {
        words: SMALL,
        blocks: 200,
        block: 32,
        falling: 9,
        lines: b"limit_begin 4 0\nlimit_top\nlimit_push 1 4 0\nlimit_pop\nlimit_push 0 5 5\nlimit_push 1 6 6\nlimit_push 1 5 5\nlimit_push 1 4 1\nlimit_pop\nlimit_pop\nlimit_pop\nlimit_end\nbulk_pop 7\n",
        output: b"1 0\n1 0\n2 0\n3 0\nlimit\n4 0\n4 0\n4 1\n5 0\n5 5\n5 5\n6 0\n",
        tops: 0,
    },
    // four thousand records over a budget of 1,840, by one worker
    Case {
        words: "run s --device d --blocks 576 --workers 1 --block 16 --heap 1 --memory 1840",
        blocks: 576,
        block: 256,
        falling: 4_000,
        lines: b"pop\npop\n",
        output: b"1 0\n2 0\n",
        tops: 0,
    },
    // more than a put takes
    Case {
        words: SMALL,
        blocks: 200,
        block: 32,
        falling: 4,
        lines: b"bulk_pop 4\npush 18446744073709551615 18446744073709551615\n",
        output: b"1 0\n2 0\n3 0\n4 0\n",
        tops: 5_000,
    },
];

/// The simulation of an agenda `e`, more of whose events wait than the heaps hold. What it writes was computed by
/// `bench/sim.py`.
pub const AGENDA: Case = Case {
    words: "sim e --device d --blocks 200 --workers 2 --block 2 --heap 1 --memory 372 --until 100 --events 1000",
    blocks: 200,
    block: 48,
    falling: 0,
    lines: b"",
    output: b"1 1 3 3\n1 2 8 0\n2 0 5 5\n2 2 2 8\n2 3 4 4\n2 5 9 0\n3 3 1 5\n3 4 2 2\n3 4 4 4\n3 6 4 4\n3 8 6 0\n4 4 1 1\n4 5 1 9\n4 5 3 1\n4 7 4 4\n4 9 3 3\n4 12 0 1\n4 12 7 lost\n5 5 0 3\n5 6 1 5\n5 8 3 6\n5 10 3 3\n6 7 1 1\n6 9 1 4\n6 11 2 0\n7 8 0 3\n7 10 1 1\n7 12 1 lost\n8 11 0 2\n8 13 1 1\nend empty count 30\n",
    tops: 0,
};

/// The sweep of a graph `g` of ten nodes, more of whose edges and notes wait than the heaps hold. What it writes was computed
/// in Python.
pub const GRAPH: Case = Case {
    words: "sweep g --device d --blocks 400 --workers 2 --block 2 --heap 1 --memory 744 --nodes 10",
    blocks: 400,
    block: 32,
    falling: 0,
    lines: b"",
    output: b"0 0\n1 0\n2 0\n3 1\n4 2\n5 3\n6 4\n7 0\n8 3\n9 5\n",
    tops: 0,
};

/// Scripts that write nothing where this call of block 0 fails.
pub const EARLY: &[(u64, Case)] = &[
    // the store of the heap before a limit session
    (
        1,
        Case {
            words: SMALL,
            blocks: 200,
            block: 32,
            falling: 0,
            lines: b"push 1 0\npush 4 0\nlimit_begin 4 0\nlimit_top\nlimit_push 1 4 0\nlimit_pop\nlimit_pop\nlimit_end\nbulk_pop 9\n",
            output: b"1 0\n1 0\nlimit\n4 0\n4 0\n",
            tops: 0,
        },
    ),
    // the store of a pass's heap
    (
        1,
        Case {
            words: SMALL,
            blocks: 200,
            block: 32,
            falling: 0,
            lines: b"bulk_begin\nbulk_push 1 2 0\nbulk_push 0 1 0\nbulk_push 1 2 0\nbulk_push 1 0 5\nbulk_end\nsize\nbulk_pop 4\n",
            output: b"4\n0 5\n1 0\n2 0\n2 0\n",
            tops: 0,
        },
    ),
    // the read of a front
    (
        2,
        Case {
            words: SMALL,
            blocks: 200,
            block: 32,
            falling: 0,
            lines: b"push 1 0\npush 2 0\nlimit_begin 4 0\nlimit_pop\nlimit_end\n",
            output: b"1 0\n",
            tops: 0,
        },
    ),
];

// What `top` writes where the greatest record of all is the smallest one.
const GREATEST: &[u8] = b"18446744073709551615 18446744073709551615\n";

/// A script and what it writes.
#[derive(Drop)]
pub struct Text {
    pub script: Vec<u8>,
    pub output: Vec<u8>,
}

// Puts a push of a key behind a script.
fn put_push(rt: &impl Abort, alloc: Global, script: &mut Vec<u8>, key: u64) {
    let line = format!(in alloc; "push {key} 0\n").expect(rt, "memory");
    let put = script.extend_from_slice(line.as_bytes());
    put.expect(rt, "memory");
}

// Puts so many copies of a text behind another.
fn put_copies(rt: &impl Abort, text: &mut Vec<u8>, copied: &[u8], count: usize) {
    for _ in 0..count {
        text.extend_from_slice(copied).expect(rt, "memory");
    }
}

// The lines of a case's script, but for the last ones.
fn first_lines(rt: &impl Abort, alloc: Global, case: &Case) -> Vec<u8> {
    let mut script = Vec::new(alloc);
    for pushed in 0..case.falling {
        put_push(rt, alloc, &mut script, case.falling - pushed);
    }
    script.extend_from_slice(case.lines).expect(rt, "memory");
    script
}

/// The script of a case, and what it writes.
pub fn text_of(rt: &impl Abort, alloc: Global, case: &Case) -> Text {
    let mut script = first_lines(rt, alloc, case);
    put_copies(rt, &mut script, b"top\n", case.tops);
    let mut output = case.output.to_vec(alloc).expect(rt, "memory");
    put_copies(rt, &mut output, GREATEST, case.tops);
    Text { script, output }
}
