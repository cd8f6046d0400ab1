//! How often a run calls its library and its sink: one read a piece, and one put a piece.
ghost use Rattle.std.specs.Prelude.{◌≡◌};

use crate::memory::{ROOM, repeated, run};
use ppq_cli::End;
use ppq_outside::{Host, Library, MemLibrary, MemRack, MemSink};
use std::alloc::Global;
use std::process::Abort;

// A script, and a record file `r`.
#[derive(Clone, Copy)]
struct Files<'a> {
    script: &'a [u8],
    records: &'a [u8],
}

// How many calls of the library a run makes, for lengths and bytes, and how many of the sink.
#[derive(Clone, Copy)]
struct Calls {
    library: u64,
    puts: u64,
}

// A library with a script `s` and a record file `r`, of which the call with this number fails.
fn library_of(rt: &impl Abort, alloc: Global, files: Files<'_>, call: u64) -> MemLibrary
    ensures { ⟦<MemLibrary as Library>⟧.faults result ≡ 0 }
{
    let mut library = MemLibrary::new(alloc);
    library.add(alloc, "s", files.script).expect(rt, "memory");
    library.add(alloc, "r", files.records).expect(rt, "memory");
    library.fail_call(call).expect(rt, "memory");
    library
}

// How a line of words ends where calls fail behind so many.
fn end_of<H: Host + Abort>(rt: &H, alloc: Global, line: &str, files: Files<'_>, calls: Calls) -> End
where
    H::Dir: Send,
{
    let mut library = library_of(rt, alloc, files, calls.library.saturating_add(1));
    let puts = vec![in alloc; (calls.puts.saturating_add(1), 0)].expect(rt, "memory");
    let mut sink = MemSink::failing(alloc, ROOM, puts).expect(rt, "memory");
    let ended = run(
        rt,
        alloc,
        line,
        &mut library,
        &mut MemRack::new(),
        &mut sink,
    );
    ended.end
}

// Asserts that a line of words makes so many calls: it is done where the next one of each kind would fail, and not where
// the last one does.
fn makes<H: Host + Abort>(rt: &H, alloc: Global, line: &str, files: Files<'_>, calls: Calls)
where
    H::Dir: Send,
{
    let end = end_of(rt, alloc, line, files, calls);
    assert_eq!(rt; end, End::Done, "{line}: {} {}", calls.library, calls.puts);
    let fewer = Calls {
        library: calls.library.saturating_sub(1),
        puts: calls.puts,
    };
    let end = end_of(rt, alloc, line, files, fewer);
    assert_eq!(rt; end, End::ReadFault, "{line}: {}", calls.library);
    let fewer = Calls {
        library: calls.library,
        puts: calls.puts.saturating_sub(1),
    };
    let end = end_of(rt, alloc, line, files, fewer);
    assert_eq!(rt; end, End::WriteFault, "{line}: {}", calls.puts);
}

// Two workers with blocks of two records: a piece of a file has four records.
const RUN: &str = "run s --device d --blocks 380 --workers 2 --block 2 --heap 1 --memory 552";

const SIM: &str =
    "sim r --device d --blocks 380 --workers 2 --block 2 --heap 1 --memory 552 --until 9 --events 999";

const SWEEP: &str =
    "sweep r --device d --blocks 760 --workers 2 --block 2 --heap 1 --memory 1104 --nodes 2";

// The edge from node 0 to node 1, which is a record of a script too.
const EDGE: &[u8] = b"\0\0\0\0\0\0\0\0\0\0\0\0\0\0\0\x01";

// How many records a file has, and in how many pieces of four it comes.
const PIECES: &[(usize, u64)] = &[(0, 0), (1, 1), (4, 1), (5, 2), (8, 2), (9, 3), (100, 25)];

#[test]
fn a_record_file_is_read_by_pieces_of_a_block_for_each_worker(rt: HostRuntime) {
    let alloc = rt.alloc();
    for (count, pieces) in PIECES {
        let edges = repeated(&rt, alloc, b"", EDGE, *count);
        let events = repeated(&rt, alloc, b"", &[0; 24], *count);
        let of_edges = Files {
            script: b"bulk r\nsize\n",
            records: &edges,
        };
        let of_events = Files {
            script: b"",
            records: &events,
        };
        // the lengths of script and file, the script, and the pieces
        let calls = Calls {
            library: pieces.saturating_add(3),
            puts: 1,
        };
        makes(&rt, alloc, RUN, of_edges, calls);
        // the length of the file, and the pieces
        let calls = Calls {
            library: pieces.saturating_add(1),
            puts: 1,
        };
        makes(&rt, alloc, SWEEP, of_edges, calls);
        makes(&rt, alloc, SIM, of_events, calls);
    }
}

// A script: its first line, a line that follows it so many times, the form of the output, and in how many pieces that is put:
// each has more than 65,024 bytes and at most 65,536, but for the last one.
const TEXTS: &[(&[u8], &[u8], usize, &str, u64)] = &[
    (b"size\n", b"pop\n", 0, "text", 1),
    // a script of 100,004 bytes
    (b"pop\n", b"size\n", 20_000, "text", 1),
    // 42 bytes a line: 63,000 and 126,000 of them
    (LARGEST, b"top\n", 1_500, "text", 1),
    (LARGEST, b"top\n", 3_000, "text", 2),
    // frames of 20 bytes: 64,000 and 128,000 of them
    (LARGEST, b"top\n", 3_200, "bytes", 1),
    (LARGEST, b"top\n", 6_400, "bytes", 2),
];

// A line that pushes the largest record.
const LARGEST: &[u8] = b"push 18446744073709551615 18446744073709551615\n";

#[test]
fn a_script_is_read_at_once_and_its_output_is_put_by_pieces(rt: HostRuntime) {
    let alloc = rt.alloc();
    for (first, text, count, form, puts) in TEXTS {
        let script = repeated(&rt, alloc, first, text, *count);
        let files = Files {
            script: &script,
            records: b"",
        };
        let line = format!(in alloc; "{RUN} --form {form}").expect(&rt, "memory");
        // the script's length, and its bytes
        let calls = Calls {
            library: 2,
            puts: *puts,
        };
        makes(&rt, alloc, line.as_str(), files, calls);
    }
}

// Scripts: what is in front, a line that stands there forty times, and what is behind. A batch of a session has four
// lines, and a round of a pop four records.
const BATCHES: &[(&[u8], &[u8], &[u8])] = &[
    (
        b"bulk_begin\n",
        b"bulk_push 1 5 0\n",
        b"bulk_end\nbulk_pop 40\n",
    ),
    (
        b"gen 7 40\nlimit_begin 18446744073709551615 0\n",
        b"limit_pop\n",
        b"limit_end\n",
    ),
    (
        b"limit_begin 4 0\n",
        b"limit_push 0 5 0\nlimit_top\n",
        b"limit_end\nbulk_pop_limit 6 0 40\n",
    ),
    (b"gen 7 200\n", b"top\n", b"bulk_pop 200\n"),
    (b"gen 7 200\n", b"bulk_pop 5\n", b"drain 200\n"),
];

#[test]
fn batches_of_lines_and_rounds_of_a_pop_are_put_together(rt: HostRuntime) {
    let alloc = rt.alloc();
    for (front, line, behind) in BATCHES {
        let mut script = repeated(&rt, alloc, front, line, 40);
        script.extend_from_slice(behind).expect(&rt, "memory");
        let files = Files {
            script: &script,
            records: b"",
        };
        let calls = Calls {
            library: 2,
            puts: 1,
        };
        makes(&rt, alloc, RUN, files, calls);
    }
}

// Words of larger sizes, how many records a file has whose bytes are all 255, and in how many pieces it is read and the
// output is put. A piece of the file has 128 records. A line of a script's pop has 42 bytes, and one of a journal 68.
const LONG: &[(&str, usize, usize, Calls)] = &[
    (
        "run s --device d --blocks 94 --workers 2 --block 64 --heap 2 --memory 20000",
        16,
        1_500,
        Calls {
            library: 15,
            puts: 1,
        },
    ),
    (
        "run s --device d --blocks 94 --workers 2 --block 64 --heap 2 --memory 20000",
        16,
        3_000,
        Calls {
            library: 27,
            puts: 2,
        },
    ),
    (
        "sim r --device d --blocks 94 --workers 2 --block 64 --heap 2 --memory 20000 --until 18446744073709551615 --events 9999",
        24,
        950,
        Calls {
            library: 9,
            puts: 1,
        },
    ),
    (
        "sim r --device d --blocks 94 --workers 2 --block 64 --heap 2 --memory 20000 --until 18446744073709551615 --events 9999",
        24,
        1_900,
        Calls {
            library: 16,
            puts: 2,
        },
    ),
];

#[test]
fn many_records_are_read_and_put_by_pieces(rt: HostRuntime) {
    let alloc = rt.alloc();
    for (line, width, count, calls) in LONG {
        let record = repeated(&rt, alloc, b"", b"\xff", *width);
        let records = repeated(&rt, alloc, b"", &record, *count);
        let files = Files {
            script: b"bulk r\nbulk_pop 9999\n",
            records: &records,
        };
        makes(&rt, alloc, line, files, *calls);
    }
}

// How many nodes a graph without edges has, and in how many pieces of at most 4,096 bytes and more than 4,054 its lines
// are put. They have 3,490, 7,990 and 12,890 bytes.
const NODES: &[(u64, u64)] = &[(0, 1), (600, 1), (1_300, 2), (2_000, 4)];

#[test]
fn levels_are_put_by_pieces(rt: HostRuntime) {
    let alloc = rt.alloc();
    let files = Files {
        script: b"",
        records: b"",
    };
    for (nodes, puts) in NODES {
        let line = format!(in alloc;
            "sweep r --device d --blocks 760 --workers 2 --block 2 --heap 1 --memory 1104 --nodes {nodes}"
        );
        let line = line.expect(&rt, "memory");
        let calls = Calls {
            library: 1,
            puts: *puts,
        };
        makes(&rt, alloc, line.as_str(), files, calls);
    }
}
