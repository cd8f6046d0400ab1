//! Whole scripts over memory: what they write, and how they end.
use crate::memory::{SIZES, ends, gives, library_of, repeated, sink_in, words_in};
use ppq_cli::{End, OpenGate, run_twice};
use ppq_outside::{MemRack, Slot};

// Scripts, and what each of them writes.
const SCRIPTS: &[(&[u8], &[u8])] = &[
    // single records
    (b"push 5 1\npush 3 9\npop\n", b"3 9\n"),
    (
        b"push 18446744073709551615 18446744073709551615\npop\n",
        b"18446744073709551615 18446744073709551615\n",
    ),
    (
        b"push 7 7\npush 7 7\npush 7 6\npop\npop\npop\npop",
        b"7 6\n7 7\n7 7\nempty\n",
    ),
    (b"", b""),
    (b"pop\ntop\nsize\n", b"empty\nempty\n0\n"),
    (
        b"push 2 7\npush 1 8\ntop\nsize\npop\nsize\n",
        b"1 8\n2\n1 8\n1\n",
    ),
    (
        b"push 9 0\npush 8 0\npush 7 0\npush 6 0\npush 5 0\npush 4 0\npop\npop\npop\npop\npop\npop\n",
        b"4 0\n5 0\n6 0\n7 0\n8 0\n9 0\n",
    ),
    // lines of every form
    (b"#x\n\n   \n", b""),
    (b"push 1 2\r\n  pop  \r\n", b"1 2\n"),
    (b"push 00000000000000000001 2\npop\n", b"1 2\n"),
    (b"bulk e\nsize\n", b"0\n"),
    (b"bulk f\npop\npop\npop\n", b"3 9\n5 1\nempty\n"),
    (
        b"bulk sevens\nsize\npop\npop\npop\n",
        b"2\n7 7\n7 7\nempty\n",
    ),
    (b"gen 5 0\nsize\n", b"0\n"),
    (b"gen 1 1\npop\n", b"7806831264735756412 0\n"),
    (
        b"gen 1 2\ndrain 5\n",
        b"count 2 first 7806831264735756412 0 last 9396908728118811419 1 sum 17203739992854567831\n",
    ),
    (
        b"push 18446744073709551615 0\npush 2 0\ndrain 9\ndrain 1\n",
        b"count 2 first 2 0 last 18446744073709551615 0 sum 1\ncount 0\n",
    ),
    // the records of a bulk session join the others at its end
    (b"bulk_begin\n# none\n\nbulk_end\nsize\n", b"0\n"),
    (
        b"push 4 0\nbulk_begin\nbulk_push 0 3 0\nbulk_push 1 1 0\nbulk_push 0 4 0\nbulk_end\npop\npop\nsize\n",
        b"1 0\n3 0\n2\n",
    ),
    (
        b"push 5 0\nbulk_begin\nbulk_push 1 9 1\nbulk_push 0 2 2\nbulk_push 0 7 7\nbulk_push 0 5 0\nbulk_push 1 1 1\nbulk_push 1 8 0\nbulk_push 0 6 6\nbulk_end\npop\npop\npop\npop\npop\npop\npop\npop\npop\n",
        b"1 1\n2 2\n5 0\n5 0\n6 6\n7 7\n8 0\n9 1\nempty\n",
    ),
    (
        b"bulk_begin\nbulk_push 0 2 0\nbulk_end\npop\nbulk_begin\nbulk_push 1 1 0\nbulk_push 1 1 0\nbulk_end\nbulk sevens\ndrain 9\n",
        b"2 0\ncount 4 first 1 0 last 7 7 sum 16\n",
    ),
    // the records below the limit are popped in a limit session
    (b"limit_begin 0 0\n# none\n\nlimit_end\nsize\n", b"0\n"),
    (
        b"push 1 0\npush 4 0\nlimit_begin 4 0\nlimit_top\nlimit_push 1 4 0\nlimit_pop\nlimit_pop\nlimit_end\nbulk_pop 9\n",
        b"1 0\n1 0\nlimit\n4 0\n4 0\n",
    ),
    (
        b"push 3 9\npush 4 0\nlimit_begin 4 0\nlimit_push 0 4 0\nlimit_push 0 9 0\nlimit_pop\nlimit_push 0 7 0\nlimit_push 0 4 1\nlimit_push 0 8 0\nlimit_top\nlimit_end\nbulk_pop 9\n",
        b"3 9\nlimit\n4 0\n4 0\n4 1\n7 0\n8 0\n9 0\n",
    ),
    (
        b"bulk sevens\nlimit_begin 7 7\nlimit_pop\nlimit_push 0 7 8\nlimit_end\nlimit_begin 7 8\nlimit_pop\nlimit_pop\nlimit_pop\nlimit_end\npop\npop\n",
        b"limit\n7 7\n7 7\nlimit\n7 8\nempty\n",
    ),
    (
        b"limit_begin 4 0\nlimit_push 1 9 0\nlimit_end\nbulk_begin\nbulk_push 1 3 9\nbulk_end\nlimit_begin 4 0\nlimit_pop\nlimit_end\ndrain 9\n",
        b"3 9\ncount 1 first 9 0 last 9 0 sum 9\n",
    ),
];

#[test]
fn a_script_writes_what_one_multiset_writes(rt: HostRuntime) {
    for (script, output) in SCRIPTS {
        gives(&rt, rt.alloc(), SIZES, script, End::Done, output);
    }
}

// Scripts, and the first bad line of each.
const BAD: &[(&[u8], u32)] = &[
    // lines before a bad one
    (b"pop\npush 18446744073709551616 0\n", 2),
    (b"push 5 1\npop\npop\npush x 1\n", 4),
    // a byte
    (b"pop\r\r\n", 1),
    (b"push 000000000000000000001 2\n", 1),
    (b"\n# x\n\tpop\n", 3),
    (b"bulk f\nbulk f g\n", 2),
    // a line that may not stand in its place
    (b"pop\nbulk_push 0 1 1\n", 2),
    (b"bulk_begin\npop\nbulk_end\n", 2),
    (b"bulk_begin\nbulk f\nbulk_end\n", 2),
    (b"bulk_begin\nbulk_push 2 1 1\nbulk_end\n", 2),
    (b"bulk_begin", 2),
    (b"bulk_begin\n\n", 3),
    (b"limit_end\n", 1),
    (b"size\nlimit_begin 4 0\n", 3),
    // a line that may not stand in a limit session
    (
        b"push 1 0\nlimit_begin 4 0\nlimit_push 0 3 9\nlimit_end\n",
        3,
    ),
    (
        b"push 1 0\nlimit_begin 4 0\nlimit_push 2 5 0\nlimit_end\n",
        3,
    ),
    (b"pop\nlimit_begin 4 0\npop\nlimit_end\n", 3),
    (b"pop\nlimit_begin 4 0\nlimit_pop\nbulk_end\n", 4),
    (
        b"pop\nbulk_begin\nlimit_begin 4 0\nlimit_end\nbulk_end\n",
        3,
    ),
    // a file that cannot be used
    (b"bulk g\n", 1),
    (b"bulk long\n", 1),
    (b"bulk f\nbulk g\npush\n", 2),
    (b"push\nbulk f\nbulk g\n", 1),
];

#[test]
fn a_script_with_a_bad_line_writes_nothing_and_makes_no_block(rt: HostRuntime) {
    for (script, line) in BAD {
        let end = End::BadLine { line: *line };
        let used = gives(&rt, rt.alloc(), SIZES, script, end, b"");
        assert_eq!(rt; used.made, 0, "line {line}");
    }
}

// Scripts with a head, and what each of them writes.
const HEADED: &[(&[u8], &[u8])] = &[
    // the greatest record goes first
    (
        b"ppq 2 pair down\npush 1 1\npush 2 2\npop\nbulk_pop_limit 1 1 5\n",
        b"2 2\nall\n",
    ),
    // records of three numbers
    (
        b"ppq 2 triple up\npush 1 2 4\npush 1 2 3\ngen 1 1\ndrain 9\n",
        b"count 3 first 1 2 3 last 7806831264735756412 0 1 sum 7806831264735756414\n",
    ),
    (
        b"ppq 2 triple down\npush 1 2 4\npush 1 2 3\npush 1 3 0\ngen 1 1\nbulk_pop 3\ndrain 9\nsize\n",
        b"7806831264735756412 0 1\n1 3 0\n1 2 4\ncount 1 first 1 2 3 last 1 2 3 sum 1\n0\n",
    ),
    // a file of such records
    (
        b"ppq 2 triple up\nbulk triples\nbulk_pop 9\nsize\n",
        b"3 9 4\n5 1 2\n0\n",
    ),
    // the head that a script without one has
    (b"ppq 2 pair up\nbulk f\npop\npop\n", b"3 9\n5 1\n"),
    // sessions
    (
        b"ppq 2 triple up\npush 4 0 0\npush 4 0 1\nbulk_begin\nbulk_push 0 3 9 9\nbulk_push 1 1 0 5\nbulk_push 0 4 0 0\nbulk_push 1 1 0 4\nbulk_end\nlimit_begin 4 0 0\nlimit_pop\nlimit_push 1 4 0 0\nlimit_top\nlimit_pop\nlimit_pop\nlimit_pop\nlimit_end\nbulk_pop 9\n",
        b"1 0 4\n1 0 5\n1 0 5\n3 9 9\nlimit\n4 0 0\n4 0 0\n4 0 0\n4 0 1\n",
    ),
    (
        b"ppq 2 pair down\nlimit_begin 3 0\nlimit_push 0 2 9\nlimit_push 1 3 0\nlimit_pop\nlimit_end\npush 9 9\nlimit_begin 3 0\nlimit_pop\nlimit_pop\nlimit_end\nbulk_pop 9\n",
        b"limit\n9 9\nlimit\n3 0\n2 9\n",
    ),
    // spaces, and a carriage return
    (
        b"  ppq  2 pair   down \r\npush 1 1\npush 2 2\npop\n",
        b"2 2\n",
    ),
    (b"ppq 2 triple down", b""),
];

#[test]
fn a_head_names_the_records_and_their_order(rt: HostRuntime) {
    for (script, output) in HEADED {
        gives(&rt, rt.alloc(), SIZES, script, End::Done, output);
    }
}

// Scripts with a bad head or with other records than their head names, and the first bad line of each.
const BAD_HEADS: &[(&[u8], u32)] = &[
    // a head on another line, and of another version, kind or order
    (b"#x\nppq 2 pair up\n", 2),
    (b"ppq 2 pair up\nppq 2 pair up\n", 2),
    (b"ppq 3 pair up\n", 1),
    (b"ppq 2 quad up\n", 1),
    (b"ppq 2 pair\n", 1),
    (b"ppq 2 pair up down\n", 1),
    // records of another number of fields
    (b"ppq 2 triple up\npush 1 2\n", 2),
    (b"ppq 2 triple up\nbulk_pop_limit 1 2 3\n", 2),
    (b"ppq 2 pair down\npush 1 2 3\n", 2),
    (b"push 1 2 3\n", 1),
    // a file of 32 bytes is none of triples
    (b"ppq 2 triple up\nbulk f\n", 2),
    (b"ppq 2 triple up\nbulk e\nbulk long\n", 3),
    // a record that is before the limit in the order down
    (
        b"ppq 2 pair down\nlimit_begin 4 0\nlimit_push 0 5 0\nlimit_end\n",
        3,
    ),
];

#[test]
fn a_script_with_a_bad_head_writes_nothing_and_makes_no_block(rt: HostRuntime) {
    for (script, line) in BAD_HEADS {
        let end = End::BadLine { line: *line };
        let used = gives(&rt, rt.alloc(), SIZES, script, end, b"");
        assert_eq!(rt; used.made, 0, "line {line}");
    }
}

#[test]
fn a_script_has_at_most_1_048_576_bytes(rt: HostRuntime) {
    for (length, end) in [
        (1_048_576, End::BadLine { line: 1 }),
        (1_048_577, End::ScriptTooLong),
    ] {
        let script = repeated(&rt, rt.alloc(), b"", b"x", length);
        let used = gives(&rt, rt.alloc(), SIZES, &script, end, b"");
        assert_eq!(rt; used.made, 0);
    }
}

#[test]
fn a_script_of_1_048_576_bytes_is_executed(rt: HostRuntime) {
    let alloc = rt.alloc();
    let mut script = repeated(&rt, alloc, b"push 5 1\n#", b"x", 1_048_561);
    script.extend_from_slice(b"\npop\n").expect(&rt, "memory");
    assert_eq!(rt; script.len(), 1_048_576);
    gives(&rt, alloc, SIZES, &script, End::Done, b"5 1\n");
}

// Lines of words without a reading.
const REFUSED: &[&str] = &[
    "run",
    "run s",
    "run s --help",
    "walk s --device d --blocks 200 --workers 2 --block 2 --heap 1 --memory 372",
    "run s --device d --blocks 200 --workers 65 --block 2 --heap 1 --memory 372",
    "run s --device d --blocks 200 --workers 2 --block 2 --heap 1 --heap 1 --memory 372",
    "run t s --device d --blocks 200 --workers 2 --block 2 --heap 1 --memory 372",
    // stray hyphens
    "run -- s --device d --heap 1 --blocks 200 --workers 2 --block 2 --memory 372",
    "run s -- --device d --heap 1 --blocks 200 --workers 2 --block 2 --memory 372",
    "run s --device d --heap -1 --blocks 200 --workers 2 --block 2 --memory 372",
    "run s --device -d --heap 1 --blocks 200 --workers 2 --block 2 --memory 372",
    "run s --device=-d --heap 1 --blocks 200 --workers 2 --block 2 --memory 372",
    // the budget twice, or not at all, and another form
    "run s --device d --blocks 200 --workers 2 --block 2 --heap 1 --memory 372 --memory-bytes 5952",
    "run s --device d --blocks 200 --workers 2 --block 2 --heap 1",
    "run s --device d --blocks 200 --workers 2 --block 2 --heap 1 --memory 372 --form hex",
    "run s --device d --blocks 200 --workers 2 --block 2 --heap 1 --memory 372 --form text --form text",
    // no value
    "run s --device d --heap= --blocks 200 --workers 2 --block 2 --memory 372",
    "run  --device d --heap 1 --blocks 200 --workers 2 --block 2 --memory 372",
    "run --device d --heap 1 --blocks 200 --workers 2 --block 2 --memory 372",
];

#[test]
fn words_without_a_reading_are_usage_and_make_no_block(rt: HostRuntime) {
    for line in REFUSED {
        let used = gives(&rt, rt.alloc(), line, b"pop\n", End::Usage, b"");
        assert_eq!(rt; used.made, 0, "{line}");
    }
}

// A script that pushes by pass 2, which is the third.
const PASSES: &[u8] = b"push 6 0\nbulk_begin\nbulk_push 2 5 5\nbulk_push 0 7 7\nbulk_end\npop\n";

// A script of four records, of which three are popped.
const FOUR: &[u8] = b"push 5 1\npush 3 9\npush 5 1\npush 3 2\nbulk_pop 3\nsize\n";

// A script of which the third record is not in memory.
const THREE: &[u8] = b"push 6 0\npush 5 0\nsize\npush 4 0\npop\n";

// A device without blocks.
const NO_BLOCKS: &str = "run s --device d --blocks 0 --workers 1 --block 2 --heap 1 --memory 158";

// Words and scripts, how each ends, and what it writes.
const RUNS: &[(&str, &[u8], End, &[u8])] = &[
    // words in any order
    (
        "run s --device d --blocks=200 --workers 2 --block 2 --heap 1 --memory 372",
        b"push 3 9\npop\n",
        End::Done,
        b"3 9\n",
    ),
    (
        "run --heap 1 s --device d --blocks 200 --workers 2 --block 2 --memory 372",
        b"push 3 9\npop\n",
        End::Done,
        b"3 9\n",
    ),
    (
        "run --memory=372 --block=2 --workers=2 --heap=1 --blocks=200 --device=d s",
        b"push 3 9\npop\n",
        End::Done,
        b"3 9\n",
    ),
    // a budget in bytes
    (
        "run s --device d --blocks 200 --workers 2 --block 2 --heap 1 --memory-bytes 5952",
        FOUR,
        End::Done,
        b"3 2\n3 9\n5 1\n1\n",
    ),
    // the same answers as frames: three records and a size, 72 bytes
    (
        "run s --device d --blocks 200 --workers 2 --block 2 --heap 1 --memory 372 --form bytes",
        FOUR,
        End::Done,
        b"\0\0\0\x10\0\0\0\0\0\0\0\x03\0\0\0\0\0\0\0\x02\0\0\0\x10\0\0\0\0\0\0\0\x03\0\0\0\0\0\0\0\x09\0\0\0\x10\0\0\0\0\0\0\0\x05\0\0\0\0\0\0\0\x01\0\0\0\x08\0\0\0\0\0\0\0\x01",
    ),
    // a frame of a record of three numbers has 24 bytes
    (
        "run s --device d --blocks 200 --workers 2 --block 2 --heap 1 --memory 372 --form bytes",
        b"ppq 2 triple up\npush 1 2 3\npop\npop\n",
        End::Done,
        b"\0\0\0\x18\0\0\0\0\0\0\0\x01\0\0\0\0\0\0\0\x02\0\0\0\0\0\0\0\x03\0\0\0\x01e",
    ),
    // and what was drained of them one of 64
    (
        "run s --device d --blocks 200 --workers 2 --block 2 --heap 1 --memory 372 --form bytes",
        b"ppq 2 triple up\nbulk triples\ndrain 9\n",
        End::Done,
        b"\0\0\0\x40\0\0\0\0\0\0\0\x02\0\0\0\0\0\0\0\x03\0\0\0\0\0\0\0\x09\0\0\0\0\0\0\0\x04\0\0\0\0\0\0\0\x05\0\0\0\0\0\0\0\x01\0\0\0\0\0\0\0\x02\0\0\0\0\0\0\0\x08",
    ),
    // a pass is one of the workers
    (
        "run s --device d --blocks 200 --workers 2 --block 16 --heap 1 --memory 9999",
        PASSES,
        End::BadLine { line: 3 },
        b"",
    ),
    (
        "run s --device d --blocks 200 --workers 3 --block 16 --heap 1 --memory 9999",
        PASSES,
        End::Done,
        b"5 5\n",
    ),
    // a device without blocks is too small for three records, and for a limit session
    (NO_BLOCKS, THREE, End::NoFreeBlock, b"2\n"),
    (NO_BLOCKS, b"size\npush 1 0\npop\n", End::Done, b"0\n1 0\n"),
    (
        NO_BLOCKS,
        b"size\npush 1 0\nlimit_begin 4 0\nlimit_end\n",
        End::NoFreeBlock,
        b"0\n",
    ),
];

#[test]
fn a_script_is_executed_with_the_sizes_of_the_words(rt: HostRuntime) {
    for (line, script, end, output) in RUNS {
        gives(&rt, rt.alloc(), line, script, *end, output);
    }
}

#[test]
fn a_budget_below_its_fixed_part_makes_no_block(rt: HostRuntime) {
    let line = "run --memory=371 --heap=1 --block=2 s --workers 2 --device d --blocks 200";
    let end = End::BudgetTooSmall { need: 372 };
    let used = gives(&rt, rt.alloc(), line, b"pop\n", end, b"");
    assert_eq!(rt; used.made, 0);
    let line = "run --memory-bytes=5951 --heap=1 --block=2 s --workers 2 --device d --blocks 200";
    let end = End::BudgetTooSmall { need: 5952 };
    let used = gives(&rt, rt.alloc(), line, b"pop\n", end, b"");
    assert_eq!(rt; used.made, 0);
}

// A script of triples whose third record is not in memory.
const TRIPLES: &[u8] = b"ppq 2 triple down\npush 6 0 1\npush 5 0 2\npush 7 0 3\npop\nsize\n";

#[test]
fn a_budget_in_bytes_is_one_of_the_records_of_the_head(rt: HostRuntime) {
    let enough = "run s --device d --blocks 200 --workers 2 --block 2 --heap 1 --memory-bytes 8928";
    let used = gives(&rt, rt.alloc(), enough, TRIPLES, End::Done, b"7 0 3\n2\n");
    assert_eq!(rt; (used.made, used.written), (200, Some(0)));
    let below = "run s --device d --blocks 200 --workers 2 --block 2 --heap 1 --memory-bytes 8927";
    let end = End::BudgetTooSmall { need: 8928 };
    let used = gives(&rt, rt.alloc(), below, TRIPLES, end, b"");
    assert_eq!(rt; used.made, 0);
    let records = "run s --device d --blocks 200 --workers 2 --block 2 --heap 1 --memory 371";
    let end = End::BudgetTooSmall { need: 372 };
    gives(&rt, rt.alloc(), records, TRIPLES, end, b"");
}

#[test]
fn a_script_that_is_not_there_makes_no_block(rt: HostRuntime) {
    let line = "run t --device d --blocks 200 --workers 2 --block 2 --heap 1 --memory 372";
    let used = gives(&rt, rt.alloc(), line, b"pop\n", End::NoScript, b"");
    assert_eq!(rt; used.made, 0);
}

#[test]
fn a_bad_line_goes_before_a_budget_that_is_too_small(rt: HostRuntime) {
    let line = "run s --device d --blocks 200 --workers 2 --block 2 --heap 1 --memory-bytes 0";
    let script = b"ppq 2 triple up\npush 1 2\n";
    let used = gives(&rt, rt.alloc(), line, script, End::BadLine { line: 2 }, b"");
    assert_eq!(rt; used.made, 0);
}

#[test]
fn a_block_has_room_for_the_records_of_the_head(rt: HostRuntime) {
    let alloc = rt.alloc();
    let mut library = library_of(&rt, alloc, TRIPLES, 0);
    let (mut rack, mut sink) = (MemRack::new(), sink_in(&rt, alloc));
    let blocks = ends(
        &rt,
        alloc,
        SIZES,
        &mut library,
        &mut rack,
        &mut sink,
        End::Done,
        b"7 0 3\n2\n",
    );
    for block in &blocks {
        assert_eq!(rt; block.size(), 48);
    }
}

// The words of some other sizes.
const OTHER_SIZES: &[&str] = &[
    "run s --device d --blocks 380 --workers 2 --block 2 --heap 1 --memory 552",
    "run s --device d --blocks 380 --workers 1 --block 2 --heap 1 --memory 1000",
    "run s --device d --blocks 126 --workers 4 --block 16 --heap 4 --memory 1918",
    "run s --device d --blocks 94 --workers 3 --block 64 --heap 2 --memory 6300",
];

#[test]
fn the_output_is_the_same_whatever_the_sizes(rt: HostRuntime) {
    let drained = b"gen 7 300\npop\nbulk_pop 2\ndrain 1000\nsize\n";
    let drained_output =
        b"76765550444740708 186\n143378954699528280 190\n209643222594232427 67\ncount 297 first 256541034804199029 37 last 18382305389278802057 185 sum 962783541533869999\n0\n";
    let limited =
        b"gen 7 299\nlimit_begin 209643222594232427 67\nlimit_pop\nlimit_push 0 209643222594232427 68\nlimit_pop\nlimit_pop\nlimit_end\nbulk_pop 2\nsize\n";
    let limited_output =
        b"76765550444740708 186\n143378954699528280 190\nlimit\n209643222594232427 67\n209643222594232427 68\n296\n";
    for line in OTHER_SIZES {
        gives(&rt, rt.alloc(), line, drained, End::Done, drained_output);
        gives(&rt, rt.alloc(), line, limited, End::Done, limited_output);
    }
}

// Scripts that store a block, and what each of them writes.
const STORED: &[(&[u8], &[u8])] = &[
    // four records
    (
        b"push 5 1\npush 3 9\npush 5 1\npush 3 2\npop\npop\npop\npop\npop\n",
        b"3 2\n3 9\n5 1\n5 1\nempty\n",
    ),
    // the heap of a pass
    (
        b"bulk_begin\nbulk_push 1 2 0\nbulk_push 0 1 0\nbulk_push 1 2 0\nbulk_push 1 0 5\nbulk_end\nsize\nbulk_pop 4\n",
        b"4\n0 5\n1 0\n2 0\n2 0\n",
    ),
    // the records in front of a limit session, whose front is read from the block
    (
        b"push 1 0\npush 2 0\nlimit_begin 4 0\nlimit_pop\nlimit_end\n",
        b"1 0\n",
    ),
];

#[test]
fn a_block_is_written_where_a_heap_is_full(rt: HostRuntime) {
    for (script, output) in STORED {
        let used = gives(&rt, rt.alloc(), SIZES, script, End::Done, output);
        assert_eq!(rt; used.written, Some(0), "{script:?}");
    }
}

#[test]
fn two_thousand_equal_records_come_back(rt: HostRuntime) {
    let alloc = rt.alloc();
    let line = "run s --device d --blocks 2200 --workers 2 --block 2 --heap 1 --memory 2372";
    let script = b"bulk sevens\nbulk_pop 2000\n";
    let output = repeated(&rt, alloc, b"", b"7 7\n", 2_000);
    let mut library = library_of(&rt, alloc, script, 2_000);
    let (mut rack, mut sink) = (MemRack::new(), sink_in(&rt, alloc));
    ends(
        &rt,
        alloc,
        line,
        &mut library,
        &mut rack,
        &mut sink,
        End::Done,
        &output,
    );
}

#[test]
fn two_runs_with_sizes_of_their_own_write_the_same(rt: HostRuntime) {
    let alloc = rt.alloc();
    let script = b"push 9 0\npush 8 0\npush 7 0\npush 6 0\npush 5 0\npop\npop\npop\npop\npop\n";
    let other_line = "run s --device e --blocks 100 --workers 4 --block 4 --heap 2 --memory 1000";
    let mut library = library_of(&rt, alloc, script, 0);
    let (mut one, mut other) = (sink_in(&rt, alloc), sink_in(&rt, alloc));
    let (mut rack, mut other_rack) = (MemRack::new(), MemRack::new());
    let end = run_twice(
        &rt,
        alloc,
        &words_in(&rt, alloc, SIZES),
        &words_in(&rt, alloc, other_line),
        &mut library,
        &mut rack,
        &OpenGate,
        &mut one,
        &mut other_rack,
        &OpenGate,
        &mut other,
    );
    assert_eq!(rt; end, End::Done);
    assert_eq!(rt; one.bytes(), b"5 0\n6 0\n7 0\n8 0\n9 0\n".as_slice());
    assert_eq!(rt; other.bytes(), one.bytes());
    assert_eq!(rt; (rack.made().len(), other_rack.made().len()), (200, 100));
}

// Command lines of commands that are planned, and of none.
const PLANNED: &[&str] = &[
    "sweep",
    "sweep s --device d --workers 2 --block 2 --heap 1 --memory 372 --blocks 200",
    "Sim s",
    "simulate s",
    "",
];

#[test]
fn a_planned_command_is_usage_and_touches_nothing(rt: HostRuntime) {
    'planned: for line in PLANNED {
        let used = gives(&rt, rt.alloc(), line, b"push 1 2\npop\n", End::Usage, b"");
        assert_eq!(rt; used.made, 0, "{line}");
    }
}
