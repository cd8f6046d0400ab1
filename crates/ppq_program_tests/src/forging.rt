//! Scripts over a device that gives back other bytes than were written: how many records there are stays right.
use crate::memory::{SIZES, library_of, run, sink_in};
use ppq_cli::End;
use ppq_outside::{Host, MemRack};
use std::alloc::Global;
use std::process::Abort;
use std::str;

// What stands in a text for a line of two numbers.
const RECORD: &str = "K V";

// Whether a line has two numbers and nothing else.
fn is_record(line: &str) -> bool {
    let mut numbers = 0u32;
    for field in line.split(' ') {
        if field.parse::<u64>().is_err() {
            return false;
        }
        numbers = numbers.saturating_add(1);
    }
    numbers == 2
}

// Whether a text has just the lines of a pattern, where `K V` is a line of two numbers.
fn is_like(text: &str, pattern: &str) -> bool {
    let mut lines = text.split('\n');
    for wanted in pattern.split('\n') {
        match lines.next() {
            Some(line) => {
                if line != wanted && !(wanted == RECORD && is_record(line)) {
                    return false;
                }
            }
            None => return false,
        }
    }
    lines.next().is_none()
}

// Whether a text has this line.
fn has_line(text: &str, wanted: &str) -> bool {
    for line in text.split('\n') {
        if line == wanted {
            return true;
        }
    }
    false
}

// What a script writes over a device that forges, where it is done.
fn written<H: Host + Abort>(rt: &H, alloc: Global, script: &[u8]) -> Vec<u8>
where
    H::Dir: Send,
{
    let mut library = library_of(rt, alloc, script, 2);
    let mut rack = MemRack::forging(1);
    let mut sink = sink_in(rt, alloc);
    let ended = run(rt, alloc, SIZES, &mut library, &mut rack, &mut sink);
    assert_eq!(rt; ended.end, End::Done);
    sink.bytes().to_vec(alloc).expect(rt, "memory")
}

// Scripts, and the lines that each of them writes.
const SCRIPTS: &[(&[u8], &str)] = &[
    // a bulk session in which both passes store runs, and pops of all
    (
        b"push 6 0\npush 5 0\npush 4 0\nbulk_begin\nbulk_push 1 9 0\nbulk_push 0 8 0\nbulk_push 1 7 0\nbulk_push 1 9 1\nbulk_push 0 2 0\nbulk_push 0 3 0\nbulk_end\nsize\nbulk_pop 4\nsize\nbulk_pop 99\nsize\npop\ntop\n",
        "9\nK V\nK V\nK V\nK V\n5\nK V\nK V\nK V\nK V\nK V\n0\nempty\nempty\n",
    ),
    // a limit session in which the front pops three records, and the passes take four
    (
        b"push 6 0\npush 5 0\npush 4 0\npush 3 0\npush 2 0\npush 1 0\nlimit_begin 18446744073709551615 0\nlimit_pop\nlimit_push 1 18446744073709551615 1\nlimit_push 1 18446744073709551615 2\nlimit_push 1 18446744073709551615 3\nlimit_push 0 18446744073709551615 4\nlimit_pop\nlimit_pop\nlimit_end\nsize\nbulk_pop 99\nsize\n",
        "K V\nK V\nK V\n7\nK V\nK V\nK V\nK V\nK V\nK V\nK V\n0\n",
    ),
    // a file and generated records, with runs of several blocks
    (
        b"bulk sevens\ngen 1 8\nsize\npop\nsize\nbulk_pop 99\nsize\n",
        "10\nK V\n9\nK V\nK V\nK V\nK V\nK V\nK V\nK V\nK V\nK V\n0\n",
    ),
];

#[test]
fn as_many_records_come_out_as_went_in(rt: HostRuntime) {
    for (script, lines) in SCRIPTS {
        let wrote = written(&rt, rt.alloc(), script);
        let text = str::from_utf8(&wrote).expect(&rt, "a text");
        assert!(rt; is_like(text, lines), "{text}");
    }
}

// A heap holds two records: block 0 was given 5 and 6, block 1 was given 3 and 4, and the heap holds 1 and 2.
#[test]
fn a_record_that_was_given_to_a_block_alone_does_not_come_back(rt: HostRuntime) {
    let script =
        b"push 6 0\npush 5 0\npush 4 0\npush 3 0\npush 2 0\npush 1 0\nsize\nbulk_pop 6\nsize\n";
    let wrote = written(&rt, rt.alloc(), script);
    let text = str::from_utf8(&wrote).expect(&rt, "a text");
    assert!(rt;
        is_like(text, "6\nK V\nK V\nK V\nK V\nK V\nK V\n0\n"),
        "{text}"
    );
    assert!(rt; has_line(text, "1 0") & has_line(text, "2 0"));
    assert!(rt; !has_line(text, "4 0") & !has_line(text, "6 0"));
}
