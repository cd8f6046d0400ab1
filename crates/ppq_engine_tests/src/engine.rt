//! Runs of small scripts over small queues, and what they print.

use crate::runs::{File, NEVER, Outcome, outcome_in, outcome_of, plain};
use ppq_budget::Sizes;
use ppq_engine::{End, Form};
use ppq_outside::{Host, OpenGate};
use ppq_record::{Down, Fields, Pair, Triple};
use ppq_testkit::PairGate;
use std::alloc::Global;
use std::process::Abort;
use std::str;

// Two workers, two records a block, one block a heap, 200 blocks, and a budget without a buffer.
fn small() -> Option<Sizes> {
    Sizes::new(2, 2, 1, 372, 200)
}

// The run of this script ended so, and wrote this.
fn is_as<H: Host + Abort>(rt: &H, ran: Outcome, script: &str, end: End, wants: &str) {
    let wrote = str::from_utf8(&ran.wrote).expect(rt, "no text");
    if ran.end != end || wrote != wants {
        panic!(rt; "{script} ended with {:?}, and wrote {wrote}", ran.end);
    }
}

// A run of a script that reads no file, on a device that never fails, ends so and writes this.
fn prints<H: Host + Abort>(
    rt: &H,
    alloc: Global,
    sizes: Option<Sizes>,
    script: &str,
    end: End,
    wants: &str,
)
where
    H::Dir: Send,
{
    let ran = plain(rt, alloc, script.as_bytes(), sizes);
    is_as(rt, ran, script, end, wants);
}

#[test]
fn scripts_print_what_they_should(rt: HostRuntime) {
    let table = [
        // commands outside sessions
        ("", ""),
        ("pop\ntop\nsize\n", "empty\nempty\n0\n"),
        (
            "push 5 1\npush 3 9\npush 5 1\npush 3 2\nbulk_pop 3\nsize\n",
            "3 2\n3 9\n5 1\n1\n",
        ),
        (
            "push 18446744073709551615 18446744073709551615\npop\n",
            "18446744073709551615 18446744073709551615\n",
        ),
        (
            "push 2 2\npush 1 1\nbulk_pop 0\nbulk_pop 18446744073709551615\n",
            "1 1\n2 2\n",
        ),
        (
            "push 5 1\npush 3 9\npush 5 1\npush 3 2\nbulk_pop_limit 5 0 10\n",
            "3 2\n3 9\nall\n",
        ),
        (
            "push 5 1\npush 3 9\npush 5 1\npush 3 2\nbulk_pop_limit 5 0 1\n",
            "3 2\nmore\n",
        ),
        (
            "push 5 1\npush 3 9\npush 5 1\npush 3 2\nbulk_pop_limit 5 0 2\n",
            "3 2\n3 9\nall\n",
        ),
        (
            "push 5 1\npush 3 9\npush 5 1\npush 3 2\nbulk_pop_limit 5 0 0\nbulk_pop_limit 0 0 10\n",
            "more\nall\n",
        ),
        (
            "gen 1 1\npop\ngen 1 2\ndrain 5\n",
            "7806831264735756412 0\ncount 2 first 7806831264735756412 0 last 9396908728118811419 1 sum 17203739992854567831\n",
        ),
        (
            "push 18446744073709551615 0\npush 2 0\ndrain 9\ndrain 1\n",
            "count 2 first 2 0 last 18446744073709551615 0 sum 1\ncount 0\n",
        ),
        // records of bulk sessions join the multiset
        ("bulk_begin\nbulk_end\nsize\n", "0\n"),
        (
            "push 5 0\nbulk_begin\nbulk_push 1 3 0\nbulk_push 0 4 0\nbulk_end\nsize\nbulk_pop 9\n",
            "3\n3 0\n4 0\n5 0\n",
        ),
        (
            "bulk_begin\nbulk_push 1 9 0\nbulk_push 1 8 0\nbulk_push 1 7 0\nbulk_push 1 6 0\nbulk_push 1 5 0\nbulk_end\ntop\ndrain 9\n",
            "5 0\ncount 5 first 5 0 last 9 0 sum 35\n",
        ),
        (
            "bulk_begin\nbulk_push 0 2 0\nbulk_end\npop\nbulk_begin\nbulk_push 1 1 1\nbulk_push 0 1 0\nbulk_end\nbulk_pop 2\n",
            "2 0\n1 0\n1 1\n",
        ),
        (
            "gen 1 2\nbulk_begin\nbulk_push 0 18446744073709551615 7\nbulk_end\ndrain 9\n",
            "count 3 first 7806831264735756412 0 last 18446744073709551615 7 sum 17203739992854567830\n",
        ),
        (
            "bulk_begin\nbulk_push 0 3 0\nbulk_push 0 3 0\nbulk_end\nbulk_pop_limit 3 1 9\n",
            "3 0\n3 0\nall\n",
        ),
        // limit sessions pop below their limit
        (
            "push 1 0\npush 4 0\nlimit_begin 4 0\nlimit_top\nlimit_push 1 4 0\nlimit_pop\nlimit_pop\nlimit_end\nbulk_pop 9\n",
            "1 0\n1 0\nlimit\n4 0\n4 0\n",
        ),
        (
            "limit_begin 0 0\nlimit_top\nlimit_end\nsize\n",
            "limit\n0\n",
        ),
        (
            "push 3 1\npush 3 2\nlimit_begin 3 2\nlimit_pop\nlimit_pop\nlimit_end\npop\n",
            "3 1\nlimit\n3 2\n",
        ),
        (
            "gen 1 9\nlimit_begin 0 1\nlimit_push 0 5 0\nlimit_push 0 4 0\nlimit_push 0 3 0\nlimit_push 0 2 0\nlimit_push 0 1 0\nlimit_pop\nlimit_end\nbulk_pop 5\nsize\n",
            "limit\n1 0\n2 0\n3 0\n4 0\n5 0\n9\n",
        ),
        (
            "push 1 0\npush 2 0\npush 3 0\npush 4 0\npush 5 0\nlimit_begin 9 0\nlimit_pop\nlimit_push 1 9 0\nlimit_pop\nlimit_pop\nlimit_push 0 10 0\nlimit_pop\nlimit_pop\nlimit_pop\nlimit_end\ndrain 9\n",
            "1 0\n2 0\n3 0\n4 0\n5 0\nlimit\ncount 2 first 9 0 last 10 0 sum 19\n",
        ),
    ];
    for (script, wants) in table {
        prints(&rt, rt.alloc(), small(), script, End::Done, wants);
    }
}

#[test]
fn too_few_records_of_budget_or_blocks_end_the_run(rt: HostRuntime) {
    // workers, records of budget and blocks, with two records a block and one block a heap
    let table = [
        // a budget below its fixed part names its need
        (
            (2, 371, 200),
            "pop\n",
            End::BudgetTooSmall { need: 372 },
            "",
        ),
        // the third record finds no block without a device
        (
            (1, 158, 0),
            "size\npush 1 0\npush 2 0\npush 3 0\n",
            End::NoFreeBlock,
            "0\n",
        ),
        (
            (1, 158, 0),
            "push 2 0\npush 1 0\npop\npop\n",
            End::Done,
            "1 0\n2 0\n",
        ),
        // one record in a limit session wants a block
        (
            (1, 158, 0),
            "push 1 0\nlimit_begin 4 0\nlimit_end\n",
            End::NoFreeBlock,
            "",
        ),
        (
            (1, 158, 0),
            "size\npush 1 0\nlimit_begin 4 0\nlimit_end\n",
            End::NoFreeBlock,
            "0\n",
        ),
        // a batch prints its answers though a push was refused
        (
            (1, 159, 1),
            "push 1 0\nlimit_begin 4 0\nlimit_push 0 5 0\nlimit_push 0 6 0\nlimit_push 0 7 0\nlimit_pop\nlimit_end\n",
            End::NoFreeBlock,
            "1 0\n",
        ),
        // the fifth record finds no second block, with no more budget than is fixed
        (
            (2, 173, 1),
            "push 5 0\npush 4 0\npush 3 0\npush 2 0\npush 1 0\n",
            End::NoFreeBlock,
            "",
        ),
        (
            (2, 173, 1),
            "push 4 0\npush 3 0\npush 2 0\npush 1 0\nbulk_pop 5\n",
            End::Done,
            "1 0\n2 0\n3 0\n4 0\n",
        ),
    ];
    for ((workers, memory, blocks), script, end, wants) in table {
        let sizes = Sizes::new(workers, 2, 1, memory, blocks);
        prints(&rt, rt.alloc(), sizes, script, end, wants);
    }
}

#[test]
fn a_failed_call_of_a_block_ends_the_run_and_all_blocks_come_back(rt: HostRuntime) {
    let table = [
        // a write, and a read
        (
            1,
            "push 6 0\npush 5 0\npush 4 0\npush 3 0\npush 2 0\npush 1 0\nbulk_pop 6\n",
            "",
        ),
        (2, "push 1 0\npush 2 0\npush 3 0\nbulk_pop 3\n", ""),
        // the same of the store of a heap and of a refill
        (1, "push 6 0\npush 5 0\npush 4 0\npop\n", ""),
        (2, "push 1 0\npush 2 0\npush 3 0\npop\n", ""),
        // a read of the front in a limit session
        (
            2,
            "push 1 0\npush 2 0\npush 3 0\nlimit_begin 4 0\nlimit_pop\nlimit_pop\nlimit_end\n",
            "",
        ),
        // a write in a bulk session
        (
            1,
            "size\nbulk_begin\nbulk_push 0 1 0\nbulk_push 0 2 0\nbulk_push 0 3 0\nbulk_end\nsize\n",
            "0\n",
        ),
    ];
    for (call, script, wants) in table {
        let text = script.as_bytes();
        let ran = outcome_of(&rt, rt.alloc(), text, small(), File::of(0), call, &OpenGate);
        assert!(rt; ran.blocks == 200 && ran.faults == 1);
        is_as(&rt, ran, script, End::DeviceFault { number: 0 }, wants);
    }
}

// Scripts, and the frames that each of them writes.
const FRAMES: &[(&str, &[u8])] = &[
    ("push 1 2\nbulk_begin\nbulk_end\n", b""),
    ("pop\n", b"\0\0\0\x01e"),
    (
        "size\npush 1 2\nsize\n",
        b"\0\0\0\x08\0\0\0\0\0\0\0\0\0\0\0\x08\0\0\0\0\0\0\0\x01",
    ),
    (
        "push 258 18446744073709551615\ntop\n",
        b"\0\0\0\x10\0\0\0\0\0\0\x01\x02\xff\xff\xff\xff\xff\xff\xff\xff",
    ),
    (
        "push 2 3\npush 1 4\nbulk_pop_limit 2 0 9\nbulk_pop_limit 9 9 0\n",
        b"\0\0\0\x10\0\0\0\0\0\0\0\x01\0\0\0\0\0\0\0\x04\0\0\0\x01a\0\0\0\x01m",
    ),
    (
        "push 1 4\nlimit_begin 2 0\nlimit_top\nlimit_pop\nlimit_pop\nlimit_end\n",
        b"\0\0\0\x10\0\0\0\0\0\0\0\x01\0\0\0\0\0\0\0\x04\0\0\0\x10\0\0\0\0\0\0\0\x01\0\0\0\0\0\0\0\x04\0\0\0\x01l",
    ),
    ("drain 5\n", b"\0\0\0\x08\0\0\0\0\0\0\0\0"),
    // 2 records, of which the first is 2 7 and the last 18446744073709551615 1, and their sum is 1
    (
        "push 18446744073709551615 1\npush 2 7\ndrain 5\n",
        b"\0\0\0\x30\0\0\0\0\0\0\0\x02\0\0\0\0\0\0\0\x02\0\0\0\0\0\0\0\x07\xff\xff\xff\xff\xff\xff\xff\xff\0\0\0\0\0\0\0\x01\0\0\0\0\0\0\0\x01",
    ),
];

#[test]
fn in_the_form_of_bytes_each_answer_is_a_frame(rt: HostRuntime) {
    for (script, wants) in FRAMES {
        let text = script.as_bytes();
        let file = File::of(0);
        let ran = outcome_in::<HostRuntime, Pair, OpenGate>(
            &rt,
            rt.alloc(),
            text,
            small(),
            file,
            NEVER,
            &OpenGate,
            Form::Bytes,
        );
        assert!(rt; ran.end == End::Done, "{script}");
        assert_eq!(rt; ran.wrote.as_slice(), *wants, "{script}");
    }
}

// A run of a script with a head, about records of the type `R`, is done and writes this in this form.
fn kind_writes<H: Host + Abort, R: Fields + Send + Sync>(
    rt: &H,
    alloc: Global,
    form: Form,
    script: &str,
    wants: &[u8],
)
where
    H::Dir: Send,
{
    let text = script.as_bytes();
    let file = File::of(0);
    let ran = outcome_in::<H, R, OpenGate>(rt, alloc, text, small(), file, NEVER, &OpenGate, form);
    assert!(rt; ran.end == End::Done, "{script}");
    assert_eq!(rt; ran.wrote.as_slice(), wants, "{script}");
}

#[test]
fn records_of_each_kind_are_written_in_their_order_with_all_fields(rt: HostRuntime) {
    kind_writes::<HostRuntime, Down<Pair>>(
        &rt,
        rt.alloc(),
        Form::Text,
        "ppq 2 pair down\npush 1 1\npush 2 2\npop\nbulk_pop_limit 1 1 5\n",
        b"2 2\nall\n",
    );
    kind_writes::<HostRuntime, Triple>(
        &rt,
        rt.alloc(),
        Form::Text,
        "ppq 2 triple up\npush 1 2 4\npush 1 2 3\ngen 1 1\ndrain 9\n",
        b"count 3 first 1 2 3 last 7806831264735756412 0 1 sum 7806831264735756414\n",
    );
    kind_writes::<HostRuntime, Down<Triple>>(
        &rt,
        rt.alloc(),
        Form::Bytes,
        "ppq 2 triple down\npush 1 2 4\npush 1 3 0\ntop\n",
        b"\0\0\0\x18\0\0\0\0\0\0\0\x01\0\0\0\0\0\0\0\x03\0\0\0\0\0\0\0\0",
    );
}

// A run of a script with this file ends so and writes this.
fn reads<H: Host + Abort>(
    rt: &H,
    alloc: Global,
    sizes: Option<Sizes>,
    file: File,
    script: &str,
    end: End,
    wants: &str,
)
where
    H::Dir: Send,
{
    let ran = outcome_of(rt, alloc, script.as_bytes(), sizes, file, NEVER, &OpenGate);
    is_as(rt, ran, script, end, wants);
}

// Appends a line so many times.
fn repeat<H: Host + Abort>(rt: &H, text: &mut String, line: &str, count: usize) {
    for _ in 0..count {
        text.push_str(line).expect(rt, "no memory");
    }
}

// The lines of so many records `7 7`.
fn lines_of_sevens<H: Host + Abort>(rt: &H, alloc: Global, count: usize) -> String {
    let mut lines = String::new(alloc);
    repeat(rt, &mut lines, "7 7\n", count);
    lines
}

#[test]
fn records_of_a_file_are_pushed_and_come_back(rt: HostRuntime) {
    for count in [0, 1, 4, 5, 2_000] {
        let sizes = Sizes::new(2, 2, 1, 2_372, 2_200);
        let script = "bulk f\nbulk_pop 2000\n";
        let lines = lines_of_sevens(&rt, rt.alloc(), count);
        reads(
            &rt,
            rt.alloc(),
            sizes,
            File::of(count),
            script,
            End::Done,
            &lines,
        );
    }
}

#[test]
fn a_file_that_ended_early_or_a_failed_read_keeps_what_was_printed(rt: HostRuntime) {
    // the file is named by its line
    let file = File {
        records: 2,
        length: 16,
        call: NEVER,
    };
    let end = End::FileChanged {
        line: 2,
        said: 32,
        got: 16,
    };
    reads(&rt, rt.alloc(), small(), file, "size\nbulk f\n", end, "0\n");
    // the third call fails, behind the lengths for two commands
    let file = File {
        records: 3,
        length: u64::MAX,
        call: 3,
    };
    let script = "size\nbulk f\nbulk f\n";
    reads(
        &rt,
        rt.alloc(),
        small(),
        file,
        script,
        End::ReadFault,
        "0\n",
    );
}

#[test]
fn two_workers_add_records_at_once(rt: HostRuntime) {
    let table = [
        "bulk f\n",
        "gen 1 4\n",
        "bulk_begin\nbulk_push 0 1 0\nbulk_push 1 2 0\nbulk_end\n",
        "limit_begin 4 0\nlimit_push 0 5 0\nlimit_push 1 6 0\nlimit_end\n",
    ];
    for script in table {
        let gate = PairGate::new();
        let text = script.as_bytes();
        let ran = outcome_of(&rt, rt.alloc(), text, small(), File::of(4), NEVER, &gate);
        assert!(rt; gate.is_passed());
        is_as(&rt, ran, script, End::Done, "");
    }
}

// A script of a first line, one that stands there twenty times, and a last one.
fn twenty<H: Host + Abort>(rt: &H, alloc: Global, first: &str, line: &str, last: &str) -> String {
    let mut text = first.to_string(alloc).expect(rt, "no memory");
    repeat(rt, &mut text, line, 20);
    text.push_str(last).expect(rt, "no memory");
    text
}

#[test]
fn twenty_records_go_to_the_passes_in_three_batches_and_generated_ones_in_one(rt: HostRuntime) {
    let table = [
        ("bulk f\n", "", "", 3),
        // each worker makes its records by itself
        ("gen 1 20\n", "", "", 1),
        ("bulk_begin\n", "bulk_push 1 5 0\n", "bulk_end\n", 3),
        ("limit_begin 4 0\n", "limit_push 0 5 0\n", "limit_end\n", 3),
    ];
    for (first, line, last, batches) in table {
        let script = twenty(&rt, rt.alloc(), first, line, last);
        let gate = PairGate::new();
        let sizes = Sizes::new(2, 4, 8, 2_000, 200);
        let text = script.as_bytes();
        let ran = outcome_of(&rt, rt.alloc(), text, sizes, File::of(20), NEVER, &gate);
        is_as(&rt, ran, script.as_str(), End::Done, "");
        // a batch is a block of 4 records for each of 2 workers, and each worker enters once a batch
        assert_eq!(rt; gate.entered(), 2 * batches, "{script}");
    }
}

#[test]
fn records_are_popped_by_rounds_of_a_block_for_each_worker(rt: HostRuntime) {
    let script = "bulk f\ndrain 999\n";
    let gate = PairGate::new();
    let sizes = Sizes::new(2, 16, 1, 1_500, 100);
    let text = script.as_bytes();
    let ran = outcome_of(&rt, rt.alloc(), text, sizes, File::of(128), NEVER, &gate);
    let output = "count 128 first 7 7 last 7 7 sum 896\n";
    is_as(&rt, ran, script, End::Done, output);
    // 2 workers enter in front of each of 4 pieces of 32 records, and in front of each merge of as many for a round: at most
    // 4, and one that finds no more
    assert!(rt; gate.entered() <= 2 * 4 + 2 * 5, "{}", gate.entered());
}
