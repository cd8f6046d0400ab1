//! Words with a reading, and words without.
use ppq_words::{BudgetUnit, Form, GivenSizes, RunArguments, read_words, words_mean};
use std::alloc::Global;
use std::process::Abort;

// The words of the parts of a line; single spaces part them.
pub(crate) fn words_of(rt: &impl Abort, alloc: Global, parts: &[&str]) -> Vec<String> {
    let mut words = Vec::new(alloc);
    for part in parts {
        for word in part.split(' ') {
            let word = word.to_owned(alloc).expect(rt, "memory");
            words.push(word).expect(rt, "memory");
        }
    }
    words
}

// Asserts that a line reads as these names, script and device, with these numbers and this form.
fn reads<'a>(
    rt: &impl Abort,
    alloc: Global,
    parts: &[&str],
    (script, device): (&'a str, &'a str),
    given: GivenSizes,
    form: Form,
) {
    let words = words_of(rt, alloc, parts);
    let arguments = RunArguments {
        script,
        device,
        given,
        form,
    };
    let is_read = match read_words(alloc, &words) {
        Ok(found) => found == Some(arguments),
        Err(_) => false,
    };
    assert!(rt; is_read, "{parts:?}");
}

// Asserts that a line reads as these names and numbers, which are in range, with a budget in records and the form
// of text.
fn reads_as<'a>(
    rt: &impl Abort,
    alloc: Global,
    parts: &[&str],
    script: &'a str,
    device: &'a str,
    (workers, block, heap, memory, blocks): (u32, u32, u32, u64, u32),
) {
    let budget = (memory, BudgetUnit::Records);
    let given = GivenSizes::new(workers, block, heap, budget, blocks).expect(
        rt,
        "numbers in range",
    );
    reads(rt, alloc, parts, (script, device), given, Form::Text);
}

// Asserts that a line has no reading.
fn is_refused(rt: &impl Abort, alloc: Global, parts: &[&str]) {
    let words = words_of(rt, alloc, parts);
    let is_refused = matches!(read_words(alloc, &words), Ok(None));
    assert!(rt; is_refused, "{parts:?}");
}

// Lines with the same reading, in two parts.
const ORDERS: &[(&str, &str)] = &[
    (
        "run s.ppq --device d",
        "--blocks=200 --workers 2 --block 2 --heap 1 --memory 372",
    ),
    (
        "run --heap 1 s.ppq",
        "--device d --blocks 200 --workers 2 --block 2 --memory 372",
    ),
    (
        "run --memory=372 --heap=1",
        "--block=2 --workers=2 --blocks=200 --device=d s.ppq",
    ),
    (
        "run --device d",
        "--blocks 200 s.ppq --workers=2 --block=2 --heap=1 --memory 372",
    ),
    (
        "run s.ppq --device d",
        "--blocks 0200 --workers 02 --block 2 --heap 1 --memory 00000000000000000372",
    ),
];

#[test]
fn words_are_read_in_any_order_and_form(rt: HostRuntime) {
    words_mean();
    for (front, back) in ORDERS {
        let sizes = (2, 2, 1, 372, 200);
        reads_as(&rt, rt.alloc(), &[front, back], "s.ppq", "d", sizes);
    }
}

// The front of a line, and the script and the device that it names.
const NAMES: &[(&str, &str, &str)] = &[
    ("run run --device=run", "run", "run"),
    ("run a=b --device=heap=1", "a=b", "heap=1"),
    ("run s-t --device==-d", "s-t", "=-d"),
    ("run SCRIPT --device=SCRIPT", "SCRIPT", "SCRIPT"),
    ("run ä --device=ü", "ä", "ü"),
];

#[test]
fn names_may_be_any_text_that_begins_with_no_hyphen(rt: HostRuntime) {
    for (front, script, device) in NAMES {
        let back = "--blocks 200 --workers 2 --block 2 --heap 1 --memory 372";
        let sizes = (2, 2, 1, 372, 200);
        reads_as(&rt, rt.alloc(), &[front, back], script, device, sizes);
    }
}

// Sizes at an end of each range, and how they are read.
const ENDS: &[(&str, (u32, u32, u32, u64, u32))] = &[
    (
        "--workers 1 --block 2 --heap 1 --memory 0 --blocks 0",
        (1, 2, 1, 0, 0),
    ),
    (
        "--workers 64 --block 65536 --heap 64 --memory 268435456 --blocks 65536",
        (64, 65_536, 64, 268_435_456, 65_536),
    ),
];

// Sizes of which one is out of its range.
const BEYOND: &[&str] = &[
    "--workers 0 --block 2 --heap 1 --memory 0 --blocks 0",
    "--workers 65 --block 2 --heap 1 --memory 0 --blocks 0",
    "--workers 1 --block 1 --heap 1 --memory 0 --blocks 0",
    "--workers 1 --block 65537 --heap 1 --memory 0 --blocks 0",
    "--workers 1 --block 2 --heap 0 --memory 0 --blocks 0",
    "--workers 1 --block 2 --heap 65 --memory 0 --blocks 0",
    "--workers 1 --block 2 --heap 1 --memory 268435457 --blocks 0",
    "--workers 1 --block 2 --heap 1 --memory 0 --blocks 65537",
    // 2^32 + 1 is 1 in 32 bits
    "--workers 4294967297 --block 2 --heap 1 --memory 0 --blocks 0",
    "--workers 1 --block 4294967298 --heap 1 --memory 0 --blocks 0",
    "--workers 1 --block 2 --heap 4294967297 --memory 0 --blocks 0",
    "--workers 1 --block 2 --heap 1 --memory 0 --blocks 4294967296",
];

#[test]
fn each_number_of_the_arguments_has_its_two_ends(rt: HostRuntime) {
    for (back, sizes) in ENDS {
        let parts = ["run s --device d", back];
        reads_as(&rt, rt.alloc(), &parts, "s", "d", *sizes);
    }
    for back in BEYOND {
        is_refused(&rt, rt.alloc(), &["run s --device d", back]);
    }
}

// Ways to say the budget and the form, with the budget, its unit, and the form.
const BUDGETS: &[(&str, u64, BudgetUnit, Form)] = &[
    ("--memory 372", 372, BudgetUnit::Records, Form::Text),
    (
        "--memory 372 --form text",
        372,
        BudgetUnit::Records,
        Form::Text,
    ),
    (
        "--form=bytes --memory=372",
        372,
        BudgetUnit::Records,
        Form::Bytes,
    ),
    ("--memory-bytes 5952", 5952, BudgetUnit::Bytes, Form::Text),
    (
        "--memory-bytes=5967 --form bytes",
        5967,
        BudgetUnit::Bytes,
        Form::Bytes,
    ),
    (
        "--form text --memory-bytes 0",
        0,
        BudgetUnit::Bytes,
        Form::Text,
    ),
    (
        "--memory-bytes 4294967296",
        4294967296,
        BudgetUnit::Bytes,
        Form::Text,
    ),
];

// Of these none is one.
const NO_BUDGETS: &[&str] = &[
    "",
    "--form text",
    "--memory 372 --memory-bytes 5952",
    "--memory-bytes=5952 --memory=372",
    "--memory-bytes 5952 --memory-bytes 5952",
    "--memory-bytes 4294967297",
    "--memory-bytes 4294967311",
    "--memory-bytes 5952k",
    "--memory-byte 5952",
    "--memory 372 --form hex",
    "--memory 372 --form=",
    "--memory 372 --form Text",
    "--memory 372 --form",
    "--memory 372 --form text --form text",
    "--memory 372 --form=bytes --form=text",
    "--memory 372 --forms text",
];

#[test]
fn the_budget_is_in_records_or_in_bytes_and_the_form_may_be_said(rt: HostRuntime) {
    let front = "run s --device d --blocks 200 --workers 2 --block 2 --heap 1";
    for (back, budget, unit, form) in BUDGETS {
        let given = GivenSizes::new(2, 2, 1, (*budget, *unit), 200).expect(&rt, "numbers in range");
        reads(&rt, rt.alloc(), &[front, back], ("s", "d"), given, *form);
    }
    for back in NO_BUDGETS {
        is_refused(&rt, rt.alloc(), &[front, back]);
    }
}

// Budgets, the width of a record in bytes, and how many records the queue has.
const MEMORIES: &[(u64, BudgetUnit, u64, u64)] = &[
    (372, BudgetUnit::Records, 16, 372),
    (372, BudgetUnit::Records, 24, 372),
    // what is left of the bytes does not count
    (5951, BudgetUnit::Bytes, 16, 371),
    (5952, BudgetUnit::Bytes, 16, 372),
    (5967, BudgetUnit::Bytes, 16, 372),
    (5951, BudgetUnit::Bytes, 24, 247),
    (5952, BudgetUnit::Bytes, 24, 248),
    (5975, BudgetUnit::Bytes, 24, 248),
    (15, BudgetUnit::Bytes, 16, 0),
    (23, BudgetUnit::Bytes, 24, 0),
    (4294967296, BudgetUnit::Bytes, 16, 268_435_456),
    (4294967296, BudgetUnit::Bytes, 24, 178_956_970),
];

#[test]
fn a_budget_in_bytes_is_as_many_records_as_fit(rt: HostRuntime) {
    for (budget, unit, width, memory) in MEMORIES {
        let given = GivenSizes::new(2, 2, 1, (*budget, *unit), 200).expect(&rt, "numbers in range");
        let width = (*width).max(16);
        let sizes = given.for_width(width);
        assert!(&rt;
            sizes.memory() == *memory && sizes.workers() == given.workers(),
            "{budget}"
        );
    }
    // a queue that needs 372 records says so in the unit of the budget
    assert_eq!(&rt; BudgetUnit::Records.amount(372, 24), 372);
    assert_eq!(&rt; BudgetUnit::Bytes.amount(372, 24), 8928);
}

// Values that are no number, each apart from its option and joined.
const NO_NUMBERS: &[&str] = &[
    "--memory ",
    "--memory=",
    "--memory +372",
    "--memory=+372",
    "--memory -372",
    "--memory=-372",
    "--memory 0x174",
    "--memory=0x174",
    "--memory 3_72",
    "--memory=3_72",
    "--memory 372.",
    "--memory=372.",
    "--memory 372k",
    "--memory=372k",
    "--memory =372",
    "--memory==372",
    // 21 digits
    "--memory 000000000000000000372",
    "--memory=000000000000000000372",
    // 2^64 and 2^64 + 372
    "--memory 18446744073709551616",
    "--memory=18446744073709551616",
    "--memory 18446744073709551988",
    "--memory=18446744073709551988",
];

#[test]
fn a_number_is_1_to_20_digits_of_64_bits(rt: HostRuntime) {
    for back in NO_NUMBERS {
        let front = "run s --device d --blocks 200 --workers 2 --block 2 --heap 1";
        is_refused(&rt, rt.alloc(), &[front, back]);
    }
}

// All options but one.
const ONE_MISSING: &[&str] = &[
    "--blocks=200 --workers=2 --block=2 --heap=1 --memory=372",
    "--device=d --workers=2 --block=2 --heap=1 --memory=372",
    "--device=d --blocks=200 --block=2 --heap=1 --memory=372",
    "--device=d --blocks=200 --workers=2 --heap=1 --memory=372",
    "--device=d --blocks=200 --workers=2 --block=2 --memory=372",
    "--device=d --blocks=200 --workers=2 --block=2 --heap=1",
];

#[test]
fn each_option_is_needed(rt: HostRuntime) {
    for back in ONE_MISSING {
        is_refused(&rt, rt.alloc(), &["run s", back]);
    }
}

// Whole lines.
const REFUSED: &[&str] = &[
    "",
    "run",
    "run s",
    "run s --help",
    "run s --version",
    "help",
    "run help",
    "--help",
];

// Fronts of a line, of which the rest is good.
const FRONTS: &[&str] = &[
    // another command
    "ran s --device d",
    "RUN s --device d",
    "s --device d",
    // no script, two scripts, an empty one
    "run --device d",
    "run s t --device d",
    "run run s --device d",
    "run  --device d",
    // no device, an empty one, two
    "run s",
    "run s --device=",
    "run s --device ",
    "run s --device d --device d",
    // an option that is there already
    "run s --device d --heap 1",
    "run s --device d --heap=1",
    // words that begin with a hyphen
    "run -- s --device d",
    "run s -- --device d",
    "run s --device d -",
    "run s --device d -h",
    "run s --device d --help",
    "run s --device d --shape text",
    "run -s --device d",
    "run - --device d",
    "run s --device -d",
    "run s --device=-d",
    "run s --device --",
    "run s --device=--",
    // a name that is cut short, or too long, or of another case
    "run s --dev d",
    "run s --devices d",
    "run s --Device d",
    "run s -device d",
    "run s device d",
    "run s --SCRIPT t --device d",
];

#[test]
fn other_words_are_refused(rt: HostRuntime) {
    for line in REFUSED {
        is_refused(&rt, rt.alloc(), &[line]);
    }
    for front in FRONTS {
        let back = "--blocks=200 --workers 2 --block 2 --heap 1 --memory 372";
        is_refused(&rt, rt.alloc(), &[front, back]);
    }
}
