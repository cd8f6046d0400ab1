//! Words of the command `sim` with a reading, and words without.
use crate::arguments::words_of;
use ppq_words::{BudgetUnit, GivenSizes, SimArguments, read_sim_words, read_words, sim_words_mean};
use std::alloc::Global;
use std::process::Abort;

// Asserts that a line reads as the agenda `a` and the device `d`, with this budget and these values of `--until` and
// `--events`.
fn reads(
    rt: &impl Abort,
    alloc: Global,
    parts: &[&str],
    budget: (u64, BudgetUnit),
    (until, events): (u64, u64),
) {
    let words = words_of(rt, alloc, parts);
    let given = GivenSizes::new(2, 2, 1, budget, 200).expect(rt, "numbers in range");
    let arguments = SimArguments {
        agenda: "a",
        device: "d",
        given,
        until,
        events,
    };
    let is_read = match read_sim_words(alloc, &words) {
        Ok(found) => found == Some(arguments),
        Err(_) => false,
    };
    assert!(rt; is_read, "{parts:?}");
}

// Asserts that a line has no reading.
fn is_refused(rt: &impl Abort, alloc: Global, parts: &[&str]) {
    let words = words_of(rt, alloc, parts);
    let is_refused = matches!(read_sim_words(alloc, &words), Ok(None));
    assert!(rt; is_refused, "{parts:?}");
}

// Lines with the same reading, in two parts.
const ORDERS: &[(&str, &str)] = &[
    (
        "sim a --device d --blocks=200 --workers 2",
        "--block 2 --heap 1 --memory 372 --until 1000 --events 5",
    ),
    (
        "sim --events=5 --heap 1 a --device d",
        "--blocks 200 --until=1000 --workers 2 --block 2 --memory 372",
    ),
    (
        "sim --until 1000 --memory=372 --heap=1",
        "--block=2 --workers=2 --blocks=200 --device=d --events 5 a",
    ),
    (
        "sim a --device d --blocks 0200 --workers 02",
        "--block 2 --heap 1 --memory 372 --until 00000000000000001000 --events 05",
    ),
];

#[test]
fn words_of_sim_are_read_in_any_order_and_form(rt: HostRuntime) {
    sim_words_mean();
    for (front, back) in ORDERS {
        let budget = (372, BudgetUnit::Records);
        reads(&rt, rt.alloc(), &[front, back], budget, (1000, 5));
    }
}

// The front of a line, of which the budget and the two options of `sim` are left to say.
const FRONT: &str = "sim a --device d --blocks 200 --workers 2 --block 2 --heap 1";

// Numbers at an end of their ranges, and how they are read.
const ENDS: &[(&str, u64, BudgetUnit, (u64, u64))] = &[
    (
        "--memory 0 --until 0 --events 0",
        0,
        BudgetUnit::Records,
        (0, 0),
    ),
    (
        "--memory-bytes 4294967296 --until=18446744073709551615 --events=4294967296",
        4_294_967_296,
        BudgetUnit::Bytes,
        (18_446_744_073_709_551_615, 4_294_967_296),
    ),
];

// Of these none is what `sim` wants.
const BACKS: &[&str] = &[
    // no `--until`, no `--events`, no budget
    "--memory 372 --events 5",
    "--memory 372 --until 1000",
    "--until 1000 --events 5",
    // one of them twice
    "--memory 372 --until 1000 --until 1000 --events 5",
    "--memory 372 --until 1000 --events 5 --events=5",
    "--memory 372 --memory-bytes 5952 --until 1000 --events 5",
    // 2^32 + 1, 2^64 and 2^64 + 5
    "--memory 372 --until 1000 --events 4294967297",
    "--memory 372 --until 18446744073709551616 --events 5",
    "--memory 372 --until 1000 --events 18446744073709551621",
    // no numbers
    "--memory 372 --until= --events 5",
    "--memory 372 --until -1 --events 5",
    "--memory 372 --until 1e3 --events 5",
    "--memory 372 --until 1000 --events +5",
    // 21 digits
    "--memory 372 --until 1000 --events 000000000000000000005",
    // the option of `run`
    "--memory 372 --until 1000 --events 5 --form text",
    "--memory 372 --until 1000 --events 5 --form=bytes",
];

#[test]
fn the_options_of_sim_stand_once_and_have_their_ends(rt: HostRuntime) {
    for (back, budget, unit, numbers) in ENDS {
        reads(&rt, rt.alloc(), &[FRONT, back], (*budget, *unit), *numbers);
    }
    for back in BACKS {
        is_refused(&rt, rt.alloc(), &[FRONT, back]);
    }
}

// Fronts of a line, of which the rest is good.
const FRONTS: &[&str] = &[
    // another command
    "run a --device d",
    "SIM a --device d",
    "a --device d",
    // no agenda, two of them
    "sim --device d",
    "sim a b --device d",
    // no device, an empty one
    "sim a",
    "sim a --device=",
    // words that begin with a hyphen
    "sim -a --device d",
    "sim a -- --device d",
    "sim a --device d --help",
];

#[test]
fn other_words_than_those_of_sim_are_refused(rt: HostRuntime) {
    let back = "--blocks=200 --workers 2 --block 2 --heap 1 --memory 372 --until 1000 --events 5";
    for front in FRONTS {
        is_refused(&rt, rt.alloc(), &[front, back]);
    }
    // nor are words of `sim` words of `run`
    let words = words_of(
        &rt,
        rt.alloc(),
        &[FRONT, "--memory 372 --until 1000 --events 5"],
    );
    let is_refused = matches!(read_words(rt.alloc(), &words), Ok(None));
    assert!(&rt; is_refused, "words of sim");
}
