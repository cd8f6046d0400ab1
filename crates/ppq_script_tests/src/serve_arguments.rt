//! Words of the command `serve` with a reading, and words without.
use crate::arguments::words_of;
use ppq_words::{
    BudgetUnit, GivenSizes, ServeArguments, read_serve_words, read_sim_words, read_sweep_words,
    read_words, serve_words_mean,
};
use std::alloc::Global;
use std::process::Abort;

// Asserts that a line reads as the device `d` with this budget.
fn reads(rt: &impl Abort, alloc: Global, parts: &[&str], budget: (u64, BudgetUnit)) {
    let words = words_of(rt, alloc, parts);
    let given = GivenSizes::new(2, 2, 1, budget, 200).expect(rt, "numbers in range");
    let arguments = ServeArguments { device: "d", given };
    let is_read = match read_serve_words(alloc, &words) {
        Ok(found) => found == Some(arguments),
        Err(_) => false,
    };
    assert!(rt; is_read, "{parts:?}");
}

// Asserts that a line has no reading.
fn is_refused(rt: &impl Abort, alloc: Global, parts: &[&str]) {
    let words = words_of(rt, alloc, parts);
    let is_refused = matches!(read_serve_words(alloc, &words), Ok(None));
    assert!(rt; is_refused, "{parts:?}");
}

// Lines with the same reading, in two parts.
const ORDERS: &[(&str, &str)] = &[
    (
        "serve --device d --blocks=200 --workers 2",
        "--block 2 --heap 1 --memory 372",
    ),
    (
        "serve --memory=372 --heap 1 --device=d",
        "--blocks 200 --workers 2 --block 2",
    ),
    (
        "serve --blocks 0200 --workers 02 --device d",
        "--block 2 --heap 1 --memory 00000000000000000372",
    ),
];

#[test]
fn words_of_serve_are_read_in_any_order_and_form(rt: HostRuntime) {
    serve_words_mean();
    for (front, back) in ORDERS {
        reads(&rt, rt.alloc(), &[front, back], (372, BudgetUnit::Records));
    }
}

// The front of a line, of which the budget is left to say.
const FRONT: &str = "serve --device d --blocks 200 --workers 2 --block 2 --heap 1";

// Budgets at an end of their ranges, and how they are read.
const ENDS: &[(&str, u64, BudgetUnit)] = &[
    ("--memory 0", 0, BudgetUnit::Records),
    ("--memory 268435456", 268_435_456, BudgetUnit::Records),
    (
        "--memory-bytes=4294967296",
        4_294_967_296,
        BudgetUnit::Bytes,
    ),
];

// Of these none is what `serve` wants.
const BACKS: &[&str] = &[
    "--memory 268435457",
    "--memory 372 --memory 372",
    "--memory 372 --memory-bytes 5952",
    "--memory=",
    "--memory -1",
    // the options of `run`, `sim` and `sweep`
    "--memory 372 --form bytes",
    "--memory 372 --until 1000",
    "--memory 372 --nodes=5",
    // a word that stands alone
    "--memory 372 s.ppq",
    "--memory 372 --",
    "--memory 372 --help",
];

#[test]
fn the_budget_of_serve_stands_once_and_has_its_ends(rt: HostRuntime) {
    for (back, budget, unit) in ENDS {
        reads(&rt, rt.alloc(), &[FRONT, back], (*budget, *unit));
    }
    is_refused(&rt, rt.alloc(), &[FRONT]);
    for back in BACKS {
        is_refused(&rt, rt.alloc(), &[FRONT, back]);
    }
}

// Fronts of a line, of which the rest is good.
const FRONTS: &[&str] = &[
    // another command, or none
    "run s.ppq --device d",
    "SERVE --device d",
    "ppq-serve --device d",
    "--device d",
    // a word that stands alone
    "serve s.ppq --device d",
    "serve serve --device d",
    // no device, an empty one, two of them
    "serve",
    "serve --device=",
    "serve --device d --device d",
    "serve -d --device d",
];

#[test]
fn other_words_than_those_of_serve_are_refused(rt: HostRuntime) {
    let back = "--blocks=200 --workers 2 --block 2 --heap 1 --memory 372";
    for front in FRONTS {
        is_refused(&rt, rt.alloc(), &[front, back]);
    }
    // nor are words of `serve` words of another command
    let words = words_of(&rt, rt.alloc(), &[FRONT, "--memory 372"]);
    let is_refused = matches!(read_words(rt.alloc(), &words), Ok(None))
        && matches!(read_sim_words(rt.alloc(), &words), Ok(None))
        && matches!(read_sweep_words(rt.alloc(), &words), Ok(None));
    assert!(&rt; is_refused, "words of serve");
}
