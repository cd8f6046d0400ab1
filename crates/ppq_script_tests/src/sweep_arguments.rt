//! Words of the command `sweep` with a reading, and words without.
use crate::arguments::words_of;
use ppq_words::{
    BudgetUnit, GivenSizes, SweepArguments, read_sim_words, read_sweep_words, read_words,
    sweep_words_mean,
};
use std::alloc::Global;
use std::process::Abort;

// Asserts that a line reads as the edges `e` and the device `d`, with this budget and this value of `--nodes`.
fn reads(rt: &impl Abort, alloc: Global, parts: &[&str], budget: (u64, BudgetUnit), nodes: u64) {
    let words = words_of(rt, alloc, parts);
    let given = GivenSizes::new(2, 2, 1, budget, 200).expect(rt, "numbers in range");
    let arguments = SweepArguments {
        edges: "e",
        device: "d",
        given,
        nodes,
    };
    let is_read = match read_sweep_words(alloc, &words) {
        Ok(found) => found == Some(arguments),
        Err(_) => false,
    };
    assert!(rt; is_read, "{parts:?}");
}

// Asserts that a line has no reading.
fn is_refused(rt: &impl Abort, alloc: Global, parts: &[&str]) {
    let words = words_of(rt, alloc, parts);
    let is_refused = matches!(read_sweep_words(alloc, &words), Ok(None));
    assert!(rt; is_refused, "{parts:?}");
}

// Lines with the same reading, in two parts.
const ORDERS: &[(&str, &str)] = &[
    (
        "sweep e --device d --blocks=200 --workers 2",
        "--block 2 --heap 1 --memory 372 --nodes 1000",
    ),
    (
        "sweep --nodes=1000 --heap 1 e --device d",
        "--blocks 200 --workers 2 --block 2 --memory 372",
    ),
    (
        "sweep --memory=372 --heap=1",
        "--block=2 --workers=2 --blocks=200 --device=d --nodes 1000 e",
    ),
    (
        "sweep e --device d --blocks 0200 --workers 02",
        "--block 2 --heap 1 --memory 372 --nodes 00000000000000001000",
    ),
];

#[test]
fn words_of_sweep_are_read_in_any_order_and_form(rt: HostRuntime) {
    sweep_words_mean();
    for (front, back) in ORDERS {
        let budget = (372, BudgetUnit::Records);
        reads(&rt, rt.alloc(), &[front, back], budget, 1000);
    }
}

// The front of a line, of which the budget and the option of `sweep` are left to say.
const FRONT: &str = "sweep e --device d --blocks 200 --workers 2 --block 2 --heap 1";

// Numbers at an end of their ranges, and how they are read.
const ENDS: &[(&str, u64, BudgetUnit, u64)] = &[
    ("--memory 0 --nodes 0", 0, BudgetUnit::Records, 0),
    (
        "--memory-bytes 4294967296 --nodes=4294967296",
        4_294_967_296,
        BudgetUnit::Bytes,
        4_294_967_296,
    ),
];

// Of these none is what `sweep` wants.
const BACKS: &[&str] = &[
    // no `--nodes`, no budget
    "--memory 372",
    "--nodes 1000",
    // one of them twice
    "--memory 372 --nodes 1000 --nodes 1000",
    "--memory 372 --nodes 1000 --nodes=1000",
    "--memory 372 --memory-bytes 5952 --nodes 1000",
    // 2^32 + 1, and 2^64 + 5
    "--memory 372 --nodes 4294967297",
    "--memory 372 --nodes 18446744073709551621",
    // no numbers
    "--memory 372 --nodes=",
    "--memory 372 --nodes -1",
    "--memory 372 --nodes 1e3",
    "--memory 372 --nodes +5",
    // 21 digits
    "--memory 372 --nodes 000000000000000000005",
    // the options of `run` and of `sim`
    "--memory 372 --nodes 1000 --form text",
    "--memory 372 --nodes 1000 --until 1000",
    "--memory 372 --nodes 1000 --events=5",
];

#[test]
fn the_option_of_sweep_stands_once_and_has_its_ends(rt: HostRuntime) {
    for (back, budget, unit, nodes) in ENDS {
        reads(&rt, rt.alloc(), &[FRONT, back], (*budget, *unit), *nodes);
    }
    for back in BACKS {
        is_refused(&rt, rt.alloc(), &[FRONT, back]);
    }
}

// Fronts of a line, of which the rest is good.
const FRONTS: &[&str] = &[
    // another command
    "run e --device d",
    "sim e --device d",
    "SWEEP e --device d",
    "e --device d",
    // no edges, two of them
    "sweep --device d",
    "sweep e f --device d",
    // no device, an empty one
    "sweep e",
    "sweep e --device=",
    // words that begin with a hyphen
    "sweep -e --device d",
    "sweep e -- --device d",
    "sweep e --device d --help",
];

#[test]
fn other_words_than_those_of_sweep_are_refused(rt: HostRuntime) {
    let back = "--blocks=200 --workers 2 --block 2 --heap 1 --memory 372 --nodes 1000";
    for front in FRONTS {
        is_refused(&rt, rt.alloc(), &[front, back]);
    }
    // nor are words of `sweep` words of `run` or of `sim`
    let words = words_of(&rt, rt.alloc(), &[FRONT, "--memory 372 --nodes 1000"]);
    let is_refused = matches!(read_words(rt.alloc(), &words), Ok(None))
        && matches!(read_sim_words(rt.alloc(), &words), Ok(None));
    assert!(&rt; is_refused, "words of sweep");
}

// Budgets and blocks, the width of the records, and the half of the records and of the blocks that each of two
// queues has.
const HALVES: &[((u64, BudgetUnit), u32, u64, (u64, u32))] = &[
    ((744, BudgetUnit::Records), 200, 16, (372, 100)),
    ((745, BudgetUnit::Records), 201, 24, (372, 100)),
    // 31 records of 24 bytes fit
    ((767, BudgetUnit::Bytes), 1, 24, (15, 0)),
    ((1, BudgetUnit::Records), 65_536, 16, (0, 32_768)),
];

#[test]
fn each_of_two_queues_has_half_of_the_budget_and_of_the_blocks(rt: HostRuntime) {
    for (budget, blocks, width, half) in HALVES {
        let given = GivenSizes::new(2, 4, 3, *budget, *blocks).expect(&rt, "numbers in range");
        let width = (*width).max(16);
        let sizes = given.half_for_width(width);
        let rest = (sizes.workers(), sizes.block(), sizes.heap());
        assert_eq!(&rt; (sizes.memory(), sizes.blocks()), *half);
        assert_eq!(&rt; rest, (2, 4, 3));
    }
}
