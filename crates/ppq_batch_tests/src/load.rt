//! Worked examples of records that are loaded in a session.
ghost use Rattle.std.specs.Prelude.{◌≡◌, ℕ, List, Option, Some, length};
ghost use Rattle.ppq_outside.specs.Told.{bytes_or_none};

use crate::queues::{filled, pairs, popped};
use ppq_budget::Sizes;
use ppq_load::{LoadFault, load_file, load_generated};
use ppq_outside::{Host, Library, MemLibrary, MemRack, OpenGate};
use ppq_record::Pair;
use ppq_testkit::PairGate;
use std::alloc::Global;
use std::process::Abort;

// Two workers, two records a block, one block a heap, 200 blocks, and a budget without a buffer.
fn small() -> Option<Sizes> {
    Sizes::new(2, 2, 1, 372, 200)
}

// How many bytes a file has, as the library says.
pub(crate) fn length_in<H: Host + Abort, L: Library>(
    rt: &H,
    alloc: Global,
    library: &mut L,
    name: &str,
) -> u64
    ensures { (files : List ℕ → Option (List ℕ)) → L.told library.new ≡ Some files → length (bytes_or_none (files name.now)) ≡ result }
{
    match library.length(rt, alloc, name) {
        Ok(Some(said)) => said,
        _ => panic!(rt; "no length"),
    }
}

// How the records of the file `f`, of as many bytes as the library says, are loaded into an empty queue by
// pieces of two records, and the records of the queue then.
fn loaded<H: Host + Abort, L: Library>(
    rt: &H,
    alloc: Global,
    library: &mut L,
) -> (Result<(), LoadFault>, Vec<Pair>)
where
    H::Dir: Send,
{
    let queue = filled(rt, alloc, &mut MemRack::new(), small(), &[]);
    let said = length_in(rt, alloc, library, "f");
    assert!(rt; said <= 64);
    let mut room = [0u8; 32];
    let (queue, answer) = load_file(rt, alloc, library, "f", said, &mut room, queue, &OpenGate);
    (answer, popped(rt, alloc, queue))
}

// How so many generated records are loaded into an empty queue, and the records of the queue then.
fn generated<H: Host + Abort>(
    rt: &H,
    alloc: Global,
    seed: u64,
    count: u64,
) -> (Result<(), LoadFault>, Vec<Pair>)
where
    H::Dir: Send,
{
    let queue = filled(rt, alloc, &mut MemRack::new(), small(), &[]);
    let (queue, answer) = load_generated(rt, alloc, queue, seed, count, &OpenGate);
    (answer, popped(rt, alloc, queue))
}

// A library with a file `f` of the records `4 0`, `3 0`, `2 0` and `1 0`.
fn four<H: Host + Abort>(rt: &H, alloc: Global) -> MemLibrary {
    let mut bytes = [0u8; 64];
    bytes[7] = 4;
    bytes[23] = 3;
    bytes[39] = 2;
    bytes[55] = 1;
    let mut library = MemLibrary::new(alloc);
    library.add(alloc, "f", &bytes).expect(rt, "no memory");
    library
}

// A load was answered so, and then these records came out.
fn is_as<H: Host + Abort>(
    rt: &H,
    told: &(Result<(), LoadFault>, Vec<Pair>),
    answer: Result<(), LoadFault>,
    records: &[Pair],
) {
    if told.0 != answer || told.1.as_slice() != records {
        panic!(rt; "it was answered {:?}, and gave {:?}", told.0, told.1);
    }
}

#[test]
fn generated_records_come_back_in_their_order(rt: HostRuntime) {
    let told = generated(&rt, rt.alloc(), 7, 5);
    let wants = [
        (4_913_833_818_393_328_094, 4),
        (5_031_285_092_534_963_243, 3),
        (9_098_160_460_397_411_210, 0),
        (16_723_372_171_710_603_212, 2),
        (17_628_806_926_561_717_905, 1),
    ];
    is_as(
        &rt,
        &told,
        Ok(()),
        &wants.map(|(key, value)| Pair { key, value }),
    );
}

#[test]
fn records_of_a_file_come_back_and_one_that_ended_early_says_where(rt: HostRuntime) {
    let mut library = four(&rt, rt.alloc());
    let told = loaded(&rt, rt.alloc(), &mut library);
    is_as(&rt, &told, Ok(()), &pairs(&rt, rt.alloc(), &[1, 2, 3, 4]));
    library.shrink("f", 40);
    let told = loaded(&rt, rt.alloc(), &mut library);
    // the first piece, of two records, was read
    is_as(
        &rt,
        &told,
        Err(LoadFault::Ended { got: 40 }),
        &pairs(&rt, rt.alloc(), &[3, 4]),
    );
}

#[test]
fn a_worker_enters_once_for_all_generated_records(rt: HostRuntime) {
    let sizes = Sizes::new(2, 4, 8, 2_000, 200);
    let queue = filled(&rt, rt.alloc(), &mut MemRack::new(), sizes, &[]);
    let gate = PairGate::new();
    let (queue, answer) = load_generated(&rt, rt.alloc(), queue, 7, 20, &gate);
    assert!(rt; answer == Ok(()) && queue.size() == 20);
    // each of the two workers enters once, for its part of all records
    assert_eq!(rt; gate.entered(), 2);
    let _slots = queue.close();
}
