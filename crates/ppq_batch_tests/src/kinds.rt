//! Loads of records of another kind, or in the other order.
use ppq_budget::Sizes;
use ppq_device::make_blocks;
use ppq_load::{Queue, load_file, load_generated};
use ppq_outside::{Host, Library, MemLibrary, MemRack, MemSlot, OpenGate};
use ppq_record::{Down, Fields, Triple};
use ppq_testkit::triple;
use std::alloc::Global;
use std::fmt::Debug;
use std::process::Abort;

// Three workers, two records a block, one block a heap, 200 blocks, and a budget with few buffers.
fn sizes<H: Abort>(rt: &H) -> Sizes {
    Sizes::new(3, 2, 1, 700, 200).expect(rt, "a number is out of range")
}

// An empty queue over the blocks of a device in memory.
fn empty<H: Host + Abort, R: Fields + Send + Sync>(
    rt: &H,
    alloc: Global,
    rack: &mut MemRack,
) -> Queue<MemSlot, R> {
    let sizes = sizes(rt);
    match make_blocks::<R, H, MemRack>(rt, alloc, rack, "device", sizes) {
        Ok(blocks) => match Queue::open(alloc, sizes, blocks) {
            Ok(queue) => queue,
            Err(_) => panic!(rt; "the queue was not opened"),
        },
        Err(_) => panic!(rt; "no blocks"),
    }
}

// Asserts that a queue hands out these records, in their order, and then none.
fn gives<H: Host + Abort, R: Fields + PartialEq + Debug + Send + Sync>(
    rt: &H,
    queue: Queue<MemSlot, R>,
    records: &[R],
)
where
    H::Dir: Send,
{
    let mut queue = queue;
    'popping: for record in records {
        assert!(rt; queue.pop(rt, &OpenGate) == Ok(Some(*record)));
    }
    assert!(rt; queue.pop(rt, &OpenGate) == Ok(None));
    let _slots = queue.close();
}

// A triple in the order in which the greatest comes first.
fn down_triple(time: u64, target: u64, word: u64) -> Down<Triple> {
    Down {
        item: triple(time, target, word),
    }
}

#[test]
fn generated_triples_have_number_place_and_seed(rt: HostRuntime) {
    let queue = empty(&rt, rt.alloc(), &mut MemRack::new());
    let (queue, answer) = load_generated(&rt, rt.alloc(), queue, 1, 7, &OpenGate);
    assert!(rt; answer == Ok(()));
    let wants = [
        triple(7_062_582_979_898_595_269, 3, 1),
        triple(7_806_831_264_735_756_412, 0, 1),
        triple(9_232_803_539_723_513_983, 5, 1),
        triple(9_396_908_728_118_811_419, 1, 1),
        triple(10_218_303_843_513_747_618, 6, 1),
        triple(11_960_119_808_228_829_710, 2, 1),
        triple(14_673_421_054_488_193_520, 4, 1),
    ];
    gives(&rt, queue, &wants);
}

#[test]
fn the_greatest_triple_of_a_file_comes_first(rt: HostRuntime) {
    let mut bytes = [0u8; 72];
    // the records 1 2 3, 1 2 4 and 1 1 9
    bytes[7] = 1;
    bytes[15] = 2;
    bytes[23] = 3;
    bytes[31] = 1;
    bytes[39] = 2;
    bytes[47] = 4;
    bytes[55] = 1;
    bytes[63] = 1;
    bytes[71] = 9;
    let mut library = MemLibrary::new(rt.alloc());
    library
        .add(rt.alloc(), "f", &bytes)
        .expect(&rt, "no memory");
    // a piece has room for one record and a part of the next
    let mut room = [0u8; 40];
    let queue = empty(&rt, rt.alloc(), &mut MemRack::new());
    let (queue, answer) = load_file(
        &rt,
        rt.alloc(),
        &mut library,
        "f",
        72,
        &mut room,
        queue,
        &OpenGate,
    );
    assert!(rt; answer == Ok(()));
    let wants = [
        down_triple(1, 2, 4),
        down_triple(1, 2, 3),
        down_triple(1, 1, 9),
    ];
    gives(&rt, queue, &wants);
}
