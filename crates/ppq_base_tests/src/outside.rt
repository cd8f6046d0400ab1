//! The implementations in memory, each public call at a concrete type and through its bound.
ghost use Rattle.std.specs.Prelude.{◌≡◌, length};

use ppq_outside::{
    Failed, Host, Library, MemLibrary, MemRack, MemSink, MemSlot, MemSource, OutsideFault, Rack,
    Sink, Slot, Source,
};
use std::alloc::Global;
use std::process::Abort;
use std::thread::join_mut;

// Writes a slot, and says whether that went well.
fn fill<H: Host, S: Slot>(rt: &H, slot: &mut S, bytes: &[u8]) -> bool
    requires { length bytes.now ≡ (S.shown slot.old).size }
    ensures { (S.shown slot.new).size ≡ (S.shown slot.old).size }
{
    slot.write(rt, bytes).is_ok()
}

// Writes two slots, each in a thread of its own.
fn fill_both<H: Host, S: Slot + Send>(rt: &H, one: &mut S, other: &mut S, bytes: &[u8]) -> bool
where
    H::Dir: Send,
    requires one { length bytes.now ≡ (S.shown one.old).size }
    requires other { length bytes.now ≡ (S.shown other.old).size }
{
    let (a, b) = join_mut(
        rt,
        &mut || -> bool
            requires { length bytes.now ≡ (S.shown one.now).size }
        { fill(rt, one, bytes) },
        &mut || -> bool
            requires { length bytes.now ≡ (S.shown other.now).size }
        { fill(rt, other, bytes) },
    );
    a & b
}

// Whether a sink takes a piece, or fails, as is said.
fn puts<H: Host, O: Sink>(rt: &H, out: &mut O, piece: &[u8], is_taken: bool) -> bool {
    out.put(rt, piece).is_ok() == is_taken
}

#[test]
fn two_slots_are_written_beside_each_other(rt: HostRuntime) {
    let alloc = rt.alloc();
    let mut rack = MemRack::new();
    let mut one = rack
        .block(&rt, alloc, "ppq.device", 0, 2)
        .expect(&rt, "a block");
    let mut other = rack
        .block(&rt, alloc, "ppq.device", 1, 2)
        .expect(&rt, "a block");
    assert!(rt; (one.size() == 2) & (other.size() == 2));
    assert!(rt; fill_both(&rt, &mut one, &mut other, &[5, 6]));
    assert!(rt; (one.writes() == 1) & (other.writes() == 1));
}

// Whether a read of a slot of two bytes, into nines, leaves these bytes and goes well or not.
fn reads<H: Host>(rt: &H, slot: &mut MemSlot, is_read: bool, bytes: [u8; 2]) -> bool
    requires { (⟦<MemSlot as Slot>⟧.shown slot.old).size ≡ 2 }
    ensures { (⟦<MemSlot as Slot>⟧.shown slot.new).size ≡ 2 }
{
    let mut into = [9; 2];
    let read = slot.read(rt, &mut into).is_ok();
    (read == is_read) & (into == bytes)
}

// Whether a slot had so many writes, reads and faults.
fn had(slot: &MemSlot, writes: u64, reads: u64, faults: u64) -> bool {
    (slot.writes() == writes) & (slot.reads() == reads) & (slot.faults() == faults)
}

#[test]
fn a_slot_is_zeros_until_it_is_written(rt: HostRuntime) {
    let mut rack = MemRack::new();
    let made = rack.block(&rt, rt.alloc(), "ppq.device", 7, 2);
    let mut slot = made.expect(&rt, "a block");
    assert!(rt; reads(&rt, &mut slot, true, [0; 2]));
    assert!(rt; fill(&rt, &mut slot, &[1, 2]) & reads(&rt, &mut slot, true, [1, 2]));
    assert!(rt;
        (slot.number() == 7) & (slot.size() == 2) & had(&slot, 1, 2, 0) & (rack.faults() == 0)
    );
}

#[test]
fn a_planned_call_of_a_block_fails_and_changes_no_bytes(rt: HostRuntime) {
    let alloc = rt.alloc();
    let calls = vec![in alloc; (0, 2), (1, 1), (0, 3)].expect(&rt, "memory");
    let mut rack = MemRack::failing(calls, Vec::new(alloc));
    let made = rack.block(&rt, alloc, "ppq.device", 0, 2);
    let mut slot = made.expect(&rt, "a block");
    assert!(rt; fill(&rt, &mut slot, &[1, 2]) & !fill(&rt, &mut slot, &[3, 4]));
    assert!(rt; reads(&rt, &mut slot, false, [9; 2]) & reads(&rt, &mut slot, true, [1, 2]));
    assert!(rt; had(&slot, 1, 1, 2) & (rack.faults() == 0));
}

// The block with this number of a device that forges from this number on.
fn forging<H: Host + Abort>(rt: &H, alloc: Global, seed: u64, number: u32) -> MemSlot
    ensures { (⟦<MemSlot as Slot>⟧.shown result).size ≡ 2 }
{
    let made = MemRack::forging(seed).block(rt, alloc, "ppq.device", number, 2);
    made.expect(rt, "a block")
}

// The bytes were made by a program in Python.
#[test]
fn a_block_that_forges_keeps_nothing_and_gives_other_bytes_at_each_read(rt: HostRuntime) {
    let mut slot = forging(&rt, rt.alloc(), 1, 0);
    assert!(rt; reads(&rt, &mut slot, true, [108, 130]));
    assert!(rt; fill(&rt, &mut slot, &[1, 2]) & reads(&rt, &mut slot, true, [196, 234]));
    assert!(rt; had(&slot, 1, 2, 0));
    let mut other = forging(&rt, rt.alloc(), 1, 3);
    assert!(rt; reads(&rt, &mut other, true, [117, 187]));
    // the number of the device and that of the block pass 2^64 together
    let mut last = forging(&rt, rt.alloc(), u64::MAX, 1);
    assert!(rt; reads(&rt, &mut last, true, [20, 26]));
}

// Whether a device makes the block with this number.
fn makes<H: Host>(rt: &H, alloc: Global, rack: &mut MemRack, number: u32) -> bool {
    rack.block(rt, alloc, "ppq.device", number, 2).is_ok()
}

#[test]
fn a_planned_block_is_not_made(rt: HostRuntime) {
    let alloc = rt.alloc();
    let mut rack = MemRack::failing(Vec::new(alloc), vec![in alloc; 3].expect(&rt, "memory"));
    for number in 0..5 {
        assert!(rt; makes(&rt, alloc, &mut rack, number) == (number != 3));
    }
    assert!(rt; (rack.made() == [0, 1, 2, 4].as_slice()) & (rack.faults() == 1));
}

// A library to which files with these names and texts were added in turn.
fn library_of(rt: &impl Abort, alloc: Global, files: &[(&str, &str)]) -> MemLibrary {
    let mut library = MemLibrary::new(alloc);
    for (name, text) in files {
        library
            .add(alloc, name, text.as_bytes())
            .expect(rt, "memory");
    }
    library
}

// Whether a library says that the file with this name has this length.
fn says<H: Host>(
    rt: &H,
    alloc: Global,
    library: &mut MemLibrary,
    name: &str,
    length: Option<u64>,
) -> bool {
    library.length(rt, alloc, name) == Ok(length)
}

// Whether a read of a file from a place on gives so many bytes.
fn gives<H: Host>(
    rt: &H,
    alloc: Global,
    library: &mut MemLibrary,
    from: (&str, u64),
    into: &mut [u8],
    count: usize,
) -> bool {
    library.read_at(rt, alloc, from.0, from.1, into) == Ok(count)
}

#[test]
fn a_name_that_is_added_again_has_the_new_bytes(rt: HostRuntime) {
    let alloc = rt.alloc();
    let files = [("f", "old"), ("g", "other"), ("f", "newer")];
    let mut library = library_of(&rt, alloc, &files);
    assert!(rt; says(&rt, alloc, &mut library, "f", Some(5)));
    assert!(rt;
        says(&rt, alloc, &mut library, "g", Some(5)) & says(&rt, alloc, &mut library, "h", None)
    );
    let mut into = [0; 4];
    assert!(rt; gives(&rt, alloc, &mut library, ("f", 0), &mut into, 4) & (into == *b"newe"));
    assert!(rt; gives(&rt, alloc, &mut library, ("f", 3), &mut into, 2) & (into == *b"erwe"));
    for from in [("f", 5), ("f", u64::MAX), ("h", 0)] {
        assert!(rt; gives(&rt, alloc, &mut library, from, &mut into, 0));
    }
    assert!(rt; library.faults() == 0);
}

#[test]
fn a_file_that_is_shrunk_keeps_its_length_and_ends_early(rt: HostRuntime) {
    let alloc = rt.alloc();
    let files = [("f", "01234567"), ("g", "other")];
    let mut library = library_of(&rt, alloc, &files);
    library.shrink("f", 4);
    let mut into = [0; 6];
    assert!(rt; says(&rt, alloc, &mut library, "f", Some(8)));
    assert!(rt; gives(&rt, alloc, &mut library, ("f", 4), &mut into, 0));
    assert!(rt; gives(&rt, alloc, &mut library, ("f", 0), &mut into, 4) & (into == *b"0123\0\0"));
    assert!(rt; says(&rt, alloc, &mut library, "g", Some(5)));
    assert!(rt; gives(&rt, alloc, &mut library, ("g", 0), &mut into, 5));
    library.shrink("f", 10);
    assert!(rt; gives(&rt, alloc, &mut library, ("f", 7), &mut into, 1));
    assert!(rt; library.faults() == 0);
}

#[test]
fn calls_of_both_kinds_are_numbered_together(rt: HostRuntime) {
    let alloc = rt.alloc();
    let mut library = library_of(&rt, alloc, &[("f", "abc")]);
    library.fail_call(1).expect(&rt, "memory");
    library.fail_call(3).expect(&rt, "memory");
    let mut into = [0; 3];
    assert!(rt; library.length(&rt, alloc, "f") == Err(OutsideFault::Failed));
    assert!(rt; says(&rt, alloc, &mut library, "f", Some(3)));
    assert!(rt; library.read_at(&rt, alloc, "f", 0, &mut into).is_err());
    assert!(rt; gives(&rt, alloc, &mut library, ("f", 0), &mut into, 3));
    assert!(rt; library.faults() == 2);
}

// A sink with this room whose put with this number takes so many bytes and fails.
fn failing(rt: &impl Abort, alloc: Global, room: usize, put: (u64, usize)) -> MemSink {
    let planned = vec![in alloc; put].expect(rt, "memory");
    MemSink::failing(alloc, room, planned).expect(rt, "memory")
}

#[test]
fn a_planned_put_takes_a_part_and_fails_though_its_piece_fits(rt: HostRuntime) {
    let mut first = failing(&rt, rt.alloc(), 1_048_576, (1, 3));
    assert!(rt; puts(&rt, &mut first, b"empty\n", false) & puts(&rt, &mut first, b"7 7\n", true));
    assert!(rt; (first.bytes() == b"emp7 7\n".as_slice()) & (first.faults() == 1));
    let mut second = failing(&rt, rt.alloc(), 100, (2, 9));
    assert!(rt; puts(&rt, &mut second, b"ab", true) & puts(&rt, &mut second, b"cd", false));
    assert!(rt; second.bytes() == b"abcd".as_slice());
}

#[test]
fn a_piece_past_the_room_is_cut_and_fails(rt: HostRuntime) {
    let mut sink = MemSink::new(rt.alloc(), 4).expect(&rt, "memory");
    assert!(rt; puts(&rt, &mut sink, b"abc", true) & puts(&rt, &mut sink, b"def", false));
    assert!(rt; sink.bytes() == b"abcd".as_slice());
    assert!(rt; puts(&rt, &mut sink, b"", true) & puts(&rt, &mut sink, b"e", false));
    assert!(rt; sink.faults() == 2);
}

// What a source gives, into room for so many bytes: their number, and the room afterwards.
fn next<H: Host, I: Source>(
    rt: &H,
    source: &mut I,
    room: usize,
) -> (Result<usize, Failed>, [u8; 4]) {
    let mut into = [b'-'; 4];
    let answer = source.get(rt, &mut into[..room.min(4)]);
    (answer, into)
}

#[test]
fn a_source_gives_pieces_in_order_and_then_nothing(rt: HostRuntime) {
    let alloc = rt.alloc();
    let bytes = vec![in alloc; b'a', b'b', b'c', b'd', b'e'].expect(&rt, "memory");
    let mut source = MemSource::new(bytes, 3, Vec::new(alloc));
    assert!(rt; next(&rt, &mut source, 4) == (Ok(3), *b"abc-"));
    assert!(rt; next(&rt, &mut source, 1) == (Ok(1), *b"d---"));
    assert!(rt; next(&rt, &mut source, 0) == (Ok(0), *b"----"));
    assert!(rt; next(&rt, &mut source, 4) == (Ok(1), *b"e---"));
    assert!(rt; next(&rt, &mut source, 4) == (Ok(0), *b"----"));
    assert!(rt; source.faults() == 0);
}

#[test]
fn a_planned_call_of_a_source_fails_and_loses_nothing(rt: HostRuntime) {
    let alloc = rt.alloc();
    let bytes = vec![in alloc; b'a', b'b'].expect(&rt, "memory");
    let plan = vec![in alloc; 2].expect(&rt, "memory");
    let mut source = MemSource::new(bytes, 0, plan);
    assert!(rt; next(&rt, &mut source, 4) == (Ok(1), *b"a---"));
    assert!(rt; next(&rt, &mut source, 4) == (Err(Failed), *b"----"));
    assert!(rt; next(&rt, &mut source, 4) == (Ok(1), *b"b---"));
    assert!(rt; next(&rt, &mut source, 4) == (Ok(0), *b"----"));
    assert!(rt; source.faults() == 1);
}

#[test]
fn a_block_in_memory_reads_nothing_by_itself(rt: HostRuntime) {
    let mut rack = MemRack::new();
    let slot = rack
        .block(&rt, rt.alloc(), "ppq.device", 0, 2)
        .expect(&rt, "a block");
    assert!(rt; !slot.expect(&rt));
    assert!(rt; (slot.reads() == 0) & (slot.faults() == 0));
}
