//! Blocks that give back other bytes than were written.
ghost use Rattle.std.specs.Prelude.{None};

use ppq_checked::{Checked, CheckedRack, UntrustedSlot};
use ppq_lying::{Lie, LyingRack};
use ppq_outside::{Failed, Host, MemRack, MemSlot, Rack, Slot};
use std::alloc::Global;
use std::process::Abort;

// The bytes of a block: a row of four words, a word behind the rows, and three bytes behind the words.
type Bytes = [u8; 43];

// A block in memory that gives other bytes in its second read. It tells nothing.
#[derive(Drop)]
struct Lies {
    inside: MemSlot,
    other: Bytes,
}

impl UntrustedSlot for Lies {
    ghost shown = { λ s. record (⟦<MemSlot as Slot>⟧.shown s.inside) { told = None } };

    ghost honest = { λ _. ⊥ };

    fn number(&self) -> u32 {
        Slot::number(&self.inside)
    }

    fn size(&self) -> usize {
        Slot::size(&self.inside)
    }

    fn faults(&self) -> u64 {
        Slot::faults(&self.inside)
    }

    fn writes(&self) -> u64 {
        Slot::writes(&self.inside)
    }

    fn reads(&self) -> u64 {
        Slot::reads(&self.inside)
    }

    fn write<H: Host>(&mut self, rt: &H, bytes: &[u8]) -> Result<(), Failed> {
        Slot::write(&mut self.inside, rt, bytes)
    }

    fn read<H: Host>(&mut self, rt: &H, into: &mut [u8]) -> Result<(), Failed> {
        let lies = Slot::reads(&self.inside) == 1;
        let answer = Slot::read(&mut self.inside, rt, into);
        if lies {
            for (byte, other) in into.iter_mut().zip(&self.other) {
                *byte = *other;
            }
        }
        answer
    }

    fn expect<H: Host>(&self, _rt: &H) -> bool {
        false
    }
}

// A block of the device with this number.
fn block_of<H: Host + Abort, R: Rack>(rt: &H, alloc: Global, rack: &mut R, number: u32) -> R::Slot {
    rack.block(rt, alloc, "ppq.device", number, 43)
        .expect(rt, "a block")
}

// Asserts whether a block takes bytes.
fn takes<H: Host + Abort, S: Slot>(rt: &H, slot: &mut S, bytes: &Bytes, is_taken: bool) {
    assert_eq!(rt; slot.size(), 43);
    assert_eq!(rt; slot.write(rt, bytes).is_ok(), is_taken);
}

// Asserts what a block gives.
fn gives<H: Host + Abort, S: Slot>(rt: &H, slot: &mut S, bytes: Result<&Bytes, Failed>) {
    assert_eq!(rt; slot.size(), 43);
    let mut into = [0; 43];
    let came = match slot.read(rt, &mut into) {
        Ok(()) => Ok(&into),
        Err(fault) => Err(fault),
    };
    assert_eq!(rt; came, bytes);
}

// Asserts how many faults, writes and reads a block counts.
fn counts<S: Slot>(rt: &impl Abort, slot: &S, faults: u64, writes: u64, reads: u64) {
    assert_eq!(rt;
        (slot.faults(), slot.writes(), slot.reads()),
        (faults, writes, reads)
    );
}

// What was written before, and what was written last.
const OLDER: Bytes = [6; 43];

const LATEST: Bytes = [7; 43];

// The latest bytes with a bit of one turned.
fn with_bit_at(place: usize) -> Bytes {
    let mut bytes = LATEST;
    if let Some(byte) = bytes.get_mut(place) {
        *byte ^= 16;
    }
    bytes
}

// Asserts that block 5, whose second read lies, fails that read and goes on.
fn is_noticed<H: Host + Abort, S: UntrustedSlot>(rt: &H, mut slot: Checked<S>) {
    takes(rt, &mut slot, &OLDER, true);
    takes(rt, &mut slot, &LATEST, true);
    gives(rt, &mut slot, Ok(&LATEST));
    gives(rt, &mut slot, Err(Failed));
    counts(rt, &slot, 1, 2, 1);
    gives(rt, &mut slot, Ok(&LATEST));
    counts(rt, &slot, 1, 2, 2);
    assert_eq!(rt; (slot.number(), slot.differed()), (5, 1));
}

// Asserts that a block whose second read gives these bytes fails that read, though no contract says what it holds.
fn are_noticed<H: Host + Abort>(rt: &H, alloc: Global, other: Bytes) {
    let inside = block_of(rt, alloc, &mut MemRack::new(), 5);
    is_noticed(rt, Checked::new(Lies { inside, other }));
}

// Asserts that a block of a device of which the second read of block 5 lies fails that read.
fn is_lie_noticed<H: Host + Abort>(rt: &H, alloc: Global, lie: Lie) {
    let mut rack = CheckedRack::new(LyingRack::new(5, 1, lie));
    is_noticed(rt, block_of(rt, alloc, &mut rack, 5));
    assert_eq!(rt; rack.faults(), 0);
}

#[test]
fn a_read_with_one_bit_turned_fails(rt: HostRuntime) {
    // in each lane, in the last byte of the row, in the word behind the rows, and in the last bytes
    for place in [0, 8, 16, 24, 31, 32, 39, 40, 42] {
        are_noticed(&rt, rt.alloc(), with_bit_at(place));
        is_lie_noticed(&rt, rt.alloc(), Lie::Bit(place));
    }
}

#[test]
fn a_read_of_an_older_version_of_another_block_or_of_zeros_fails(rt: HostRuntime) {
    is_lie_noticed(&rt, rt.alloc(), Lie::Older);
    for other in [OLDER, [9; 43], [0; 43]] {
        let bytes = other.to_vec(rt.alloc()).expect(&rt, "memory");
        are_noticed(&rt, rt.alloc(), other);
        is_lie_noticed(&rt, rt.alloc(), Lie::Bytes(bytes));
    }
}

#[test]
fn a_block_of_the_device_that_is_not_to_lie_does_not(rt: HostRuntime) {
    let mut rack = CheckedRack::new(LyingRack::new(5, 0, Lie::Bit(0)));
    let mut slot = block_of(&rt, rt.alloc(), &mut rack, 4);
    takes(&rt, &mut slot, &LATEST, true);
    gives(&rt, &mut slot, Ok(&LATEST));
    counts(&rt, &slot, 0, 1, 1);
}

#[test]
fn a_checked_device_fails_only_as_the_one_inside(rt: HostRuntime) {
    let alloc = rt.alloc();
    // the third call of block 0 fails, and block 1 is not made
    let calls = vec![in alloc; (0, 3)].expect(&rt, "memory");
    let makes = vec![in alloc; 1].expect(&rt, "memory");
    let mut rack = CheckedRack::new(MemRack::failing(calls, makes));
    let mut slot = block_of(&rt, alloc, &mut rack, 0);
    takes(&rt, &mut slot, &LATEST, true);
    gives(&rt, &mut slot, Ok(&LATEST));
    takes(&rt, &mut slot, &OLDER, false);
    takes(&rt, &mut slot, &OLDER, true);
    gives(&rt, &mut slot, Ok(&OLDER));
    counts(&rt, &slot, 1, 2, 2);
    assert_eq!(rt; (slot.number(), slot.differed(), rack.faults()), (0, 0, 0));
    assert!(rt; rack.block(&rt, alloc, "ppq.device", 1, 43).is_err());
    assert_eq!(rt; rack.faults(), 1);
}

#[test]
fn a_block_is_not_read_before_a_write_that_returned_ok(rt: HostRuntime) {
    // the third call of block 0 fails
    let calls = vec![in rt.alloc(); (0, 3)].expect(&rt, "memory");
    let mut rack = CheckedRack::new(MemRack::failing(calls, Vec::new(rt.alloc())));
    let mut slot = block_of(&rt, rt.alloc(), &mut rack, 0);
    gives(&rt, &mut slot, Err(Failed));
    takes(&rt, &mut slot, &LATEST, true);
    takes(&rt, &mut slot, &OLDER, false);
    gives(&rt, &mut slot, Err(Failed));
    takes(&rt, &mut slot, &OLDER, true);
    gives(&rt, &mut slot, Ok(&OLDER));
    counts(&rt, &slot, 3, 2, 1);
    assert_eq!(rt; slot.differed(), 2);
}
