//! Files of pairs that three workers load, piece by piece.
ghost use Rattle.std.specs.Prelude.{◌≤◌, length};

use crate::load::length_in;
use crate::queues::{filled, pairs, popped};
use ppq_budget::Sizes;
use ppq_load::load_file;
use ppq_outside::{Host, MemLibrary, MemRack};
use ppq_testkit::PairGate;
use std::alloc::Global;
use std::process::Abort;

// A library with a file `f` of the first so many bytes of the records `8 0`, `7 0` and so on, down to `1 0`.
fn falling<H: Abort>(rt: &H, alloc: Global, said: usize) -> MemLibrary
    requires { said ≤ 128 }
{
    let mut bytes = [0u8; 128];
    bytes[7] = 8;
    bytes[23] = 7;
    bytes[39] = 6;
    bytes[55] = 5;
    bytes[71] = 4;
    bytes[87] = 3;
    bytes[103] = 2;
    bytes[119] = 1;
    let mut library = MemLibrary::new(alloc);
    library
        .add(alloc, "f", &bytes[..said])
        .expect(rt, "no memory");
    library
}

// How often workers enter while a file is loaded into an empty queue by pieces of the length of `room`. The queue has
// the records with these keys then. A block for each worker is six records.
fn entered<H: Host + Abort>(rt: &H, alloc: Global, keys: &[u64], room: &mut [u8]) -> u64
where
    H::Dir: Send,
    requires { 16 ≤ length room.old }
{
    let count = keys.len();
    assert!(rt; count <= 8);
    let mut library = falling(rt, alloc, count * 16);
    let said = length_in(rt, alloc, &mut library, "f");
    assert!(rt; said <= 128);
    let sizes = Sizes::new(3, 2, 1, 700, 200);
    let queue = filled(rt, alloc, &mut MemRack::new(), sizes, &[]);
    let gate = PairGate::new();
    let (queue, answer) = load_file(rt, alloc, &mut library, "f", said, room, queue, &gate);
    let records = popped(rt, alloc, queue);
    assert!(rt; answer.is_ok() && records.as_slice() == pairs(rt, alloc, keys).as_slice());
    gate.entered()
}

#[test]
fn each_worker_enters_once_a_piece_and_makes_its_part(rt: HostRuntime) {
    // a piece has room for four records and a half: the first has four, so the third worker has none, and the
    // last has three
    let mut room = [0u8; 72];
    let keys = [2, 3, 4, 5, 6, 7, 8];
    assert!(rt; entered(&rt, rt.alloc(), &keys, &mut room) == 6);
    // a file of one record, which is the first worker's
    assert!(rt; entered(&rt, rt.alloc(), &[8], &mut room) == 3);
    // an empty file
    assert!(rt; entered(&rt, rt.alloc(), &[], &mut room) == 0);
}

#[test]
fn a_piece_may_have_more_records_than_a_block_for_each_worker(rt: HostRuntime) {
    let mut room = [0u8; 128];
    let keys = [1, 2, 3, 4, 5, 6, 7, 8];
    assert!(rt; entered(&rt, rt.alloc(), &keys, &mut room) == 3);
}
