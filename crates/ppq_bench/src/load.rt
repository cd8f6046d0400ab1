//! Runs of generated pairs, to be merged.
ghost use Rattle.std.specs.Prelude.{◌<◌, ◌^◌, length};

use ppq_tree::{Pair, sort};
use std::alloc::Global;
use std::io;
use std::io::ErrorKind;

// Runs of generated pairs, each sorted.
#[derive(Drop)]
pub(crate) struct Load {
    // The runs.
    pub(crate) lists: Vec<Vec<Pair>>,
    // How many records they have in all.
    pub(crate) size: u64,
    ghost few: { length lists.items < 2 ^ 32 },
}

// An allocation that failed, as an error.
pub(crate) fn out_of_memory() -> io::Error {
    io::Error::from(ErrorKind::OutOfMemory)
}

// So many records, all the same.
pub(crate) fn room(alloc: Global, records: u64) -> io::Result<Vec<Pair>> {
    let none = Pair { key: 0, value: 0 };
    Ok(vec![in alloc; none; records as usize]?)
}

// A sorted run of so many pairs. The numbers are Knuth's MMIX sequence from the seed; the key is a
// number mixed, the value the number itself.
fn run_of(alloc: Global, seed: u64, size: u64) -> io::Result<Vec<Pair>> {
    let mut items = room(alloc, size)?;
    let mut number = seed;
    for item in items.iter_mut() {
        number = number
            .wrapping_mul(6364136223846793005)
            .wrapping_add(1442695040888963407);
        item.key = number ^ (number >> 29);
        item.value = number;
    }
    sort(items.as_mut_slice());
    Ok(items)
}

impl Load {
    // So many runs of equal length with so many records in all, rounded down.
    pub(crate) fn new(alloc: Global, runs: u32, records: u64) -> io::Result<Self> {
        let length = records / u64::from(runs.max(1));
        let mut lists = Vec::with_capacity(alloc, runs as usize)?;
        let mut size = 0u64;
        for run in 0..runs {
            lists.push(run_of(alloc, u64::from(run), length)?)?;
            size = size.saturating_add(length);
        }
        Ok(Load { lists, size })
    }
}
