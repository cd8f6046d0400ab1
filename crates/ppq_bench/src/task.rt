//! The records that a load is made of.

// The multiplication and the sum of a step of the generator, those of Knuth's MMIX.
const FACTOR: u64 = 6364136223846793005;

const SHIFT: u64 = 1442695040888963407;

// How many records a load has, from a number of the generator on, and by how many workers.
#[derive(Clone, Copy)]
pub(crate) struct Task {
    // The number that is in front of the first record's.
    pub(crate) seed: u64,
    // How many records there are.
    pub(crate) count: u32,
    // How many workers there are.
    pub(crate) workers: u32,
}

impl Task {
    // How many records are in front of a worker's own. Each has an equal part of them, and the last ones maybe less.
    pub(crate) fn before(self, worker: u64) -> u64 {
        let count = u64::from(self.count);
        let part = count.div_ceil(u64::from(self.workers.max(1)));
        worker.saturating_mul(part).min(count)
    }
}

// The number after one, modulo 2^64.
pub(crate) fn step_of(number: u64) -> u64 {
    stride(number, FACTOR, SHIFT)
}

// The number so many steps after one. Two strides of some steps are one of twice as many.
pub(crate) fn number_after(number: u64, steps: u64) -> u64 {
    let (mut last, mut left) = (number, steps);
    let (mut factor, mut shift) = (FACTOR, SHIFT);
    for _digit in 0..64 {
        if left % 2 == 1 {
            last = stride(last, factor, shift);
        }
        shift = stride(shift, factor, shift);
        factor = factor.wrapping_mul(factor);
        left /= 2;
    }
    last
}

// The number after the steps whose multiplication and sum these are.
fn stride(number: u64, factor: u64, shift: u64) -> u64 {
    number.wrapping_mul(factor).wrapping_add(shift)
}
