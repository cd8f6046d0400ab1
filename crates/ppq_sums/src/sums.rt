//! How long the sums of blocks take, by which `ppq_checked` notices other bytes.
use ppq_checked::sum;
use std::alloc::Global;
use std::io;
use std::rt::Clock;
use std::time::Instant;

// The bytes of a block of 4,096 pairs.
const BLOCK: usize = 65536;

// How many blocks there are.
const BLOCKS: usize = 16;

// How many pairs they have in all.
const RECORDS: u64 = 65536;

// How often the sums of all blocks are taken; the smallest time counts.
const TURNS: u32 = 1000;

// What the sums of some blocks add up to, modulo 2^64.
fn sum_blocks(bytes: &[u8]) -> u64 {
    let mut all = 0u64;
    for block in bytes.chunks(BLOCK) {
        all = all.wrapping_add(sum(block));
    }
    all
}

// The smallest time that the sums of a record's bytes take when its block is written and when it is read, in
// picoseconds, and what all sums add up to.
pub(crate) fn picoseconds_of_sums<H: Clock>(rt: &H, alloc: Global) -> io::Result<(u64, u64)> {
    let bytes = vec![in alloc; 7u8; BLOCKS * BLOCK]?;
    let (mut best, mut all) = (u64::MAX, 0u64);
    for _turn in 0..TURNS {
        let start = Instant::now(rt)?;
        all = all.wrapping_add(sum_blocks(&bytes));
        let took = start.elapsed(rt)?.as_nanos().min(u128::from(u64::MAX)) as u64;
        best = best.min(took);
    }
    Ok((best.saturating_mul(2000) / RECORDS, all))
}
