//! Generated numbers.
ghost use Rattle.std.specs.Prelude.{◌<◌, max};

/// The next number of Knuth's MMIX sequence; its upper half below a bound.
pub fn draw(seed: &mut u64, below: u64) -> u64
    ensures { result < max below 1 }
{
    let next = seed
        .wrapping_mul(6364136223846793005)
        .wrapping_add(1442695040888963407);
    *seed = next;
    (next >> 32) % below.max(1)
}
