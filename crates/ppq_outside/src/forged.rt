//! Bytes that a block gives which were never written to it.
ghost use Rattle.std.specs.Prelude.{◌≡◌, ◌+◌, ◌%◌, ◌^◌, length};
ghost use Rattle.ppq_record.specs.Given.{next_seed};
ghost use Rattle.ppq_outside.specs.Forged.{forged};

// The state that the generator of a block's bytes begins with: of the device's number, the block's number
// and the number of the block's reads before.
pub fn seed_of(seed: u64, number: u32, reads: u64) -> u64
    ensures { result ≡ (seed + number + reads) % 2 ^ 64 }
{
    seed.wrapping_add(number as u64).wrapping_add(reads)
}

// The generator's next state.
fn step_of(seed: u64) -> u64
    ensures { result ≡ next_seed seed }
{
    seed.wrapping_mul(6_364_136_223_846_793_005)
        .wrapping_add(1_442_695_040_888_963_407)
}

// Fills a slice with the highest byte of each state of the generator after this one.
pub fn forge(seed: u64, into: &mut [u8])
    ensures { into.new ≡ forged seed (length into.old) }
{
    let mut state = seed;
    for i in 0..into.len() {
        state = step_of(state);
        into[i] = (state >> 56) as u8;
    }
}
