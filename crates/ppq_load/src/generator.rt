//! A generator of records.
ghost use Rattle.std.specs.Prelude.{◌≡◌, ◌<◌, ◌≤◌, ◌+◌, ◌*◌, ◌%◌, ◌^◌};
ghost use Rattle.ppq_session.specs.ppq_record.Given.{next_seed};
ghost use Rattle.ppq_load.specs.Given.{seed_after};
ghost use Rattle.ppq_load.specs.Generating.{Generating};

use ppq_record::{Fields, fields_laws, record_laws};
use ppq_session::Maker;
use std::marker::Model;

// The multiplication and the sum of a step, those of Knuth's MMIX.
const FACTOR: u64 = 6_364_136_223_846_793_005;

const SHIFT: u64 = 1_442_695_040_888_963_407;

// Makes records of a seed, and may begin at any of them.
#[derive(Drop)]
pub struct Generator {
    seed: u64,
    // The generator's number before the next record.
    key: u64,
    // How many records come before the next one.
    number: u64,
    // How many records are to come.
    left: u64,
}

impl Model for Generator {
    ghost use Rattle.std.specs.Prelude.{◌+◌, ◌<◌, ◌^◌};
    ghost use Rattle.ppq_load.specs.Generating.{Generating};

    ghost Value = { Generating };

    ghost view = { λ g. record { seed = g.seed; key = g.key; number = g.number; left = g.left } };

    ghost invariant = { λ g. g.number + g.left < 2 ^ 64 };
}

impl Generator {
    // Makes the first `count` records of a seed.
    pub fn new(seed: u64, count: u64) -> Generator
        ensures { result ≡ record { seed = seed; key = seed; number = 0; left = count } }
    {
        Generator {
            seed,
            key: seed,
            number: 0,
            left: count,
        }
    }
}

impl<R: Fields> Maker<R> for Generator {
    ghost use Rattle.ppq_load.specs.Given.{generated_from_by};

    ghost rest = { λ g. generated_from_by R.COUNT R.of_fields g.seed g.key g.number g.left };

    fn left(&self) -> u64 {
        self.left
    }

    fn part(&self, from: u64, count: u64) -> Generator {
        let skipped = from.min(self.left);
        Generator {
            seed: self.seed,
            key: key_behind(self.key, skipped),
            number: self.number + skipped,
            left: count.min(self.left - skipped),
        }
    }

    #[inline]
    fn make(&mut self) -> Option<R> {
        if self.left == 0 {
            return None;
        }
        fields_laws::<R>();
        record_laws::<R>();
        let key = stride(self.key, FACTOR, SHIFT);
        let fields = [key, self.number, self.seed, 0, 0, 0, 0, 0];
        let record = R::of(&fields[..R::COUNT]);
        self.key = key;
        self.number += 1;
        self.left -= 1;
        Some(record)
    }
}

// The generator's number behind so many steps. Two strides of some steps are one of twice as many, so it costs
// three multiplications for each binary digit of the steps.
fn key_behind(key: u64, steps: u64) -> u64
    ensures { result ≡ seed_after key steps }
{
    let mut last = key;
    let mut factor = FACTOR;
    let mut shift = SHIFT;
    let mut left = steps;
    'squaring: while left > 0 {
        if left % 2 == 1 {
            last = stride(last, factor, shift);
        }
        shift = stride(shift, factor, shift);
        factor = factor.wrapping_mul(factor);
        left /= 2;
    }
    last
}

// The generator's number behind the steps whose multiplication and sum these are.
#[inline]
fn stride(key: u64, factor: u64, shift: u64) -> u64
    ensures { result ≡ (key * factor + shift) % 2 ^ 64 }
{
    key.wrapping_mul(factor).wrapping_add(shift)
}
