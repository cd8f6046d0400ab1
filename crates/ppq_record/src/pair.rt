//! The record of this project: a key and a value, each of eight bytes, the highest byte first.
ghost use Rattle.std.specs.Prelude.{◌≡◌, ◌+◌, ◌*◌, ◌^◌, ◌≤◌, ◌<◌, List, ℕ, length, false, refl};
ghost use Rattle.std.proofs.Common.{lit≤};
ghost use Rattle.ppq_record.specs.Pair.{IsPairValue, pair_bytes, pair_of, pair_take_put, pair_put_take, pair_same};
ghost use Rattle.ppq_record.specs.FieldsOf.{pair_fields, pair_of_fields, pair_are_fields};
ghost use Rattle.ppq_record.specs.PairOrder.{IsPairOrder};

use crate::choice::{choose, joined};
use crate::{Fields, Record};

/// A key and a value. The key decides the order, then the value; so the order of pairs is the order of
/// their 16 bytes.
#[derive(Clone, Copy, Debug, PartialEq, Eq, PartialOrd, Ord)]
pub struct Pair {
    /// What the order looks at first; the first eight bytes.
    pub key: u64,
    /// What decides between equal keys; the last eight bytes.
    pub value: u64,
}

impl Record for Pair {
    const WIDTH: usize = 16;

    ghost WIDTH = { 16 };

    ghost is_value = { IsPairValue };

    ghost bytes_of = { pair_bytes };

    ghost record_of = { pair_of };

    fn put(&self, into: &mut [u8]) {
        into[..8].copy_from_slice(&self.key.to_be_bytes());
        into[8..].copy_from_slice(&self.value.to_be_bytes());
    }

    fn take(from: &[u8]) -> Self {
        let key = u64::from_be_bytes([
            from[0], from[1], from[2], from[3], from[4], from[5], from[6], from[7],
        ]);
        let value = u64::from_be_bytes([
            from[8], from[9], from[10], from[11], from[12], from[13], from[14], from[15],
        ]);
        Pair { key, value }
    }

    #[inline]
    fn either(is_other: bool, one: Self, other: Self) -> Self {
        Pair {
            key: choose(is_other, one.key, other.key),
            value: choose(is_other, one.value, other.value),
        }
    }

    /// One comparison of 128 bits.
    #[inline]
    fn is_less(&self, other: &Self) -> bool {
        let one = *self;
        let two = *other;
        joined(one.key, one.value) < joined(two.key, two.value)
    }

    fn known(&self) {
        let _key = self.key;
        let _value = self.value;
    }

    ghost bytes_length = { λ p. refl };

    ghost take_put = { pair_take_put };

    ghost put_take = { pair_put_take };

    ghost same = { pair_same };

    ghost width = { (lit≤ tt, lit≤ tt) };
}

impl Fields for Pair {
    const COUNT: usize = 2;

    const DOWN: bool = false;

    ghost COUNT = { 2 };

    ghost DOWN = { false };

    ghost fields_of = { pair_fields };

    ghost of_fields = { pair_of_fields };

    fn of(fields: &[u64]) -> Self {
        Pair {
            key: fields[0],
            value: fields[1],
        }
    }

    #[inline]
    fn field(&self, i: usize) -> u64 {
        if i == 0 { self.key } else { self.value }
    }

    ghost fields = { pair_are_fields };
}

/// The law of the order of pairs, as a clause for the proof of whoever calls it, and for a reader:
/// the key decides, and then the value, and that is the order of their 16 bytes. It does nothing.
#[inline]
pub fn pair_order()
    ensures { IsPairOrder ⟦<Pair as Ord>⟧.cmp }
{}
