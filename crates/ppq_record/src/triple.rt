//! A record of three numbers, each of eight bytes, the highest byte first.
ghost use Rattle.std.specs.Prelude.{◌≡◌, ◌+◌, ◌*◌, ◌^◌, ◌≤◌, ◌<◌, List, ℕ, length, false, refl};
ghost use Rattle.std.proofs.Common.{lit≤};
ghost use Rattle.ppq_record.specs.Triple.{IsTripleValue, triple_bytes, triple_of, triple_take_put, triple_put_take, triple_same};
ghost use Rattle.ppq_record.specs.FieldsOf.{triple_fields, triple_of_fields, triple_are_fields};

use crate::choice::{choose, joined};
use crate::{Fields, Record};

/// An event: when it is due, whom it is for, and a word of its own. The time decides the order, then the
/// target, then the word; so the order of triples is the order of their 24 bytes.
#[derive(Clone, Copy, Debug, PartialEq, Eq, PartialOrd, Ord)]
pub struct Triple {
    /// What the order looks at first; the first eight bytes.
    pub time: u64,
    /// What decides between equal times; the next eight bytes.
    pub target: u64,
    /// What decides between equal targets; the last eight bytes.
    pub word: u64,
}

impl Record for Triple {
    const WIDTH: usize = 24;

    ghost WIDTH = { 24 };

    ghost is_value = { IsTripleValue };

    ghost bytes_of = { triple_bytes };

    ghost record_of = { triple_of };

    fn put(&self, into: &mut [u8]) {
        into[..8].copy_from_slice(&self.time.to_be_bytes());
        into[8..16].copy_from_slice(&self.target.to_be_bytes());
        into[16..].copy_from_slice(&self.word.to_be_bytes());
    }

    fn take(from: &[u8]) -> Self {
        let time = u64::from_be_bytes([
            from[0], from[1], from[2], from[3], from[4], from[5], from[6], from[7],
        ]);
        let target = u64::from_be_bytes([
            from[8], from[9], from[10], from[11], from[12], from[13], from[14], from[15],
        ]);
        let word = u64::from_be_bytes([
            from[16], from[17], from[18], from[19], from[20], from[21], from[22], from[23],
        ]);
        Triple { time, target, word }
    }

    #[inline]
    fn either(is_other: bool, one: Self, other: Self) -> Self {
        Triple {
            time: choose(is_other, one.time, other.time),
            target: choose(is_other, one.target, other.target),
            word: choose(is_other, one.word, other.word),
        }
    }

    /// Two comparisons, one of 64 bits and one of 128 bits, with no branch.
    #[inline]
    fn is_less(&self, other: &Self) -> bool {
        let one = *self;
        let two = *other;
        let is_rest_less = joined(one.target, one.word) < joined(two.target, two.word);
        (one.time < two.time) | ((one.time == two.time) & is_rest_less)
    }

    fn known(&self) {
        let _time = self.time;
        let _target = self.target;
        let _word = self.word;
    }

    ghost bytes_length = { λ t. refl };

    ghost take_put = { triple_take_put };

    ghost put_take = { triple_put_take };

    ghost same = { triple_same };

    ghost width = { (lit≤ tt, lit≤ tt) };
}

impl Fields for Triple {
    const COUNT: usize = 3;

    const DOWN: bool = false;

    ghost COUNT = { 3 };

    ghost DOWN = { false };

    ghost fields_of = { triple_fields };

    ghost of_fields = { triple_of_fields };

    fn of(fields: &[u64]) -> Self {
        Triple {
            time: fields[0],
            target: fields[1],
            word: fields[2],
        }
    }

    #[inline]
    fn field(&self, i: usize) -> u64 {
        match i {
            0 => self.time,
            1 => self.target,
            _ => self.word,
        }
    }

    ghost fields = { triple_are_fields };
}
