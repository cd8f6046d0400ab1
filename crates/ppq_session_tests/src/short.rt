//! A record that is no pair.
ghost use Rattle.std.specs.Prelude.{◌≤◌, ◌<◌, ◌^◌, refl};
ghost use Rattle.std.proofs.Common.{lit≤};
ghost use Rattle.ppq_session_tests.specs.Short.{short_of, short_bytes, short_put_take, short_same};

use ppq_session::Record;

/// A number of one byte.
#[derive(Clone, Copy, Debug, PartialEq, Eq, PartialOrd, Ord)]
pub struct Short {
    /// The number.
    pub value: u8,
}

impl Record for Short {
    const WIDTH: usize = 1;

    ghost WIDTH = { 1 };

    ghost is_value = { λ r. r.value < 2 ^ 8 };

    ghost bytes_of = { short_bytes };

    ghost record_of = { short_of };

    fn put(&self, into: &mut [u8]) {
        into[0] = self.value;
    }

    fn take(from: &[u8]) -> Self {
        Short { value: from[0] }
    }

    fn either(is_other: bool, one: Self, other: Self) -> Self {
        if is_other { other } else { one }
    }

    fn is_less(&self, other: &Self) -> bool {
        self.cmp(other).is_lt()
    }

    fn known(&self) {
        let _value = self.value;
    }

    ghost bytes_length = { λ r. refl };

    ghost take_put = { λ r value. refl };

    ghost put_take = { short_put_take };

    ghost same = { short_same };

    ghost width = { (lit≤ tt, lit≤ tt) };
}
