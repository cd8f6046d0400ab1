//! Records that a test calls by few numbers.
ghost use Rattle.std.specs.Prelude.{◌≡◌};

use ppq_record::{Pair, Triple};

/// The record with this key and the value 0, which a test calls by its key.
#[inline]
pub fn pair(key: u64) -> Pair
    ensures { result ≡ record { key = key; value = 0 } }
{
    Pair { key, value: 0 }
}

/// The triple of these numbers.
#[inline]
pub fn triple(time: u64, target: u64, word: u64) -> Triple {
    Triple { time, target, word }
}
