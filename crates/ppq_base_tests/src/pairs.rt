//! The records of these tests.
ghost use Rattle.std.specs.Prelude.{◌≡◌};

use ppq_record::Pair;

// The record with this key and the value 0, which a test calls by its key.
pub(crate) fn pair(key: u64) -> Pair
    ensures { result ≡ record { key = key; value = 0 } }
{
    Pair { key, value: 0 }
}
