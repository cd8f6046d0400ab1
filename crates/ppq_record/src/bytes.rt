//! Records as bytes, one after the other.
ghost use Rattle.std.specs.Prelude.{◌≡◌, ◌≤◌, ◌<◌, ◌*◌, ◌+◌, ◌++◌, List, ℕ, length, flat_map, take, drop, All};
ghost use Rattle.ppq_record.specs.Given.{records_from};

use crate::{Record, record_laws};

/// The record at a place, counted in records. It costs one `take`.
#[inline]
pub fn take_at<R: Record>(bytes: &[u8], i: usize) -> R
    requires { (i + 1) * R.WIDTH ≤ length bytes.now }
    ensures record { result ≡ R.record_of (take R.WIDTH (drop (i * R.WIDTH) bytes.now)) }
    ensures value { R.is_value result }
{
    let at = i * R::WIDTH;
    R::take(&bytes[at..at + R::WIDTH])
}

/// The law of blocks, as a clause for the proof of whoever calls it, and for a reader: records that
/// were put one after the other, whatever follows, are taken back as they were. It does nothing.
#[inline]
pub fn taken_back<R: Record>()
    ensures { (items : List _) (rest : List ℕ) → All R.is_value items → records_from R.record_of R.WIDTH (length items) (flat_map R.bytes_of items ++ rest) ≡ items }
{
    record_laws::<R>();
}
