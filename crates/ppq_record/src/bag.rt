//! Multisets of records and their fronts.
ghost use Rattle.std.specs.Prelude.{◌≡◌, OnOk};
ghost use Rattle.ppq_record.specs.Bag.{ascending, HasOneFront};

use crate::{Record, record_laws};
use std::cmp::Ordering;

/// The law of fronts, as a clause for the proof of whoever calls it, and for a reader: each multiset has
/// exactly one front of each size, the front and the rest are the multiset, and multisets in which each record
/// stands as often are the same multiset. It does nothing.
#[inline]
pub fn one_front<R: Record>()
    ensures { HasOneFront R.Ord.cmp }
{
    record_laws::<R>();
}

/// Sorts records in place, in ascending order. It takes about `n log n` comparisons and does not
/// allocate; std's unstable sort serves, since equal records are identical. It compares by `is_less`,
/// which compiles to fewer branches than the order's own comparison.
pub fn sort<R: Record>(records: &mut [R])
    ensures { records.new ≡ ascending R.Ord.cmp records.old }
{
    record_laws::<R>();
    records.sort_unstable_by(|one, other| {
        if one.is_less(other) {
            Ordering::Less
        } else {
            Ordering::Equal
        }
    });
}
