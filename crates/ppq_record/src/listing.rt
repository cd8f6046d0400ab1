//! Several runs of records shown as one value.
ghost use Rattle.std.specs.Prelude.{◌≡◌, ◌<◌, List, length, slice_get, Some};
ghost use Rattle.ppq_record.specs.Runs.{list_at};

use crate::Record;

/// Several runs of records, shown as one value, so that a merge needs no list of references.
/// Contracts see the list of the runs, each as its list of records.
pub trait Listing<R: Record>: Sync {
    ghost lists: { Self → List (List R) };

    /// How many runs there are.
    fn runs(&self) -> u32
        ensures { result ≡ length (lists self.now) };

    /// How many records a run has.
    fn len(&self, run: u32) -> u64
        requires { run < length (lists self.now) }
        ensures { result ≡ length (list_at (lists self.now) run) };

    /// The record at a place of a run, from 0. Merges call it once for each record, so it is to
    /// cost constant time.
    fn at(&self, run: u32, i: u64) -> R
        requires run { run < length (lists self.now) }
        requires place { i < length (list_at (lists self.now) run) }
        ensures { slice_get (list_at (lists self.now) run) i ≡ Some result };
}
