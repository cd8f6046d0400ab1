//! The loaded parts of runs, shown as runs.
ghost use Rattle.std.specs.Prelude.{◌≡◌, ◌+◌, ◌<◌, ◌^◌, ◌++◌, List, Some, length, map, slice_get};
ghost use Rattle.ppq_array.specs.ppq_record.Runs.{list_at};
ghost use Rattle.ppq_array.specs.Run.{items_of};
ghost use Rattle.ppq_merge.specs.ppq_split.Cut.{AreWithin};
ghost use Rattle.ppq_fetch.specs.Parts.{firsts, AreWithin-prop};

use ppq_array::{ExternalArray, InternalArray, Listing, Record, Slot};
use std::marker::PhantomData;

// A list of records that is at hand.
pub(crate) trait Loaded<R: Record> {
    ghost list: { Self → List R };

    // How many records there are.
    fn loaded_len(&self) -> u64
        ensures { result ≡ length (list self.now) };

    // The record at a place.
    fn get(&self, i: u64) -> R
        requires { i < length (list self.now) }
        ensures { slice_get (list self.now) i ≡ Some result };
}

impl<R: Record> Loaded<R> for InternalArray<R> {
    ghost list = { λ run. items_of run };

    #[inline]
    fn loaded_len(&self) -> u64 {
        self.len()
    }

    #[inline]
    fn get(&self, i: u64) -> R {
        self.at(i)
    }
}

impl<S: Slot, R: Record> Loaded<R> for ExternalArray<S, R> {
    ghost list = { λ a. items_of a.loaded };

    #[inline]
    fn loaded_len(&self) -> u64 {
        self.loaded()
    }

    #[inline]
    fn get(&self, i: u64) -> R {
        self.loaded_at(i)
    }
}

// A record of one of some lists.
#[inline]
fn record_at<R: Record, Q: Loaded<R>>(runs: &[Q], run: usize, i: u64) -> R
    requires run { run < length runs.now }
    requires place { i < length (list_at (map Q.list runs.now) run) }
    ensures { slice_get (list_at (map Q.list runs.now) run) i ≡ Some result }
{
    runs[run].get(i)
}

// The runs in buffers, and then the loaded parts of those in blocks, each up to a place.
#[derive(Drop)]
pub(crate) struct SafeParts<'a, R: Record + Sync, I: Loaded<R> + Sync, E: Loaded<R> + Sync> {
    internal: &'a [I],
    external: &'a [E],
    places: &'a [u64],
    of: PhantomData<R>,
    ghost few: { length internal.now + length external.now < 2 ^ 32 },
    ghost within: { AreWithin places.now (map I.list internal.now ++ map E.list external.now) } by { AreWithin-prop places.now (map I.list internal.now ++ map E.list external.now) },
}

impl<'a, R: Record + Sync, I: Loaded<R> + Sync, E: Loaded<R> + Sync> SafeParts<'a, R, I, E> {
    // Shows runs up to these places; it borrows them and copies nothing.
    pub(crate) fn new(
        internal: &'a [I],
        external: &'a [E],
        places: &'a [u64],
    ) -> SafeParts<'a, R, I, E>
        requires few { length internal.now + length external.now < 2 ^ 32 }
        requires within { AreWithin places.now (map I.list internal.now ++ map E.list external.now) }
        ensures { ⟦<SafeParts<'a, R, I, E> as Listing<R>>⟧.lists result ≡ firsts places.now (map I.list internal.now ++ map E.list external.now) }
    {
        SafeParts {
            internal,
            external,
            places,
            of: PhantomData,
        }
    }
}

impl<'a, R: Record + Sync, I: Loaded<R> + Sync, E: Loaded<R> + Sync> Listing<R>
    for SafeParts<'a, R, I, E> {
    ghost lists = { λ s. firsts s.places.now (map I.list s.internal.now ++ map E.list s.external.now) };

    #[inline]
    fn runs(&self) -> u32 {
        (self.internal.len() + self.external.len()) as u32
    }

    #[inline]
    fn len(&self, run: u32) -> u64 {
        self.places[run as usize]
    }

    #[inline]
    fn at(&self, run: u32, i: u64) -> R {
        let run = run as usize;
        if run < self.internal.len() {
            return record_at(self.internal, run, i);
        }
        record_at(self.external, run - self.internal.len(), i)
    }
}
