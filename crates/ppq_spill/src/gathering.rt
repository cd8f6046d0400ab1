//! Arrays of one level, brought to the end of their list.
ghost use Rattle.std.specs.Prelude.{◌≡◌, ◌+◌, ◌-◌, ◌<◌, ◌≤◌, ◌^◌, length, take, drop, slice_index_or, All, vec_capacity};
ghost use Rattle.std.specs.List.Sorted.{IsPermutation};
ghost use Rattle.ppq_fetch.specs.ppq_array.External.{External};
ghost use Rattle.ppq_fetch.specs.ppq_array.Holdings.{external_buffers};
ghost use Rattle.ppq_spill.specs.Leveling.{HasLevel, count_level};

use ppq_fetch::{ExternalArray, Record, Slot};

// Brings so many arrays of a level to the end of a list, by exchanges. It looks at no array more often.
pub(crate) fn gather_level<S: Slot, R: Record>(
    arrays: &mut Vec<ExternalArray<S, R>>,
    level: u32,
    count: usize,
)
    requires { count ≤ count_level level arrays.old.items }
    ensures moved { IsPermutation arrays.old.items arrays.new.items }
    ensures enough { count ≤ length arrays.new.items }
    ensures levels { All (HasLevel level) (drop (length arrays.new.items - count) arrays.new.items) }
    ensures room { vec_capacity arrays.new ≡ vec_capacity arrays.old }
{
    let all = arrays.len();
    let mut found = 0;
    while found < count {
        let place = find_level(arrays.as_slice(), level, all - found);
        found += 1;
        arrays.swap(place, all - found);
    }
}

// The place of the first array of a level; one stands among the first so many.
fn find_level<S: Slot, R: Record>(arrays: &[ExternalArray<S, R>], level: u32, end: usize) -> usize
    requires within { end ≤ length arrays.now }
    requires some { 0 < count_level level (take end arrays.now) }
    ensures within { result < end }
    ensures level { (d : External S R) → (slice_index_or arrays.now result d).level ≡ level }
{
    let mut at = 0;
    while arrays[at].level() != level {
        at += 1;
    }
    at
}

// How many buffers the loaded blocks of arrays have.
pub(crate) fn count_buffers<S: Slot, R: Record>(arrays: &[ExternalArray<S, R>]) -> u32
    requires { external_buffers arrays.now < 2 ^ 32 }
    ensures { result ≡ external_buffers arrays.now }
{
    let mut count = 0;
    for array in arrays {
        count += array.buffers();
    }
    count
}
