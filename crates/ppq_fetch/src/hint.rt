//! Hints of which run has the next block.
ghost use Rattle.std.specs.Prelude.{◌≡◌, ◌≤◌, ◌<◌, ◌^◌, length, slice_set};
ghost use Rattle.ppq_fetch.specs.Hints.{AreHints, next_at};

use crate::bench::Bench;
use ppq_array::{ExternalArray, Host, Record, Slot};

// Tells the device of each run which blocks are read soon. Returns whether it reads all of them by itself.
pub(crate) fn announce_all<H: Host, S: Slot, R: Record>(
    rt: &H,
    external: &mut [ExternalArray<S, R>],
) -> bool
    ensures { external.new ≡ external.old }
{
    let mut by_itself = true;
    for run in 0..external.len() {
        by_itself = external[run].announce(rt) & by_itself;
    }
    by_itself
}

// Tells of each run what its next block is, and whether the device reads by itself what it is told of.
pub(crate) fn tell_all<S: Slot, R: Record>(
    external: &[ExternalArray<S, R>],
    bench: &mut Bench<R>,
    by_itself: bool,
)
    requires room { length external.now ≤ length bench.old.places }
    requires few { length external.now < 2 ^ 32 }
    ensures hints { AreHints R.record_of R.WIDTH S.shown external.now bench.new.hints }
    ensures rest { bench.new ≡ record bench.old { hints = bench.new.hints } }
{
    bench.begin(external.len() as u32, by_itself);
    for run in 0..external.len() {
        bench.hint(run as u32, external[run].next_to_lift());
    }
}

// Tells what the next blocks of two runs are now.
pub(crate) fn tell_two<S: Slot, R: Record>(
    external: &[ExternalArray<S, R>],
    bench: &mut Bench<R>,
    first: usize,
    second: usize,
)
    requires first { first < length external.now }
    requires second { second < length external.now }
    requires few { length external.now < 2 ^ 32 }
    requires hints { length bench.old.hints ≡ length external.now }
    ensures { bench.new ≡ record bench.old { hints = slice_set (slice_set bench.old.hints first (next_at external.now first)) second (next_at external.now second) } }
{
    bench.hint(first as u32, external[first].next_to_lift());
    bench.hint(second as u32, external[second].next_to_lift());
}
