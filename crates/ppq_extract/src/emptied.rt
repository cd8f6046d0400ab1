//! Runs with no record left leave their lists.
ghost use Rattle.std.specs.Prelude.{◌≡◌, ◌+◌, ◌<◌, ◌≤◌, ℕ, [], true, false, length, vec_capacity, All};
ghost use Rattle.std.specs.List.{AllWithin};
ghost use Rattle.ppq_fetch.specs.ppq_array.Run.{items_of};
ghost use Rattle.ppq_fetch.specs.ppq_array.External.{size_of};
ghost use Rattle.ppq_extract.specs.Emptied.{LostOnly, IsEmptyRun, IsEmptyArray};

use ppq_fetch::{ExternalArray, InternalArray, Record, Slot};

// A run that may have no record left.
pub(crate) trait Emptied {
    // No buffer of it is spent, and no block is lifted.
    ghost is_settled: { Self → Type 0 };

    // It has no buffer and no block, so no record.
    ghost is_empty: { Self → Type 0 };

    // How many records it has.
    ghost size: { Self → ℕ };

    // Whether it has no record.
    fn is_emptied(&self) -> bool
        requires { is_settled self.now }
        ensures emptied { result ≡ true → is_empty self.now }
        ensures some { result ≡ false → 0 < size self.now };
}

impl<R: Record> Emptied for InternalArray<R> {
    ghost is_settled = { λ run. run.spent ≡ [] };

    ghost is_empty = { λ run. IsEmptyRun run };

    ghost size = { λ run. length (items_of run) };

    fn is_emptied(&self) -> bool {
        self.len() == 0
    }
}

impl<S: Slot, R: Record> Emptied for ExternalArray<S, R> {
    ghost is_settled = { λ a. (a.lifted ≡ []) × (a.loaded.spent ≡ []) };

    ghost is_empty = { λ a. IsEmptyArray a };

    ghost size = { λ a. size_of a };

    fn is_emptied(&self) -> bool {
        match self.next_minimum() {
            Some(_next) => false,
            None => self.loaded() == 0,
        }
    }
}

// Takes the runs out that have no record left. The others may move. It looks at each once.
pub(crate) fn drop_emptied<Q: Emptied + Drop>(runs: &mut Vec<Q>)
    requires settled { All Q.is_settled runs.old.items }
    ensures lost { LostOnly Q.is_empty runs.old.items runs.new.items }
    ensures some { All (λ q. 0 < Q.size q) runs.new.items }
    ensures room { vec_capacity runs.new ≡ vec_capacity runs.old }
{
    let mut at = runs.len();
    while 0 < at {
        at -= 1;
        drop_if_emptied(runs, at);
    }
}

// The run at a place goes if it has no record left; then the last run moves there.
fn drop_if_emptied<Q: Emptied + Drop>(runs: &mut Vec<Q>, at: usize)
    requires within { at < length runs.old.items }
    requires settled { All Q.is_settled runs.old.items }
    requires after { AllWithin (λ q. 0 < Q.size q) runs.old.items (at + 1) (length runs.old.items) }
    ensures lost { LostOnly Q.is_empty runs.old.items runs.new.items }
    ensures after { AllWithin (λ q. 0 < Q.size q) runs.new.items at (length runs.new.items) }
    ensures within { at ≤ length runs.new.items }
    ensures room { vec_capacity runs.new ≡ vec_capacity runs.old }
{
    if runs[at].is_emptied() {
        let _emptied = runs.swap_remove(at);
    }
}
