//! Whether a list is a front, decided by counting.
ghost use Rattle.std.specs.Prelude.{◌≡◌, ◌↔◌, IsTrue};
ghost use Rattle.std.specs.List.{list_all};
ghost use Rattle.ppq_record.specs.Order.{Ascends};
ghost use Rattle.ppq_record.specs.Bag.{count, size_below, front, counted_test};

use crate::{Record, record_laws};

/// Whether `out` is the list of the smallest `min(k, all.len())` records of `all` in ascending order.
///
/// It is decided by counting alone, without a sort or an allocation, so that it can judge code that
/// sorts and merges. It costs about `(m + n)²` comparisons for `m` and `n` records.
pub fn is_least<R: Record>(all: &[R], k: u64, out: &[R]) -> bool
    ensures { IsTrue result ↔ (out.now ≡ front R.Ord.cmp all.now k) }
{
    record_laws::<R>();
    if !ascends(out) {
        return false;
    }
    if !are_counted(all, k, out, out) {
        return false;
    }
    are_counted(all, k, out, all)
}

// Whether no record stands before an earlier one.
pub(crate) fn ascends<R: Record>(items: &[R]) -> bool
    ensures { IsTrue result ↔ Ascends R.Ord.cmp items.now }
{
    record_laws::<R>();
    for i in 1..items.len() {
        if items[i].cmp(&items[i - 1]).is_lt() {
            return false;
        }
    }
    true
}

// Whether each of some records stands in `out` as often as in the front.
fn are_counted<R: Record>(all: &[R], k: u64, out: &[R], items: &[R]) -> bool
    ensures { result ≡ list_all (counted_test R.Ord.cmp all.now k out.now) items.now }
{
    items.iter().all(|item| is_counted(all, k, out, item))
}

// Whether a record stands in `out` as often as in the front.
fn is_counted<R: Record>(all: &[R], k: u64, out: &[R], item: &R) -> bool
    ensures { result ≡ counted_test R.Ord.cmp all.now k out.now item.now }
{
    let room = k.saturating_sub(how_many_below(all, item));
    how_often(out, item) == how_often(all, item).min(room)
}

// How often a record stands among others.
fn how_often<R: Record>(items: &[R], item: &R) -> u64
    ensures { result ≡ count R.Ord.cmp items.now item.now }
{
    items.iter().filter(|x| (*x).cmp(item).is_eq()).count() as u64
}

// How many records stand strictly before one.
fn how_many_below<R: Record>(items: &[R], item: &R) -> u64
    ensures { result ≡ size_below R.Ord.cmp items.now item.now }
{
    items.iter().filter(|x| (*x).cmp(item).is_lt()).count() as u64
}
