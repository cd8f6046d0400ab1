//! Which of two smallest records goes first.
ghost use Rattle.std.specs.Prelude.{◌≡◌};
ghost use Rattle.ppq_queue.specs.Choice.{TakesFirst};
ghost use Rattle.ppq_queue.specs.Choice as spec;

use ppq_extract::Extract;
use ppq_heap::{Heaps, Record, record_laws};

// Whether the first of two smallest records goes first: it is there, and the other is not before it.
#[inline]
pub fn goes_first<R: Record>(one: Option<R>, other: Option<R>) -> bool
    ensures { result ≡ spec.goes_first R.Ord.cmp one other }
{
    match (one, other) {
        (None, _) => false,
        (Some(_), None) => true,
        (Some(one), Some(other)) => !other.cmp(&one).is_lt(),
    }
}

// The one of two smallest records that goes first.
#[inline]
pub fn first_of_two<R: Record>(one: Option<R>, other: Option<R>) -> Option<R>
    ensures { result ≡ spec.first_of_two R.Ord.cmp one other }
{
    if goes_first(one, other) { one } else { other }
}

// Takes the smallest record of heaps, or the first of an extract buffer: the one that goes first.
#[inline]
pub fn take_first<R: Record>(heaps: &mut Heaps<R>, extract: &mut Extract<R>) -> Option<R>
    ensures { TakesFirst R.Ord.cmp heaps.old heaps.new extract.old extract.new result }
{
    record_laws::<R>();
    if goes_first(heaps.min(), extract.front()) {
        return heaps.pop();
    }
    extract.pop()
}
