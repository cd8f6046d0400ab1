//! Many records that are taken out at once: the smallest of the heaps and of an extract buffer go into a list,
//! and the extract buffer is refilled on the way.
ghost use Rattle.std.specs.Prelude.{◌≡◌, ◌≤◌, ◌<◌, ◌⊎◌, true, false, [], length, Some, None};
ghost use Rattle.ppq_queue.specs.Resting.{count_of};
ghost use Rattle.ppq_queue.specs.Stores.{MayWork, MayAdd};
ghost use Rattle.ppq_queue.specs.Bulk.{MayFill, GoesOut, CopiesFirst, MovesNext, MovesSome, MergesTo, TakesOut};
ghost use Rattle.ppq_queue.specs.Bulk as spec;

use crate::choice::goes_first;
use crate::store::Store;
use crate::wanted::Wanted;
use crate::{Out, QueueFault};
use ppq_extract::{Extract, Gate, Host, Slot};
use ppq_heap::{Heaps, Record, record_laws};

impl<S: Slot + Send + Sync, R: Record + Send + Sync> Store<S, R> {
    // Takes the smallest records out of heaps and the store into an empty list: at most so many, and with a
    // limit only those below it. Levels of runs are merged first; only that finds too few free blocks, with
    // nothing taken. A record of a heap costs a sift there, so the heaps are not sorted. With a limit the
    // extract buffer is ready afterwards for a look at what is left.
    pub fn take_out<H: Host, G: Gate>(
        &mut self,
        rt: &H,
        heaps: &mut Heaps<R>,
        wanted: &Wanted<R>,
        out: &mut Out<R>,
        gate: &G,
    ) -> Result<(), QueueFault>
    where
        H::Dir: Send,
        requires works { MayWork S.shown R.Ord.cmp R.record_of R.WIDTH self.old }
        requires list { MayFill wanted.now.most out.old }
        ensures { TakesOut S.shown R.Ord.cmp R.record_of R.WIDTH wanted.now.limit wanted.now.most heaps.old heaps.new self.old self.new out.old out.new result }
    {
        record_laws::<R>();
        if self.wants_nothing(wanted) {
            return Ok(());
        }
        self.settle_some(rt, gate)?;
        self.gather(rt, heaps, wanted, out, gate)
    }

    // Whether no record is wanted, and no look at what is left that is not to be had already.
    fn wants_nothing(&self, wanted: &Wanted<R>) -> bool
        ensures none { result ≡ true → wanted.now.most ≡ 0 }
        ensures ready { result ≡ true → (l : R) → wanted.now.limit ≡ Some l → self.now.extract.items ≡ [] → ⊥ }
    {
        wanted.most == 0 && (wanted.limit.is_none() || !self.extract.is_empty())
    }

    // Takes the smallest records of heaps and the store into an empty list.
    fn gather<H: Host, G: Gate>(
        &mut self,
        rt: &H,
        heaps: &mut Heaps<R>,
        wanted: &Wanted<R>,
        out: &mut Out<R>,
        gate: &G,
    ) -> Result<(), QueueFault>
    where
        H::Dir: Send,
        requires may { MayAdd S.shown R.Ord.cmp R.record_of R.WIDTH self.old }
        requires list { MayFill wanted.now.most out.old }
        ensures { TakesOut S.shown R.Ord.cmp R.record_of R.WIDTH wanted.now.limit wanted.now.most heaps.old heaps.new self.old self.new out.old out.new result }
    {
        record_laws::<R>();
        let first = self.has_run();
        merge(
            heaps,
            &mut self.extract,
            first,
            wanted.limit,
            wanted.most,
            out,
        );
        'refilling: while self.wants_refill(wanted, out) {
            self.refill(rt, gate)?;
            let more = self.has_run();
            merge(
                heaps,
                &mut self.extract,
                more,
                wanted.limit,
                wanted.most,
                out,
            );
        }
        Ok(())
    }

    // Whether the extract buffer is to be refilled: it is empty, there is a run, and the list is not full or
    // a look at what is left is wanted.
    fn wants_refill(&self, wanted: &Wanted<R>, out: &Out<R>) -> bool
        requires { MayWork S.shown R.Ord.cmp R.record_of R.WIDTH self.now }
        ensures empty { result ≡ true → self.now.extract.items ≡ [] }
        ensures some { result ≡ true → 0 < count_of self.now.body }
        ensures ready { result ≡ false → self.now.extract.items ≡ [] → (count_of self.now.body ≡ 0) ⊎ ((wanted.now.limit ≡ None) × (wanted.now.most ≤ length out.now.items)) }
    {
        if !self.extract.is_empty() || !self.has_run() {
            return false;
        }
        wanted.limit.is_some() || out.len() < wanted.most
    }
}

// Moves the smallest records of heaps and an extract buffer to the end of a list, until it has so many, or
// the extract buffer is empty and there is more behind it, or nothing below the limit is left.
fn merge<R: Record>(
    heaps: &mut Heaps<R>,
    extract: &mut Extract<R>,
    more: bool,
    limit: Option<R>,
    most: u32,
    out: &mut Out<R>,
)
    requires most { most ≤ out.old.room }
    requires few { length out.old.items ≤ most }
    ensures { MergesTo R.Ord.cmp most more limit heaps.old heaps.new extract.old extract.new out.old out.new }
{
    record_laws::<R>();
    'moving: while goes_on(extract, more, most, out) {
        if !move_some(heaps, extract, more, limit, most, out) {
            return;
        }
    }
}

// Whether a merge goes on: the list is not full, and the extract buffer has a record, or there is no more
// behind it.
#[inline]
fn goes_on<R: Record>(extract: &Extract<R>, more: bool, most: u32, out: &Out<R>) -> bool
    ensures some { result ≡ true → length out.now.items < most }
    ensures whole { result ≡ true → extract.now.items ≡ [] → more ≡ false }
    ensures ended { result ≡ false → (most ≤ length out.now.items) ⊎ ((extract.now.items ≡ []) × (more ≡ true)) }
{
    out.len() < most && !(more && extract.is_empty())
}

// Moves the smallest record of heaps and an extract buffer to the end of a list, and with it all that the
// extract buffer has before the next one of the heaps. It says whether it moved any: `false` exactly where no
// record is below the limit.
fn move_some<R: Record>(
    heaps: &mut Heaps<R>,
    extract: &mut Extract<R>,
    more: bool,
    limit: Option<R>,
    most: u32,
    out: &mut Out<R>,
) -> bool
    requires most { most ≤ out.old.room }
    requires room { length out.old.items < most }
    requires whole { extract.old.items ≡ [] → more ≡ false }
    ensures { MovesSome R.Ord.cmp most more limit heaps.old heaps.new extract.old extract.new out.old out.new result }
{
    record_laws::<R>();
    if !move_next(heaps, extract, more, limit, out) {
        return false;
    }
    let count = copy_first(extract.rest(), heaps.min(), limit, most, out);
    extract.skip(count);
    true
}

// Copies the first records that go out to the end of a list, until it has so many. It says how many.
fn copy_first<R: Record>(
    rest: &[R],
    latest: Option<R>,
    limit: Option<R>,
    most: u32,
    out: &mut Out<R>,
) -> usize
    requires most { most ≤ out.old.room }
    requires few { length out.old.items ≤ most }
    ensures { CopiesFirst R.Ord.cmp most result latest limit rest.now out.old out.new }
{
    let mut count = 0;
    'copying: while count < rest.len() && out.len() < most {
        let next = rest[count];
        if !goes_out(next, latest, limit) {
            break;
        }
        out.push(next);
        count += 1;
    }
    count
}

// Whether a record of an extract buffer goes before the smallest one of heaps, and is below the limit.
#[inline]
fn goes_out<R: Record>(next: R, latest: Option<R>, limit: Option<R>) -> bool
    ensures { result ≡ true → GoesOut R.Ord.cmp latest limit next }
{
    if goes_first(latest, Some(next)) {
        return false;
    }
    match limit {
        None => true,
        Some(limit) => next.is_less(&limit),
    }
}

// Moves the smallest record of heaps and an extract buffer to the end of a list, and says whether it did:
// `false` exactly where no record is below the limit.
#[inline]
fn move_next<R: Record>(
    heaps: &mut Heaps<R>,
    extract: &mut Extract<R>,
    more: bool,
    limit: Option<R>,
    out: &mut Out<R>,
) -> bool
    requires room { length out.old.items < out.old.room }
    requires whole { extract.old.items ≡ [] → more ≡ false }
    ensures { MovesNext R.Ord.cmp more limit heaps.old heaps.new extract.old extract.new out.old out.new result }
{
    record_laws::<R>();
    let latest = heaps.min();
    let stored = extract.front();
    if goes_first(latest, stored) {
        let Some(next) = keep_below(latest, limit) else {
            return false;
        };
        out.push(next);
        // The record that was looked at leaves its heap.
        let _ = heaps.pop();
        return true;
    }
    let Some(next) = keep_below(stored, limit) else {
        return false;
    };
    out.push(next);
    // The record that was looked at leaves the buffer.
    let _ = extract.pop();
    true
}

// A record where it is below a limit, if there is one.
#[inline]
pub fn keep_below<R: Record>(one: Option<R>, limit: Option<R>) -> Option<R>
    ensures { result ≡ spec.kept_below R.Ord.cmp one limit }
{
    match (one, limit) {
        (None, _) => None,
        (Some(one), None) => Some(one),
        (Some(one), Some(limit)) => { if one.is_less(&limit) { Some(one) } else { None } }
    }
}

// Empties a list of what was taken before an error.
pub fn empty_on_error<R: Record>(answer: Result<(), QueueFault>, out: &mut Out<R>)
    ensures { out.new ≡ spec.left_after answer out.old }
{
    if answer.is_err() {
        out.clear();
    }
}
