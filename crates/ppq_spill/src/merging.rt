//! Merging runs in buffers with a sorted list, by a tree of minima.
ghost use Rattle.std.specs.Prelude.{◌≡◌, ◌+◌, ◌≤◌, ◌<◌, ◌-◌, ◌∷◌, [], length, drop, slice_set, vec_capacity, IfSome, IfNone};
ghost use Rattle.ppq_fetch.specs.ppq_record.Bag.{first_of};
ghost use Rattle.ppq_fetch.specs.ppq_array.Run.{items_of, buffers_of};
ghost use Rattle.ppq_fetch.specs.ppq_block.Block.{holding};
ghost use Rattle.ppq_spill.specs.Choosing.{HasHeads, OnTree, first_at};
ghost use Rattle.ppq_spill.specs.Writing.{MergedOut, left_in};

use ppq_fetch::{BlockBuf, InternalArray, MinTree, Record, record_laws};

// Gives each run a leaf with its first record, and the leaf after them the first of a list. The other
// leaves have none. It costs a look at each leaf, and for each one that changes its matches.
pub(crate) fn write_heads<R: Record>(
    tree: &mut MinTree<R>,
    internal: &[InternalArray<R>],
    sorted: &[R],
)
    requires { length internal.now < length tree.old.items }
    ensures leaves { length tree.new.items ≡ length tree.old.items }
    ensures heads { HasHeads internal.now sorted.now tree.new.items }
{
    for leaf in 0..tree.leaves() {
        let first = head_at(internal, sorted, leaf as usize);
        write_head(tree, leaf, first);
    }
}

// The first record of the run at a place; after all runs that of a list; and none after that.
fn head_at<R: Record>(internal: &[InternalArray<R>], sorted: &[R], at: usize) -> Option<R>
    ensures { result ≡ first_at internal.now sorted.now at }
{
    if at < internal.len() {
        return internal[at].first();
    }
    if at == internal.len() {
        return head_of(sorted, 0);
    }
    None
}

// Gives a leaf an item, or none. It plays no match where the leaf had none before.
fn write_head<R: Record>(tree: &mut MinTree<R>, leaf: u32, first: Option<R>)
    requires { leaf < length tree.old.items }
    ensures { tree.new.items ≡ slice_set tree.old.items leaf first }
{
    if first.is_none() && tree.item(leaf).is_none() {
        return;
    }
    tree.put(leaf, first);
}

// Fills an empty buffer with the smallest records of runs and of a list from a place on. A record costs a
// match on each level of the tree.
pub(crate) fn merge_least<R: Record>(
    tree: &mut MinTree<R>,
    internal: &mut Vec<InternalArray<R>>,
    sorted: &[R],
    at: &mut usize,
    buf: &mut BlockBuf<R>,
)
    requires empty { buf.old ≡ holding buf.old.block [] }
    requires ready { OnTree sorted.now at.old internal.old.items tree.old.items }
    ensures ready { OnTree sorted.now at.new internal.new.items tree.new.items }
    ensures leaves { length tree.new.items ≡ length tree.old.items }
    ensures room { vec_capacity internal.new ≡ vec_capacity internal.old }
    ensures buf { buf.new ≡ holding buf.old.block buf.new.items }
    ensures merged { MergedOut R.Ord.cmp buf.old.block internal.old.items internal.new.items (drop at.old sorted.now) (drop at.new sorted.now) buf.new.items }
{
    record_laws::<R>();
    while buf.len() < buf.block() {
        let Some(least) = take_least(tree, internal, sorted, at) else {
            return;
        };
        buf.push(least);
    }
}

// Takes the smallest of all records; none where there is none.
fn take_least<R: Record>(
    tree: &mut MinTree<R>,
    internal: &mut Vec<InternalArray<R>>,
    sorted: &[R],
    at: &mut usize,
) -> Option<R>
    requires ready { OnTree sorted.now at.old internal.old.items tree.old.items }
    ensures ready { OnTree sorted.now at.new internal.new.items tree.new.items }
    ensures leaves { length tree.new.items ≡ length tree.old.items }
    ensures room { vec_capacity internal.new ≡ vec_capacity internal.old }
    ensures taken { IfSome result (λ r. MergedOut R.Ord.cmp 1 internal.old.items internal.new.items (drop at.old sorted.now) (drop at.new sorted.now) (r ∷ [])) }
    ensures none { IfNone result ((left_in internal.old.items (drop at.old sorted.now) ≡ []) × (internal.new.items ≡ internal.old.items) × (at.new ≡ at.old)) }
{
    record_laws::<R>();
    let Some(won) = tree.winner() else {
        return None;
    };
    let leaf = won.0;
    let least = won.1;
    if (leaf as usize) < internal.len() {
        let next = take_first(&mut internal[leaf as usize]);
        tree.put(leaf, next);
        return Some(least);
    }
    step_on(sorted, at);
    tree.put(leaf, head_of(sorted, *at));
    Some(least)
}

// Takes the first record of a run away, and returns the next one.
#[inline]
fn take_first<R: Record>(run: &mut InternalArray<R>) -> Option<R>
    requires { 0 < length (items_of run.old) }
    ensures next { result ≡ first_of (items_of run.new) }
    ensures items { items_of run.new ≡ drop 1 (items_of run.old) }
    ensures buffers { buffers_of run.new ≡ buffers_of run.old }
{
    run.consume(1);
    run.first()
}

// The record at a place of a list; none after its end.
#[inline]
fn head_of<R: Record>(list: &[R], at: usize) -> Option<R>
    ensures { result ≡ first_of (drop at list.now) }
{
    if at < list.len() {
        Some(list[at])
    } else {
        None
    }
}

// Goes on by one place in a list. The place is in it, so the sum is a `usize`.
#[inline]
fn step_on<R: Record>(list: &[R], at: &mut usize)
    requires { at.old < length list.now }
    ensures { at.new ≡ at.old + 1 }
{
    if *at < list.len() {
        *at += 1;
    }
}
