//! Sifting: a record finds its place in a heap through a hole.
//!
//! While a record is on its way its place is a hole; each step moves one record into the hole, so
//! that a step writes one place and not two. The way down goes to a leaf without a look at the
//! record that is to be put, which then rises: about one comparison a level, as std's `BinaryHeap`
//! does it.
ghost use Rattle.std.specs.Prelude.{◌≡◌, ◌≤◌, ◌<◌, ◌+◌, ◌-◌, ◌*◌, ◌/◌, ◌∷◌, Some, length, slice_get, slice_set, take};
ghost use Rattle.ppq_tree.specs.ppq_record.Order.{is_before};
ghost use Rattle.ppq_tree.specs.ppq_record.Bag.{IsSameBag};
ghost use Rattle.ppq_heap.specs.Heap.{IsMinHeap, IsHeapRound, IsLesserChild};

use ppq_tree::{Record, record_laws};

// Puts a record into a heap with a hole at a leaf: the hole rises to the place below the first
// parent that the record is not before.
pub(crate) fn rise<R: Record>(items: &mut [R], from: usize, item: R)
    requires from { from < length items.old }
    requires leaf { length items.old ≤ 2 * from + 1 }
    requires heap { IsHeapRound (is_before R.Ord.cmp) items.old from }
    ensures heap { IsMinHeap (is_before R.Ord.cmp) items.new }
    ensures bag { IsSameBag items.new (slice_set items.old from item) }
{
    record_laws::<R>();
    let mut hole = from;
    while hole > 0 {
        let parent = (hole - 1) / 2;
        let above = items[parent];
        if !item.is_less(&above) {
            break;
        }
        items[hole] = above;
        hole = parent;
    }
    items[hole] = item;
}

// Puts the last record into its place in the heap of the others.
#[inline]
fn rise_last<R: Record>(items: &mut [R])
    requires some { 0 < length items.old }
    requires heap { IsMinHeap (is_before R.Ord.cmp) (take (length items.old - 1) items.old) }
    ensures heap { IsMinHeap (is_before R.Ord.cmp) items.new }
    ensures bag { IsSameBag items.new items.old }
{
    let place = items.len() - 1;
    let item = items[place];
    rise(items, place, item);
}

// Puts each record behind a heap into its place in it, so that all of them are a heap.
#[inline]
pub(crate) fn rise_all<R: Record>(items: &mut [R], heaped: usize)
    requires within { heaped ≤ length items.old }
    requires heap { IsMinHeap (is_before R.Ord.cmp) (take heaped items.old) }
    ensures heap { IsMinHeap (is_before R.Ord.cmp) items.new }
    ensures bag { IsSameBag items.new items.old }
{
    for place in heaped..items.len() {
        rise_last(&mut items[..place + 1]);
    }
}

// Sinks the hole at the root of a heap to a leaf, whose place it gives. At each level the lesser
// child moves up.
fn sink<R: Record>(items: &mut [R]) -> usize
    requires some { 0 < length items.old }
    requires heap { IsMinHeap (is_before R.Ord.cmp) items.old }
    ensures place { result < length items.new }
    ensures leaf { length items.new ≤ 2 * result + 1 }
    ensures heap { IsHeapRound (is_before R.Ord.cmp) items.new result }
    ensures bag { (item : _) → IsSameBag (slice_set items.new result item) (slice_set items.old 0 item) }
{
    record_laws::<R>();
    let parents = items.len() / 2;
    let mut hole = 0;
    while hole < parents {
        let child = lesser_child(items, hole);
        items[hole] = items[child];
        hole = child;
    }
    hole
}

// The place of the lesser child, the first of equal ones.
#[inline]
fn lesser_child<R: Record>(items: &[R], parent: usize) -> usize
    requires { 2 * parent + 1 < length items.now }
    ensures within { result < length items.now }
    ensures child { (result - 1) / 2 ≡ parent }
    ensures below { parent < result }
    ensures lesser { IsLesserChild (is_before R.Ord.cmp) items.now parent result }
{
    record_laws::<R>();
    let child = 2 * parent + 1;
    if child + 1 < items.len() && items[child + 1].is_less(&items[child]) {
        child + 1
    } else {
        child
    }
}

// Takes the root, the smallest record, out of a heap and puts another record into it.
pub(crate) fn replace_root<R: Record>(items: &mut [R], item: R) -> R
    requires some { 0 < length items.old }
    requires heap { IsMinHeap (is_before R.Ord.cmp) items.old }
    ensures root { slice_get items.old 0 ≡ Some result }
    ensures heap { IsMinHeap (is_before R.Ord.cmp) items.new }
    ensures bag { IsSameBag (result ∷ items.new) (item ∷ items.old) }
{
    let root = items[0];
    let hole = sink(items);
    rise(items, hole, item);
    root
}
