//! Worked examples of bulk pops over blocks in memory. A number stands for the pair with that key and
//! value 0. Each test closes its queue: to drop one in place would be proved anew in each.
ghost use Rattle.std.specs.Prelude.{◌≡◌};
ghost use Rattle.ppq_budget.specs.Sizes.{batch_of};

use crate::queue::{closes, failing, fill, holding, small};
use ppq_budget::Sizes;
use ppq_outside::{Host, MemRack, MemSlot, OpenGate};
use ppq_queue::{Heaps, LimitEnd, Out, Queue, QueueFault, QueueParts};
use ppq_record::Pair;
use ppq_testkit::pair;
use std::alloc::Global;
use std::process::Abort;

// A queue of these sizes that holds these records, and a list for its bulk pops.
fn filled<H: Host + Abort>(
    rt: &H,
    alloc: Global,
    rack: MemRack,
    sizes: Option<Sizes>,
    records: &[Pair],
) -> (Queue<MemSlot, Pair>, Out<Pair>)
where
    H::Dir: Send,
    ensures { result.1.room ≡ batch_of result.0.sizes }
{
    let sizes = sizes.expect(rt, "a number is out of range");
    let out = Out::new(alloc, &sizes).expect(rt, "memory");
    (holding(rt, alloc, rack, Some(sizes), records), out)
}

// Whether a bulk pop of so many records gives these.
fn gives<H: Host>(
    rt: &H,
    queue: &mut Queue<MemSlot, Pair>,
    out: &mut Out<Pair>,
    asked: u64,
    want: &[Pair],
) -> bool
where
    H::Dir: Send,
    requires { out.old.room ≡ batch_of queue.old.sizes }
    ensures { out.new.room ≡ batch_of queue.new.sizes }
{
    let popped = queue.bulk_pop(rt, asked, out, &OpenGate);
    (popped == Ok(want.len() as u64)) & (out.as_slice() == want)
}

// Whether a bulk pop of so many records below a limit gives these and ends so.
fn gives_below<H: Host>(
    rt: &H,
    queue: &mut Queue<MemSlot, Pair>,
    out: &mut Out<Pair>,
    limit: u64,
    asked: u64,
    want: (&[Pair], LimitEnd),
) -> bool
where
    H::Dir: Send,
    requires { out.old.room ≡ batch_of queue.old.sizes }
    ensures { out.new.room ≡ batch_of queue.new.sizes }
{
    let end = queue.bulk_pop_limit(rt, pair(limit), asked, out, &OpenGate);
    (end == Ok(want.1)) & (out.as_slice() == want.0)
}

#[test]
fn an_out_list_begins_empty(rt: HostRuntime) {
    let sizes = small().expect(&rt, "a number is out of range");
    let out: Out<Pair> = Out::new(rt.alloc(), &sizes).expect(&rt, "memory");
    let counts = (out.len() == 0) & (out.room() == 4);
    assert!(rt; out.is_empty() & counts & (out.as_slice().len() == 0));
}

// Whether a queue of four records gives them in bulk, the smallest first.
fn gives_the_least<H: Host + Abort>(rt: &H, alloc: Global) -> bool
where
    H::Dir: Send,
{
    let low = Pair { key: 3, value: 2 };
    let high = Pair { key: 3, value: 9 };
    let five = Pair { key: 5, value: 1 };
    let records = [five, high, five, low];
    let (mut queue, mut out) = filled(rt, alloc, MemRack::new(), small(), &records);
    let none = gives(rt, &mut queue, &mut out, 0, &[]);
    let three = gives(rt, &mut queue, &mut out, 3, &[low, high, five]);
    let left = queue.size() == 1;
    let last = gives(rt, &mut queue, &mut out, u64::MAX, &[five]);
    let end = gives(rt, &mut queue, &mut out, 5, &[]);
    none & three & left & last & end & closes(queue, 200)
}

#[test]
fn a_bulk_pop_gives_the_least_in_order(rt: HostRuntime) {
    assert!(rt; gives_the_least(&rt, rt.alloc()));
}

// The records of 1 to 5 in a mixed order, 5 twice.
fn six() -> [Pair; 6] {
    [pair(5), pair(4), pair(5), pair(3), pair(1), pair(2)]
}

// Whether limited pops of six records end with the round, which has room for four, and with the limit; and of
// six more with the number.
fn ends_with_its_round<H: Host + Abort>(
    rt: &H,
    queue: &mut Queue<MemSlot, Pair>,
    out: &mut Out<Pair>,
) -> bool
where
    H::Dir: Send,
    requires { out.old.room ≡ batch_of queue.old.sizes }
    ensures { out.new.room ≡ batch_of queue.new.sizes }
{
    let four = [pair(1), pair(2), pair(3), pair(4)];
    let round = gives_below(rt, queue, out, 9, 10, (&four, LimitEnd::Round));
    let last = [pair(5), pair(5)];
    let all = gives_below(rt, queue, out, 9, 10, (&last, LimitEnd::All));
    let none = queue.size() == 0;
    fill(rt, queue, &six());
    let more = gives_below(rt, queue, out, 9, 4, (&four, LimitEnd::More));
    round & all & none & more & (queue.size() == 2)
}

// Whether limited pops of a queue that holds 5 twice leave what is not below the limit, and the limit itself.
fn leaves_the_limit<H: Host + Abort>(
    rt: &H,
    queue: &mut Queue<MemSlot, Pair>,
    out: &mut Out<Pair>,
) -> bool
where
    H::Dir: Send,
    requires { out.old.room ≡ batch_of queue.old.sizes }
{
    let below = [pair(3), pair(4)];
    fill(rt, queue, &below);
    let none = gives_below(rt, queue, out, 0, 10, (&[], LimitEnd::All));
    let more = gives_below(rt, queue, out, 5, 0, (&[], LimitEnd::More));
    let two = gives_below(rt, queue, out, 5, 2, (&below, LimitEnd::All));
    none & more & two & (queue.size() == 2)
}

// Whether limited pops of a queue of six records end as they should.
fn ends_of_limited_pops<H: Host + Abort>(rt: &H, alloc: Global) -> bool
where
    H::Dir: Send,
{
    let (mut queue, mut out) = filled(rt, alloc, MemRack::new(), small(), &six());
    let first = ends_with_its_round(rt, &mut queue, &mut out);
    let second = leaves_the_limit(rt, &mut queue, &mut out);
    first & second & closes(queue, 200)
}

#[test]
fn a_limited_pop_ends_with_its_round_its_number_or_its_limit(rt: HostRuntime) {
    assert!(rt; ends_of_limited_pops(&rt, rt.alloc()));
}

// Whether records are all the pair 7.
fn are_sevens(records: &[Pair]) -> bool {
    let mut is_same = true;
    for record in records {
        is_same &= *record == pair(7);
    }
    is_same
}

// Pops equal records in bulk, and counts them.
fn count_sevens<H: Host + Abort>(
    rt: &H,
    queue: &mut Queue<MemSlot, Pair>,
    out: &mut Out<Pair>,
) -> u64
where
    H::Dir: Send,
    requires { out.old.room ≡ batch_of queue.old.sizes }
{
    let mut count: u64 = 0;
    'rounds: for _round in 0..1000 {
        let popped = queue.bulk_pop(rt, 7, out, &OpenGate).unwrap_or(0);
        count = count.saturating_add(popped);
        assert!(rt; are_sevens(out.as_slice()));
    }
    count
}

// Whether 2,000 equal records come out of a queue as often.
fn gives_all_sevens<H: Host + Abort>(rt: &H, alloc: Global) -> bool
where
    H::Dir: Send,
{
    // 2,000 records have room in 2 * 1000 + 72 + 8 = 2,080 blocks.
    let sizes = Sizes::new(2, 2, 1, 2252, 2080);
    let sevens = [pair(7); 2000];
    let (mut queue, mut out) = filled(rt, alloc, MemRack::new(), sizes, &sevens);
    let all = count_sevens(rt, &mut queue, &mut out) == 2000;
    all & (queue.size() == 0) & closes(queue, 2080)
}

#[test]
fn two_thousand_equal_records_come_out_two_thousand_times(rt: HostRuntime) {
    assert!(rt; gives_all_sevens(&rt, rt.alloc()));
}

// Whether both bulk pops name block 0 and leave the list empty, and the queue its three records.
fn names_block<H: Host>(rt: &H, queue: &mut Queue<MemSlot, Pair>, out: &mut Out<Pair>) -> bool
where
    H::Dir: Send,
    requires { out.old.room ≡ batch_of queue.old.sizes }
{
    let fault = QueueFault::Device { number: 0 };
    let failed = queue.bulk_pop(rt, 3, out, &OpenGate) == Err(fault);
    let emptied = out.is_empty() & (queue.size() == 3);
    let limited = queue.bulk_pop_limit(rt, pair(9), 3, out, &OpenGate) == Err(fault);
    failed & emptied & limited & out.is_empty()
}

// Whether a failed read stops the bulk pops of a queue.
fn stops_bulk_pops<H: Host + Abort>(rt: &H, alloc: Global) -> bool
where
    H::Dir: Send,
{
    let rack = failing(rt, alloc, 2);
    let (mut queue, mut out) = filled(rt, alloc, rack, small(), &[pair(1)]);
    let one = gives(rt, &mut queue, &mut out, 1, &[pair(1)]);
    fill(rt, &mut queue, &[pair(2), pair(3), pair(4)]);
    one & names_block(rt, &mut queue, &mut out) & closes(queue, 200)
}

#[test]
fn a_failed_read_empties_the_list_and_stops_the_queue(rt: HostRuntime) {
    assert!(rt; stops_bulk_pops(&rt, rt.alloc()));
}

// The queue with its heaps in the other order. A push fills the heap that is first then.
fn turned(queue: Queue<MemSlot, Pair>) -> Queue<MemSlot, Pair>
    ensures { result.sizes ≡ queue.sizes }
{
    let mut parts = queue.into_parts();
    let (heaps, tree) = parts.heaps.into_parts();
    let mut heaps = heaps;
    heaps.as_mut_slice().reverse();
    parts.heaps = Heaps::from_parts(heaps, tree);
    Queue::from_parts(parts)
}

// Whether what two heaps hold comes out in bulk, also once a session has begun.
fn takes_from_both<H: Host + Abort>(rt: &H, alloc: Global) -> bool
where
    H::Dir: Send,
{
    let records = [pair(4), pair(1)];
    let (queue, mut out) = filled(rt, alloc, MemRack::new(), small(), &records);
    let mut queue = turned(queue);
    fill(rt, &mut queue, &[pair(3), pair(2)]);
    let resident = queue.resident() == 4 + 8 + 78 * 2;
    let three = gives(rt, &mut queue, &mut out, 3, &[pair(1), pair(2), pair(3)]);
    let mut queue = turned(queue);
    fill(rt, &mut queue, &[pair(5)]);
    let begun = queue.begin_session(rt, true, &OpenGate) == Ok(());
    let settled = queue.settle(rt, &OpenGate) == Ok(());
    let two = gives(rt, &mut queue, &mut out, 9, &[pair(4), pair(5)]);
    resident & three & begun & settled & two & closes(queue, 200)
}

#[test]
fn a_bulk_pop_takes_from_two_heaps(rt: HostRuntime) {
    assert!(rt; takes_from_both(&rt, rt.alloc()));
}
