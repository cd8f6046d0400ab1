//! Records that a session takes from a slice.
use crate::records::{are_keys, popped};
use crate::session::begun;
use ppq_outside::OpenGate;
use ppq_session::{Host, Maker, Pair, RecordSlice};
use ppq_testkit::pair;
use std::alloc::Global;
use std::process::Abort;
use std::test::Fail;

// The records that a maker has left are these, in their order.
fn makes<H: Abort>(rt: &H, maker: RecordSlice<Pair>, records: &[Pair]) {
    let mut maker = maker;
    assert!(rt; maker.left() == records.len() as u64);
    for record in records {
        assert!(rt; maker.make() == Some(*record));
    }
    assert!(rt; maker.make().is_none() & (maker.left() == 0));
}

#[test]
fn parts_of_a_slice_are_made_in_their_order(rt: HostRuntime) {
    let records = [pair(9), pair(7), pair(8), pair(7)];
    let all = RecordSlice::new(&records);
    makes(&rt, all.part(0, 2), &records[..2]);
    makes(&rt, all.part(1, 2), &records[1..3]);
    // fewer are left than are asked for
    makes(&rt, all.part(3, 2), &records[3..]);
    makes(&rt, all.part(5, 2), &[]);
    makes(&rt, all.part(1, u64::MAX), &records[1..]);
    makes(&rt, all.part(1, 3).part(1, 1), &records[2..3]);
    makes(&rt, all, &records);
}

// A session of an empty queue for three workers takes records from a slice, and the queue has just these then:
// their keys are from 0 on, so many.
fn takes<H: Host + Abort>(rt: &H, alloc: Global, records: &[Pair]) -> Result<(), Fail>
where
    H::Dir: Send,
{
    let mut session = begun(rt, alloc)?;
    let all = session.deal(rt, &RecordSlice::new(records), &OpenGate);
    let (queue, end) = session.end(rt, &OpenGate);
    let left = popped(rt, alloc, queue);
    assert!(rt; all & end.is_ok() & are_keys(left.as_slice(), 0, records.len() as u64));
    Ok(())
}

#[test]
fn workers_take_their_parts_of_a_slice(rt: HostRuntime) -> Result<(), Fail> {
    // the parts are of three records, of three and of one
    let records = [
        pair(6),
        pair(2),
        pair(5),
        pair(0),
        pair(4),
        pair(1),
        pair(3),
    ];
    takes(&rt, rt.alloc(), &records)?;
    // the third worker has no part of two records
    takes(&rt, rt.alloc(), &[pair(1), pair(0)])?;
    takes(&rt, rt.alloc(), &[])
}
