//! Records of each type, in their order.

use crate::list::tight;
use crate::talks::{Plan, told_of};
use ppq_answer::{End, Outcome};
use ppq_outside::Host;
use ppq_record::{Down, Fields, Pair, Triple};
use std::alloc::Global;
use std::process::Abort;

// A talk about records of the type `R` is done, and writes this behind the answer to the first frame.
fn writes<H: Host + Abort, R: Fields + Send + Sync>(
    rt: &H,
    alloc: Global,
    input: &[u8],
    wants: &[u8],
)
where
    H::Dir: Send,
{
    let plan = Plan::plain(1000);
    let told = told_of::<H, R>(rt, alloc, input, tight(1, 4, 10), plan);
    assert!(rt; told.outcome == Outcome::Ended { end: End::Done });
    assert!(rt; told.wrote.starts_with(b"\0\0\0\x08\0\0\0\0\0\0\0\0"));
    assert!(rt; told.wrote.len() == wants.len().saturating_add(12));
    assert!(rt; told.wrote.ends_with(wants), "{:?}", told.wrote);
}

#[test]
fn records_of_each_type_come_in_their_order(rt: HostRuntime) {
    let alloc = rt.alloc();
    // pushes of 1 2 and 3 4, and a pop
    let pairs =
        b"\0\0\0\x23+\0\0\0\0\0\0\0\x01\0\0\0\0\0\0\0\x02+\0\0\0\0\0\0\0\x03\0\0\0\0\0\0\0\x04p";
    writes::<HostRuntime, Pair>(
        &rt,
        alloc,
        pairs,
        b"\0\0\0\x10\0\0\0\0\0\0\0\x01\0\0\0\0\0\0\0\x02\0\0\0\x08\0\0\0\0\0\0\0\x01",
    );
    writes::<HostRuntime, Down<Pair>>(
        &rt,
        alloc,
        pairs,
        b"\0\0\0\x10\0\0\0\0\0\0\0\x03\0\0\0\0\0\0\0\x04\0\0\0\x08\0\0\0\0\0\0\0\x01",
    );
    // many pushes, of 1 1 7 and 1 1 6, and a top
    let triples =
        b"\0\0\0\x36P\0\0\0\x02\0\0\0\0\0\0\0\x01\0\0\0\0\0\0\0\x01\0\0\0\0\0\0\0\x07\0\0\0\0\0\0\0\x01\0\0\0\0\0\0\0\x01\0\0\0\0\0\0\0\x06t";
    writes::<HostRuntime, Triple>(
        &rt,
        alloc,
        triples,
        b"\0\0\0\x18\0\0\0\0\0\0\0\x01\0\0\0\0\0\0\0\x01\0\0\0\0\0\0\0\x06\0\0\0\x08\0\0\0\0\0\0\0\x02",
    );
    writes::<HostRuntime, Down<Triple>>(
        &rt,
        alloc,
        triples,
        b"\0\0\0\x18\0\0\0\0\0\0\0\x01\0\0\0\0\0\0\0\x01\0\0\0\0\0\0\0\x07\0\0\0\x08\0\0\0\0\0\0\0\x02",
    );
}
