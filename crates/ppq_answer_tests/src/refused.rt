//! Requests that are none, and ends of the input: the number that is told, and what was answered.

use crate::list::{Case, put_frame, tight};
use crate::talks::{Plan, ends};
use ppq_answer::{End, Outcome};
use ppq_outside::Host;
use ppq_record::Pair;
use ppq_testkit::pair;
use std::alloc::Global;
use std::process::Abort;
use std::test::Fail;

// Three requests, with the numbers 2 to 4: records, none, and each other operation.
fn three(alloc: Global) -> Result<Case, Fail> {
    let mut case = Case::new(alloc)?;
    case.push_many(&[pair(5), pair(3), pair(9)])?;
    case.push(pair(4))?;
    case.send()?;
    case.send()?;
    case.top()?;
    case.pop()?;
    case.bulk_pop_limit(pair(9), 1)?;
    case.bulk_pop(1)?;
    case.send()?;
    Ok(case)
}

// These bytes, behind three requests and in front of one, are no request: its number is told, what is in front of it is answered, and nothing else.
fn is_refused<H: Host + Abort>(rt: &H, alloc: Global, case: &Case, bytes: &[u8]) -> Result<(), Fail>
where
    H::Dir: Send,
{
    let mut input = case.input.clone()?;
    input.extend_from_slice(bytes)?;
    put_frame(&mut input, b"p")?;
    let bad = Outcome::BadRequest { number: 5 };
    let sizes = tight(1, 4, case.load);
    let plan = Plan::plain(1000);
    ends(rt, alloc, &input, sizes, plan, bad, &case.output);
    Ok(())
}

// Operations of more than one byte, of pairs.
const LONG: &[&[u8]] = &[
    b"+\0\0\0\0\0\0\0\x05\0\0\0\0\0\0\0\x01",
    b"n\0\0\0\0\0\0\x01\x02",
    b"b\0\0\0\0\0\0\0\x05\0\0\0\0\0\0\0\x01\0\0\0\0\0\0\0\x02",
    b"P\0\0\0\x02\0\0\0\0\0\0\0\x05\0\0\0\0\0\0\0\x01\0\0\0\0\0\0\0\x03\xff\xff\xff\xff\xff\xff\xff\xff",
];

// That each cut is refused is tested of `is_request`: here are those behind the letter, in the middle, and in front of the last byte.
#[test]
fn a_cut_operation_is_refused_with_all_in_front_of_it(rt: HostRuntime) -> Result<(), Fail> {
    let case = three(rt.alloc())?;
    for bytes in LONG {
        for count in [1, bytes.len() / 2, bytes.len().saturating_sub(1)] {
            let count = count.min(bytes.len());
            // a `pop` in front of it is not executed
            let mut operations = Vec::new(rt.alloc());
            operations.push(b'p')?;
            operations.extend_from_slice(&bytes[..count])?;
            let mut frame = Vec::new(rt.alloc());
            put_frame(&mut frame, &operations)?;
            is_refused(&rt, rt.alloc(), &case, &frame)?;
        }
    }
    Ok(())
}

// Frames that are none of requests.
const BAD: &[&[u8]] = &[
    // letters that are none, alone and behind an operation
    b"\0\0\0\x01\0",
    b"\0\0\0\x01x",
    b"\0\0\0\x02p\0",
    b"\0\0\0\x02tP",
    // a first frame
    b"\0\0\0\x13ppq-serve 1 pair up",
    // 2^32 - 1 records are said, and none of one
    b"\0\0\0\x05P\xff\xff\xff\xff",
    b"\0\0\0\x05P\0\0\0\x01",
    // lengths above 4,194,304: by one, 2^24 and 2^32 - 1
    b"\0\x40\0\x01",
    b"\x01\0\0\0",
    b"\xff\xff\xff\xff",
    // the longest length of a request, of which but a few bytes come
    b"\0\x40\0\0",
    b"\0\x40\0\0pppppppp",
];

#[test]
fn what_is_no_request_is_told_by_its_number(rt: HostRuntime) -> Result<(), Fail> {
    let case = three(rt.alloc())?;
    for bytes in BAD {
        is_refused(&rt, rt.alloc(), &case, bytes)?;
    }
    Ok(())
}

// How the requests of a case end of which so many bytes come: `Done` where they are whole, and what of the output is written.
fn wants(case: &Case, count: usize) -> (Outcome, usize) {
    let mut number = 1u64;
    let mut wants = (Outcome::Ended { end: End::Done }, 0usize);
    for (read, written) in case.ends.as_slice() {
        if *read <= count {
            number = number.saturating_add(1);
            wants = (Outcome::Ended { end: End::Done }, *written);
            if *read < count {
                wants = (Outcome::BadRequest { number }, *written);
            }
        }
    }
    wants
}

// Of the three requests just so many bytes come.
fn is_cut<H: Host + Abort>(rt: &H, case: &Case, count: usize, most: usize) -> Result<(), Fail>
where
    H::Dir: Send,
{
    let (outcome, written) = wants(case, count);
    let (Some(input), Some(output)) = (case.input.get(..count), case.output.get(..written)) else {
        return Err(Fail::from("no such byte"));
    };
    let sizes = tight(1, 4, case.load);
    let plan = Plan::plain(most);
    ends(rt, case.alloc, input, sizes, plan, outcome, output);
    Ok(())
}

// How many bytes of the three requests come, which have 74, 4 and 40.
const CUTS: &[usize] = &[0, 1, 3, 4, 5, 73, 74, 75, 77, 78, 82, 83, 117, 118];

#[test]
fn an_end_of_the_input_is_done_only_behind_a_frame(rt: HostRuntime) -> Result<(), Fail> {
    let case = three(rt.alloc())?;
    assert!(rt; case.input.len() == 118);
    for count in CUTS {
        is_cut(&rt, &case, *count, 1000)?;
    }
    Ok(())
}

#[test]
fn a_byte_at_a_time_is_answered_the_same(rt: HostRuntime) -> Result<(), Fail> {
    let case = three(rt.alloc())?;
    for most in [1, 2, 3, 17] {
        is_cut(&rt, &case, case.input.len(), most)?;
    }
    // cut in the last frame
    is_cut(&rt, &case, 117, 1)
}
