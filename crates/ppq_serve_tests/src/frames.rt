//! Frames that come in pieces, one behind the other, cut off, and too long.
use ppq_frames::{Failed, Filled, Found, Host, Incoming, Source};
use ppq_outside::MemSource;
use std::alloc::Global;
use std::process::Abort;

// How the frames of a source ended.
#[derive(Clone, Copy, Debug, PartialEq, Eq)]
enum Outcome {
    End,
    CutOff,
    TooLong,
    Failed,
    // Not within as many steps as there should be.
    Going,
}

// Takes all frames of a source. Their requests are put into `taken`, with `|` behind each.
fn take_all<H: Host, I: Source>(
    rt: &H,
    incoming: &mut Incoming,
    source: &mut I,
    taken: &mut Vec<u8>,
) -> Outcome {
    for _step in 0..200u32 {
        match incoming.first() {
            Found::Request { request } => {
                let is_kept = taken.extend_from_slice(request).is_ok();
                if !(is_kept && taken.push(b'|').is_ok()) {
                    return Outcome::Going;
                }
                incoming.skip();
            }
            Found::TooLong => return Outcome::TooLong,
            Found::Part => match incoming.fill(rt, source) {
                Ok(Filled::More) => {}
                Ok(Filled::End) => return Outcome::End,
                Ok(Filled::CutOff) => return Outcome::CutOff,
                Err(Failed) => return Outcome::Failed,
            },
        }
    }
    Outcome::Going
}

// Bytes on the heap.
fn bytes_of(rt: &impl Abort, alloc: Global, bytes: &[u8]) -> Vec<u8> {
    let mut all = Vec::new(alloc);
    all.extend_from_slice(bytes).expect(rt, "memory");
    all
}

// Asserts that these bytes, of which so many come at a time, are these requests, and that they end so.
fn are<H: Host + Abort>(
    rt: &H,
    alloc: Global,
    bytes: &[u8],
    most: usize,
    requests: &[u8],
    outcome: Outcome,
) {
    let mut incoming = Incoming::new(alloc).expect(rt, "memory");
    let mut source = MemSource::new(bytes_of(rt, alloc, bytes), most, Vec::new(alloc));
    let mut taken = Vec::new(alloc);
    let ended = take_all(rt, &mut incoming, &mut source, &mut taken);
    assert_eq!(rt; ended, outcome);
    assert!(rt; taken.as_slice() == requests, "{bytes:?}");
}

// The frames of `ab`, of no bytes, and of `c`.
const THREE: &[u8] = b"\0\0\0\x02ab\0\0\0\0\0\0\0\x01c";

#[test]
fn frames_come_whole_whatever_the_pieces_are(rt: HostRuntime) {
    for most in [1, 2, 3, 5, 7, 15, 16] {
        are(&rt, rt.alloc(), THREE, most, b"ab||c|", Outcome::End);
    }
}

// How many bytes a call gives at the most, and how often a source of the three frames is asked: once a piece, and once at
// its end.
const ASKED: &[(usize, u64)] = &[(1, 16), (2, 9), (5, 4), (7, 4), (15, 2), (16, 2)];

#[test]
fn a_source_is_asked_once_a_piece(rt: HostRuntime) {
    let alloc = rt.alloc();
    // nothing waits in it behind the last frame
    let mut incoming = Incoming::new(alloc).expect(&rt, "memory");
    for (most, calls) in ASKED {
        let next = calls.saturating_add(1);
        for (failing, outcome) in [(*calls, Outcome::Failed), (next, Outcome::End)] {
            let plan = vec![in alloc; failing].expect(&rt, "memory");
            let mut source = MemSource::new(bytes_of(&rt, alloc, THREE), *most, plan);
            let mut taken = Vec::new(alloc);
            let ended = take_all(&rt, &mut incoming, &mut source, &mut taken);
            assert_eq!(&rt; ended, outcome, "{most} at a time");
            assert!(&rt; taken.as_slice() == b"ab||c|".as_slice());
        }
    }
}

// How many of the bytes come, the requests that are whole, and how it ends: at the end of input between two frames,
// or in one.
const CUT: &[(usize, &[u8], Outcome)] = &[
    (0, b"", Outcome::End),
    (1, b"", Outcome::CutOff),
    (2, b"", Outcome::CutOff),
    (3, b"", Outcome::CutOff),
    (4, b"", Outcome::CutOff),
    (5, b"", Outcome::CutOff),
    (6, b"ab|", Outcome::End),
    (7, b"ab|", Outcome::CutOff),
    (9, b"ab|", Outcome::CutOff),
    (10, b"ab||", Outcome::End),
    (11, b"ab||", Outcome::CutOff),
    (14, b"ab||", Outcome::CutOff),
    (15, b"ab||c|", Outcome::End),
];

#[test]
fn an_end_in_a_frame_is_no_end(rt: HostRuntime) {
    for (count, requests, outcome) in CUT {
        let came = &THREE[..(*count).min(15)];
        are(&rt, rt.alloc(), came, 4, requests, *outcome);
    }
}

// Lengths that no request has, behind a frame, and the longest that one may have, of which no byte comes.
const LENGTHS: &[(&[u8], Outcome)] = &[
    // 2^32 - 1
    (b"\0\0\0\x01a\xff\xff\xff\xff", Outcome::TooLong),
    // 4,194,305
    (b"\0\0\0\x01a\0\x40\0\x01", Outcome::TooLong),
    // the same with what may be a request behind it
    (b"\0\0\0\x01a\0\x40\0\x01\0\0\0\0", Outcome::TooLong),
    // 2^31, and 2^24
    (b"\0\0\0\x01a\x80\0\0\0", Outcome::TooLong),
    (b"\0\0\0\x01a\x01\0\0\0", Outcome::TooLong),
    // 4,194,304
    (b"\0\0\0\x01a\0\x40\0\0", Outcome::CutOff),
    (b"\0\0\0\x01a\0\x40\0\0b", Outcome::CutOff),
    // 1, which is 2^24 with the lowest byte first
    (b"\0\0\0\x01a\0\0\0\x01", Outcome::CutOff),
];

#[test]
fn a_frame_above_the_limit_is_refused_by_its_length(rt: HostRuntime) {
    for (bytes, outcome) in LENGTHS {
        are(&rt, rt.alloc(), bytes, 3, b"a|", *outcome);
    }
}

#[test]
fn a_failed_call_loses_nothing(rt: HostRuntime) {
    let alloc = rt.alloc();
    let mut incoming = Incoming::new(alloc).expect(&rt, "memory");
    let plan = vec![in alloc; 2, 4].expect(&rt, "memory");
    let mut source = MemSource::new(bytes_of(&rt, alloc, THREE), 5, plan);
    let mut taken = Vec::new(alloc);
    let first = take_all(&rt, &mut incoming, &mut source, &mut taken);
    assert_eq!(&rt; first, Outcome::Failed);
    assert!(&rt; taken.is_empty());
    // two more calls go well and fail
    let second = take_all(&rt, &mut incoming, &mut source, &mut taken);
    assert_eq!(&rt; second, Outcome::Failed);
    assert!(&rt; taken.as_slice() == b"ab||".as_slice());
    let third = take_all(&rt, &mut incoming, &mut source, &mut taken);
    assert_eq!(&rt; third, Outcome::End);
    assert!(&rt; taken.as_slice() == b"ab||c|".as_slice());
    // and the end stays
    let fourth = take_all(&rt, &mut incoming, &mut source, &mut taken);
    assert_eq!(&rt; fourth, Outcome::End);
}

// The frame of a request of 3,000,000 bytes, all the same.
fn put_long(rt: &impl Abort, into: &mut Vec<u8>, byte: u8) {
    // 3,000,000 is 45 * 65,536 + 198 * 256 + 192
    into.extend_from_slice(b"\0\x2d\xc6\xc0")
        .expect(rt, "memory");
    for _byte in 0..3_000_000u32 {
        into.push(byte).expect(rt, "memory");
    }
}

// The first and the last byte of the request that stands first, if it has as many bytes.
fn ends_of(incoming: &Incoming, length: usize) -> Option<(u8, u8)> {
    match incoming.first() {
        Found::Request { request } if request.len() == length => {
            Some((*request.first()?, *request.last()?))
        }
        _ => None,
    }
}

#[test]
fn long_frames_have_room_one_after_the_other(rt: HostRuntime) {
    let alloc = rt.alloc();
    let mut bytes = Vec::new(alloc);
    put_long(&rt, &mut bytes, b'x');
    put_long(&rt, &mut bytes, b'y');
    let mut incoming = Incoming::new(alloc).expect(&rt, "memory");
    let mut source = MemSource::new(bytes, 700_000, Vec::new(alloc));
    for byte in [b'x', b'y'] {
        let mut calls = 0u32;
        for _step in 0..10u32 {
            match incoming.first() {
                Found::Part => {
                    assert!(&rt; incoming.fill(&rt, &mut source) == Ok(Filled::More));
                    calls = calls.saturating_add(1);
                }
                _ => break,
            }
        }
        // of the second some bytes came with the first
        assert!(&rt; calls == 5 || byte == b'y');
        assert!(&rt; ends_of(&incoming, 3_000_000) == Some((byte, byte)));
        if let Found::Request { .. } = incoming.first() {
            incoming.skip();
        }
    }
    assert!(&rt; incoming.first() == Found::Part);
}
