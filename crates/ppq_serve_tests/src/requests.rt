//! What is a request, and what is none: each byte cut, lengths that are too great, letters that are none.
use ppq_requests::{Down, Pair, Triple, is_request, requests_mean};

// One operation each, of pairs.
const ONE: &[&[u8]] = &[
    b"p",
    b"t",
    b"+\0\0\0\0\0\0\0\x05\0\0\0\0\0\0\0\x01",
    b"n\0\0\0\0\0\0\x01\x02",
    b"b\0\0\0\0\0\0\0\x05\0\0\0\0\0\0\0\x01\0\0\0\0\0\0\0\x02",
    b"P\0\0\0\0",
    b"P\0\0\0\x01\0\0\0\0\0\0\0\x05\0\0\0\0\0\0\0\x01",
    b"P\0\0\0\x02\0\0\0\0\0\0\0\x05\0\0\0\0\0\0\0\x01\0\0\0\0\0\0\0\x03\xff\xff\xff\xff\xff\xff\xff\xff",
];

#[test]
fn an_operation_is_a_request_and_no_part_of_it_is(rt: HostRuntime) {
    requests_mean::<Pair>();
    for bytes in ONE {
        assert!(&rt; is_request::<Pair>(bytes), "{bytes:?}");
        assert!(&rt; is_request::<Down<Pair>>(bytes), "{bytes:?}");
        for count in 1..bytes.len() {
            assert!(&rt; !is_request::<Pair>(&bytes[..count]), "{bytes:?}, {count}");
        }
    }
    // no operation at all
    assert!(&rt; is_request::<Pair>(b""));
}

// Operations, one behind the other.
const GOOD: &[&[u8]] = &[
    b"pppp",
    b"ptpt",
    b"P\0\0\0\0P\0\0\0\0p",
    b"+\0\0\0\0\0\0\0\x05\0\0\0\0\0\0\0\x01+\0\0\0\0\0\0\0\x03\0\0\0\0\0\0\0\x09p",
    b"n\0\0\0\0\0\0\0\0n\xff\xff\xff\xff\xff\xff\xff\xff",
    // letters in records and numbers are none
    b"+xxxxxxxxxxxxxxxxp",
    b"nxxxxxxxxt",
];

// Bytes that are no request.
const BAD: &[&[u8]] = &[
    b"\0",
    b"\n",
    b"x",
    b"L\0\0\0\0",
    b"T",
    b"N\0\0\0\0\0\0\0\0",
    b"size",
    // a good operation, and then no letter
    b"p\0",
    b"p ",
    b"tx",
    b"+\0\0\0\0\0\0\0\x05\0\0\0\0\0\0\0\x01\0",
    b"P\0\0\0\0\0",
    // an operation that is cut behind a good one
    b"p+",
    b"pn\0\0\0\0\0\0\0",
    b"tb\0\0\0\0\0\0\0\x05\0\0\0\0\0\0\0\x01",
    // fewer records than are said: one of two, none of one, and 2^32 - 1
    b"P\0\0\0\x02\0\0\0\0\0\0\0\x05\0\0\0\0\0\0\0\x01",
    b"P\0\0\0\x01",
    b"P\xff\xff\xff\xff\0\0\0\0\0\0\0\x05\0\0\0\0\0\0\0\x01",
    // 1 with the lowest byte first
    b"P\x01\0\0\0\0\0\0\0\0\0\0\x05\0\0\0\0\0\0\0\x01",
    // a first frame
    b"ppq-serve 1 pair up",
];

#[test]
fn operations_stand_one_behind_the_other(rt: HostRuntime) {
    for bytes in GOOD {
        assert!(&rt; is_request::<Pair>(bytes), "{bytes:?}");
    }
    for bytes in BAD {
        assert!(&rt; !is_request::<Pair>(bytes), "{bytes:?}");
    }
}

#[test]
fn of_single_bytes_two_are_requests(rt: HostRuntime) {
    for byte in 0..=255u8 {
        let is_letter = byte == b'p' || byte == b't';
        assert!(&rt; is_request::<Pair>(&[byte]) == is_letter, "{byte}");
    }
}

#[test]
fn the_records_of_a_request_are_those_of_the_first_frame(rt: HostRuntime) {
    let pair = b"+\0\0\0\0\0\0\0\x05\0\0\0\0\0\0\0\x01";
    let triple = b"+\0\0\0\0\0\0\0\x05\0\0\0\0\0\0\0\x01\0\0\0\0\0\0\0\x02";
    assert!(&rt; !is_request::<Triple>(pair));
    assert!(&rt; is_request::<Triple>(triple));
    assert!(&rt; !is_request::<Pair>(triple));
    assert!(&rt; is_request::<Down<Triple>>(triple));
}
