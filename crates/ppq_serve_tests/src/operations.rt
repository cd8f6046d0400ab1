//! Operations that are cut off a request, written by hand.
use ppq_requests::{Operation, Pair, Triple, cut_operation, cut_record};

// The record of 5 and 1 in 16 bytes, and that of 3 and 2^64 - 1.
const FIVE: &[u8] = b"\0\0\0\0\0\0\0\x05\0\0\0\0\0\0\0\x01";

const THREE: &[u8] = b"\0\0\0\0\0\0\0\x03\xff\xff\xff\xff\xff\xff\xff\xff";

// The request `+ 5 1`, `+ 3 9`, `p` of docs/serve.md.
const PUSHES: &[u8] =
    b"+\0\0\0\0\0\0\0\x05\0\0\0\0\0\0\0\x01+\0\0\0\0\0\0\0\x03\0\0\0\0\0\0\0\x09p";

#[test]
fn pushes_and_a_pop_are_cut_off_one_after_the_other(rt: HostRuntime) {
    let five = Operation::Push {
        item: Pair { key: 5, value: 1 },
    };
    let three = Operation::Push {
        item: Pair { key: 3, value: 9 },
    };
    assert!(&rt; cut_operation::<Pair>(PUSHES) == Some((five, &PUSHES[17..])));
    assert!(&rt; cut_operation::<Pair>(&PUSHES[17..]) == Some((three, b"p".as_slice())));
    assert!(&rt; cut_operation::<Pair>(b"p") == Some((Operation::Pop, b"".as_slice())));
    assert!(&rt; cut_operation::<Pair>(b"").is_none());
}

// Each other operation, with `t` behind it.
const MANY: &[u8] =
    b"P\0\0\0\x02\0\0\0\0\0\0\0\x05\0\0\0\0\0\0\0\x01\0\0\0\0\0\0\0\x03\xff\xff\xff\xff\xff\xff\xff\xfft";

const NONE: &[u8] = b"P\0\0\0\0t";

const TEN: &[u8] = b"n\0\0\0\0\0\0\x01\x02t";

const ALL: &[u8] = b"n\xff\xff\xff\xff\xff\xff\xff\xfft";

const BELOW: &[u8] = b"b\0\0\0\0\0\0\0\x05\0\0\0\0\0\0\0\x01\0\0\0\0\0\x01\0\0t";

#[test]
fn each_operation_has_its_records_and_numbers(rt: HostRuntime) {
    let rows = [
        (
            MANY,
            Operation::PushMany {
                records: &MANY[5..37],
            },
        ),
        (NONE, Operation::PushMany { records: b"" }),
        // 258, and 2^64 - 1
        (TEN, Operation::BulkPop { count: 258 }),
        (ALL, Operation::BulkPop { count: u64::MAX }),
        (
            BELOW,
            Operation::BulkPopLimit {
                limit: Pair { key: 5, value: 1 },
                count: 65_536,
            },
        ),
        (b"tt", Operation::Top),
        (b"pt", Operation::Pop),
    ];
    for (bytes, operation) in rows {
        assert!(&rt;
            cut_operation::<Pair>(bytes) == Some((operation, b"t".as_slice())),
            "{bytes:?}"
        );
    }
}

#[test]
fn a_triple_has_24_bytes(rt: HostRuntime) {
    let bytes = b"+\0\0\0\0\0\0\0\x01\0\0\0\0\0\0\0\x02\0\0\0\0\0\0\0\x03p".as_slice();
    let item = Triple {
        time: 1,
        target: 2,
        word: 3,
    };
    let pushed = Some((Operation::Push { item }, b"p".as_slice()));
    assert!(&rt; cut_operation::<Triple>(bytes) == pushed);
}

#[test]
fn records_are_cut_off_their_bytes(rt: HostRuntime) {
    let three = Pair {
        key: 3,
        value: u64::MAX,
    };
    assert!(&rt; cut_record::<Pair>(THREE) == Some((three, b"".as_slice())));
    assert!(&rt; cut_record::<Pair>(&FIVE[..15]).is_none());
    assert!(&rt; cut_record::<Pair>(b"").is_none());
}
