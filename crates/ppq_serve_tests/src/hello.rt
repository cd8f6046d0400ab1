//! The first frame of a client.
use ppq_requests::{Head, Kind, Order, hello_means, read_hello};

// The four first frames.
const HEADS: &[(&[u8], Kind, Order)] = &[
    (b"ppq-serve 1 pair up", Kind::Pair, Order::Up),
    (b"ppq-serve 1 pair down", Kind::Pair, Order::Down),
    (b"ppq-serve 1 triple up", Kind::Triple, Order::Up),
    (b"ppq-serve 1 triple down", Kind::Triple, Order::Down),
];

#[test]
fn the_first_frame_names_records_and_order(rt: HostRuntime) {
    hello_means();
    for (bytes, kind, order) in HEADS {
        let head = Head {
            kind: *kind,
            order: *order,
        };
        assert!(&rt; read_hello(bytes) == Some(head), "{bytes:?}");
    }
}

#[test]
fn no_part_of_a_first_frame_is_one(rt: HostRuntime) {
    for (bytes, _kind, _order) in HEADS {
        for count in 0..bytes.len() {
            assert!(&rt; read_hello(&bytes[..count]).is_none(), "{bytes:?}, {count}");
        }
    }
}

// Texts that are like them.
const OTHERS: &[&[u8]] = &[
    b"",
    b"ppq-serve 2 pair up",
    b"ppq-serve 1 pair up\n",
    b"ppq-serve 1 pair  up",
    b" ppq-serve 1 pair up",
    b"ppq-serve 1 pair up ",
    b"PPQ-SERVE 1 PAIR UP",
    b"ppq-serve 1 up pair",
    b"ppq-serve 1 pairs up",
    b"ppq-serve 1 quad up",
    b"ppq-serve 1 pair sideways",
    b"ppq 2 pair up",
    b"ppq-serve 1 pair up\0",
    b"p",
];

#[test]
fn other_texts_are_refused(rt: HostRuntime) {
    for bytes in OTHERS {
        assert!(&rt; read_hello(bytes).is_none(), "{bytes:?}");
    }
}
