//! The first line of a script, which tells what its records are.

use crate::script::{has_commands, is_bad_at, read_for};
use ppq_script::{Command, Down, Head, Kind, Order, Triple, read_head};

const PAIRS_UP: Head = Head {
    kind: Kind::Pair,
    order: Order::Up,
};

const PAIRS_DOWN: Head = Head {
    kind: Kind::Pair,
    order: Order::Down,
};

const TRIPLES_UP: Head = Head {
    kind: Kind::Triple,
    order: Order::Up,
};

const TRIPLES_DOWN: Head = Head {
    kind: Kind::Triple,
    order: Order::Down,
};

// Scripts with a head, and the head of each.
const HEADS: &[(&[u8], Head)] = &[
    (b"ppq 2 pair up", PAIRS_UP),
    (b"ppq 2 pair down", PAIRS_DOWN),
    (b"ppq 2 triple up\npush 1 2", TRIPLES_UP),
    (b"  ppq   2 triple down  \r\npop\n", TRIPLES_DOWN),
    (b"ppq 2 triple down\r", TRIPLES_DOWN),
];

// Scripts without a head.
const NO_HEADS: &[&[u8]] = &[
    b"",
    b"pop\n",
    b"\nppq 2 triple down\n",
    b"# x\nppq 2 triple down\n",
    b"ppq 3 triple down\n",
    b"ppq 02 triple down\n",
    b"ppq 2 triple\n",
    b"ppq 2 triple down 1\n",
    b"ppq 2 triples down\n",
    b"PPQ 2 triple down\n",
    b"ppq\t2 triple down\n",
    b"ppq 2 triple down\r\r\n",
];

#[test]
fn the_head_is_the_first_line(rt: HostRuntime) {
    for (text, head) in HEADS {
        assert_eq!(&rt; read_head(text), *head, "{text:?}");
    }
    for text in NO_HEADS {
        let head = read_head(text);
        assert!(&rt;
            head.kind == Kind::Pair && head.order == Order::Up,
            "{text:?}"
        );
    }
}

// Scripts, and the first bad line of each, if there is one.
const HEADED: &[(&[u8], Option<u32>)] = &[
    // a head is a good first line, and a bad one elsewhere
    (b"ppq 2 pair up", None),
    (b"ppq 2 pair down\n\npush 1 2\n", None),
    (b"  ppq  2 pair up \r\npop", None),
    (b"#x\nppq 2 pair up", Some(2)),
    (b"\nppq 2 pair up", Some(2)),
    (b"ppq 2 pair down\nppq 2 pair down", Some(2)),
    (b"ppq 3 pair up", Some(1)),
    (b"ppq 2 pair", Some(1)),
    (b"ppq 2 pair up # x", Some(1)),
    (b"ppq 2 pair up\n\nx", Some(3)),
    (b"ppq 2 triple down\nbulk_begin\n", Some(3)),
    // a record is two numbers, or three
    (b"ppq 2 pair down\npush 1 2 3", Some(2)),
    (b"ppq 2 triple up\npush 1 2", Some(2)),
    (b"ppq 2 triple up\npush 1 2 3 4", Some(2)),
    (b"ppq 2 triple up\npush 1 2 x", Some(2)),
    (b"ppq 2 triple up\nbulk_pop_limit 1 2 3", Some(2)),
    (b"ppq 2 triple up\nbulk_begin\nbulk_push 0 1 2\n", Some(3)),
    (b"ppq 2 triple up\nlimit_begin 1 2\n", Some(2)),
    (
        b"ppq 2 triple up\nlimit_begin 1 2 3\nlimit_push 0 1 2\n",
        Some(3),
    ),
    // numbers that are no record stay as many
    (b"ppq 2 triple up\ngen 1 2\ndrain 3\nbulk_pop 4\n", None),
    (b"ppq 2 triple up\ngen 1 2 3\n", Some(2)),
    // a record below the limit is bad, by the order of the head
    (
        b"ppq 2 pair down\nlimit_begin 4 7\nlimit_push 0 4 7\nlimit_push 0 4 6\nlimit_end\n",
        None,
    ),
    (
        b"ppq 2 pair down\nlimit_begin 4 7\nlimit_push 0 4 8\n",
        Some(3),
    ),
    (
        b"ppq 2 triple up\nlimit_begin 4 7 1\nlimit_push 0 4 8 0\nlimit_push 0 4 7 0\n",
        Some(4),
    ),
    (
        b"ppq 2 triple down\nlimit_begin 4 7 1\nlimit_push 0 4 7 0\nlimit_push 0 4 7 2\n",
        Some(4),
    ),
];

#[test]
fn lines_are_read_by_the_head(rt: HostRuntime) {
    for (text, bad) in HEADED {
        is_bad_at(&rt, rt.alloc(), text, *bad);
    }
}

// The record of three numbers.
const fn three(time: u64, target: u64, word: u64) -> Triple {
    Triple { time, target, word }
}

// A script of triples for two workers, the greatest first.
const TRIPLES: &[u8] =
    b"ppq 2 triple down\npush 1 2 3\nbulk_pop_limit 4 5 6 7\nbulk_begin\nbulk_push 1 8 9 10\nbulk_end\n";

#[test]
fn a_record_of_a_script_of_triples_has_three_numbers(rt: HostRuntime) {
    let script = read_for(&rt, rt.alloc(), TRIPLES, 2);
    let item = three(1, 2, 3);
    let limit = three(4, 5, 6);
    let pushed = three(8, 9, 10);
    let commands = [
        (
            2,
            Command::Push {
                item: Down { item },
            },
        ),
        (
            3,
            Command::BulkPopLimit {
                limit: Down { item: limit },
                count: 7,
            },
        ),
        (4, Command::BulkBegin),
        (
            5,
            Command::BulkPush {
                pass: 1,
                item: Down { item: pushed },
            },
        ),
        (6, Command::BulkEnd),
    ];
    has_commands(&rt, &script, &commands);
}
