//! Scripts read from their bytes.
use ppq_script::{
    Command, Down, Fields, Kind, Order, Pair, Script, Triple, lines_mean, read, read_head,
};
use std::alloc::Global;
use std::process::Abort;

// The script of these bytes, whose head speaks of these records.
pub fn read_for<R: Fields>(rt: &impl Abort, alloc: Global, text: &[u8], workers: u32) -> Script<R> {
    let head = read_head(text);
    let is_of_these = head.is_of::<R>();
    assert!(rt; is_of_these && text.len() <= 1_048_576);
    read(alloc, text, workers).expect(rt, "memory")
}

// Asserts that a script has these commands, each with its line, and no bad line.
pub fn has_commands<R: Fields>(
    rt: &impl Abort,
    script: &Script<R>,
    commands: &[(u32, Command<R>)],
) {
    assert_eq!(rt; script.len(), commands.len());
    assert!(rt; script.bad().is_none() && script.is_empty() == commands.is_empty());
    for i in 0..script.len() {
        let (line, command) = commands[i];
        assert!(rt; script.line(i) == line && script.at(i) == command);
    }
}

// Lines, each of which is a script, and the command that each of them is.
const LINES: &[(&[u8], Command<Pair>)] = &[
    (b"pop\n", Command::Pop),
    (b"pop", Command::Pop),
    (b"top\n", Command::Top),
    (b"top", Command::Top),
    (b"size\n", Command::Size),
    (b"size", Command::Size),
    (
        b"push 5 1\n",
        Command::Push {
            item: Pair { key: 5, value: 1 },
        },
    ),
    (
        b"push 5 1",
        Command::Push {
            item: Pair { key: 5, value: 1 },
        },
    ),
    (
        b"push 0 0\n",
        Command::Push {
            item: Pair { key: 0, value: 0 },
        },
    ),
    (b"pop\r\n", Command::Pop),
    (b"pop\r", Command::Pop),
    (b" pop\n", Command::Pop),
    (b"pop \r\n", Command::Pop),
    (b"  size   ", Command::Size),
    (
        b"push  1   2\n",
        Command::Push {
            item: Pair { key: 1, value: 2 },
        },
    ),
    (
        b"   push 1 2 \r\n",
        Command::Push {
            item: Pair { key: 1, value: 2 },
        },
    ),
    (
        b"push 00000000000000000007 1\n",
        Command::Push {
            item: Pair { key: 7, value: 1 },
        },
    ),
    (
        b"push 1 00000000000000000007\n",
        Command::Push {
            item: Pair { key: 1, value: 7 },
        },
    ),
    (
        b"push 18446744073709551615 18446744073709551614\n",
        Command::Push {
            item: Pair {
                key: 18446744073709551615,
                value: 18446744073709551614,
            },
        },
    ),
    (b"bulk f", Command::Bulk { file: 0, length: 0 }),
    (b" bulk  !~/#\r\n", Command::Bulk { file: 0, length: 0 }),
    (
        b"gen 7 4294967296",
        Command::Gen {
            seed: 7,
            count: 4294967296,
        },
    ),
    (
        b"gen 18446744073709551615 0\n",
        Command::Gen {
            seed: 18446744073709551615,
            count: 0,
        },
    ),
    (
        b"bulk_pop 18446744073709551615",
        Command::BulkPop {
            count: 18446744073709551615,
        },
    ),
    (
        b"bulk_pop_limit 1 2 3\n",
        Command::BulkPopLimit {
            limit: Pair { key: 1, value: 2 },
            count: 3,
        },
    ),
    (b"drain 9\n", Command::Drain { count: 9 }),
];

#[test]
fn a_line_is_read_as_its_command(rt: HostRuntime) {
    lines_mean::<Pair>();
    for (text, command) in LINES {
        let script = read_for(&rt, rt.alloc(), text, 1);
        has_commands(&rt, &script, &[(1, *command)]);
    }
}

// Scripts, and the commands of each with their lines.
const SCRIPTS: &[(&[u8], &[(u32, Command<Pair>)])] = &[
    // blank lines and comments
    (b"", &[]),
    (b"\n", &[]),
    (b"\r\n", &[]),
    (b" ", &[]),
    (b"   \r\n", &[]),
    (b"#", &[]),
    (b"# a comment\n", &[]),
    (b"  #pop\r\n", &[]),
    (b"#\tx\n", &[]),
    (b"#x\n\n   \n", &[]),
    // each line has its command
    (
        b"push 5 1\npush 3 9\npop\n",
        &[
            (
                1,
                Command::Push {
                    item: Pair { key: 5, value: 1 },
                },
            ),
            (
                2,
                Command::Push {
                    item: Pair { key: 3, value: 9 },
                },
            ),
            (3, Command::Pop),
        ],
    ),
    // every line counts
    (
        b"#x\n\npush 1 2\r\n  \n  pop  \r\n",
        &[
            (
                3,
                Command::Push {
                    item: Pair { key: 1, value: 2 },
                },
            ),
            (5, Command::Pop),
        ],
    ),
    // a bulk session
    (
        b"pop\nbulk_begin\n\nbulk_push 1 5 6\n# no end\n bulk_push 0 3 4\r\nbulk_end\npop\n",
        &[
            (1, Command::Pop),
            (2, Command::BulkBegin),
            (
                4,
                Command::BulkPush {
                    pass: 1,
                    item: Pair { key: 5, value: 6 },
                },
            ),
            (
                6,
                Command::BulkPush {
                    pass: 0,
                    item: Pair { key: 3, value: 4 },
                },
            ),
            (7, Command::BulkEnd),
            (8, Command::Pop),
        ],
    ),
    // a limit session
    (
        b"limit_begin 4 7\nlimit_top\nlimit_push 0 4 8\nlimit_pop\nlimit_end",
        &[
            (
                1,
                Command::LimitBegin {
                    limit: Pair { key: 4, value: 7 },
                },
            ),
            (2, Command::LimitTop),
            (
                3,
                Command::LimitPush {
                    pass: 0,
                    item: Pair { key: 4, value: 8 },
                },
            ),
            (4, Command::LimitPop),
            (5, Command::LimitEnd),
        ],
    ),
];

#[test]
fn commands_are_read_with_their_lines(rt: HostRuntime) {
    for (text, commands) in SCRIPTS {
        let script = read_for(&rt, rt.alloc(), text, 2);
        has_commands(&rt, &script, commands);
    }
}

// The first bad line of a script for two workers, whose head speaks of these records, and how many
// commands stand in front of it.
fn outline<R: Fields>(rt: &impl Abort, alloc: Global, text: &[u8]) -> (Option<u32>, usize) {
    let script: Script<R> = read_for(rt, alloc, text, 2);
    (script.bad(), script.len())
}

// Asserts which line of a script for two workers is the first bad one, if one is bad. Gives how many
// commands stand in front of it.
pub fn is_bad_at(rt: &impl Abort, alloc: Global, text: &[u8], bad: Option<u32>) -> usize {
    let head = read_head(text);
    let (found, count) = match (head.kind, head.order) {
        (Kind::Pair, Order::Up) => outline::<Pair>(rt, alloc, text),
        (Kind::Pair, Order::Down) => outline::<Down<Pair>>(rt, alloc, text),
        (Kind::Triple, Order::Up) => outline::<Triple>(rt, alloc, text),
        (Kind::Triple, Order::Down) => outline::<Down<Triple>>(rt, alloc, text),
    };
    assert_eq!(rt; found, bad, "{text:?}");
    count
}

// Lines, each of which is a script and bad.
const BAD_LINES: &[&[u8]] = &[
    b"\r\r\n",
    b"\t\n",
    b"\t# no comment\n",
    b"pop # no comment\n",
    b"pop\r\r\n",
    b"pop\r\r",
    b"pop\r \n",
    b"\rpop\n",
    b"pops\n",
    b"POP\n",
    b"top 1\n",
    b"tops\n",
    b"size 1\n",
    b"sized\n",
    b"push\n",
    b"push \n",
    b"push 1\n",
    b"push 1 \n",
    b"push  1\n",
    b"push 1 2 3\n",
    b"push1 2\n",
    b"push\t1 2\n",
    b"push 1\t2\n",
    b"push 1 2\t\n",
    b"push +1 2\n",
    b"push -1 2\n",
    b"push 1 +2\n",
    b"push x 1\n",
    b"push 0x1 1\n",
    b"push 000000000000000000007 1\n",
    b"push 1 000000000000000000007\n",
    b"push 18446744073709551616 0\n",
    b"push 0 18446744073709551616\n",
    b"push 99999999999999999999 0\n",
    b"bulk\n",
    b"bulk f g\n",
    b"bulk \tf\n",
    b"bulk \x7f\n",
    b"bulk \xc3\xa4\n",
    b"gen 1\n",
    b"gen 1 2 3\n",
    b"gen 1 4294967297\n",
    b"bulk_pop\n",
    b"bulk_pop 1 2\n",
    b"bulk_pop -1\n",
    b"bulk_pop_limit 1 2\n",
    b"bulk_pop_limit 1 2 3 4\n",
    b"drain\n",
    b"drain x\n",
    b"bulk_begin 1\n",
    b"bulk_end\n",
    b"limit_begin 1\n",
    b"limit_begin 1 2 3\n",
    b"limit_end\n",
    b"bulk_push 0 1 2\n",
    b"limit_push 0 1 2\n",
    b"limit_top\n",
    b"limit_pop\n",
];

#[test]
fn a_bad_line_is_no_command(rt: HostRuntime) {
    for text in BAD_LINES {
        let before = is_bad_at(&rt, rt.alloc(), text, Some(1));
        assert_eq!(rt; before, 0, "{text:?}");
    }
}

// Scripts, the first bad line of each, and how many commands stand in front of it.
const FIRST_BAD: &[(&[u8], u32, usize)] = &[
    (b"push 5 1\npop\npop\npush x 1", 4, 3),
    (b"pop\npush 18446744073709551616 0", 2, 1),
    (b"pop\nx\ny\npop\n", 2, 1),
    (b"pop\npop\n\nx", 4, 2),
    (b"#\n\n  pop\n \t\n", 4, 1),
];

#[test]
fn the_first_bad_line_is_named(rt: HostRuntime) {
    for (text, bad, before) in FIRST_BAD {
        let found = is_bad_at(&rt, rt.alloc(), text, Some(*bad));
        assert_eq!(rt; found, *before, "{text:?}");
    }
}

// Scripts, and the first line of each that is bad by the session in which it stands, if there is one.
const PLACES: &[(&[u8], Option<u32>)] = &[
    // a session may follow another
    (b"bulk_begin\nbulk_end\nbulk_begin\nbulk_end\n", None),
    (
        b"bulk_begin\nbulk_end\nlimit_begin 1 2\nlimit_end\nsize\n",
        None,
    ),
    (
        b"limit_begin 4 7\nlimit_end\nlimit_begin 3 0\nlimit_push 0 4 0\nlimit_end\n",
        None,
    ),
    (
        b"limit_begin 4 7\nlimit_end\npush 1 1\ngen 1 1\nbulk f\n",
        None,
    ),
    // sessions do not nest
    (b"bulk_begin\nbulk_begin\nbulk_end\n", Some(2)),
    (b"bulk_begin\n\nlimit_begin 4 0\nlimit_end\n", Some(3)),
    (b"limit_begin 4 0\n#\nbulk_begin\n", Some(3)),
    (b"limit_begin 4 0\nlimit_begin 4 0\nlimit_end\n", Some(2)),
    // a command of a session is bad outside
    (b"pop\nbulk_push 0 1 2\n", Some(2)),
    (b"pop\nbulk_end\n", Some(2)),
    (b"bulk_begin\nbulk_end\nbulk_end\n", Some(3)),
    (b"limit_push 0 1 2", Some(1)),
    (b"limit_top", Some(1)),
    (b"limit_end", Some(1)),
    (b"limit_begin 1 2\nlimit_end\nlimit_pop\n", Some(3)),
    // all other commands are bad in a session
    (b"bulk_begin\npop\nbulk_end\n", Some(2)),
    (b"bulk_begin\ntop\nbulk_end\n", Some(2)),
    (b"bulk_begin\nsize\nbulk_end\n", Some(2)),
    (b"bulk_begin\npush 1 2\nbulk_end\n", Some(2)),
    (b"bulk_begin\nbulk f\nbulk_end\n", Some(2)),
    (b"bulk_begin\ngen 1 2\nbulk_end\n", Some(2)),
    (b"limit_begin 4 0\npop\nlimit_end\n", Some(2)),
    (b"limit_begin 4 0\npush 5 0\nlimit_end\n", Some(2)),
    (b"limit_begin 4 0\nbulk_pop 1\nlimit_end\n", Some(2)),
    (
        b"limit_begin 4 0\nbulk_pop_limit 1 1 1\nlimit_end\n",
        Some(2),
    ),
    (b"limit_begin 4 0\ndrain 1\nlimit_end\n", Some(2)),
    (b"limit_begin 4 0\nbulk f\nlimit_end\n", Some(2)),
    // a command of the other session is bad
    (b"bulk_begin\nlimit_push 0 5 0\nbulk_end\n", Some(2)),
    (b"bulk_begin\nlimit_top\nbulk_end\n", Some(2)),
    (b"bulk_begin\nlimit_pop\nbulk_end\n", Some(2)),
    (b"bulk_begin\nlimit_end\nbulk_end\n", Some(2)),
    (b"limit_begin 4 0\nbulk_push 0 5 0\nlimit_end\n", Some(2)),
    (b"limit_begin 4 0\nbulk_end", Some(2)),
    // an open session is bad after the last line
    (b"bulk_begin", Some(2)),
    (b"bulk_begin\n", Some(2)),
    (b"bulk_begin\n\n", Some(3)),
    (b"limit_begin 4 0", Some(2)),
    (b"limit_begin 4 0\n", Some(2)),
    (b"limit_begin 4 0\nlimit_pop\n# no end", Some(4)),
    (b"limit_begin 4 0\nlimit_pop\n# no end\n", Some(4)),
    // comments and bad lines begin and end no session
    (b"bulk_begin\n#\n\n   \n#pop\nbulk_end", None),
    (b"bulk_begin x\nbulk_push 0 1 1\nbulk_end\n", Some(1)),
    (b"pop\n#bulk_begin\nbulk_push 0 1 1\n", Some(3)),
    (b"bulk_begin\n# bulk_end\npop\n", Some(3)),
    (b"bulk_begin\nbulk_end x\nbulk_end\n", Some(2)),
    (b"limit_begin 4 0\n# limit_end\npop\n", Some(3)),
];

#[test]
fn a_command_stands_where_it_may(rt: HostRuntime) {
    for (text, bad) in PLACES {
        is_bad_at(&rt, rt.alloc(), text, *bad);
    }
}

// Scripts, and the first line of each that is bad by its pass or the limit, if there is one.
const PASSES: &[(&[u8], Option<u32>)] = &[
    // a pass is below the workers
    (b"bulk_begin\nbulk_push 1 0 0\nbulk_end\n", None),
    (
        b"bulk_begin\nbulk_push 00000000000000000001 0 0\nbulk_end\n",
        None,
    ),
    (b"bulk_begin\nbulk_push 2 1 1\nbulk_end\n", Some(2)),
    (b"bulk_begin\nbulk_push 3 1 1\nbulk_end\n", Some(2)),
    (b"bulk_begin\nbulk_push 4294967296 1 1\nbulk_end\n", Some(2)),
    (b"bulk_begin\nbulk_push 1 1\nbulk_end\n", Some(2)),
    (b"limit_begin 4 0\nlimit_push 1 5 0\nlimit_end\n", None),
    (b"limit_begin 4 0\nlimit_push 2 5 0\nlimit_end\n", Some(2)),
    (
        b"limit_begin 4 0\nlimit_push 4294967296 5 0\nlimit_end\n",
        Some(2),
    ),
    // a record below the limit is bad
    (
        b"push 1 0\nlimit_begin 4 0\nlimit_push 0 3 9\nlimit_end\n",
        Some(3),
    ),
    (b"limit_begin 4 7\nlimit_push 0 4 6\nlimit_end\n", Some(2)),
    (
        b"limit_begin 4 7\nlimit_push 0 4 8\nlimit_push 0 3 8\n",
        Some(3),
    ),
    // the limit is that of the session in which the line stands
    (
        b"limit_begin 1 1\nlimit_end\nlimit_begin 4 7\nlimit_push 0 4 6\n",
        Some(4),
    ),
    // a record equal to the limit or above is good
    (b"limit_begin 4 7\nlimit_push 0 4 7\nlimit_end\n", None),
    (b"limit_begin 4 7\nlimit_push 0 4 8\nlimit_end\n", None),
    (b"limit_begin 4 7\nlimit_push 0 5 0\nlimit_end\n", None),
    (b"limit_begin 0 0\nlimit_push 0 0 0\nlimit_end\n", None),
];

#[test]
fn a_pushed_record_has_its_pass_and_is_not_below_the_limit(rt: HostRuntime) {
    for (text, bad) in PASSES {
        is_bad_at(&rt, rt.alloc(), text, *bad);
    }
}

// So many copies of a text after another.
pub fn repeated(
    rt: &impl Abort,
    alloc: Global,
    before: &[u8],
    text: &[u8],
    count: usize,
) -> Vec<u8> {
    let mut all = before.to_vec(alloc).expect(rt, "memory");
    for _ in 0..count {
        all.extend_from_slice(text).expect(rt, "memory");
    }
    all
}

#[test]
fn a_script_of_the_greatest_length_is_read(rt: HostRuntime) {
    // 1,048,576 bytes
    let text = repeated(&rt, rt.alloc(), b"", b"pop\n", 262_144);
    let script: Script<Pair> = read_for(&rt, rt.alloc(), &text, 64);
    assert_eq!(rt; script.len(), 262_144);
    assert!(rt; script.bad().is_none() && script.workers() == 64);
    assert!(rt; script.line(262_143) == 262_144 && script.at(262_143) == Command::Pop);
}
