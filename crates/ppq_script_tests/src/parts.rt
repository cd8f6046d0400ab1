//! The commands of a script that run together.
ghost use Rattle.std.specs.Prelude.{◌≡◌, true, drop};
ghost use Rattle.ppq_script.specs.Reading.{command_list};
ghost use Rattle.ppq_script.specs.Sessions.{are_in_place};
ghost use Rattle.ppq_script.specs.declared.session.Session.TheVariants.{Outside};

use crate::files::answers;
use crate::script::read_for;
use ppq_outside::MemLibrary;
use ppq_script::{Command, Fields, Numbered, Pair, Part, Script};
use std::process::Abort;

// The part of a script from a place on, and the place behind it.
fn part_from<'a, R: Fields>(
    rt: &impl Abort,
    script: &'a Script<R>,
    place: usize,
) -> (Part<'a, R>, usize)
    requires { are_in_place R.Fields script.now.workers Outside (drop place (command_list script.now)) ≡ true }
    ensures { are_in_place R.Fields script.now.workers Outside (drop result.1 (command_list script.now)) ≡ true }
{
    let count = script.len();
    assert!(rt; place < count);
    let part = script.part(place);
    let next = place.checked_add(part.count()).expect(rt, "place");
    (part, next)
}

// Asserts that a checked script has these parts.
fn has_parts<R: Fields>(rt: &impl Abort, script: &Script<R>, parts: &[Part<'static, R>]) {
    let ready = script.checked();
    assert!(rt; ready);
    let mut place = 0;
    for part in parts {
        let (found, next) = part_from(rt, script, place);
        assert!(rt; found == *part);
        place = next;
    }
    assert_eq!(rt; place, script.len());
}

// A script for two workers with a session of each kind, and one with no line.
const SESSIONS: &[u8] =
    b"push 9 1\nbulk_begin\n#\nbulk_push 1 7 2\nbulk_push 0 8 3\nbulk_end\nlimit_begin 8 0\nlimit_push 1 8 4\nlimit_top\nlimit_pop\nlimit_end\nbulk_begin\nbulk_end\npop\n";

// The commands of it that run together.
const PARTS: &[Part<'static, Pair>] = &[
    Part::One {
        command: Command::Push {
            item: Pair { key: 9, value: 1 },
        },
    },
    Part::Bulk {
        lines: &[
            Numbered {
                line: 4,
                command: Command::BulkPush {
                    pass: 1,
                    item: Pair { key: 7, value: 2 },
                },
            },
            Numbered {
                line: 5,
                command: Command::BulkPush {
                    pass: 0,
                    item: Pair { key: 8, value: 3 },
                },
            },
        ],
    },
    Part::Limit {
        limit: Pair { key: 8, value: 0 },
        lines: &[
            Numbered {
                line: 8,
                command: Command::LimitPush {
                    pass: 1,
                    item: Pair { key: 8, value: 4 },
                },
            },
            Numbered {
                line: 9,
                command: Command::LimitTop,
            },
            Numbered {
                line: 10,
                command: Command::LimitPop,
            },
        ],
    },
    Part::Bulk { lines: &[] },
    Part::One {
        command: Command::Pop,
    },
];

#[test]
fn a_session_is_one_part(rt: HostRuntime) {
    let mut script = read_for(&rt, rt.alloc(), SESSIONS, 2);
    let mut library = MemLibrary::new(rt.alloc());
    answers(&rt, rt.alloc(), &mut script, &mut library, Ok(()));
    has_parts(&rt, &script, PARTS);
}
