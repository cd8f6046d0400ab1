//! The files that a script names.
ghost use Rattle.std.specs.Prelude.{◌<◌, length};

use crate::script::{has_commands, is_bad_at, read_for, repeated};
use ppq_outside::{Host, Library, MemLibrary};
use ppq_script::{CheckFault, Command, Fields, Pair, Script, Triple, check_files};
use std::alloc::Global;
use std::process::Abort;

// The name of the file of a command, and none for a command that names no file.
fn file_name(script: &Script<Pair>, i: usize) -> Option<&str>
    requires { i < length script.now.commands }
{
    match script.at(i) {
        Command::Bulk { file, .. } => Some(script.name(file)),
        _ => None,
    }
}

#[test]
fn names_of_files_are_kept(rt: HostRuntime) {
    let script: Script<Pair> = read_for(&rt, rt.alloc(), b"bulk f\n\npop\nbulk g\nbulk f\n", 1);
    assert!(rt; script.bad().is_none() && !script.checked());
    let names = [Some("f"), None, Some("g"), Some("f")];
    assert_eq!(rt; script.len(), 4);
    for (i, name) in names.iter().enumerate() {
        assert_eq!(rt; file_name(&script, i), *name);
    }
}

#[test]
fn a_name_has_at_most_255_bytes(rt: HostRuntime) {
    for (extra, bad) in [(250, None), (251, Some(1))] {
        let text = repeated(&rt, rt.alloc(), b"bulk name/", b"x", extra);
        is_bad_at(&rt, rt.alloc(), &text, bad);
    }
}

// A library of which `e` is empty, `f` has 32 bytes, `t` has 72, and `odd` has 33.
pub fn library(rt: &impl Abort, alloc: Global) -> MemLibrary {
    let mut library = MemLibrary::new(alloc);
    let files: [(&str, &[u8]); 4] = [
        ("e", b""),
        ("f", b"0000000000000000ffffffffffffffff"),
        (
            "t",
            b"000000000000000000000000111111111111111111111111222222222222222222222222",
        ),
        ("odd", b"0123456789abcdef0123456789abcdefx"),
    ];
    for (name, bytes) in files {
        library.add(alloc, name, bytes).expect(rt, "memory");
    }
    library
}

// Asserts what the check of a script's files answers, over a library.
pub fn answers<H: Host + Abort, R: Fields>(
    rt: &H,
    alloc: Global,
    script: &mut Script<R>,
    library: &mut MemLibrary,
    answer: Result<(), CheckFault>,
) {
    let found = check_files(rt, alloc, script, library);
    assert_eq!(rt; found, answer);
    assert_eq!(rt; script.checked(), answer.is_ok());
}

#[test]
fn lengths_of_files_are_kept(rt: HostRuntime) {
    let mut script: Script<Pair> = read_for(&rt, rt.alloc(), b"bulk f\npop\nbulk e\n", 1);
    let mut library = library(&rt, rt.alloc());
    answers(&rt, rt.alloc(), &mut script, &mut library, Ok(()));
    let commands = [
        (
            1,
            Command::Bulk {
                file: 0,
                length: 32,
            },
        ),
        (2, Command::Pop),
        (3, Command::Bulk { file: 1, length: 0 }),
    ];
    has_commands(&rt, &script, &commands);
}

// Scripts, and what the check of their files answers.
const FILES: &[(&[u8], Result<(), CheckFault>)] = &[
    (b"bulk e\n", Ok(())),
    (b"", Ok(())),
    (b"bulk odd\n", Err(CheckFault::BadLine { line: 1 })),
    (b"bulk absent\n", Err(CheckFault::BadLine { line: 1 })),
    (
        b"bulk f\nbulk absent\npush\n",
        Err(CheckFault::BadLine { line: 2 }),
    ),
    (
        b"push\nbulk f\nbulk absent\n",
        Err(CheckFault::BadLine { line: 1 }),
    ),
    (
        b"#\nbulk f\npop 1\nbulk absent\n",
        Err(CheckFault::BadLine { line: 3 }),
    ),
    (
        b"bulk f\nbulk_begin\nbulk_push 0 1 1\nbulk_end\nbulk e\n",
        Ok(()),
    ),
    (
        b"bulk absent\nbulk_begin\n",
        Err(CheckFault::BadLine { line: 1 }),
    ),
    (
        b"bulk f\nbulk_begin\nbulk absent\n",
        Err(CheckFault::BadLine { line: 3 }),
    ),
    (
        b"bulk f\nbulk_begin\n",
        Err(CheckFault::BadLine { line: 3 }),
    ),
];

#[test]
fn the_first_bad_line_by_lines_and_files_is_named(rt: HostRuntime) {
    let mut library = library(&rt, rt.alloc());
    for (text, answer) in FILES {
        let mut script: Script<Pair> = read_for(&rt, rt.alloc(), text, 1);
        answers(&rt, rt.alloc(), &mut script, &mut library, *answer);
    }
}

// Scripts of triples, and what the check of their files answers.
const FILES_OF_TRIPLES: &[(&[u8], Result<(), CheckFault>)] = &[
    (b"ppq 2 triple up\nbulk t\nbulk e\n", Ok(())),
    (
        b"ppq 2 triple up\nbulk f\n",
        Err(CheckFault::BadLine { line: 2 }),
    ),
    (
        b"ppq 2 triple up\n\nbulk t\nbulk odd\n",
        Err(CheckFault::BadLine { line: 4 }),
    ),
];

#[test]
fn a_file_of_triples_has_whole_ones(rt: HostRuntime) {
    let mut library = library(&rt, rt.alloc());
    for (text, answer) in FILES_OF_TRIPLES {
        let mut script: Script<Triple> = read_for(&rt, rt.alloc(), text, 1);
        answers(&rt, rt.alloc(), &mut script, &mut library, *answer);
    }
    let mut script: Script<Pair> = read_for(&rt, rt.alloc(), b"bulk f\nbulk t\n", 1);
    let bad = Err(CheckFault::BadLine { line: 2 });
    answers(&rt, rt.alloc(), &mut script, &mut library, bad);
}

#[test]
fn a_failed_call_is_a_read_fault(rt: HostRuntime) {
    let alloc = rt.alloc();
    let mut library = library(&rt, alloc);
    library.fail_call(2).expect(&rt, "memory");
    let mut script: Script<Pair> = read_for(&rt, alloc, b"bulk f\nbulk f\npush\n", 1);
    let failed = Err(CheckFault::ReadFault);
    answers(&rt, alloc, &mut script, &mut library, failed);
    assert_eq!(rt; library.faults(), 1);
    let bad = Err(CheckFault::BadLine { line: 3 });
    answers(&rt, alloc, &mut script, &mut library, bad);
}
