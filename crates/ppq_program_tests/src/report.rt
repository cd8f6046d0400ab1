//! The words that the program is given, and the report of an end.
use crate::memory::{ROOM, sink_in, words_in};
use ppq_cli::{End, report, report_end, status, words_of};
use ppq_outside::{Host, MemSink, Sink};
use std::alloc::Global;
use std::env::{Env, FillError};
use std::process::Abort;

// The words of a command line, as bytes that may be no text.
#[derive(Drop)]
struct CommandLine {
    words: &'static [&'static [u8]],
}

impl Env for CommandLine {
    fn arg(&self, i: usize, buf: &mut [u8]) -> Result<usize, FillError> {
        let Some(word) = self.words.get(i) else {
            return Err(FillError::NotPresent);
        };
        if word.len() > buf.len() {
            return Err(FillError::TooLong);
        }
        buf[..word.len()].copy_from_slice(word);
        Ok(word.len())
    }

    fn var(&self, _name: &str, _buf: &mut [u8]) -> Result<usize, FillError> {
        Err(FillError::NotPresent)
    }

    fn var_at(&self, _i: usize, _buf: &mut [u8]) -> Result<usize, FillError> {
        Err(FillError::NotPresent)
    }
}

#[test]
fn words_are_those_after_the_name_of_the_program_and_are_text(rt: HostRuntime) {
    let line = CommandLine {
        words: &[b"ppq", b"run", b"s.ppq"],
    };
    let words = words_of(&(line, rt.alloc()));
    assert_eq!(rt; words, Ok(words_in(&rt, rt.alloc(), "run s.ppq")));
    let line = CommandLine {
        words: &[b"ppq", b"run", b"\xff.ppq"],
    };
    let words = words_of(&(line, rt.alloc()));
    assert_eq!(rt; words, Err(End::Usage));
}

// Asserts the report of an end.
fn is_reported<H: Host + Abort>(rt: &H, alloc: Global, end: End, line: &[u8]) {
    let mut errors = sink_in(rt, alloc);
    report(rt, &end, &mut errors).expect(rt, "the report was not taken");
    assert_eq!(rt; errors.bytes(), line);
}

// Each end, its status and its line.
const REPORTS: &[(End, u8, &[u8])] = &[
    (End::Done, 0, b""),
    (End::BadLine { line: 7 }, 1, b"ppq: line 7: bad line\n"),
    (
        End::Usage,
        2,
        b"ppq: usage: ppq run SCRIPT --device FILE --blocks D --workers P --block B --heap H (--memory M | --memory-bytes N) [--form text|bytes]\n",
    ),
    (End::ReadFault, 3, b"ppq: cannot read\n"),
    (End::WriteFault, 4, b"ppq: cannot write\n"),
    (
        End::DeviceFault { number: 3 },
        5,
        b"ppq: device block 3 failed\n",
    ),
    (End::NoFreeBlock, 6, b"ppq: no free block\n"),
    (
        End::BudgetTooSmall { need: 172 },
        7,
        b"ppq: memory too small, need 172\n",
    ),
    (End::Memory, 8, b"ppq: out of memory\n"),
    (
        End::FileChanged {
            line: 1,
            said: 32,
            got: 16,
        },
        9,
        b"ppq: line 1: file changed, said 32, got 16\n",
    ),
    (End::NoDevice, 10, b"ppq: cannot make the device\n"),
    (End::NoScript, 11, b"ppq: no such script\n"),
    (End::ScriptTooLong, 12, b"ppq: script too long\n"),
    (End::BadAgenda, 13, b"ppq: bad agenda\n"),
];

#[test]
fn each_end_has_its_line_and_its_status(rt: HostRuntime) {
    for (end, number, line) in REPORTS {
        assert_eq!(rt; status(end), *number);
        is_reported(&rt, rt.alloc(), *end, line);
    }
}

#[test]
fn a_report_that_is_cut_keeps_the_status(rt: HostRuntime) {
    let alloc = rt.alloc();
    let puts = vec![in alloc; (1, 3)].expect(&rt, "memory");
    let mut errors = MemSink::failing(alloc, ROOM, puts).expect(&rt, "memory");
    assert_eq!(rt; report_end(&rt, &End::NoScript, &mut errors), 11);
    assert_eq!(rt; errors.bytes(), b"ppq".as_slice());
    assert_eq!(rt; errors.faults(), 1);
}
