//! Executes the scripts of `examples/` as `./ppq run` does, over a device file, and prints what each writes, the
//! line and the status with which it ends, and whether blocks were written and read as often as they must and may be.
#![tactic(auto)]

use ppq_cli::{
    CheckedRack, DirLibrary, FileRack, NamedFiles, OpenGate, StdSink, report, run_words, status,
};
use ppq_outside::{Host, Slot};
use std::alloc::{AllocError, Global};
use std::process::ExitCode;

// The words of a command line, apart by spaces, and how many blocks are written at least and at most.
struct Example {
    words: &'static str,
    least: u64,
    most: u64,
}

// The scripts with the sizes of the README or with small ones, and two that are refused. Of the 4,000,000 records of
// `large.ppq` those that the budget has no room for are written, 4,096 a block, and no more than `docs/promises.md` says
// of so many records and one session.
const EXAMPLES: &[Example] = &[
    Example {
        words: "run first.ppq --device a.device --blocks 2048 --workers 4 --block 4096 --heap 8 --memory 1048576",
        least: 0,
        most: 0,
    },
    Example {
        words: "run agenda.ppq --device a.device --blocks 2048 --workers 4 --block 4096 --heap 8 --memory 1048576",
        least: 0,
        most: 0,
    },
    Example {
        words: "run equal.ppq --device a.device --blocks 200 --workers 2 --block 2 --heap 1 --memory 372",
        least: 1,
        most: 1,
    },
    Example {
        words: "run look.ppq --device a.device --blocks 200 --workers 2 --block 2 --heap 1 --memory 372",
        least: 0,
        most: 0,
    },
    Example {
        words: "run small.ppq --device a.device --blocks 200 --workers 2 --block 2 --heap 1 --memory 372",
        least: 1,
        most: 100,
    },
    Example {
        words: "run sort.ppq --device a.device --blocks 200 --workers 2 --block 2 --heap 1 --memory 372",
        least: 16,
        most: 160,
    },
    Example {
        words: "run sessions.ppq --device a.device --blocks 2048 --workers 4 --block 4096 --heap 8 --memory 1048576",
        least: 0,
        most: 0,
    },
    Example {
        words: "run limits.ppq --device a.device --blocks 2048 --workers 4 --block 4096 --heap 8 --memory 1048576",
        least: 0,
        most: 0,
    },
    Example {
        words: "run greatest.ppq --device a.device --blocks 200 --workers 2 --block 2 --heap 1 --memory 372",
        least: 1,
        most: 100,
    },
    Example {
        words: "run events.ppq --device a.device --blocks 200 --workers 2 --block 2 --heap 1 --memory-bytes 8928",
        least: 1,
        most: 100,
    },
    Example {
        words: "run large.ppq --device a.device --blocks 2048 --workers 4 --block 4096 --heap 8 --memory 1048576",
        least: 721,
        most: 12284,
    },
    Example {
        words: "run large.ppq --device a.device --blocks 2048 --workers 1 --block 4096 --heap 8 --memory 1048576",
        least: 721,
        most: 9302,
    },
    Example {
        words: "run absent.ppq --device a.device --blocks 200 --workers 2 --block 2 --heap 1 --memory 372",
        least: 0,
        most: 0,
    },
    Example {
        words: "run first.ppq --device a.device --blocks 200 --workers 2 --block 2 --heap 1 --memory 371",
        least: 0,
        most: 0,
    },
];

// Why the program stopped early.
#[derive(Debug, Drop)]
enum Stop {
    Memory,
    Print,
}

// The words of a line.
fn words_in(alloc: Global, line: &str) -> Result<Vec<String>, AllocError> {
    let mut words = Vec::new(alloc);
    for word in line.split(' ') {
        words.push(word.to_string(alloc)?)?;
    }
    Ok(words)
}

// Executes an example, and prints how it ended below what it wrote.
fn execute<H: Host>(rt: &H, alloc: Global, example: &Example) -> Result<(), Stop>
where
    H::Dir: Send,
{
    println!(rt; "ppq {}", example.words).map_err(|_| Stop::Print)?;
    let words = words_in(alloc, example.words).map_err(|_| Stop::Memory)?;
    let mut out = StdSink::out();
    let named = NamedFiles::new();
    let ended = run_words(
        rt,
        alloc,
        &words,
        &mut DirLibrary::naming(&named),
        &mut CheckedRack::new(FileRack::sparing(&named)),
        &OpenGate,
        &mut out,
    );
    report(rt, &ended.end, &mut out).map_err(|_| Stop::Print)?;
    let (mut writes, mut reads): (u64, u64) = (0, 0);
    for block in &ended.blocks {
        writes = writes.saturating_add(block.writes());
        reads = reads.saturating_add(block.reads());
    }
    let within = example.least <= writes && writes <= example.most && reads <= writes;
    let said = println!(rt;
        "status {}, as many blocks written and read as may be: {}",
        status(&ended.end),
        within
    );
    said.map_err(|_| Stop::Print)
}

fn main(rt: HostRuntime) -> ExitCode {
    for example in EXAMPLES {
        if execute(&rt, rt.alloc(), example).is_err() {
            return ExitCode::FAILURE;
        }
    }
    ExitCode::SUCCESS
}
