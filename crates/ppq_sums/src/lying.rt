//! A script over a device in memory that gives back other bytes than it was given, and over one that does not.
ghost use Rattle.std.specs.Prelude.{◌≡◌, ◌<◌, ◌^◌, IfOk};

use crate::out_of_memory;
use ppq_cli::{End, run_words};
use ppq_outside::{Host, Library, MemLibrary, MemRack, MemSink, OpenGate, Rack};
use std::alloc::Global;
use std::io;
use std::io::ErrorKind;
use std::rt::Clock;
use std::time::Instant;

// The script that is timed: records are generated, and removed without being printed.
pub(crate) const LONG: &[u8] = b"gen 7 4000000\ndrain 4000000\n";

// One that is soon done.
pub(crate) const SHORT: &[u8] = b"gen 7 200000\ndrain 200000\n";

// The arguments: a budget of 16 MiB.
const WORDS: [&str; 14] = [
    "run",
    "s",
    "--device",
    "d",
    "--blocks",
    "2048",
    "--workers",
    "4",
    "--block",
    "4096",
    "--heap",
    "8",
    "--memory",
    "1048576",
];

// How many bytes the sink has room for: more than the one line that the script prints.
const ROOM: usize = 4096;

// The arguments as a list.
fn words(alloc: Global) -> io::Result<Vec<String>> {
    let mut words = Vec::with_capacity(alloc, WORDS.len())?;
    for word in WORDS {
        words.push(word.to_string(alloc)?)?;
    }
    Ok(words)
}

// A library with a script.
fn library(alloc: Global, script: &[u8]) -> io::Result<MemLibrary>
    ensures { IfOk result (λ made. ⟦<MemLibrary as Library>⟧.faults made ≡ 0) }
{
    let mut library = MemLibrary::new(alloc);
    match library.add(alloc, "s", script) {
        Ok(()) => Ok(library),
        Err(_) => Err(out_of_memory()),
    }
}

// How long a script takes over a device, in nanoseconds.
fn nanoseconds<H: Host + Clock>(
    rt: &H,
    alloc: Global,
    script: &[u8],
    rack: &mut MemRack,
) -> io::Result<u64>
where
    H::Dir: Send,
    requires { ⟦<MemRack as Rack>⟧.faults rack.old < 2 ^ 63 }
{
    let words = words(alloc)?;
    let mut library = library(alloc, script)?;
    let mut out = MemSink::new(alloc, ROOM).map_err(|_| out_of_memory())?;
    let start = Instant::now(rt)?;
    let ended = run_words(rt, alloc, &words, &mut library, rack, &OpenGate, &mut out);
    let took = start.elapsed(rt)?.as_nanos().min(u128::from(u64::MAX)) as u64;
    match ended.end {
        End::Done => Ok(took),
        _ => Err(io::Error::from(ErrorKind::Other)),
    }
}

// How long a script takes over a device that keeps what it is given, and over one that does not, each without
// sums, in nanoseconds.
pub(crate) fn honest_and_lying<H: Host + Clock>(
    rt: &H,
    alloc: Global,
    script: &[u8],
) -> io::Result<(u64, u64)>
where
    H::Dir: Send,
{
    let honest = nanoseconds(rt, alloc, script, &mut MemRack::new())?;
    let lying = nanoseconds(rt, alloc, script, &mut MemRack::forging(1))?;
    Ok((honest, lying))
}
