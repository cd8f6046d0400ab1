//! Runs of scripts over blocks, files and a sink in memory, told as small plain values.
ghost use Rattle.std.specs.Prelude.{◌≡◌, List, ℕ, Option, Some, IsTrue};
ghost use Rattle.ppq_engine.specs.Output.{KeepsLengths};

use ppq_budget::Sizes;
use ppq_device::make_blocks;
use ppq_engine::{End, Ended, Form, Script, check_files, read, read_head, run_script};
use ppq_outside::{Gate, Host, Library, MemLibrary, MemRack, MemSink, MemSlot, OpenGate, Slot};
use ppq_record::{Fields, Pair};
use std::alloc::Global;
use std::process::Abort;

// How much a sink of these tests has room for, in bytes.
const ROOM: usize = 65_536;

// The number of a call that is never made.
pub(crate) const NEVER: u64 = u64::MAX;

// The file `f` of a run, and its library.
#[derive(Clone, Copy)]
pub(crate) struct File {
    // How many records `7 7` it has, as its length says.
    pub records: usize,
    // After how many bytes it ends, though its length says more.
    pub length: u64,
    // The number of the library's call that fails.
    pub call: u64,
}

impl File {
    // A file of so many records. No call fails.
    pub(crate) fn of(records: usize) -> File {
        File {
            records,
            length: u64::MAX,
            call: NEVER,
        }
    }
}

// How a run ended, and what it left.
#[derive(Drop)]
pub(crate) struct Outcome {
    pub end: End,
    // What was written.
    pub wrote: Vec<u8>,
    // How many blocks came back.
    pub blocks: usize,
    // How many calls of block 0 failed.
    pub faults: u64,
    // How many writes the blocks had in all.
    pub writes: u64,
    // How many reads.
    pub reads: u64,
}

// A script that is checked over a library.
fn checked_script<H: Host + Abort, R: Fields, L: Library>(
    rt: &H,
    alloc: Global,
    text: &[u8],
    workers: u32,
    library: &mut L,
) -> Script<R>
    ensures checked { IsTrue result.checked }
    ensures workers { result.workers ≡ workers }
    ensures lengths { (files : List ℕ → Option (List ℕ)) → L.told library.new ≡ Some files → KeepsLengths files result }
{
    if text.len() > 1_048_576 {
        panic!(rt; "the script is too long");
    }
    if !read_head(text).is_of::<R>() {
        panic!(rt; "the script is about other records");
    }
    let Ok(mut script) = read(alloc, text, workers) else {
        panic!(rt; "no memory for the script")
    };
    match check_files(rt, alloc, &mut script, library) {
        Ok(()) => script,
        Err(_) => panic!(rt; "the script has a bad line"),
    }
}

// How many calls of block 0 failed.
fn faults_of(blocks: &[MemSlot]) -> u64 {
    let mut faults = 0u64;
    for slot in blocks {
        if slot.number() == 0 {
            faults = faults.saturating_add(slot.faults());
        }
    }
    faults
}

// How many writes these blocks had in all.
fn writes_of(blocks: &[MemSlot]) -> u64 {
    let mut writes = 0u64;
    for slot in blocks {
        writes = writes.saturating_add(slot.writes());
    }
    writes
}

// How many reads these blocks had in all.
fn reads_of(blocks: &[MemSlot]) -> u64 {
    let mut reads = 0u64;
    for slot in blocks {
        reads = reads.saturating_add(slot.reads());
    }
    reads
}

// A device on which the call of block 0 with this number fails.
fn rack_of<H: Host + Abort>(rt: &H, alloc: Global, call: u64) -> MemRack {
    let calls = vec![in alloc; (0, call)].expect(rt, "no memory");
    MemRack::failing(calls, Vec::new(alloc))
}

// A library with this file.
fn library_of<H: Host + Abort>(rt: &H, alloc: Global, file: File) -> MemLibrary {
    let mut bytes = Vec::new(alloc);
    for _ in 0..file.records.saturating_mul(2) {
        bytes
            .extend_from_slice(&7u64.to_be_bytes())
            .expect(rt, "no memory");
    }
    let mut library = MemLibrary::new(alloc);
    library.add(alloc, "f", &bytes).expect(rt, "no memory");
    library.shrink("f", file.length);
    library.fail_call(file.call).expect(rt, "no memory");
    library
}

// A run of a text about records of the type `R` on a queue of these sizes, with such a file, on a device on which the call of block 0 with this
// number fails, where workers pass this gate. What it prints is in this form.
pub(crate) fn outcome_in<H: Host + Abort, R: Fields + Send + Sync, G: Gate>(
    rt: &H,
    alloc: Global,
    text: &[u8],
    sizes: Option<Sizes>,
    file: File,
    call: u64,
    gate: &G,
    form: Form,
) -> Outcome
where
    H::Dir: Send,
{
    let sizes = sizes.expect(rt, "a number is out of range");
    let mut library = library_of(rt, alloc, file);
    let script: Script<R> = checked_script(rt, alloc, text, sizes.workers(), &mut library);
    let mut rack = rack_of(rt, alloc, call);
    let slots = match make_blocks::<R, H, MemRack>(rt, alloc, &mut rack, "device", sizes) {
        Ok(slots) => slots,
        Err(_) => panic!(rt; "no block"),
    };
    let mut sink = MemSink::new(alloc, ROOM).expect(rt, "no memory for the sink");
    let Ended { end, blocks } = run_script(
        rt,
        alloc,
        &script,
        sizes,
        slots,
        &mut library,
        &mut sink,
        gate,
        form,
    );
    Outcome {
        end,
        wrote: sink.bytes().to_vec(alloc).expect(rt, "no memory"),
        blocks: blocks.len(),
        faults: faults_of(&blocks),
        writes: writes_of(&blocks),
        reads: reads_of(&blocks),
    }
}

// The same of pairs in the form of text.
pub(crate) fn outcome_of<H: Host + Abort, G: Gate>(
    rt: &H,
    alloc: Global,
    text: &[u8],
    sizes: Option<Sizes>,
    file: File,
    call: u64,
    gate: &G,
) -> Outcome
where
    H::Dir: Send,
{
    outcome_in::<H, Pair, G>(rt, alloc, text, sizes, file, call, gate, Form::Text)
}

// A run of a text that reads no file, on a device that never fails.
pub(crate) fn plain<H: Host + Abort>(
    rt: &H,
    alloc: Global,
    text: &[u8],
    sizes: Option<Sizes>,
) -> Outcome
where
    H::Dir: Send,
{
    outcome_of(rt, alloc, text, sizes, File::of(0), NEVER, &OpenGate)
}
