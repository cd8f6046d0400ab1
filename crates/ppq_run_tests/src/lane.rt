//! Worked examples of jobs and lanes.
ghost use Rattle.std.specs.Prelude.{◌≡◌, ◌<◌, ◌≤◌, [], ◌∷◌};
ghost use Rattle.ppq_block.specs.Block.{holding};
ghost use Rattle.ppq_lane.specs.Jobs.{MayRun};

use ppq_block::BlockBuf;
use ppq_lane::{Job, JobKind, Lanes, Work, overlap, run_job, run_jobs};
use ppq_outside::{Failed, Gate, Host, MemRack, MemSlot, Rack, Slot};
use ppq_record::Pair;
use ppq_testkit::{PairGate, pair};
use std::alloc::Global;
use std::process::Abort;

// A slot all of whose calls fail, as on a device that was taken away. It spoils what is read into.
#[derive(Drop)]
struct GoneSlot {
    faults: u64,
}

impl Slot for GoneSlot {
    ghost use Rattle.std.specs.Prelude.{None};

    ghost shown = { λ s. record { told = None; number = 7; size = 32; faults = s.faults; writes = 0; reads = 0 } };

    fn number(&self) -> u32 {
        7
    }

    fn size(&self) -> usize {
        32
    }

    fn faults(&self) -> u64 {
        self.faults
    }

    fn writes(&self) -> u64 {
        0
    }

    fn reads(&self) -> u64 {
        0
    }

    fn write<H: Host>(&mut self, _rt: &H, _bytes: &[u8]) -> Result<(), Failed> {
        self.faults = self.faults.saturating_add(1);
        Err(Failed)
    }

    fn read<H: Host>(&mut self, _rt: &H, into: &mut [u8]) -> Result<(), Failed> {
        into.fill(9);
        self.faults = self.faults.saturating_add(1);
        Err(Failed)
    }

    fn expect<H: Host>(&self, _rt: &H) -> bool {
        false
    }
}

// A slot in whose write worker 0 enters a gate. It keeps nothing.
#[derive(Drop)]
struct MeetSlot<'a> {
    gate: &'a PairGate,
    faults: u64,
    writes: u64,
}

impl<'a> Slot for MeetSlot<'a> {
    ghost use Rattle.std.specs.Prelude.{None};

    ghost shown = { λ s. record { told = None; number = 7; size = 32; faults = s.faults; writes = s.writes; reads = 0 } };

    fn number(&self) -> u32 {
        7
    }

    fn size(&self) -> usize {
        32
    }

    fn faults(&self) -> u64 {
        self.faults
    }

    fn writes(&self) -> u64 {
        self.writes
    }

    fn reads(&self) -> u64 {
        0
    }

    fn write<H: Host>(&mut self, _rt: &H, _bytes: &[u8]) -> Result<(), Failed> {
        self.gate.enter(0);
        self.writes = self.writes.saturating_add(1);
        Ok(())
    }

    fn read<H: Host>(&mut self, _rt: &H, _into: &mut [u8]) -> Result<(), Failed> {
        self.faults = self.faults.saturating_add(1);
        Err(Failed)
    }

    fn expect<H: Host>(&self, _rt: &H) -> bool {
        false
    }
}

// Work in which worker 1 enters a gate. It adds one to a number.
#[derive(Drop)]
struct MeetWork<'a> {
    gate: &'a PairGate,
    number: u32,
}

impl<'a> Work for MeetWork<'a> {
    type Out = u32;

    ghost use Rattle.std.specs.Prelude.{◌≡◌, ◌+◌, ◌^◌, ◌<◌};

    ghost may_work = { λ w. w.number + 1 < 2 ^ 32 };

    ghost gives = { λ w r. r ≡ w.number + 1 };

    fn work(self) -> u32 {
        self.gate.enter(1);
        self.number + 1
    }
}

// A buffer for two pairs that holds one.
fn buffer_of(rt: &impl Abort, alloc: Global, key: u64) -> BlockBuf<Pair>
    ensures { result ≡ holding 2 (record { key = key; value = 0 } ∷ []) }
{
    let mut buf = BlockBuf::new(alloc, 2).expect(rt, "memory");
    buf.push(pair(key));
    buf
}

// A block of 32 bytes with this number in memory.
fn slot_of<H: Host + Abort>(rt: &H, alloc: Global, rack: &mut MemRack, number: u32) -> MemSlot
    ensures { (⟦<MemSlot as Slot>⟧.shown result).size ≡ 32 }
{
    rack.block(rt, alloc, "ppq.device", number, 32)
        .expect(rt, "a block")
}

// Whether a buffer holds so many records, of which the pair with this key is at a place.
fn has_at(buf: &BlockBuf<Pair>, count: u32, place: u32, key: u64) -> bool
    requires { place < count }
{
    (buf.len() == count) && (buf.at(place) == pair(key))
}

// Runs a job that reads so many records into a buffer for two.
fn read<H: Host + Abort, S: Slot>(rt: &H, job: &mut Job<S, Pair>, count: u32)
    requires { count ≤ 2 }
{
    job.kind = JobKind::Read { count };
    assert!(rt; job.buf.block() == 2);
    assert!(rt; job.slot.size() == 32);
    run_job(rt, job);
}

// Whether a job wrote one pair, which is what a read of its block gives.
fn reads_again<H: Host + Abort>(rt: &H, job: &mut Job<MemSlot, Pair>, key: u64) -> bool {
    let is_written = (job.done == Some(Ok(()))) & (job.buf.len() == 1);
    job.buf.clear();
    read(rt, job, 1);
    let calls = (job.slot.writes() == 1) & (job.slot.reads() == 1);
    is_written & calls & has_at(&job.buf, 1, 0, key)
}

// A job that writes this pair to the block with this number.
fn write_of<H: Host + Abort>(
    rt: &H,
    alloc: Global,
    rack: &mut MemRack,
    number: u32,
    key: u64,
) -> Job<MemSlot, Pair>
    ensures { MayRun 16 ⟦<MemSlot as Slot>⟧.shown result }
{
    Job {
        slot: slot_of(rt, alloc, rack, number),
        buf: buffer_of(rt, alloc, key),
        kind: JobKind::Write,
        done: None,
    }
}

// Whether two blocks that are written by jobs are read again.
fn both_are_read_again<H: Host + Abort>(rt: &H, alloc: Global) -> bool {
    let mut rack = MemRack::new();
    let five = write_of(rt, alloc, &mut rack, 0, 5);
    let four = write_of(rt, alloc, &mut rack, 1, 4);
    let mut jobs = [five, four];
    run_jobs(rt, &mut jobs);
    reads_again(rt, &mut jobs[0], 5) & reads_again(rt, &mut jobs[1], 4)
}

#[test]
fn blocks_are_written_and_read_again(rt: HostRuntime) {
    assert!(rt; both_are_read_again(&rt, rt.alloc()));
}

// A block in memory that holds the pairs 3 and 8.
fn slot_with_two<H: Host + Abort>(rt: &H, alloc: Global) -> MemSlot {
    let mut slot = slot_of(rt, alloc, &mut MemRack::new(), 0);
    let mut bytes = [0; 32];
    bytes[7] = 3;
    bytes[23] = 8;
    assert!(rt; slot.write(rt, &bytes) == Ok(()));
    slot
}

// Whether a read of a block of two takes one record when told so, and then two.
fn reads_as_told<H: Host + Abort>(rt: &H, alloc: Global) -> bool {
    let mut job = Job {
        slot: slot_with_two(rt, alloc),
        buf: BlockBuf::<Pair>::new(alloc, 2).expect(rt, "memory"),
        kind: JobKind::Read { count: 1 },
        done: None,
    };
    read(rt, &mut job, 1);
    let one = has_at(&job.buf, 1, 0, 3);
    read(rt, &mut job, 2);
    one & has_at(&job.buf, 2, 1, 8)
}

#[test]
fn a_read_takes_so_many_records_as_it_is_told(rt: HostRuntime) {
    assert!(rt; reads_as_told(&rt, rt.alloc()));
}

// Whether a job on a slot that fails keeps what it was to write, and has nothing read.
fn fails_twice<H: Host + Abort>(rt: &H, alloc: Global) -> bool {
    let mut job = Job {
        slot: GoneSlot { faults: 0 },
        buf: buffer_of(rt, alloc, 5),
        kind: JobKind::Write,
        done: None,
    };
    run_job(rt, &mut job);
    let kept = (job.done == Some(Err(Failed))) & has_at(&job.buf, 1, 0, 5);
    read(rt, &mut job, 2);
    let none = (job.done == Some(Err(Failed))) & (job.buf.len() == 0);
    kept & none & (job.slot.faults() == 2)
}

#[test]
fn a_failed_write_leaves_its_buffer_and_a_failed_read_none(rt: HostRuntime) {
    assert!(rt; fails_twice(&rt, rt.alloc()));
}

#[test]
fn a_job_and_the_work_are_under_way_at_once(rt: HostRuntime) {
    let gate = PairGate::new();
    let slot = MeetSlot {
        gate: &gate,
        faults: 0,
        writes: 0,
    };
    let mut jobs = [Job {
        slot,
        buf: buffer_of(&rt, rt.alloc(), 5),
        kind: JobKind::Write,
        done: None,
    }];
    let work = MeetWork {
        gate: &gate,
        number: 8,
    };
    let next = overlap(&rt, &mut jobs, work);
    assert!(rt; gate.is_passed() & (next == 9));
    assert!(rt; (jobs[0].done == Some(Ok(()))) & (jobs[0].slot.writes() == 1));
}

// Whether three buffers are idle, and the last of them is empty and for four records.
fn has_three_idle(lanes: &Lanes<MemSlot, Pair>) -> bool {
    if lanes.idle.len() != 3 {
        return false;
    }
    let last = lanes.idle.at(2);
    (last.len() == 0) & (last.block() == 4)
}

#[test]
fn new_lanes_have_buffers_room_and_a_batch(rt: HostRuntime) {
    let made = Lanes::<MemSlot, Pair>::new(rt.alloc(), 3, 2, 4, 5);
    let lanes = made.expect(&rt, "memory");
    let is_batch = lanes.batch.as_slice() == [pair(0); 5].as_slice();
    let has_room = (lanes.jobs.len() == 0) & (lanes.jobs.capacity() >= 2);
    assert!(rt; has_three_idle(&lanes) & is_batch & has_room);
}
