//! A slot whose contents contracts do not know.
ghost use Rattle.std.specs.Prelude.{◌≡◌, ◌≤◌, None};
ghost use Rattle.ppq_outside.specs.Told.{next_count};

use ppq_array::Berth;
use ppq_outside::{Failed, Host, Slot};
use ppq_record::Pair;
use std::alloc::Global;
use std::process::Abort;

/// A slot of two pairs of which contracts know no contents, as of one over a real file.
#[derive(Drop)]
pub struct QuietSlot {
    number: u32,
    bytes: [u8; 32],
    // whether each call fails
    broken: bool,
    faults: u64,
    writes: u64,
    reads: u64,
}

impl QuietSlot {
    /// The slot with this number, which holds zeros. Each call of a broken one fails.
    pub fn new(number: u32, broken: bool) -> Self
        ensures { ⟦<QuietSlot as Slot>⟧.shown result ≡ record { told = None; number = number; size = 32; faults = 0; writes = 0; reads = 0 } }
    {
        QuietSlot {
            number,
            bytes: [0; 32],
            broken,
            faults: 0,
            writes: 0,
            reads: 0,
        }
    }

    /// Says whether each call fails from now on.
    pub fn set_broken(&mut self, broken: bool)
        ensures { ⟦<QuietSlot as Slot>⟧.shown self.new ≡ ⟦<QuietSlot as Slot>⟧.shown self.old }
    {
        self.broken = broken;
    }
}

impl Slot for QuietSlot {
    ghost use Rattle.std.specs.Prelude.{None};

    ghost shown = { λ s. record { told = None; number = s.number; size = 32; faults = s.faults; writes = s.writes; reads = s.reads } };

    fn number(&self) -> u32 {
        self.number
    }

    fn size(&self) -> usize {
        32
    }

    fn faults(&self) -> u64 {
        self.faults
    }

    fn writes(&self) -> u64 {
        self.writes
    }

    fn reads(&self) -> u64 {
        self.reads
    }

    fn write<H: Host>(&mut self, _rt: &H, bytes: &[u8]) -> Result<(), Failed> {
        if self.broken {
            self.faults = self.faults.saturating_add(1);
            return Err(Failed);
        }
        self.bytes.copy_from_slice(bytes);
        self.writes = self.writes.saturating_add(1);
        Ok(())
    }

    fn read<H: Host>(&mut self, _rt: &H, into: &mut [u8]) -> Result<(), Failed> {
        if self.broken {
            self.faults = self.faults.saturating_add(1);
            return Err(Failed);
        }
        into.copy_from_slice(&self.bytes);
        self.reads = self.reads.saturating_add(1);
        Ok(())
    }

    fn expect<H: Host>(&self, _rt: &H) -> bool {
        false
    }
}

/// The slot with this number, in a box. No call of it was made.
pub fn quiet_berth(
    rt: &impl Abort,
    alloc: Global,
    number: u32,
    broken: bool,
) -> Berth<QuietSlot, Pair>
    ensures spent { (⟦<QuietSlot as Slot>⟧.shown result.slot).reads ≤ (⟦<QuietSlot as Slot>⟧.shown result.slot).writes }
{
    match Berth::new(alloc, QuietSlot::new(number, broken)) {
        Ok(berth) => berth,
        Err(_) => panic!(rt; "memory"),
    }
}

/// The slot with this number, in a box, into which these bytes were written once; then each call of a broken one fails.
pub fn written_berth<H: Host + Abort>(
    rt: &H,
    alloc: Global,
    number: u32,
    bytes: &[u8; 32],
    broken: bool,
) -> Berth<QuietSlot, Pair>
    ensures spent { (⟦<QuietSlot as Slot>⟧.shown result.slot).reads ≤ (⟦<QuietSlot as Slot>⟧.shown result.slot).writes }
    ensures unread { next_count (⟦<QuietSlot as Slot>⟧.shown result.slot).reads ≤ (⟦<QuietSlot as Slot>⟧.shown result.slot).writes }
{
    let mut slot = QuietSlot::new(number, false);
    slot.write(rt, bytes).expect(rt, "a write");
    slot.set_broken(broken);
    match Berth::new(alloc, slot) {
        Ok(berth) => berth,
        Err(_) => panic!(rt; "memory"),
    }
}
