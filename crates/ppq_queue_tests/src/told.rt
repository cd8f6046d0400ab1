//! A device that reads by itself each block that it is told of: it is told of each block once, two blocks of a run
//! before they are read, and no thread reads beside a merge.

use crate::beside::{long, push_two_runs};
use ppq_device::make_blocks;
use ppq_outside::{Failed, Host, MemRack, MemSlot, OpenGate, OutsideFault, Rack, Slot};
use ppq_queue::Queue;
use ppq_record::Pair;
use ppq_testkit::pair;
use std::alloc::Global;
use std::process::Abort;
use std::sync::atomic::{AtomicU64, Ordering};
use std::test::Fail;

// A block in memory that counts how often it was told that it is read soon.
#[derive(Drop)]
struct ToldSlot {
    inside: MemSlot,
    told: AtomicU64,
}

impl Slot for ToldSlot {
    ghost shown = { λ s. ⟦<MemSlot as Slot>⟧.shown s.inside };

    fn number(&self) -> u32 {
        self.inside.number()
    }

    fn size(&self) -> usize {
        self.inside.size()
    }

    fn faults(&self) -> u64 {
        self.inside.faults()
    }

    fn writes(&self) -> u64 {
        self.inside.writes()
    }

    fn reads(&self) -> u64 {
        self.inside.reads()
    }

    fn write<H: Host>(&mut self, rt: &H, bytes: &[u8]) -> Result<(), Failed> {
        self.inside.write(rt, bytes)
    }

    fn read<H: Host>(&mut self, rt: &H, into: &mut [u8]) -> Result<(), Failed> {
        self.inside.read(rt, into)
    }

    fn expect<H: Host>(&self, _rt: &H) -> bool {
        self.told.fetch_add(1, Ordering::SeqCst);
        true
    }
}

// Makes such blocks.
#[derive(Drop)]
struct ToldRack {
    inside: MemRack,
}

impl Rack for ToldRack {
    type Slot = ToldSlot;

    ghost tells = { λ _. ⊥ };

    ghost made = { λ r. ⟦<MemRack as Rack>⟧.made r.inside };

    ghost faults = { λ r. ⟦<MemRack as Rack>⟧.faults r.inside };

    fn faults(&self) -> u64 {
        self.inside.faults()
    }

    fn block<H: Host>(
        &mut self,
        rt: &H,
        alloc: Global,
        device: &str,
        number: u32,
        bytes: usize,
    ) -> Result<ToldSlot, OutsideFault> {
        match self.inside.block(rt, alloc, device, number, bytes) {
            Ok(inside) => Ok(ToldSlot {
                inside,
                told: AtomicU64::new(0),
            }),
            Err(fault) => Err(fault),
        }
    }
}

// A queue over such blocks that has two runs of eight blocks.
fn with_two_runs<H: Host + Abort>(rt: &H, alloc: Global) -> Result<Queue<ToldSlot, Pair>, Fail>
where
    H::Dir: Send,
{
    let sizes = long().ok_or("a number is out of range")?;
    let mut rack = ToldRack {
        inside: MemRack::new(),
    };
    let Ok(blocks) = make_blocks::<Pair, H, ToldRack>(rt, alloc, &mut rack, "device", sizes) else {
        return Err(Fail::from("no blocks"));
    };
    match Queue::open(alloc, sizes, blocks) {
        Ok(mut queue) => {
            push_two_runs(rt, &mut queue);
            Ok(queue)
        }
        Err(_) => Err(Fail::from("the queue was not opened")),
    }
}

// How often the block with this number was told and read.
fn told_and_reads(blocks: &[ToldSlot], number: u32) -> (u64, u64) {
    for slot in blocks {
        if slot.number() == number {
            return (slot.told.load(Ordering::SeqCst), slot.reads());
        }
    }
    (0, 0)
}

#[test]
fn no_thread_reads_where_the_device_does(rt: HostRuntime) -> Result<(), Fail> {
    let mut queue = with_two_runs(&rt, rt.alloc())?;
    assert_eq!(rt; queue.pop(&rt, &OpenGate), Ok(Some(pair(0))));
    let blocks = queue.close();
    // the keys 0 to 8,191 are of the blocks 0, 1, 8 and 9
    'read: for number in [0, 1, 8, 9] {
        assert_eq!(rt; told_and_reads(&blocks, number), (1, 1));
    }
    // the next two of each run are told, and not read yet
    'told: for number in [2, 3, 10, 11] {
        assert_eq!(rt; told_and_reads(&blocks, number), (1, 0));
    }
    'later: for number in [4, 12] {
        assert_eq!(rt; told_and_reads(&blocks, number), (0, 0));
    }
    Ok(())
}

#[test]
fn each_block_is_told_once_and_read_once(rt: HostRuntime) -> Result<(), Fail> {
    let mut queue = with_two_runs(&rt, rt.alloc())?;
    'popping: for key in 0..32769u64 {
        assert_eq!(rt; queue.pop(&rt, &OpenGate), Ok(Some(pair(key))));
    }
    let blocks = queue.close();
    'blocks: for number in 0..16 {
        assert_eq!(rt; told_and_reads(&blocks, number), (1, 1));
    }
    Ok(())
}
