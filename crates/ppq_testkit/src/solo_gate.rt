//! A gate that lets one worker go on alone.
use ppq_outside::Gate;
use std::sync::atomic::{AtomicU64, Ordering};

/// A gate that lets one worker go on at once, and holds the others until so many records were read after
/// that, for at most 200,000,000 turns. So the one worker is to read them alone.
#[derive(Drop)]
pub struct SoloGate {
    // The worker that goes on, and how many records it is to read.
    worker: u32,
    share: u64,
    // 1 once it has entered.
    entered: AtomicU64,
    // How many records were read since then, and how many workers waited in vain for them.
    read: AtomicU64,
    late: AtomicU64,
}

impl SoloGate {
    /// A gate that no worker has entered.
    pub fn new(worker: u32, share: u64) -> Self {
        SoloGate {
            worker,
            share,
            entered: AtomicU64::new(0),
            read: AtomicU64::new(0),
            late: AtomicU64::new(0),
        }
    }

    /// Counts a record that is read.
    pub fn note(&self) {
        self.read.fetch_add(1, Ordering::SeqCst);
    }

    /// How many records were read since the worker entered.
    pub fn read(&self) -> u64 {
        self.read.load(Ordering::SeqCst)
    }

    /// Whether the worker has entered, and no other waited in vain.
    pub fn is_passed(&self) -> bool {
        self.entered.load(Ordering::SeqCst) == 1 && self.late.load(Ordering::SeqCst) == 0
    }

    // Waits until the one worker has read its share.
    fn wait(&self) {
        for _turn in 0..200000000 {
            let entered = self.entered.load(Ordering::SeqCst);
            if entered == 1 && self.read() >= self.share {
                return;
            }
        }
        self.late.fetch_add(1, Ordering::SeqCst);
    }
}

impl Gate for SoloGate {
    fn enter(&self, worker: u32) {
        if worker == self.worker {
            self.read.store(0, Ordering::SeqCst);
            self.entered.store(1, Ordering::SeqCst);
        } else {
            self.wait();
        }
    }
}
