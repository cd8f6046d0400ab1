//! A gate for two workers.
use ppq_outside::Gate;
use std::sync::atomic::{AtomicU64, Ordering};

/// A gate that holds each of workers 0 and 1 until the other has entered, for at most 200,000,000 turns.
#[derive(Drop)]
pub struct PairGate {
    // 1 once the worker has entered.
    first: AtomicU64,
    second: AtomicU64,
    // How many workers have entered, and how many of them waited in vain.
    entered: AtomicU64,
    late: AtomicU64,
}

impl PairGate {
    /// A gate that no worker has entered.
    pub fn new() -> Self {
        PairGate {
            first: AtomicU64::new(0),
            second: AtomicU64::new(0),
            entered: AtomicU64::new(0),
            late: AtomicU64::new(0),
        }
    }

    /// How many workers have entered.
    pub fn entered(&self) -> u64 {
        self.entered.load(Ordering::SeqCst)
    }

    /// Whether workers 0 and 1 have entered, and neither waited in vain.
    pub fn is_passed(&self) -> bool {
        let both = self.first.load(Ordering::SeqCst) & self.second.load(Ordering::SeqCst);
        both == 1 && self.late.load(Ordering::SeqCst) == 0
    }

    // Waits until the other has entered.
    fn meet(&self, own: &AtomicU64, other: &AtomicU64) {
        own.store(1, Ordering::SeqCst);
        for _turn in 0..200000000 {
            if other.load(Ordering::SeqCst) == 1 {
                return;
            }
        }
        self.late.fetch_add(1, Ordering::SeqCst);
    }
}

impl Gate for PairGate {
    fn enter(&self, worker: u32) {
        self.entered.fetch_add(1, Ordering::SeqCst);
        if worker == 0 {
            self.meet(&self.first, &self.second);
        }
        if worker == 1 {
            self.meet(&self.second, &self.first);
        }
    }
}
