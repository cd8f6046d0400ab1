//! A gate for a crowd of workers.
use ppq_outside::Gate;
use std::sync::atomic::{AtomicU64, Ordering};

/// A gate that holds each worker until so many have entered, for at most 200,000,000 turns.
#[derive(Drop)]
pub struct CrowdGate {
    // How many are to enter before any goes on.
    size: u64,
    // How many have entered, and how many of them waited in vain.
    entered: AtomicU64,
    late: AtomicU64,
}

impl CrowdGate {
    /// A gate that no worker has entered.
    pub fn new(size: u64) -> Self {
        CrowdGate {
            size,
            entered: AtomicU64::new(0),
            late: AtomicU64::new(0),
        }
    }

    /// Whether so many have entered, and none of them waited in vain.
    pub fn is_passed(&self) -> bool {
        self.entered.load(Ordering::SeqCst) >= self.size && self.late.load(Ordering::SeqCst) == 0
    }
}

impl Gate for CrowdGate {
    fn enter(&self, _worker: u32) {
        self.entered.fetch_add(1, Ordering::SeqCst);
        for _turn in 0..200000000 {
            if self.entered.load(Ordering::SeqCst) >= self.size {
                return;
            }
        }
        self.late.fetch_add(1, Ordering::SeqCst);
    }
}
