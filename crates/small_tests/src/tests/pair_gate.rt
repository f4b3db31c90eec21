use line_workers::Gate;
use std::hint;
use std::sync::atomic::{AtomicBool, AtomicU64, Ordering};

/// How often a worker looks whether the other is at the gate.
const LOOKS: u64 = 200_000_000;

/// A gate at which each of two workers waits at its first sweep until the other is at its own.
#[derive(Drop)]
pub struct PairGate {
    passes: [AtomicU64; 2],
    missed: AtomicBool,
}

impl PairGate {
    /// No worker has come yet.
    pub fn new() -> PairGate {
        PairGate {
            passes: [AtomicU64::new(0), AtomicU64::new(0)],
            missed: AtomicBool::new(false),
        }
    }

    /// Whether a worker, 0 or 1, is at the gate.
    pub fn has_come(&self, worker: u32) -> bool {
        self.passes[worker as usize % 2].load(Ordering::SeqCst) > 0
    }

    /// Whether a worker has looked in vain for the other.
    pub fn has_missed(&self) -> bool {
        self.missed.load(Ordering::SeqCst)
    }
}

impl Gate for PairGate {
    fn pass(&self, worker: u32) {
        self.passes[worker as usize % 2].fetch_add(1, Ordering::SeqCst);
        if self.has_missed() {
            return;
        }
        for _look in 0..LOOKS {
            if self.has_come(1 - worker % 2) {
                return;
            }
            hint::spin_loop();
        }
        self.missed.store(true, Ordering::SeqCst);
    }
}
