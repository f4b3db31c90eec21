use line_workers::Gate;
use std::sync::atomic::{AtomicU32, AtomicU64, Ordering};

/// A gate that notes the greatest number of a worker that has passed, and how often all of them did.
#[derive(Drop)]
pub struct NotingGate {
    greatest: AtomicU32,
    passes: AtomicU64,
}

impl NotingGate {
    /// No worker has passed yet.
    pub fn new() -> NotingGate {
        NotingGate {
            greatest: AtomicU32::new(0),
            passes: AtomicU64::new(0),
        }
    }

    /// The greatest number of a worker that has passed.
    pub fn greatest(&self) -> u32 {
        self.greatest.load(Ordering::SeqCst)
    }

    /// How often the workers have passed.
    pub fn passes(&self) -> u64 {
        self.passes.load(Ordering::SeqCst)
    }
}

impl Gate for NotingGate {
    fn pass(&self, worker: u32) {
        self.greatest.fetch_max(worker, Ordering::SeqCst);
        self.passes.fetch_add(1, Ordering::SeqCst);
    }
}
