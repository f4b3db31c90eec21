use line_workers::Gate;
use std::sync::atomic::{AtomicU64, Ordering};

/// A gate that counts the sweeps of all workers.
#[derive(Drop)]
pub struct CountingGate {
    sweeps: AtomicU64,
}

impl CountingGate {
    /// No sweep was counted yet.
    pub fn new() -> CountingGate {
        CountingGate {
            sweeps: AtomicU64::new(0),
        }
    }

    /// How many sweeps were counted.
    pub fn sweeps(&self) -> u64 {
        self.sweeps.load(Ordering::SeqCst)
    }
}

impl Gate for CountingGate {
    fn pass(&self, _worker: u32) {
        self.sweeps.fetch_add(1, Ordering::SeqCst);
    }
}
