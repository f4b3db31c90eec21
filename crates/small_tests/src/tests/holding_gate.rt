use line_workers::Gate;
use std::hint;
use std::sync::atomic::{AtomicBool, AtomicU64, Ordering};

/// How often a worker that is held looks whether the gate is open: for some seconds, since the other may come late on a
/// busy machine.
const LOOKS: u64 = 200_000_000;

/// A gate for two workers that holds the first sweep of one until the other has begun this many. It counts the sweeps of
/// worker 0, in each of which the feed steps once: it is station 0.
#[derive(Drop)]
pub struct HoldingGate {
    holds: u32,
    opens_at: u64,
    held: AtomicBool,
    passes: AtomicU64,
    feeds: AtomicU64,
    missed: AtomicBool,
}

impl HoldingGate {
    /// A gate that holds this worker until the other has begun this many sweeps.
    pub fn new(holds: u32, opens_at: u64) -> HoldingGate {
        HoldingGate {
            holds,
            opens_at,
            held: AtomicBool::new(false),
            passes: AtomicU64::new(0),
            feeds: AtomicU64::new(0),
            missed: AtomicBool::new(false),
        }
    }

    /// Whether the other worker has passed often enough.
    pub fn is_open(&self) -> bool {
        self.passes.load(Ordering::SeqCst) >= self.opens_at
    }

    /// Whether the worker that was held has looked in vain.
    pub fn has_missed(&self) -> bool {
        self.missed.load(Ordering::SeqCst)
    }

    /// How often the feed has stepped, or is about to.
    pub fn feeds(&self) -> u64 {
        self.feeds.load(Ordering::SeqCst)
    }

    /// Holds a worker until the gate is open, or until it has looked in vain.
    fn hold(&self) {
        for _look in 0..LOOKS {
            if self.is_open() {
                return;
            }
            hint::spin_loop();
        }
        self.missed.store(true, Ordering::SeqCst);
    }
}

impl Gate for HoldingGate {
    fn pass(&self, worker: u32) {
        if worker == 0 {
            self.feeds.fetch_add(1, Ordering::SeqCst);
        }
        if worker != self.holds {
            self.passes.fetch_add(1, Ordering::SeqCst);
        } else if !self.held.swap(true, Ordering::SeqCst) {
            self.hold();
        }
    }
}
