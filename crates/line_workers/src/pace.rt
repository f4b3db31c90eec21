use line_worker::{Gate, SWEEPS};
use std::sync::atomic::{AtomicU64, Ordering};
use std::{hint, thread};

/// How often a worker looks for the others before it lets another thread run.
const LOOKS: u32 = 20;

/// How often a worker lets another thread run in a burst, at most. After that it waits for nobody.
const ROUNDS: u64 = 400;

/// What the workers of a burst that keep pace tell each other.
#[derive(Drop)]
pub(crate) struct Waits {
    workers: u64,
    // How many sweeps all workers together have begun.
    begun: AtomicU64,
    // How often the worker that waited most looked for the others.
    most_looks: AtomicU64,
}

impl Waits {
    /// Of this many workers, none of which has begun a sweep.
    pub(crate) fn new(workers: u64) -> Waits {
        Waits {
            workers,
            begun: AtomicU64::new(0),
            most_looks: AtomicU64::new(0),
        }
    }

    /// How often the worker that waited most looked for the others, of those that have left.
    pub(crate) fn most_looks(&self) -> u64 {
        self.most_looks.load(Ordering::SeqCst)
    }
}

/// How far a worker has come in a burst, where it keeps pace with the others.
#[derive(Drop)]
pub(crate) struct Pace<'a> {
    waits: &'a Waits,
    // How many sweeps the worker has begun.
    sweeps: AtomicU64,
    // How often it has let another thread run.
    rounds: AtomicU64,
    // How often it has looked for the others.
    looks: AtomicU64,
}

impl<'a> Pace<'a> {
    /// The pace of a worker that has begun no sweep, one of those that tell each other by this.
    pub(crate) fn new(waits: &'a Waits) -> Pace<'a> {
        Pace {
            waits,
            sweeps: AtomicU64::new(0),
            rounds: AtomicU64::new(0),
            looks: AtomicU64::new(0),
        }
    }

    /// Looks for a moment whether this many sweeps have begun.
    fn have_begun(&self, sweeps: u64) -> bool {
        for look in 0..LOOKS {
            if self.waits.begun.load(Ordering::SeqCst) >= sweeps {
                self.looks.fetch_add(u64::from(look), Ordering::SeqCst);
                return true;
            }
            hint::spin_loop();
        }
        self.looks.fetch_add(u64::from(LOOKS), Ordering::SeqCst);
        false
    }

    /// Looks until this many sweeps have begun, as long as the worker may in a burst.
    fn look_for(&self, sweeps: u64) {
        for round in self.rounds.load(Ordering::SeqCst)..ROUNDS {
            if self.have_begun(sweeps) {
                return;
            }
            self.rounds.store(round + 1, Ordering::SeqCst);
            thread::yield_now();
        }
    }

    /// The worker is about to sweep: looks for a while whether every worker has begun as many sweeps as this one.
    fn begin_sweep(&self) {
        let before = self.sweeps.fetch_add(1, Ordering::SeqCst);
        self.look_for(before.saturating_mul(self.waits.workers));
        self.waits.begun.fetch_add(1, Ordering::SeqCst);
    }

    /// Counts the sweeps that the worker leaves out, since its stations are done. The others then look for it no more.
    /// Tells how often it has looked for them.
    pub(crate) fn leave(&self) {
        let left = u64::from(SWEEPS).saturating_sub(self.sweeps.load(Ordering::SeqCst));
        self.waits.begun.fetch_add(left, Ordering::SeqCst);
        let looks = self.looks.load(Ordering::SeqCst);
        self.waits.most_looks.fetch_max(looks, Ordering::SeqCst);
    }
}

/// The gate of a worker that keeps pace, before the gate of its line.
#[derive(Drop)]
pub(crate) struct PacedGate<'a, G> {
    pub(crate) pace: &'a Pace<'a>,
    pub(crate) gate: &'a G,
}

impl<'a, G: Gate> Gate for PacedGate<'a, G> {
    fn pass(&self, worker: u32) {
        self.pace.begin_sweep();
        self.gate.pass(worker);
    }
}
