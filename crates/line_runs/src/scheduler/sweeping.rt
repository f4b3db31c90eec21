ghost use Rattle.std.specs.Prelude.{◌↔◌, IsTrue};
ghost use Rattle.line_workers.specs.Gather.{IsWorkerAfter};
ghost use Rattle.line_runs.specs.Sweeping.{IsWorkerFor, IsMostTurns, MaySweep, IsExceeded};
ghost use Rattle.line_worker.specs.Worker.{IsWorker};

use line_workers::{Gate, Worker};
use live_check::Live;
use std::snapshot::Snapshot;
use std::sync::atomic::{AtomicBool, Ordering};
use std::thread;
use std::thread::Promise;

/// How many turns a station makes at most before its worker stops sweeping.
const MAX_TURNS: u64 = 1 << 39;

/// After how many sweeps in a row in which nothing was fired a worker lets another thread run.
///
/// A call to the system takes longer than a sweep of blocked stations, so it is not made after each of them. With more
/// workers than processors one that waits must still give way soon: the one that it waits for may have no processor.
const YIELD_EVERY: u32 = 64;

/// How long a worker sweeps on while nothing is fired.
#[derive(Clone, Copy)]
pub(crate) enum Patience {
    /// Without end.
    Endless,
    /// Until it has made more idle sweeps than this.
    Sweeps(u64),
}

/// What the thread of a worker gives back: that very worker, after some sweeps.
#[derive(Drop)]
pub(crate) struct AfterSweeps(pub(crate) Snapshot<Worker>);

impl Promise<Worker> for AfterSweeps {
    ghost kept_by = { λ promise worker. IsWorkerAfter promise.0.value worker };
}

/// Whether a worker may make another sweep, of whose stations one has made this many turns and none
/// more: not all of its stations are done, and none has made as many turns as it may.
fn may_sweep(worker: &Worker, turns: u64) -> bool
    requires turns { IsMostTurns worker.now.team turns }
    ensures may { IsTrue result ↔ MaySweep worker.now }
    ensures worker { IsWorker worker.now }
{
    !worker.is_done() && turns < MAX_TURNS
}

/// The idle sweeps of a worker: those in which nothing was fired.
#[derive(Drop)]
struct IdleSweeps {
    made: u64,
    // How many of them in a row there were since it last let another thread run.
    in_a_row: u32,
}

impl IdleSweeps {
    /// Of a worker that has made no sweep.
    fn new() -> IdleSweeps {
        IdleSweeps {
            made: 0,
            in_a_row: 0,
        }
    }

    /// Counts a sweep with this many firings. After each `YIELD_EVERY` idle ones in a row it lets another thread run.
    fn count(&mut self, fired: u64) {
        if fired > 0 {
            self.in_a_row = 0;
            return;
        }
        self.made = self.made.saturating_add(1);
        self.in_a_row = self.in_a_row.saturating_add(1);
        if self.in_a_row >= YIELD_EVERY {
            thread::yield_now();
            self.in_a_row = 0;
        }
    }

    /// Whether a worker has made more of them than its patience allows.
    fn exceed(&self, patience: Patience) -> bool
        ensures { IsTrue result ↔ IsExceeded patience self.now.made }
    {
        match patience {
            Patience::Endless => false,
            Patience::Sweeps(most) => self.made > most,
        }
    }
}

/// Sets the stop word where a worker has made more idle sweeps than its patience allows, so that it leaves, and the
/// others too.
fn stop_if_idle(idle: &IdleSweeps, patience: Patience, stop: &AtomicBool) {
    if idle.exceed(patience) {
        stop.store(true, Ordering::SeqCst);
    }
}

/// Lets a worker sweep until it is done, the stop word is set, or a station has made as many turns as
/// it may. An idle sweep is followed by another: the worker never parks, but now and then lets another thread run, and
/// sets the stop word where its patience ends. Each sweep gives every station one turn, so it looks once how many were
/// made, and then counts.
pub(crate) fn sweep_on<G: Gate>(
    worker: &mut Worker,
    live: &Live,
    gate: &G,
    stop: &AtomicBool,
    patience: Patience,
)
    requires { IsWorkerFor live.now worker.old }
    ensures { IsWorkerAfter worker.old worker.new }
{
    let mut turns = worker.turns();
    let mut idle = IdleSweeps::new();
    while !stop.load(Ordering::SeqCst) && may_sweep(worker, turns) {
        idle.count(worker.sweep(live, gate));
        stop_if_idle(&idle, patience, stop);
        turns += 1;
    }
}
