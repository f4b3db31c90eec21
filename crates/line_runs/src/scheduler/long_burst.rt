ghost use Rattle.std.specs.Prelude.{◌≡◌, ◌≤◌, All, length};
ghost use Rattle.line_runs.specs.Standing.{GoesOn};
ghost use Rattle.line_runs.specs.Sweeping.{IsWorkerFor};
ghost use Rattle.line_workers.specs.Gather.{IsWorkerAfter, AreWorkersAfter};

use crate::scheduler::placing::begin_empty_thread;
use crate::scheduler::sweeping::{Patience, sweep_on};
use line_base::for_each_mut;
use line_workers::{Gate, Line, Worker};
use live_check::Live;
use std::sync::atomic::AtomicBool;
use std::thread::Threads;

/// How many idle sweeps, in which it fires nothing, a worker of a long burst makes at most, for each job and each worker.
///
/// An idle sweep takes some two fifths of the time of one in which all stations of the worker fire, and of these it would
/// make one for each job. So a worker waits at most about as long as one worker alone takes for all firings. This was
/// measured, and nothing is proved of it.
const IDLE_EACH: u64 = 3;

/// How long a worker of a long burst waits for the others.
fn patience_of(live: &Live, workers: usize) -> Patience {
    let most = IDLE_EACH * u64::from(live.graph().jobs());
    Patience::Sweeps(most.saturating_mul(workers as u64))
}

/// Lets all workers sweep at the same time, each in a thread of its own, until each is done, or one has idled for too
/// long. Where a thread is refused its worker sweeps on this one, waits for the others in vain, and leaves.
fn sweep_at_once<R: Threads + Sync, G: Gate>(rt: &R, workers: &mut [Worker], live: &Live, gate: &G)
    requires some { 1 ≤ length workers.old }
    requires made_for { All (IsWorkerFor live.now) workers.old }
    ensures { AreWorkersAfter workers.old workers.new }
{
    let threads = workers.len();
    begin_empty_thread(rt);
    let stop = AtomicBool::new(false);
    let patience = patience_of(live, threads);
    for_each_mut(
        rt,
        workers,
        threads,
        &|_, worker: &mut Worker|
            requires { IsWorkerFor live.now worker.now }
            ensures { IsWorkerAfter worker.entry.now worker.exit.now }
        { sweep_on(worker, live, gate, &stop, patience) },
    );
}

/// Lets a line work for a long burst: its workers sweep side by side, without a meeting, and are gathered. Firings are
/// left where one of them idled for too long. It takes no memory and waits for no lock.
fn work_long<R: Threads + Sync, G: Gate>(rt: &R, line: Line, live: &Live, gate: &G) -> Line
    requires { live.now ≡ line.live }
    ensures { GoesOn line result }
{
    let mut workers = line.workers();
    sweep_at_once(rt, &mut workers, live, gate);
    Line::gather(live, workers)
}

/// Begins a run to the end: by a long burst where the line has several workers. One worker has nobody to wait for, and
/// goes by bursts alone.
pub(crate) fn begin_long<R: Threads + Sync, G: Gate>(
    rt: &R,
    line: Line,
    live: &Live,
    gate: &G,
) -> Line
    requires { live.now ≡ line.live }
    ensures { GoesOn line result }
{
    if line.worker_count() > 1 {
        return work_long(rt, line, live, gate);
    }
    line
}
