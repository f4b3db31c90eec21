ghost use Rattle.std.specs.Prelude.{ℕ, ◌<◌, ◌≤◌, ◌↔◌, length, All, IsSome, IsTrue};
ghost use Rattle.line_worker.specs.Workers.{worker_at, HasDoneBurst, IsReadyFor, MayGoOn, HasMadeRound};

use crate::pace::{Pace, PacedGate, Waits};
use line_base::for_each_mut;
use line_worker::{Gate, SWEEPS, Worker};
use live_check::Live;
use std::thread::Threads;

/// Lets each worker go on with a burst by one round, one after the other.
fn go_on_all<G: Gate>(workers: &mut [Worker], live: &Live, gate: &G)
    requires { All (MayGoOn live.now) workers.old }
    ensures { (w : ℕ) → w < length workers.old →
        HasMadeRound (worker_at workers.old w) (worker_at workers.new w) }
{
    for worker in workers.iter_mut() {
        worker.go_on(live, gate);
    }
}

/// Lets each worker work for a burst on this thread: a sweep of each in turn, and so sixteen times.
fn work_in_turn<G: Gate>(workers: &mut [Worker], live: &Live, gate: &G)
    requires { All (IsReadyFor live.now) workers.old }
    ensures { (w : ℕ) → w < length workers.old →
        HasDoneBurst (worker_at workers.old w) (worker_at workers.new w) }
{
    for _sweep in 0..SWEEPS {
        go_on_all(workers, live, gate);
    }
}

/// Lets each worker work for a burst, one worker a thread. Answers how often the worker that waited most looked for the
/// others.
fn work_at_once<R: Threads + Sync, G: Gate>(
    rt: &R,
    workers: &mut [Worker],
    live: &Live,
    gate: &G,
) -> u64
    requires some { 1 ≤ length workers.old }
    requires ready { All (IsReadyFor live.now) workers.old }
    ensures { (w : ℕ) → w < length workers.old →
        HasDoneBurst (worker_at workers.old w) (worker_at workers.new w) }
{
    let threads = workers.len();
    // A worker that sweeps before the workers up the line have put their tokens, or those down the line
    // their cards, spends its sweeps blocked. So the workers keep pace.
    let waits = Waits::new(threads as u64);
    for_each_mut(
        rt,
        workers,
        threads,
        &|_, worker: &mut Worker|
            requires { IsReadyFor live.now worker.now }
            ensures { HasDoneBurst worker.entry.now worker.exit.now }
        {
            let pace = Pace::new(&waits);
            worker.work(live, &PacedGate { pace: &pace, gate });
            pace.leave();
        },
    );
    waits.most_looks()
}

/// Lets each worker work for a burst, each on a thread of its own, or all in turn on this one. Answers how often the
/// worker that waited most looked for the others, where they worked at once.
pub(crate) fn work_all<R: Threads + Sync, G: Gate>(
    rt: &R,
    workers: &mut [Worker],
    live: &Live,
    gate: &G,
    at_once: bool,
) -> Option<u64>
    requires some { 1 ≤ length workers.old }
    requires ready { All (IsReadyFor live.now) workers.old }
    ensures worked { (w : ℕ) → w < length workers.old →
        HasDoneBurst (worker_at workers.old w) (worker_at workers.new w) }
    ensures looks { IsSome result ↔ IsTrue at_once }
{
    if at_once {
        return Some(work_at_once(rt, workers, live, gate));
    }
    work_in_turn(workers, live, gate);
    None
}
