ghost use Rattle.std.specs.Prelude.{◌≡◌, All, vec_capacity};
ghost use Rattle.line_workers.specs.Gather.{IsWorkerAfter, AreWorkersAfter};
ghost use Rattle.line_runs.specs.Sweeping.{IsWorkerFor};

use crate::scheduler::placing::begin_empty_thread;
use crate::scheduler::sweeping::{AfterSweeps, Patience, sweep_on};
use line_workers::{Gate, Worker};
use live_check::Live;
use std::snapshot::Snapshot;
use std::sync::Wait;
use std::sync::atomic::{AtomicBool, Ordering};
use std::thread;
use std::thread::{Scope, Threads};

/// A worker that stood: after it has swept until it was done, the stop word was set, or a station had made as many turns
/// as it may.
fn worker_after<G: Gate>(worker: Worker, live: &Live, gate: &G, stop: &AtomicBool) -> Worker
    requires { IsWorkerFor live.now worker }
    ensures { IsWorkerAfter worker result }
{
    let mut worker = worker;
    sweep_on(&mut worker, live, gate, stop, Patience::Endless);
    worker
}

/// Lets all of these workers sweep at the same time, the first of them in the thread of the caller, and
/// brings them back in their order. Where a thread is refused the stop word is set, and the workers
/// that have no thread come back as they are. It takes no memory: the workers are taken out of their
/// list, and put back into it.
fn sweep_all<'s, E, R: Threads, G: Gate>(
    rt: &R,
    scope: &Scope<'s, E>,
    workers: Vec<Worker>,
    live: &'s Live,
    gate: &'s G,
    stop: &'s AtomicBool,
) -> Vec<Worker>
    requires { All (IsWorkerFor live.now) workers.items }
    ensures after { AreWorkersAfter workers.items result.items }
    ensures room { vec_capacity result ≡ vec_capacity workers }
{
    let mut workers = workers;
    let Some(worker) = workers.pop() else {
        return workers;
    };
    if workers.is_empty() {
        workers.push_reserved(worker_after(worker, live, gate, stop));
        return workers;
    }
    let promise = AfterSweeps(Snapshot::of(&worker));
    let sweeps = move || -> Worker
        requires { IsWorkerFor live.now worker }
        ensures { IsWorkerAfter worker result }
    { worker_after(worker, live, gate, stop) };
    match scope.spawn_with(promise, sweeps) {
        Ok(thread) => {
            let mut workers = sweep_all(rt, scope, workers, live, gate, stop);
            workers.push_reserved(thread.join(rt));
            workers
        }
        Err(refused) => {
            stop.store(true, Ordering::SeqCst);
            workers.push_reserved((refused.value)());
            workers
        }
    }
}

/// Lets the workers of a line sweep, each in a thread of one scope, until each has come to its end.
pub(crate) fn sweep_apart<R: Threads + Wait, G: Gate>(
    rt: &R,
    workers: Vec<Worker>,
    live: &Live,
    gate: &G,
) -> Vec<Worker>
    requires { All (IsWorkerFor live.now) workers.items }
    ensures { AreWorkersAfter workers.items result.items }
{
    if workers.len() > 1 {
        begin_empty_thread(rt);
    }
    let stop = AtomicBool::new(false);
    let stop = &stop;
    thread::scope(
        thread::scope_env(),
        rt,
        |scope| -> Vec<Worker>
            requires { All (IsWorkerFor live.now) workers.items }
            ensures { AreWorkersAfter workers.items result.items }
        { sweep_all(rt, scope, workers, live, gate, stop) },
    )
}
