ghost use Rattle.std.specs.Prelude.{◌^◌, ◌<◌, ◌≤◌, length, IfOk, IfErr};
ghost use Rattle.line_base.specs.Limits.{most_workers};
ghost use Rattle.checkpoint.specs.Answers.{Tells};
ghost use Rattle.line_runs.specs.Resume.{FailsOnlyFor, Resumes};
ghost use Rattle.line_runs.specs.Scheduler.{IsResumedBy};
ghost use Rattle.line_runs.specs.StandsFor.{StandsFor};
ghost use Rattle.line_workers.specs.Line.{IsLine};

use crate::run::run_through;
use crate::scheduler::paying::paying_workers;
use checkpoint::{CheckpointError, read_state};
use line_core::Table;
use line_workers::{Gate, Line};
use live_check::Live;
use std::alloc::Global;
use std::thread::Threads;

/// The line of this many workers that stands for the state whose text these bytes are. Every error
/// but out of memory is the first thing that is wrong with the bytes, and comes exactly where they
/// are a text of no state that firings reach.
pub fn line_of_text(
    alloc: Global,
    live: &Live,
    bytes: &[u8],
    workers: u32,
) -> Result<Line, CheckpointError>
    requires some { 1 ≤ workers }
    requires few { workers ≤ most_workers }
    requires short { length bytes.now < 2 ^ 32 }
    ensures line { IfOk result IsLine }
    ensures stands { IfOk result (StandsFor live.now bytes.now workers) }
    ensures refused { IfErr result (Tells live.now.graph bytes.now) }
    ensures found { IfErr result (FailsOnlyFor live.now.graph bytes.now) }
{
    let state = read_state(alloc, live, bytes)?;
    match Line::from_state(alloc, live, state, workers) {
        Ok(line) => Ok(line),
        Err(state) => {
            drop(state);
            Err(CheckpointError::NoMemory)
        }
    }
}

/// Goes on from the text of a state, by as many of this many workers as pay, until every station has fired once for
/// each job. The table is the least solution of the graph, the same as that of a run that never stopped.
pub fn resume<R: Threads + Sync, G: Gate>(
    rt: &R,
    alloc: Global,
    live: &Live,
    bytes: &[u8],
    workers: u32,
    gate: &G,
) -> Result<Table, CheckpointError>
    requires some { 1 ≤ workers }
    requires few { workers ≤ most_workers }
    requires short { length bytes.now < 2 ^ 32 }
    ensures resumes { Resumes live.now.graph bytes.now result }
    ensures by { IfOk result (IsResumedBy live.now bytes.now workers) }
{
    let line = line_of_text(alloc, live, bytes, paying_workers(live, workers))?;
    Ok(run_through(rt, live, line, gate))
}
