//! Runs of a live plant to its end, by a line of workers.
ghost use Rattle.std.specs.Prelude.{◌≡◌, ◌⊎◌, ◌≤◌, length, Err, IfErr, IfOk, IfSome};
ghost use Rattle.command_line.specs.Ranges.{AreWorkers, IsRingRoom};
ghost use Rattle.commands.specs.Reports.{IsReport, IsResumed};
ghost use Rattle.line_base.specs.Limits.{most_checkpoint_bytes};
ghost use Rattle.line_runs.specs.Table.{IsLeastOf};
ghost use Rattle.live_plant.specs.LivePlant.{IsLivePlant};
ghost use Rattle.live_plant.specs.Outside.{NeedsNoCause};

use crate::reports::{report_of, report_or_none};
use answers::Answer;
use line_core::Table;
use line_runs::{line_of_run, run_through, run_to_end};
use line_workers::{Gate, Line};
use live_check::Live;
use live_plant::{LivePlant, Refusal, checkpoint_refusal};
use std::alloc::{AllocError, Global};
use std::sync::Wait;
use std::thread::Threads;

/// Runs a live plant to its end, by this many workers. Where a room is given, the ring of an arc between two of them
/// has room for the tokens with which its arc starts, and for as many more.
pub(crate) fn run_whole<R: Threads + Sync, G: Gate>(
    rt: &R,
    alloc: Global,
    line: LivePlant,
    workers: u32,
    room: Option<u32>,
    gate: &G,
) -> Result<Answer, Refusal>
    requires plant { IsLivePlant line }
    requires workers { AreWorkers workers }
    requires room { IfSome room IsRingRoom }
    ensures { IsReport line.plant result ⊎ (result ≡ Err Refusal.NoMemory) }
{
    let table = table_of(rt, alloc, &line.live, workers, room, gate);
    report_or_none(alloc, line, table, workers)
}

/// The dates of a live graph, by this many workers, with this room in the rings between them where one is given.
pub(crate) fn table_of<R: Threads + Sync, G: Gate>(
    rt: &R,
    alloc: Global,
    live: &Live,
    workers: u32,
    room: Option<u32>,
    gate: &G,
) -> Result<Table, AllocError>
    requires workers { AreWorkers workers }
    requires room { IfSome room IsRingRoom }
    ensures { IfOk result (IsLeastOf live.now.graph) }
{
    let work = line_of_run(alloc, live, workers, room)?;
    Ok(match room {
        None => run_through(rt, live, work, gate),
        Some(_) => run_to_end(rt, live, work, gate),
    })
}

/// Runs a live plant to its end, by this many workers that stand until all firings are made. It waits
/// for its threads, and doesn't promise to return.
#[tactic(auto, using(crate::proofs::NoCauses::least_inside))]
pub fn run_standing<R: Threads + Wait + Sync, G: Gate>(
    rt: &R,
    alloc: Global,
    line: LivePlant,
    workers: u32,
    gate: &G,
) -> Result<Answer, Refusal>
    requires plant { IsLivePlant line }
    requires workers { AreWorkers workers }
    ensures report { IsReport line.plant result ⊎ (result ≡ Err Refusal.NoMemory) }
    ensures inside { IfErr result NeedsNoCause }
{
    let table = standing_table_of(rt, alloc, &line.live, workers, gate);
    report_or_none(alloc, line, table, workers)
}

/// The dates of a live graph, by this many workers that stand until all firings are made.
fn standing_table_of<R: Threads + Wait + Sync, G: Gate>(
    rt: &R,
    alloc: Global,
    live: &Live,
    workers: u32,
    gate: &G,
) -> Result<Table, AllocError>
    requires workers { AreWorkers workers }
    ensures { IfOk result (IsLeastOf live.now.graph) }
{
    let work = Line::prepare(alloc, live, workers)?;
    Ok(line_runs::run_standing(rt, live, work, gate))
}

/// Goes on from the text of a state of a live plant, by this many workers, to the end.
pub(crate) fn resume<R: Threads + Sync, G: Gate>(
    rt: &R,
    alloc: Global,
    line: LivePlant,
    bytes: &[u8],
    workers: u32,
    gate: &G,
) -> Result<Answer, Refusal>
    requires plant { IsLivePlant line }
    requires workers { AreWorkers workers }
    requires short { length bytes.now ≤ most_checkpoint_bytes }
    ensures { IsResumed line.plant bytes.now result ⊎ (result ≡ Err Refusal.NoMemory) }
{
    match line_runs::resume(rt, alloc, &line.live, bytes, workers, gate) {
        Ok(table) => report_of(alloc, line, table, workers),
        Err(error) => {
            let refusal = checkpoint_refusal(alloc, line.live.graph(), error);
            drop(line);
            Err(refusal)
        }
    }
}
