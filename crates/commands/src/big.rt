//! The run of the plant of a seed.
ghost use Rattle.std.specs.Prelude.{◌≡◌, ◌⊎◌, Err, IfErr, IfOk};
ghost use Rattle.live_plant.specs.Big.{big_plant};
ghost use Rattle.command_line.specs.Ranges.{AreWorkers};
ghost use Rattle.commands.specs.Answers.{IsSummary};
ghost use Rattle.live_plant.specs.LivePlant.{IsLivePlant};

use crate::dates::{DatedPlant, with_dates};
use crate::runs::table_of;
use answers::Answer;
use line_report::Report;
use line_workers::Gate;
use live_plant::{LivePlant, Refusal, big_plant, live_plant_of};
use std::alloc::Global;
use std::thread::Threads;

/// Runs the plant of a seed to its end, by this many workers.
pub(crate) fn big<R: Threads + Sync, G: Gate>(
    rt: &R,
    alloc: Global,
    seed: u64,
    workers: u32,
    gate: &G,
) -> Result<Answer, Refusal>
    requires { AreWorkers workers }
    ensures { IsSummary seed result ⊎ (result ≡ Err Refusal.NoMemory) }
{
    let line = big_line(alloc, seed)?;
    let table = table_of(rt, alloc, &line.live, workers, None, gate);
    let DatedPlant { plant, live, table } = with_dates(line, table)?;
    // The summary has no lines of dates, so it is written by one.
    let report = Report::new(alloc, plant, live, table, 1)?;
    Ok(Answer::Summarized { report })
}

/// The live plant of a seed. The only error is no memory.
fn big_line(alloc: Global, seed: u64) -> Result<LivePlant, Refusal>
    ensures plant { IfOk result (λ line. line.plant ≡ big_plant seed) }
    ensures line { IfOk result IsLivePlant }
    ensures none { IfErr result (λ refusal. refusal ≡ Refusal.NoMemory) }
{
    let plant = big_plant(alloc, seed)?;
    live_plant_of(alloc, plant)
}
