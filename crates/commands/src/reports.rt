//! The report of a live plant, over the table that a run of it answered.
ghost use Rattle.std.specs.Prelude.{◌≡◌, ◌⊎◌, Err, IfOk};
ghost use Rattle.commands.specs.Reports.{IsReport};
ghost use Rattle.line_runs.specs.Table.{IsLeastOf};
ghost use Rattle.live_plant.specs.LivePlant.{IsLivePlant};

use crate::dates::{DatedPlant, with_dates};
use answers::Answer;
use line_core::Table;
use line_report::Report;
use live_plant::{LivePlant, Refusal};
use std::alloc::{AllocError, Global};

/// The report of a live plant, over the table that a run of it answered, to be written by this many workers.
pub(crate) fn report_of(
    alloc: Global,
    line: LivePlant,
    table: Table,
    workers: u32,
) -> Result<Answer, Refusal>
    requires plant { IsLivePlant line }
    requires table { IsLeastOf line.live.graph table }
    ensures { IsReport line.plant result ⊎ (result ≡ Err Refusal.NoMemory) }
{
    report_or_none(alloc, line, Ok(table), workers)
}

/// The report of a live plant, over the table that a run of it answered, where there was memory for the run.
pub(crate) fn report_or_none(
    alloc: Global,
    line: LivePlant,
    table: Result<Table, AllocError>,
    workers: u32,
) -> Result<Answer, Refusal>
    requires plant { IsLivePlant line }
    requires table { IfOk table (IsLeastOf line.live.graph) }
    ensures { IsReport line.plant result ⊎ (result ≡ Err Refusal.NoMemory) }
{
    let DatedPlant { plant, live, table } = with_dates(line, table)?;
    let report = Report::new(alloc, plant, live, table, workers)?;
    Ok(Answer::Reported { report })
}
