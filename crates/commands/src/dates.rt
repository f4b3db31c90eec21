//! What a live plant is asked of its dates, each over the least solution: the summary, every date, and a picture.
ghost use Rattle.std.specs.Prelude.{◌≡◌, ◌⊎◌, Err, IfOk, IfSome};
ghost use Rattle.command_line.specs.Ranges.{IsWindowGiven};
ghost use Rattle.commands.specs.Answers.{IsChart, IsDateTable, IsLineSummary};
ghost use Rattle.commands.specs.Dated.{IsDatedOf};
ghost use Rattle.line_runs.specs.Table.{IsLeastOf};
ghost use Rattle.live_plant.specs.LivePlant.{IsLivePlant};

use answers::Answer;
use line_chart::{Chart, ChartError, DateTable};
use line_core::{Table, run};
use line_summary::Summary;
use live_check::Live;
use live_plant::{LivePlant, Refusal};
use plant_model::Plant;
use std::alloc::{AllocError, Global};

/// A live plant with its dates.
#[derive(Drop)]
pub(crate) struct DatedPlant {
    /// The plant.
    pub plant: Plant,
    /// Its live graph.
    pub live: Live,
    /// The least solution of that graph.
    pub table: Table,
}

/// A live plant with its dates, by firings on one thread. The only error is no memory.
pub(crate) fn find_dates(alloc: Global, line: LivePlant) -> Result<DatedPlant, AllocError>
    requires { IsLivePlant line }
    ensures { IfOk result (IsDatedOf line) }
{
    let table = least_table(alloc, &line.live);
    with_dates(line, table)
}

/// A live plant with the dates that a run of it answered, where there was memory for the run.
pub(crate) fn with_dates(
    line: LivePlant,
    table: Result<Table, AllocError>,
) -> Result<DatedPlant, AllocError>
    requires plant { IsLivePlant line }
    requires table { IfOk table (IsLeastOf line.live.graph) }
    ensures { IfOk result (IsDatedOf line) }
{
    match table {
        Ok(table) => {
            let LivePlant { plant, live } = line;
            Ok(DatedPlant { plant, live, table })
        }
        Err(none) => {
            drop(line);
            Err(none)
        }
    }
}

/// The dates of a live graph, by firings on one thread: its least solution.
pub(crate) fn least_table(alloc: Global, live: &Live) -> Result<Table, AllocError>
    ensures { IfOk result (IsLeastOf live.now.graph) }
{
    let end = run(alloc, live)?;
    Ok(end.into_table(live))
}

/// The summary of a live plant.
pub(crate) fn summary(alloc: Global, line: LivePlant) -> Result<Answer, Refusal>
    requires { IsLivePlant line }
    ensures { IsLineSummary line.plant result ⊎ (result ≡ Err Refusal.NoMemory) }
{
    let DatedPlant { plant, live, table } = find_dates(alloc, line)?;
    drop(live);
    let summary = Summary::new(alloc, plant, table)?;
    Ok(Answer::Summary { summary })
}

/// Every date of a live plant as csv.
pub(crate) fn date_table(alloc: Global, line: LivePlant) -> Result<Answer, Refusal>
    requires { IsLivePlant line }
    ensures { IsDateTable line.plant result ⊎ (result ≡ Err Refusal.NoMemory) }
{
    let DatedPlant { plant, live, table } = find_dates(alloc, line)?;
    let dates = DateTable::new(alloc, plant, live, table)?;
    Ok(Answer::Dates { dates })
}

/// A picture of the run of a live plant.
pub(crate) fn chart(
    alloc: Global,
    line: LivePlant,
    window: Option<(u64, u64)>,
) -> Result<Answer, Refusal>
    requires plant { IsLivePlant line }
    requires window { IfSome window IsWindowGiven }
    ensures { IsChart line.plant window result ⊎ (result ≡ Err Refusal.NoMemory) }
{
    let DatedPlant { plant, live, table } = find_dates(alloc, line)?;
    match Chart::of(alloc, plant, live, table, window) {
        Ok(chart) => Ok(Answer::Drawn { chart }),
        Err(ChartError::TooLarge { bars }) => Err(Refusal::TooLarge { bars }),
        Err(ChartError::NoMemory) => Err(Refusal::NoMemory),
    }
}
