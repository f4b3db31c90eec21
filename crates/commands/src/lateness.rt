//! What a live plant is asked of its latest dates.
ghost use Rattle.std.specs.Prelude.{◌≡◌, ◌⊎◌, ◌≤◌, Err};
ghost use Rattle.command_line.specs.Numbers.{longest_wait};
ghost use Rattle.commands.specs.Answers.{IsLatest};
ghost use Rattle.live_plant.specs.LivePlant.{IsLivePlant};
ghost use Rattle.plant_model.specs.Graph.{graph};

use crate::dates::{DatedPlant, find_dates};
use answers::Answer;
use latest_dates::latest_dates;
use live_plant::{LivePlant, Refusal};
use std::alloc::Global;

/// How late each job of a live plant may be for no job to wait longer.
pub(crate) fn latest(alloc: Global, line: LivePlant, wait: u64) -> Result<Answer, Refusal>
    requires plant { IsLivePlant line }
    requires wait { wait ≤ longest_wait }
    ensures { IsLatest (graph line.plant) wait result ⊎ (result ≡ Err Refusal.NoMemory) }
{
    let DatedPlant { plant, live, table } = find_dates(alloc, line)?;
    drop(plant);
    let latest = latest_dates(alloc, live, table, wait)?;
    Ok(Answer::Latest { latest })
}
