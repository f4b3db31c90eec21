//! What a live plant is asked of the causes of one of its dates.
ghost use Rattle.std.specs.Prelude.{◌≡◌, ◌⊎◌, ◌<◌, ◌≤◌, Err};
ghost use Rattle.command_line.specs.Ranges.{IsJobNumber};
ghost use Rattle.commands.specs.Answers.{IsChained, IsWhy};
ghost use Rattle.event_graph.specs.Network.{jobs, stations};
ghost use Rattle.live_plant.specs.LivePlant.{IsLivePlant};
ghost use Rattle.plant_model.specs.Graph.{graph};

use crate::dates::{DatedPlant, find_dates};
use answers::Answer;
use date_causes::{Causes, NoDate, station_of};
use line_base::Text;
use live_plant::{LivePlant, Refusal};
use std::alloc::Global;

/// The chain of causes of the date of a job at the station of a live plant with this label.
pub(crate) fn why(alloc: Global, line: LivePlant, label: Text, job: u32) -> Result<Answer, Refusal>
    requires plant { IsLivePlant line }
    requires job { IsJobNumber job }
    ensures { IsWhy line.plant label job result ⊎ (result ≡ Err Refusal.NoMemory) }
{
    match station_of(line.live.graph(), label.as_str().as_bytes(), job) {
        Ok(station) => {
            drop(label);
            causes_of(alloc, line, station, job)
        }
        Err(NoDate) => {
            drop(line);
            Err(Refusal::NoDate { label, job })
        }
    }
}

/// The chain of causes of the date of a job at a station of a live plant.
fn causes_of(alloc: Global, line: LivePlant, station: u32, job: u32) -> Result<Answer, Refusal>
    requires plant { IsLivePlant line }
    requires station { station < stations (graph line.plant) }
    requires from_one { 1 ≤ job }
    requires job { job ≤ jobs (graph line.plant) }
    ensures { IsChained line.plant station job result ⊎ (result ≡ Err Refusal.NoMemory) }
{
    let DatedPlant { plant, live, table } = find_dates(alloc, line)?;
    let causes = Causes::new(alloc, plant, live, &table, station, job)?;
    Ok(Answer::Caused { causes })
}
