//! The run of a live plant whose stations fire by a schedule.
ghost use Rattle.std.specs.Prelude.{◌≡◌, ◌⊎◌, Err};
ghost use Rattle.commands.specs.Answers.{IsEnd};
ghost use Rattle.line_core.specs.Schedule.{follow};
ghost use Rattle.live_plant.specs.LivePlant.{IsLivePlant};
ghost use Rattle.plant_model.specs.Graph.{graph};

use crate::reports::report_of;
use answers::Answer;
use live_plant::{LivePlant, Refusal, schedule_refusal};
use std::alloc::Global;

/// The report of a live plant whose stations fire by a schedule, or why it can't be followed.
pub(crate) fn replay(alloc: Global, line: LivePlant, schedule: &[u8]) -> Result<Answer, Refusal>
    requires { IsLivePlant line }
    ensures { IsEnd line.plant (follow (graph line.plant) schedule.now) result ⊎ (result ≡ Err Refusal.NoMemory) }
{
    match line_core::replay(alloc, &line.live, schedule) {
        Ok(end) => {
            let table = end.into_table(&line.live);
            report_of(alloc, line, table, 1)
        }
        Err(error) => {
            let refusal = schedule_refusal(alloc, line.live.graph(), error);
            drop(line);
            Err(refusal)
        }
    }
}
