//! What the graph of a live plant is asked: how large it is, and its cycle time.
ghost use Rattle.std.specs.Prelude.{◌≡◌, ◌⊎◌, Err};
ghost use Rattle.commands.specs.Answers.{IsCheck, IsCycled};
ghost use Rattle.live_plant.specs.LivePlant.{IsLivePlant};

use answers::{Answer, check_text, cycle_text};
use cycle_time::cycle;
use live_plant::{LivePlant, Refusal, cycle_refusal};
use std::alloc::Global;

/// How large the graph of a live plant is, and its card circuits.
pub(crate) fn check(alloc: Global, line: &LivePlant) -> Result<Answer, Refusal>
    requires { IsLivePlant line.now }
    ensures { IsCheck line.now.plant result ⊎ (result ≡ Err Refusal.NoMemory) }
{
    let text = check_text(alloc, &line.plant, line.live.graph())?;
    Ok(Answer::Text { text })
}

/// The cycle time of a live plant, with its certificate.
pub(crate) fn cycle_of(alloc: Global, line: &LivePlant) -> Result<Answer, Refusal>
    requires { IsLivePlant line.now }
    ensures { IsCycled line.now.plant result ⊎ (result ≡ Err Refusal.NoMemory) }
{
    match cycle(alloc, &line.live) {
        Ok(certificate) => {
            let text = cycle_text(alloc, line.live.graph(), &certificate)?;
            Ok(Answer::Text { text })
        }
        Err(error) => Err(cycle_refusal(alloc, line.live.graph(), error)),
    }
}
