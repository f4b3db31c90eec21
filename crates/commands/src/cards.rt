//! What a live plant is asked of its cards: how few keep a wait, in all and stage by stage, and what each count gives.
ghost use Rattle.std.specs.Prelude.{◌≡◌, ◌⊎◌, Err};
ghost use Rattle.command_line.specs.Ranges.{AreCounts, AreWorkers};
ghost use Rattle.commands.specs.Answers.{IsCards, IsCardsEach, IsCurve};
ghost use Rattle.live_plant.specs.LivePlant.{IsLivePlant};

use answers::{Answer, Curve, cards_text, each_cards_text};
use card_sizing::{has_single_count, least_cards, least_each};
use live_plant::{LivePlant, Refusal};
use std::alloc::Global;

/// The least count of cards with which no job of a live plant waits longer.
pub(crate) fn cards(alloc: Global, line: &LivePlant, wait: u64) -> Result<Answer, Refusal>
    requires { IsLivePlant line.now }
    ensures { IsCards line.now.plant wait result ⊎ (result ≡ Err Refusal.NoMemory) }
{
    // called for its clause: the graph is that of the plant, and so live
    let _graph = line.live.graph();
    let sizing = least_cards(alloc, &line.plant, wait)?;
    let text = cards_text(alloc, &sizing)?;
    Ok(Answer::Text { text })
}

/// The least counts of cards, stage by stage, with which no job of a live plant waits longer.
pub(crate) fn cards_each(alloc: Global, line: &LivePlant, wait: u64) -> Result<Answer, Refusal>
    requires { IsLivePlant line.now }
    ensures { IsCardsEach line.now.plant wait result ⊎ (result ≡ Err Refusal.NoMemory) }
{
    // called for its clause: the graph is that of the plant, and so live
    let _graph = line.live.graph();
    let each = least_each(alloc, &line.plant, wait)?;
    let text = each_cards_text(alloc, &each)?;
    Ok(Answer::Text { text })
}

/// The curve of a live plant, from one count of cards to another.
pub(crate) fn curve(line: LivePlant, from: u32, to: u32, workers: u32) -> Result<Answer, Refusal>
    requires plant { IsLivePlant line }
    requires counts { AreCounts from to }
    requires workers { AreWorkers workers }
    ensures { IsCurve line.plant from to result }
{
    let LivePlant { plant, live } = line;
    drop(live);
    if !has_single_count(&plant) {
        drop(plant);
        return Err(Refusal::NoSingleCount);
    }
    let curve = Curve::new(plant, from, to, workers);
    Ok(Answer::Curved { curve })
}
