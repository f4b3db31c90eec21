//! Kanban: the cards of each stage go back to its release as a part leaves the stage.
ghost use Rattle.std.specs.Prelude.{◌≡◌, ◌<◌, length, IfOk};
ghost use Rattle.plant_model.specs.Graph.{arcs_of, card_row, kanban_rows};
ghost use Rattle.plant_model.specs.Sound.{IsSound};

use line_base::Arc;
use plant_model::{Layout, Plant};
use std::alloc::{AllocError, Global};

/// The arcs of the cards, one a stage in order: from the station that takes the stage's parts to the stage's release.
/// They hold no token, since all cards lie with the starting stock (Dallery and Liberopoulos 2000).
pub fn arcs(alloc: Global, plant: &Plant) -> Result<Vec<Arc>, AllocError>
    requires sound { IsSound plant.now }
    ensures { IfOk result (λ arcs. arcs.items ≡ arcs_of (kanban_rows plant.now)) }
{
    let layout = Layout::of(alloc, plant)?;
    let mut arcs = Vec::with_capacity(alloc, layout.stages() as usize)?;
    for stage in 0..layout.stages() {
        arcs.push(card_arc(&layout, stage, 0))?;
    }
    Ok(arcs)
}

/// The arc of the cards of a stage, of which this many are free at the start.
pub(crate) fn card_arc(layout: &Layout, stage: u32, free: u32) -> Arc
    requires { stage < length layout.now.stages }
    ensures { result ≡ (card_row layout.now free stage).arc }
{
    Arc {
        from: layout.receiver(stage),
        to: layout.release(stage),
        tokens: free,
        worked: false,
    }
}
