//! Extended kanban: each demand goes to every stage at once, and each stage has cards of its own.
ghost use Rattle.std.specs.Prelude.{◌≡◌, IfOk};
ghost use Rattle.plant_model.specs.Graph.{arcs_of, extended_rows};
ghost use Rattle.plant_model.specs.Sound.{IsSound};

use crate::base_stock::demand_arc;
use crate::kanban::card_arc;
use line_base::Arc;
use plant_model::{Layout, Plant, Policy};
use std::alloc::{AllocError, Global};

/// The arcs of the demands and of the cards, two a stage in order: from the feed to the stage's release, without a
/// token, then from the station that takes the stage's parts to the release, with the cards that the starting stock
/// leaves free (Dallery and Liberopoulos 2000).
pub fn arcs(alloc: Global, plant: &Plant) -> Result<Vec<Arc>, AllocError>
    requires sound { IsSound plant.now }
    requires policy { plant.now.policy ≡ Policy.Extended }
    ensures { IfOk result (λ arcs. arcs.items ≡ arcs_of (extended_rows plant.now)) }
{
    let layout = Layout::of(alloc, plant)?;
    let mut arcs = Vec::with_capacity(alloc, 2 * layout.stages() as usize)?;
    for (number, stage) in plant.stages.as_slice().iter().enumerate() {
        let number = number as u32;
        arcs.push(demand_arc(&layout, number))?;
        let free = stage.cards - layout.starting(number);
        arcs.push(card_arc(&layout, number, free))?;
    }
    Ok(arcs)
}
