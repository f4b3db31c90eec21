//! CONWIP: the cards of the line go from the delivery back to the releases of the first stages.
ghost use Rattle.std.specs.Prelude.{◌≡◌, ◌-◌, ◌<◌, ◌≤◌, ℕ, length, IfOk};
ghost use Rattle.plant_model.specs.Graph.{arcs_of, line_card_row, conwip_rows};
ghost use Rattle.plant_model.specs.Line.{line_cards, path_stock};
ghost use Rattle.plant_model.specs.Sound.{IsSound};

use line_base::Arc;
use plant_model::{Layout, Plant, Policy};
use std::alloc::{AllocError, Global};

/// The arcs of the line's cards, one a first stage in order: from the delivery to the stage's release, with the cards
/// that the starting stock on its path leaves free.
pub fn arcs(alloc: Global, plant: &Plant) -> Result<Vec<Arc>, AllocError>
    requires sound { IsSound plant.now }
    requires policy { (cards : ℕ) × (plant.now.policy ≡ Policy.Conwip cards) }
    ensures { IfOk result (λ arcs. arcs.items ≡ arcs_of (conwip_rows plant.now)) }
{
    let Policy::Conwip(cards) = plant.policy else {
        unreachable!();
    };
    let layout = Layout::of(alloc, plant)?;
    let mut arcs = Vec::with_capacity(alloc, layout.stages() as usize)?;
    for stage in 0..layout.stages() {
        if layout.is_first(stage) {
            arcs.push(line_card_arc(&layout, stage, cards))?;
        }
    }
    Ok(arcs)
}

/// The arc of the line's cards, of which there are this many, to a first stage.
fn line_card_arc(layout: &Layout, stage: u32, cards: u32) -> Arc
    requires stage { stage < length layout.now.stages }
    requires cards { cards ≡ line_cards layout.now.policy }
    requires enough { path_stock layout.now stage ≤ cards }
    ensures { result ≡ (line_card_row layout.now stage).arc }
{
    Arc {
        from: layout.deliver(),
        to: layout.release(stage),
        tokens: cards - layout.path_stock(stage),
        worked: false,
    }
}
