//! Base stock: each demand goes to every stage at once, and there are no cards.
ghost use Rattle.std.specs.Prelude.{◌≡◌, ◌<◌, length, IfOk};
ghost use Rattle.plant_model.specs.Graph.{arcs_of, demand_row, base_stock_rows};
ghost use Rattle.plant_model.specs.Sound.{IsSound};

use line_base::Arc;
use plant_model::{FEED, Layout, Plant};
use std::alloc::{AllocError, Global};

/// The arc on which demands come to a stage.
pub(crate) fn demand_arc(layout: &Layout, stage: u32) -> Arc
    requires { stage < length layout.now.stages }
    ensures { result ≡ (demand_row layout.now stage).arc }
{
    Arc {
        from: FEED,
        to: layout.release(stage),
        tokens: 0,
        worked: false,
    }
}

/// The arcs of the demands, one a stage in order: from the feed to the stage's release, without a token (Dallery and
/// Liberopoulos 2000).
pub fn arcs(alloc: Global, plant: &Plant) -> Result<Vec<Arc>, AllocError>
    requires sound { IsSound plant.now }
    ensures { IfOk result (λ arcs. arcs.items ≡ arcs_of (base_stock_rows plant.now)) }
{
    let layout = Layout::of(alloc, plant)?;
    let stages = layout.stages();
    let mut arcs = Vec::with_capacity(alloc, stages as usize)?;
    for stage in 0..stages {
        arcs.push(demand_arc(&layout, stage))?;
    }
    Ok(arcs)
}
