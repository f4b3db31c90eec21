//! Segment loops: the cards of each loop go back round the stages of a part of a path.
ghost use Rattle.std.specs.Prelude.{◌≡◌, ◌<◌, length, IfOk};
ghost use Rattle.plant_model.specs.Graph.{arcs_of, loop_row, loop_rows};
ghost use Rattle.plant_model.specs.Sound.{IsSound, IsSoundLoop};

use line_base::Arc;
use plant_model::{CardLoop, Layout, Plant};
use std::alloc::{AllocError, Global};

/// The arcs of the loops' cards, one a loop in order: from the station that takes the parts of its last stage to the
/// release of its first stage, with the cards that the starting stock of its stages leaves free.
pub fn arcs(alloc: Global, plant: &Plant) -> Result<Vec<Arc>, AllocError>
    requires { IsSound plant.now }
    ensures { IfOk result (λ arcs. arcs.items ≡ arcs_of (loop_rows plant.now)) }
{
    let layout = Layout::of(alloc, plant)?;
    let mut arcs = Vec::with_capacity(alloc, plant.loops.len())?;
    for card_loop in plant.loops.as_slice() {
        arcs.push(loop_arc(&layout, card_loop))?;
    }
    Ok(arcs)
}

/// The arc of a loop's cards.
fn loop_arc(layout: &Layout, card_loop: &CardLoop) -> Arc
    requires sound { IsSoundLoop layout.now card_loop.now }
    requires last { card_loop.now.last < length layout.now.stages }
    ensures { result ≡ (loop_row layout.now card_loop.now).arc }
{
    Arc {
        from: layout.receiver(card_loop.last),
        to: layout.release(card_loop.first),
        tokens: card_loop.cards - layout.stock_between(card_loop.first, card_loop.last),
        worked: false,
    }
}
