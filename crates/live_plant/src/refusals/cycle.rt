ghost use Rattle.std.specs.Prelude.{◌≡◌, ◌⊎◌};
ghost use Rattle.live_plant.specs.Refusals.{cycle_refusal, NamesStation};

use crate::refusals::Refusal;
use cycle_time::CycleError;
use event_graph::Graph;
use line_base::Items;
use std::alloc::Global;

/// The refusal of a graph that has no cycle time. The station goes by its label.
pub fn cycle_refusal(alloc: Global, graph: &Graph, error: CycleError) -> Refusal
    requires { NamesStation graph.now error }
    ensures { (result ≡ Refusal.NoMemory) ⊎ (result ≡ cycle_refusal graph.now error) }
{
    match error {
        CycleError::Varying { station } => match Vec::from_slice(alloc, graph.label(station)) {
            Ok(label) => Refusal::Varying {
                label: Items::from_vec(label),
            },
            Err(_) => Refusal::NoMemory,
        },
        CycleError::NoMemory => Refusal::NoMemory,
    }
}
