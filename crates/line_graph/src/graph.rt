ghost use Rattle.std.specs.Prelude.{◌≡◌, IfOk};
ghost use Rattle.event_graph.specs.Limits.{HasFewArcs};
ghost use Rattle.line_graph.specs.Labels.{HasLabels};
ghost use Rattle.plant_model.specs.Graph.{graph};
ghost use Rattle.plant_model.specs.Sound.{IsSound};

use crate::labels::station_labels;
use crate::rows::{Rows, line_rows};
use crate::times::station_times;
use event_graph::{Graph, GraphError};
use line_base::{Items, Parts};
use plant_model::Plant;
use std::alloc::{AllocError, Global};

/// The event graph of a plant. Its stations are the feed, each stage's release and machines, and the delivery; its arcs
/// are those of the stages in order, the demands of the delivery, the rows of the policy, and those of the loops
/// (Baccelli, Cohen, Olsder, Quadrat, Synchronization and Linearity; Dallery and Liberopoulos 2000 for the policies).
pub fn graph_of(alloc: Global, plant: &Plant) -> Result<Graph, AllocError>
    requires { IsSound plant.now }
    ensures graph { IfOk result (λ g. g ≡ graph plant.now) }
    ensures few_arcs { IfOk result HasFewArcs }
    ensures labels { IfOk result HasLabels }
{
    let parts = parts_of(alloc, plant)?;
    match Graph::build(alloc, parts) {
        Ok(graph) => Ok(graph),
        Err(error) => match error {
            GraphError::NoMemory => Err(AllocError),
            _ => unreachable!(),
        },
    }
}

/// The parts of a plant's graph.
fn parts_of(alloc: Global, plant: &Plant) -> Result<Parts, AllocError>
    requires { IsSound plant.now }
    ensures graph { IfOk result (λ parts. parts ≡ graph plant.now) }
    ensures labels { IfOk result HasLabels }
{
    let Rows { arcs, delays } = line_rows(alloc, plant)?;
    Ok(Parts {
        arcs: Items::from_vec(arcs),
        delays: Items::from_vec(delays),
        dates: plant.demands.copy(alloc)?,
        times: Items::from_vec(station_times(alloc, plant)?),
        labels: Items::from_vec(station_labels(alloc, plant)?),
    })
}
