ghost use Rattle.std.specs.Prelude.{◌≡◌, ◌<◌, map, All, IfOk};
ghost use Rattle.event_graph.specs.Network.{stations, label};
ghost use Rattle.line_graph.specs.DeadLabels.{AreAlong, AreDead};
ghost use Rattle.live_check.specs.DeadCircuit.{IsDeadCircuit};

use crate::circuit::circuit_stations;
use event_graph::Graph;
use line_base::{Items, Label};
use std::alloc::{AllocError, Global};

/// The labels of the stations along this circuit without a token, in the order of its arcs, from the station with the
/// least number on.
pub fn dead_labels(alloc: Global, graph: &Graph, arcs: &[u32]) -> Result<Items<Label>, AllocError>
    requires { IsDeadCircuit graph.now arcs.now }
    ensures dead { IfOk result (AreDead graph.now) }
    ensures along { IfOk result (AreAlong graph.now arcs.now) }
{
    let stations = circuit_stations(alloc, graph, arcs)?;
    labels_of(alloc, graph, stations.as_slice())
}

/// The labels of some stations.
fn labels_of(alloc: Global, graph: &Graph, list: &[u32]) -> Result<Items<Label>, AllocError>
    requires { All (λ t. t < stations graph.now) list.now }
    ensures { IfOk result (λ labels. labels ≡ map (label graph.now) list.now) }
{
    let mut labels = Vec::with_capacity(alloc, list.len())?;
    for t in list {
        labels.push(Label::of(alloc, graph.label(*t))?)?;
    }
    Ok(Items::from_vec(labels))
}
