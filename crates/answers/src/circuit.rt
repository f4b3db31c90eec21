//! The stations of a circuit, from the one with the least number on.
ghost use Rattle.std.specs.List.{flat_map};
ghost use Rattle.std.specs.Prelude.{◌≡◌, ◌<◌, ◌++◌, All, OnOk};
ghost use Rattle.answers.specs.CycleText.{spaced_label, AreStationsAdded};
ghost use Rattle.event_graph.specs.Network.{stations, arc_count};

use event_graph::Graph;
use line_graph::circuit_stations;
use std::alloc::{AllocError, Global};

/// Adds the labels of the stations of a circuit, from the one with the least number on, each with a space before it.
pub fn add_circuit_stations(
    alloc: Global,
    text: &mut Vec<u8>,
    graph: &Graph,
    arcs: &[u32],
) -> Result<(), AllocError>
    requires { All (λ a. a < arc_count graph.now) arcs.now }
    ensures { OnOk result (AreStationsAdded graph.now arcs.now text.old.items text.new.items) }
{
    let stations = circuit_stations(alloc, graph, arcs)?;
    add_stations(text, graph, stations.as_slice())
}

/// Adds the labels of some stations, each with a space before it.
fn add_stations(text: &mut Vec<u8>, graph: &Graph, list: &[u32]) -> Result<(), AllocError>
    requires { All (λ t. t < stations graph.now) list.now }
    ensures { OnOk result (text.new.items ≡ text.old.items ++ flat_map (spaced_label graph.now) list.now) }
{
    for t in list {
        text.push(b' ')?;
        text.extend_from_slice(graph.label(*t))?;
    }
    Ok(())
}
