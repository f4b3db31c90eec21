ghost use Rattle.std.specs.Prelude.{◌≡◌, ◌<◌, ◌≤◌, length, slice_index, All, IfOk};
ghost use Rattle.event_graph.specs.Circuit.{starting_stations};
ghost use Rattle.event_graph.specs.Network.{stations, arc_count};
ghost use Rattle.line_graph.specs.Turned.{IsTurned};

use event_graph::Graph;
use std::alloc::{AllocError, Global};

/// The stations at which the arcs of a circuit start, in their order, from the one with the least number on.
pub fn circuit_stations(alloc: Global, graph: &Graph, arcs: &[u32]) -> Result<Vec<u32>, AllocError>
    requires { All (λ a. a < arc_count graph.now) arcs.now }
    ensures turned { IfOk result
        (λ list. IsTurned (starting_stations graph.now arcs.now) list.items) }
    ensures exist { IfOk result (λ list. All (λ t. t < stations graph.now) list.items) }
{
    let mut stations = stations_along(alloc, graph, arcs)?;
    let least = index_of_least(stations.as_slice());
    stations.rotate_left(least);
    Ok(stations)
}

/// The station at which each arc starts.
fn stations_along(alloc: Global, graph: &Graph, arcs: &[u32]) -> Result<Vec<u32>, AllocError>
    requires { All (λ a. a < arc_count graph.now) arcs.now }
    ensures along { IfOk result (λ list. list.items ≡ starting_stations graph.now arcs.now) }
    ensures exist { IfOk result (λ list. All (λ t. t < stations graph.now) list.items) }
{
    let mut stations = Vec::with_capacity(alloc, arcs.len())?;
    for a in arcs {
        stations.push(graph.arc(*a).from)?;
    }
    Ok(stations)
}

/// The index of the first least number, and 0 where there is none.
fn index_of_least(numbers: &[u32]) -> usize
    ensures within { result ≤ length numbers.now }
    ensures inside { 0 < length numbers.now → result < length numbers.now }
    ensures least { All (λ n. slice_index numbers.now result ≤ n) numbers.now }
{
    let mut least = 0;
    for (index, number) in numbers.iter().enumerate() {
        if *number < numbers[least] {
            least = index;
        }
    }
    least
}
