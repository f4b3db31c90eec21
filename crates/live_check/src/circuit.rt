ghost use Rattle.std.specs.Prelude.{◌≡◌, ◌<◌, ◌≤◌, length, drop, slice_index, IfOk};
ghost use Rattle.event_graph.specs.Network.{stations};
ghost use Rattle.live_check.specs.DeadCircuit.{IsDeadCircuit, IsStuck, LeadsOn};

use event_graph::Graph;
use std::alloc::{AllocError, Global};

/// The first arc without a token from station `t`, which has no rank, to another station without a rank.
fn arc_on(graph: &Graph, ranks: &[u32], t: u32) -> u32
    requires station { t < stations graph.now }
    requires one_for_each { length ranks.now ≡ stations graph.now }
    requires stuck { IsStuck graph.now ranks.now }
    requires unranked { stations graph.now ≤ slice_index ranks.now t }
    ensures { LeadsOn graph.now ranks.now t result }
{
    let stations = graph.stations();
    let arcs = graph.arcs();
    let outs = graph.outs(t);
    for a in outs {
        let arc = arcs[*a as usize];
        if arc.tokens == 0 && ranks[arc.to as usize] >= stations {
            return *a;
        }
    }
    unreachable!()
}

/// The elements from index `start` on.
fn rest_of(alloc: Global, elements: &[u32], start: usize) -> Result<Vec<u32>, AllocError>
    requires { start ≤ length elements.now }
    ensures { IfOk result (λ rest. rest.items ≡ drop start elements.now) }
{
    Vec::from_slice(alloc, &elements[start..])
}

/// A circuit without a token, in order along its arcs. It is found by a walk from a station without a rank that always
/// takes the first arc without a token to another such station, until it reaches a station that it left before.
pub fn dead_circuit(
    alloc: Global,
    graph: &Graph,
    ranks: &[u32],
    start: u32,
) -> Result<Vec<u32>, AllocError>
    requires station { start < stations graph.now }
    requires one_for_each { length ranks.now ≡ stations graph.now }
    requires stuck { IsStuck graph.now ranks.now }
    requires unranked { stations graph.now ≤ slice_index ranks.now start }
    ensures { IfOk result (λ arcs. IsDeadCircuit graph.now arcs.items) }
{
    let stations = graph.stations();
    let mut left = vec![in alloc; stations; stations as usize]?;
    let mut path = Vec::with_capacity(alloc, stations as usize)?;
    let mut at = start;
    while left[at as usize] == stations {
        left[at as usize] = path.len() as u32;
        let a = arc_on(graph, ranks, at);
        path.push_reserved(a);
        at = graph.arc(a).to;
    }
    rest_of(alloc, &path, left[at as usize] as usize)
}
