//! The arcs, as the pass from the last date to the first looks at them.
ghost use Rattle.std.specs.Prelude.{◌≡◌, ◌+◌, ◌<◌, ◌≤◌, IfOk};
ghost use Rattle.event_graph.specs.Network.{arc_count, jobs, delay};
ghost use Rattle.event_graph.specs.Term.{work};
ghost use Rattle.latest_dates.specs.ArcBounds.{AddsToAll, IsBoundOf, AreBoundsOf};

use event_graph::Graph;
use std::alloc::{AllocError, Global};

/// How an arc bounds the dates at its start, by the latest dates of the station that it enters.
#[derive(Clone, Copy)]
pub struct ArcBound {
    /// The index of the latest date of job 1 at the station that the arc enters.
    pub first: usize,
    /// How many tokens the arc holds at the start.
    pub tokens: u32,
    /// What the arc adds to each date, its delay and the time where it is worked, if that is the same for all jobs.
    pub added: Option<u64>,
}

/// What arc `a` adds for job `n`: its delay, and the time where it is worked.
fn time_added(graph: &Graph, a: u32, n: u32) -> u64
    requires arc { a < arc_count graph.now }
    requires from_one { 1 ≤ n }
    requires job { n ≤ jobs graph.now }
    ensures { result ≡ delay graph.now a + work graph.now a n }
{
    graph.delay(a) + graph.work(a, n)
}

/// What arc `a` adds to each date, if that is the same for all jobs.
fn added_to_all(graph: &Graph, a: u32) -> Option<u64>
    requires { a < arc_count graph.now }
    ensures { AddsToAll graph.now a result }
{
    if graph.varies(graph.arc(a).to) {
        return None;
    }
    Some(time_added(graph, a, 1))
}

/// How arc `a` bounds the dates at its start.
fn arc_bound(graph: &Graph, a: u32) -> ArcBound
    requires { a < arc_count graph.now }
    ensures { IsBoundOf graph.now a result }
{
    let arc = graph.arc(a);
    ArcBound {
        first: arc.to as usize * graph.jobs() as usize,
        tokens: arc.tokens,
        added: added_to_all(graph, a),
    }
}

/// How each arc bounds the dates at its start. It takes memory for the arcs alone.
pub fn arc_bounds(alloc: Global, graph: &Graph) -> Result<Vec<ArcBound>, AllocError>
    ensures { IfOk result (λ bounds. AreBoundsOf graph.now bounds.items) }
{
    let mut bounds = Vec::new(alloc);
    for a in 0..graph.arcs().len() as u32 {
        bounds.push(arc_bound(graph, a))?;
    }
    Ok(bounds)
}

/// What arc `a` adds for job `n`, where this is what it adds to each date, if that is the same for all jobs.
pub fn added_time(graph: &Graph, to_all: Option<u64>, a: u32, n: u32) -> u64
    requires arc { a < arc_count graph.now }
    requires from_one { 1 ≤ n }
    requires job { n ≤ jobs graph.now }
    requires to_all { AddsToAll graph.now a to_all }
    ensures { result ≡ delay graph.now a + work graph.now a n }
{
    match to_all {
        Some(added) => added,
        None => time_added(graph, a, n),
    }
}
