ghost use Rattle.std.specs.List.{Contains};
ghost use Rattle.std.specs.Prelude.{◌≡◌, ◌≢◌, ◌+◌, ◌*◌, ◌<◌, ◌≤◌, length, All, AllPairs, IsTrue, ◌↔◌};
ghost use Rattle.cycle_time.specs.Ratio.{IsRatio};
ghost use Rattle.event_graph.specs.Circuit.{IsWalk, IsCircuit, starting_stations, tokens_on, time_along};
ghost use Rattle.event_graph.specs.Live.{IsLive};
ghost use Rattle.event_graph.specs.Network.{arc_count, delay};
ghost use Rattle.event_graph.specs.Term.{work};
ghost use Rattle.line_base.specs.Limits.{most_stations};

use crate::ratio::{Ratio, gcd};
use event_graph::Graph;

/// Whether the arcs lead from this station, one after the other, back to it.
fn lead_back(graph: &Graph, arcs: &[u32], start: u32) -> bool
    requires { All (λ a. a < arc_count graph.now) arcs.now }
    ensures { IsTrue result ↔ IsWalk graph.now start arcs.now start }
{
    let all = graph.arcs();
    let mut at = start;
    for a in arcs {
        let arc = all[*a as usize];
        if arc.from != at {
            return false;
        }
        at = arc.to;
    }
    at == start
}

/// Whether one of the arcs starts at this station.
fn leave(graph: &Graph, arcs: &[u32], station: u32) -> bool
    requires { All (λ a. a < arc_count graph.now) arcs.now }
    ensures { IsTrue result ↔ Contains (starting_stations graph.now arcs.now) station }
{
    let all = graph.arcs();
    for a in arcs {
        if all[*a as usize].from == station {
            return true;
        }
    }
    false
}

/// Whether no two of the arcs start at the same station.
fn leave_distinct(graph: &Graph, arcs: &[u32]) -> bool
    requires { All (λ a. a < arc_count graph.now) arcs.now }
    ensures { IsTrue result ↔ AllPairs (λ t u. t ≢ u) (starting_stations graph.now arcs.now) }
{
    let all = graph.arcs();
    for (index, a) in arcs.iter().enumerate() {
        if leave(graph, &arcs[..index], all[*a as usize].from) {
            return false;
        }
    }
    true
}

/// Whether the arcs are a circuit: at least one, each from where the one before ends, the first from where the last
/// ends, through distinct stations.
pub fn is_circuit(graph: &Graph, arcs: &[u32]) -> bool
    requires { All (λ a. a < arc_count graph.now) arcs.now }
    ensures { IsTrue result ↔ IsCircuit graph.now arcs.now }
{
    let Some(first) = arcs.first() else {
        return false;
    };
    let start = graph.arc(*first).from;
    lead_back(graph, arcs, start) && leave_distinct(graph, arcs)
}

/// The job times and delays along the arcs, in the plant's unit.
pub fn time_of(graph: &Graph, arcs: &[u32]) -> u64
    requires exist { All (λ a. a < arc_count graph.now) arcs.now }
    requires few { length arcs.now ≤ most_stations }
    ensures time { result ≡ time_along graph.now arcs.now }
    ensures small { result ≤ length arcs.now * 2_000_000_000 }
{
    let mut time = 0;
    for a in arcs {
        time += time_on(graph, *a);
    }
    time
}

/// The job time and the delay of an arc, in the plant's unit.
pub fn time_on(graph: &Graph, a: u32) -> u64
    requires exists { a < arc_count graph.now }
    ensures time { result ≡ work graph.now a 1 + delay graph.now a }
    ensures small { result ≤ 2_000_000_000 }
{
    let delay = graph.delay(a);
    graph.work(a, 1) + delay
}

/// How many tokens the arcs hold at the start.
pub fn tokens_of(graph: &Graph, arcs: &[u32]) -> u64
    requires exist { All (λ a. a < arc_count graph.now) arcs.now }
    requires few { length arcs.now ≤ most_stations }
    ensures tokens { result ≡ tokens_on graph.now arcs.now }
    ensures small { result ≤ length arcs.now * 10_000 }
{
    let all = graph.arcs();
    let mut tokens = 0;
    for a in arcs {
        tokens += u64::from(all[*a as usize].tokens);
    }
    tokens
}

/// The ratio of a circuit of a live graph.
pub fn ratio_of(graph: &Graph, circuit: Vec<u32>) -> Ratio
    requires circuit { IsCircuit graph.now circuit.items }
    requires live { IsLive graph.now }
    requires few { length circuit.items ≤ most_stations }
    requires exist { All (λ a. a < arc_count graph.now) circuit.items }
    ensures kept { result.circuit.items ≡ circuit.items }
    ensures ratio { IsRatio graph.now result }
{
    let time = time_of(graph, &circuit);
    let tokens = tokens_of(graph, &circuit);
    let divisor = gcd(time, tokens);
    Ratio {
        time: time / divisor,
        cards: tokens / divisor,
        circuit,
    }
}
