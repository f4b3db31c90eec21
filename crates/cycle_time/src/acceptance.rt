ghost use Rattle.std.specs.Prelude.{◌≡◌, ◌≤◌, ◌<◌, IsTrue, ◌↔◌, neg_ℤ, pos, ◌≤ℤ◌, ◌+ℤ◌};
ghost use Rattle.cycle_time.specs.Certificate.{HasRatio, IsIdle, IsCertificate, HasNoGreaterRatio, NoneVaries, IsSmall, most_ratio_time, most_ratio_cards, most_potential, most_weight};
ghost use Rattle.cycle_time.specs.Weight.{weight, ArePotentials};
ghost use Rattle.event_graph.specs.Network.{arc_count};

use crate::certificate::Certificate;
use crate::circuit::{is_circuit, time_of, time_on, tokens_of};
use event_graph::Graph;
use live_check::Live;

/// Whether the circuit is one with this ratio, and holds a token.
fn has_ratio(graph: &Graph, given: &Certificate) -> bool
    requires { IsSmall graph.now given.now }
    ensures { IsTrue result ↔ HasRatio graph.now given.now.time given.now.cards given.now.circuit }
{
    let arcs = given.circuit.as_slice();
    let time = u128::from(time_of(graph, arcs));
    let tokens = u128::from(tokens_of(graph, arcs));
    is_circuit(graph, arcs)
        && tokens >= 1
        && time * u128::from(given.cards) == tokens * u128::from(given.time)
}

/// Whether there is no circuit, and the time is 0.
fn is_idle(given: &Certificate) -> bool
    ensures { IsTrue result ↔ IsIdle given.now.time given.now.circuit }
{
    given.circuit.is_empty() && given.time == 0
}

/// What arc `a` weighs at a ratio of time to cards.
fn weight_of(graph: &Graph, time: u64, cards: u64, a: u32) -> i128
    requires exists { a < arc_count graph.now }
    requires time { time ≤ most_ratio_time }
    requires cards { cards ≤ most_ratio_cards }
    ensures weight { result ≡ weight graph.now time cards a }
    ensures low { neg_ℤ (pos most_weight) ≤ℤ result }
    ensures high { result ≤ℤ pos most_weight }
{
    let gain = u128::from(cards) * u128::from(time_on(graph, a));
    let loss = u128::from(time) * u128::from(graph.tokens(a));
    gain as i128 - loss as i128
}

/// Whether the potential at the start of an arc and the arc's weight are together at most the one at its end.
fn is_covered(start: i128, weight: i128, end: i128) -> bool
    requires start_low { neg_ℤ (pos most_potential) ≤ℤ start }
    requires start_high { start ≤ℤ pos most_potential }
    requires weight_low { neg_ℤ (pos most_weight) ≤ℤ weight }
    requires weight_high { weight ≤ℤ pos most_weight }
    ensures { IsTrue result ↔ ((start +ℤ weight) ≤ℤ end) }
{
    start + weight <= end
}

/// Whether no arc leads to a station whose potential is below that of its start and the arc's weight together.
fn are_potentials(graph: &Graph, given: &Certificate) -> bool
    requires { IsSmall graph.now given.now }
    ensures { IsTrue result ↔
        ArePotentials graph.now given.now.time given.now.cards given.now.potentials }
{
    let potentials = given.potentials.as_slice();
    for (a, arc) in graph.arcs().iter().enumerate() {
        let weight = weight_of(graph, given.time, given.cards, a as u32);
        if !is_covered(
            potentials[arc.from as usize],
            weight,
            potentials[arc.to as usize],
        ) {
            return false;
        }
    }
    true
}

/// Whether what is given is a certificate: a circuit of the ratio, and potentials which show that no circuit has a
/// greater one. It takes no memory. It doesn't test that the ratio is in lowest terms, nor that a potential is the
/// least that will do.
pub fn accept(live: &Live, given: &Certificate) -> bool
    requires fixed { NoneVaries live.now.graph }
    requires small { IsSmall live.now.graph given.now }
    ensures exact { IsTrue result ↔ IsCertificate live.now.graph given.now }
    ensures greatest { IsTrue result →
        HasNoGreaterRatio live.now.graph given.now.time given.now.cards }
{
    let graph = live.graph();
    given.cards >= 1 && (has_ratio(graph, given) || is_idle(given)) && are_potentials(graph, given)
}
