ghost use Rattle.std.specs.Prelude.{◌<◌, IfOk};
ghost use Rattle.cycle_time.specs.Search.{IsModest, Finds};
ghost use Rattle.event_graph.specs.Network.{stations};

use crate::tree::{Sweep, Tree};
use crate::weights::{Weighing, Weights};
use live_check::Live;
use std::alloc::{AllocError, Global};

/// What a search finds.
#[derive(Drop)]
pub enum Found {
    /// The arcs of a circuit that gains more than it loses, in order.
    Circuit(Vec<u32>),
    /// The potentials at which no arc gives more, since there is no such circuit.
    Potentials(Vec<u128>),
}

/// Looks for the greatest potentials, or for a circuit that gains more than it loses. It passes over the stations up
/// and down by turns, at most as many times as there are stations.
///
/// Source of the rule: the method of Bellman and Ford for longest walks.
pub fn search(alloc: Global, live: &Live, weighing: Weighing) -> Result<Found, AllocError>
    requires { IsModest weighing }
    ensures { IfOk result (Finds live.now.graph weighing) }
{
    let graph = live.graph();
    let weights = Weights::of(alloc, graph, weighing)?;
    let mut tree = Tree::new(alloc, graph)?;
    for turn in 0..graph.stations() {
        let sweep = if turn % 2 == 0 {
            Sweep::Up
        } else {
            Sweep::Down
        };
        let Some(raised) = tree.pass(graph, &weights, sweep) else {
            return Ok(Found::Potentials(tree.into_potentials()));
        };
        if let Some(circuit) = tree.circuit_behind(alloc, graph, raised)? {
            return Ok(Found::Circuit(circuit));
        }
    }
    unreachable!()
}
