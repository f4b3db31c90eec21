ghost use Rattle.std.specs.Prelude.{◌≡◌, ◌<◌, slice_index, IfOk, OnOk, IfErr};
ghost use Rattle.event_graph.specs.Live.{IsLive};
ghost use Rattle.event_graph.specs.Network.{stations};
ghost use Rattle.live_check.specs.NotLive.{HandsBack, ShowsDeadCircuit, SaysNotLive};
ghost use Rattle.live_check.specs.Order.{IsRanked};
ghost use Rattle.live_check.specs.Ranking.{IsComplete, AllRanked};

use crate::circuit::dead_circuit;
use crate::ranking::Ranking;
use event_graph::Graph;
use line_base::Items;
use std::alloc::Global;
use std::marker::Model;

/// A live graph with an order of its stations, in which every arc without a token goes upwards. Contracts see the
/// graph's parts and the rank of each station.
#[derive(Drop)]
pub struct Live {
    graph: Graph,
    ranks: Vec<u32>,
    order: Vec<u32>,
}

impl Model for Live {
    ghost use Rattle.live_check.specs.Order.{LiveGraph, IsOrdered};

    ghost Value = { LiveGraph };

    ghost view = { λ l. record { graph = l.graph; ranks = l.ranks.items } };

    ghost invariant = { λ l. IsOrdered l.graph l.ranks.items l.order.items };
}

/// Why a graph has no order of its stations. Both hand the graph back.
#[derive(Drop)]
pub enum NotLive {
    /// The graph isn't live: these arcs, in order, are a circuit that holds no token.
    Dead { graph: Graph, arcs: Items<u32> },
    /// Memory ran out.
    NoMemory { graph: Graph },
}

impl Live {
    /// The graph in the order of a ranking that has all stations.
    fn of(graph: Graph, ranking: Ranking) -> Live
        requires complete { IsComplete graph ranking }
        requires all { AllRanked ranking.ranks }
        ensures kept { result.graph ≡ graph }
        ensures ranked { IsRanked result }
    {
        let (ranks, order) = ranking.into_order();
        Live {
            graph,
            ranks,
            order,
        }
    }

    /// The graph.
    pub fn graph(&self) -> &Graph
        ensures graph { result.now ≡ self.now.graph }
        ensures ranked { IsRanked self.now }
    {
        &self.graph
    }

    /// The rank of station `t`. Ranks are counted from 0, and each station has one of its own.
    pub fn place_of(&self, t: u32) -> u32
        requires { t < stations self.now.graph }
        ensures rank { result ≡ slice_index self.now.ranks t }
        ensures below { result < stations self.now.graph }
        ensures ranked { IsRanked self.now }
    {
        self.ranks[t as usize]
    }

    /// The station at a rank.
    pub fn station_at(&self, rank: u32) -> u32
        requires { rank < stations self.now.graph }
        ensures rank { slice_index self.now.ranks result ≡ rank }
        ensures exists { result < stations self.now.graph }
        ensures ranked { IsRanked self.now }
    {
        self.order[rank as usize]
    }
}

/// Orders the stations of a live graph, in a time that grows with the number of stations and arcs alone. A graph that
/// isn't live is refused with one circuit that holds no token.
///
/// Source of the rule: Baccelli, Cohen, Olsder and Quadrat, Synchronization and Linearity, on liveness.
pub fn rank(alloc: Global, graph: Graph) -> Result<Live, NotLive>
    ensures kept { IfOk result (λ live. live.graph ≡ graph) }
    ensures ranked { IfOk result IsRanked }
    ensures live { OnOk result (IsLive graph) }

    // Both refusals hand the graph back. `Dead` comes only where the graph isn't live.
    ensures handed_back { IfErr result (HandsBack graph) }
    ensures not_live { IfErr result (SaysNotLive graph) }
    ensures dead_circuit { IfErr result (ShowsDeadCircuit graph) }
{
    let Ok(ranking) = Ranking::of(alloc, &graph) else {
        return Err(NotLive::NoMemory { graph });
    };
    let Some(start) = ranking.first_unranked() else {
        return Ok(Live::of(graph, ranking));
    };
    match dead_circuit(alloc, &graph, ranking.ranks(), start) {
        Ok(arcs) => {
            let arcs = Items::from_vec(arcs);
            Err(NotLive::Dead { graph, arcs })
        }
        Err(_) => Err(NotLive::NoMemory { graph }),
    }
}
