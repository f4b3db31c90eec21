ghost use Rattle.std.specs.Prelude.{◌≡◌, ◌*◌, ◌<◌, length, slice_index, IfOk};
ghost use Rattle.cycle_time.specs.Search.{gain, loss, IsModest, AreWeights};
ghost use Rattle.event_graph.specs.Network.{arc_count};

use crate::circuit::time_on;
use event_graph::Graph;
use std::alloc::{AllocError, Global};
use std::marker::Model;

/// What arcs count for in a search.
#[derive(Clone, Copy)]
pub enum Weighing {
    /// One each, so that every circuit counts.
    PerArc,
    /// The cards times their job times and delays, less the time times their tokens.
    AtRatio { time: u64, cards: u64 },
}

/// What each arc adds to a walk, and what it takes away.
#[derive(Drop)]
pub struct Weights {
    weighing: Weighing,
    gains: Vec<u64>,
    losses: Vec<u64>,
}

impl Model for Weights {
    ghost use Rattle.cycle_time.specs.Search.{Weighed};

    ghost Value = { Weighed };

    ghost view = { λ w. record { weighing = w.weighing; gained = w.gains.items; lost = w.losses.items } };
}

/// What arc `a` adds to a walk, and what it takes away.
#[tactic(auto, unfolding(crate::specs::Search::gain, crate::specs::Search::loss))]
fn weights_of(graph: &Graph, weighing: Weighing, a: u32) -> (u64, u64)
    requires exists { a < arc_count graph.now }
    requires modest { IsModest weighing }
    ensures gain { result.0 ≡ gain graph.now weighing a }
    ensures loss { result.1 ≡ loss graph.now weighing a }
{
    match weighing {
        Weighing::PerArc => (1, 0),
        Weighing::AtRatio { time, cards } => {
            (cards * time_on(graph, a), time * u64::from(graph.tokens(a)))
        }
    }
}

impl Weights {
    /// The weights of the arcs.
    pub fn of(alloc: Global, graph: &Graph, weighing: Weighing) -> Result<Weights, AllocError>
        requires { IsModest weighing }
        ensures weights { IfOk result (AreWeights graph.now) }
        ensures weighing { IfOk result (λ weights. weights.weighing ≡ weighing) }
    {
        let arcs = graph.arcs().len();
        let mut gains = Vec::with_capacity(alloc, arcs)?;
        let mut losses = Vec::with_capacity(alloc, arcs)?;
        for a in 0..arcs as u32 {
            let (gain, loss) = weights_of(graph, weighing, a);
            gains.push_reserved(gain);
            losses.push_reserved(loss);
        }
        Ok(Weights {
            weighing,
            gains,
            losses,
        })
    }

    /// What arc `a` adds.
    pub fn gain(&self, a: u32) -> u64
        requires { a < length self.now.gained }
        ensures { result ≡ slice_index self.now.gained a }
    {
        self.gains[a as usize]
    }

    /// What arc `a` takes away.
    pub fn loss(&self, a: u32) -> u64
        requires { a < length self.now.lost }
        ensures { result ≡ slice_index self.now.lost a }
    {
        self.losses[a as usize]
    }
}
