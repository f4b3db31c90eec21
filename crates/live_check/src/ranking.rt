ghost use Rattle.std.specs.Prelude.{◌≡◌, ◌+◌, ◌-◌, ◌^◌, ◌<◌, ◌≤◌, [], length, slice_index, reverse, map, IfOk, OnOk, MatchOption};
ghost use Rattle.event_graph.specs.Limits.{IsWithinLimits};
ghost use Rattle.event_graph.specs.Network.{IsGraph, stations, arc_count};
ghost use Rattle.live_check.specs.Ranking.{Ranks, with_next, with_release, CountsFree, IsPassed, NoneIsReady, IsComplete, AllRanked, IsUnranked, from_end};

use event_graph::Graph;
use std::alloc::{AllocError, Global};
use std::marker::Model;

/// An order of the stations in the making, from the last one on. A station gets the next rank once all stations to
/// which an arc without a token leads from it were passed.
#[derive(Drop)]
pub struct Ranking {
    waiting: Vec<u32>,
    ranks: Vec<u32>,
    order: Vec<u32>,
}

impl Model for Ranking {
    ghost use Rattle.std.specs.Prelude.{◌≤◌, ◌<◌, ◌^◌, length, vec_capacity};
    ghost use Rattle.live_check.specs.Ranking.{Ranks};

    ghost Value = { Ranks };

    ghost view = { λ r. record { waiting = r.waiting.items; ranks = r.ranks.items; order = r.order.items } };

    ghost invariant = { λ r. (length r.ranks.items ≤ vec_capacity r.order) × (length r.ranks.items < 2 ^ 32) };
}

/// For each station how many arcs without a token lead out of it.
fn count_free(alloc: Global, graph: &Graph) -> Result<Vec<u32>, AllocError>
    ensures { IfOk result (λ counts. CountsFree graph.now counts.items (arc_count graph.now)) }
{
    let mut counts = vec![in alloc; 0; graph.stations() as usize]?;
    let arcs = graph.arcs();
    for arc in arcs {
        if arc.tokens == 0 {
            counts[arc.from as usize] += 1;
        }
    }
    Ok(counts)
}

/// Makes each rank the rank that is as far from the other end.
fn turn_round(ranks: &mut Vec<u32>)
    requires ranked { AllRanked ranks.old.items }
    requires few { length ranks.old.items < 2 ^ 32 }
    ensures { ranks.new.items ≡ map (from_end (length ranks.old.items)) ranks.old.items }
{
    let stations = ranks.len();
    for rank in ranks.iter_mut() {
        *rank = (stations - 1 - *rank as usize) as u32;
    }
}

impl Ranking {
    /// The ranking of a graph, with as many stations ranked as can be.
    pub fn of(alloc: Global, graph: &Graph) -> Result<Ranking, AllocError>
        ensures { IfOk result (IsComplete graph.now) }
    {
        let mut ranking = Ranking::new(alloc, graph)?;
        ranking.rank_idle(graph);
        ranking.pass_all(graph);
        Ok(ranking)
    }

    /// No station has a rank yet.
    fn new(alloc: Global, graph: &Graph) -> Result<Ranking, AllocError>
        ensures passed { IfOk result (λ r. IsPassed graph.now r 0) }
        ensures none { IfOk result (λ r. r.order ≡ []) }
        ensures sound { OnOk result (IsGraph graph.now) }
        ensures limits { OnOk result (IsWithinLimits graph.now) }
    {
        let stations = graph.stations();
        let waiting = count_free(alloc, graph)?;
        let ranks = vec![in alloc; stations; stations as usize]?;
        let order = Vec::with_capacity(alloc, stations as usize)?;
        Ok(Ranking {
            waiting,
            ranks,
            order,
        })
    }

    /// Ranks each station that waits for no arc.
    fn rank_idle(&mut self, graph: &Graph)
        requires passed { IsPassed graph.now self.old 0 }
        requires none { self.old.order ≡ [] }
        ensures passed { IsPassed graph.now self.new 0 }
        ensures ready { NoneIsReady graph.now self.new (stations graph.now) }
    {
        for t in 0..graph.stations() {
            if self.waiting[t as usize] == 0 {
                self.rank_next(t);
            }
        }
    }

    /// Passes the ranked stations, and those that get a rank on the way.
    fn pass_all(&mut self, graph: &Graph)
        requires passed { IsPassed graph.now self.old 0 }
        requires ready { NoneIsReady graph.now self.old (stations graph.now) }
        ensures passed { IsPassed graph.now self.new (length self.new.order) }
        ensures ready { NoneIsReady graph.now self.new (stations graph.now) }
    {
        let mut rank = 0;
        while rank < self.order.len() {
            self.pass(graph, rank);
            rank += 1;
        }
    }

    /// Passes the station of this rank: no station waits any longer for the arcs into it.
    fn pass(&mut self, graph: &Graph, rank: usize)
        requires exists { rank < length self.old.order }
        requires passed { IsPassed graph.now self.old rank }
        requires ready { NoneIsReady graph.now self.old (stations graph.now) }
        ensures passed { IsPassed graph.now self.new (rank + 1) }
        ensures ready { NoneIsReady graph.now self.new (stations graph.now) }
    {
        let ins = graph.ins(self.order[rank]);
        let arcs = graph.arcs();
        for a in ins {
            let arc = arcs[*a as usize];
            if arc.tokens == 0 {
                self.release(arc.from);
            }
        }
    }

    /// Gives the next rank to station `t`.
    fn rank_next(&mut self, t: u32)
        requires station { t < length self.old.ranks }
        requires room { length self.old.order < length self.old.ranks }
        ensures { self.new ≡ with_next self.old t }
    {
        self.ranks[t as usize] = self.order.len() as u32;
        self.order.push_reserved(t);
    }

    /// Passes one arc without a token out of station `t`, which gets the next rank if that was the last one.
    fn release(&mut self, t: u32)
        requires waits { t < length self.old.waiting }
        requires station { t < length self.old.ranks }
        requires some { 0 < slice_index self.old.waiting t }
        requires room { length self.old.order < length self.old.ranks }
        ensures { self.new ≡ with_release self.old t }
    {
        let waiting = self.waiting[t as usize] - 1;
        self.waiting[t as usize] = waiting;
        if waiting == 0 {
            self.rank_next(t);
        }
    }

    /// The first station that has no rank.
    pub fn first_unranked(&self) -> Option<u32>
        ensures { MatchOption result (AllRanked self.now.ranks) (IsUnranked self.now.ranks) }
    {
        let stations = self.ranks.len();
        for (t, rank) in self.ranks.iter().enumerate() {
            if *rank as usize >= stations {
                return Some(t as u32);
            }
        }
        None
    }

    /// The ranks.
    pub fn ranks(&self) -> &[u32]
        ensures { result.now ≡ self.now.ranks }
    {
        self.ranks.as_slice()
    }

    /// The rank of each station, counted from the other end than its rank, and the stations by rank.
    pub fn into_order(self) -> (Vec<u32>, Vec<u32>)
        requires { AllRanked self.ranks }
        ensures ranks { result.0.items ≡ map (from_end (length self.ranks)) self.ranks }
        ensures order { result.1.items ≡ reverse self.order }
    {
        let mut ranks = self.ranks;
        let mut order = self.order;
        turn_round(&mut ranks);
        order.reverse();
        (ranks, order)
    }
}
