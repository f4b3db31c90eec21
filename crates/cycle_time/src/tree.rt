ghost use Rattle.std.specs.Prelude.{◌≡◌, ℕ, ◌+◌, ◌*◌, ◌<◌, ◌≤◌, length, reverse, drop, All, IfOk, IfNone, IfSome, MatchBool, MatchOption};
ghost use Rattle.cycle_time.specs.Certificate.{most_potential};
ghost use Rattle.cycle_time.specs.Search.{most_before_pass, most_gain, AreWeights, IsGrown, IsBetter, IsBestOffer, IsRaisedAt, IsKeptAt, step_of, IsRaised, Covers, HasRisen, IsWithin, EntriesEnter, IsSoonReached, IsHeavy};
ghost use Rattle.cycle_time.specs.declared.weights.Weighing.{Weighing};
ghost use Rattle.event_graph.specs.Network.{stations, arc_count};
ghost use Rattle.line_base.specs.Limits.{most_stations};

use crate::weights::Weights;
use event_graph::Graph;
use std::alloc::{AllocError, Global};
use std::marker::Model;

/// A potential for a station, and the arc that gives it.
#[derive(Clone, Copy)]
pub struct Offer {
    pub potential: u128,
    pub entry: u32,
}

/// The order in which a pass looks at the stations.
#[derive(Clone, Copy)]
pub enum Sweep {
    /// By their numbers, from the first on.
    Up,
    /// From the last back.
    Down,
}

impl Sweep {
    /// The station at a step of a pass over this many stations.
    fn station(self, step: u32, stations: u32) -> u32
        requires { step < stations }
        ensures exists { result < stations }
        ensures at { step_of self stations result ≡ step }
    {
        match self {
            Sweep::Up => step,
            Sweep::Down => stations - 1 - step,
        }
    }
}

/// The potentials of the stations in the making, and for each station the arc that gave it its potential, its entry.
#[derive(Drop)]
pub struct Tree {
    potentials: Vec<u128>,
    entries: Vec<u32>,
}

impl Model for Tree {
    ghost use Rattle.cycle_time.specs.Search.{Potentials};

    ghost Value = { Potentials };

    ghost view = { λ t. record { potentials = t.potentials.items; entries = t.entries.items } };
}

/// What arc `a` gives, if that is more than there was before.
fn better_of(graph: &Graph, weights: &Weights, potentials: &[u128], a: u32, before: Offer) -> Offer
    requires weights { AreWeights graph.now weights.now }
    requires exists { a < arc_count graph.now }
    requires potential_for_each { length potentials.now ≡ stations graph.now }
    requires small { All (λ p. p ≤ most_potential) potentials.now }
    requires small_before { before.potential ≤ 2 * most_potential }
    ensures { IsBetter graph.now weights.now.weighing potentials.now a before result }
{
    let from = graph.arc(a).from;
    let loss = u128::from(weights.loss(a));
    let sum = potentials[from as usize] + u128::from(weights.gain(a));
    if sum > before.potential + loss {
        Offer {
            potential: sum - loss,
            entry: a,
        }
    } else {
        before
    }
}

/// The greatest potential that an arc into station `t` gives it, or the one that it has.
fn best_of(graph: &Graph, weights: &Weights, potentials: &[u128], t: u32) -> Offer
    requires weights { AreWeights graph.now weights.now }
    requires station { t < stations graph.now }
    requires potential_for_each { length potentials.now ≡ stations graph.now }
    requires small { All (λ p. p ≤ most_potential) potentials.now }
    ensures { IsBestOffer graph.now weights.now.weighing potentials.now t result }
{
    let ins = graph.ins(t);
    let mut best = Offer {
        potential: potentials[t as usize],
        entry: 0,
    };
    for a in ins {
        best = better_of(graph, weights, potentials, *a, best);
    }
    best
}

/// The elements from index `start` on, the last first.
fn turned_rest(alloc: Global, elements: &[u32], start: usize) -> Result<Vec<u32>, AllocError>
    requires { start ≤ length elements.now }
    ensures { IfOk result (λ rest. rest.items ≡ reverse (drop start elements.now)) }
{
    let mut rest = Vec::from_slice(alloc, &elements[start..])?;
    rest.reverse();
    Ok(rest)
}

impl Tree {
    /// Each station has the potential 0, of the empty walk, and no entry.
    pub fn new(alloc: Global, graph: &Graph) -> Result<Tree, AllocError>
        ensures grown { IfOk result (λ tree. (w : Weighing) → IsGrown graph.now w tree) }
        ensures zero { IfOk result (IsWithin 0) }
    {
        let stations = graph.stations() as usize;
        let none = graph.arcs().len() as u32;
        let potentials = vec![in alloc; 0; stations]?;
        let entries = vec![in alloc; none; stations]?;
        Ok(Tree {
            potentials,
            entries,
        })
    }

    /// Gives station `t` the greatest potential that an arc into it gives, if that is more than it has, and says
    /// whether it is.
    fn raise(&mut self, graph: &Graph, weights: &Weights, t: u32) -> bool
        requires weights { AreWeights graph.now weights.now }
        requires station { t < stations graph.now }
        requires grown { IsGrown graph.now weights.now.weighing self.old }
        requires small { IsWithin most_potential self.old }
        ensures { let w = weights.now.weighing in
            MatchBool result (IsRaisedAt graph.now w self.old self.new t) (IsKeptAt graph.now w self.old self.new t) }
    {
        let best = best_of(graph, weights, &self.potentials, t);
        if best.potential <= self.potentials[t as usize] {
            return false;
        }
        self.potentials[t as usize] = best.potential;
        self.entries[t as usize] = best.entry;
        true
    }

    /// Gives each station, in the order of the sweep, the greatest potential that an arc into it gives. The answer is
    /// the last station that got more than it had.
    pub fn pass(&mut self, graph: &Graph, weights: &Weights, sweep: Sweep) -> Option<u32>
        requires weights { AreWeights graph.now weights.now }
        requires grown { IsGrown graph.now weights.now.weighing self.old }
        requires small { IsWithin most_before_pass self.old }
        ensures grown { IsGrown graph.now weights.now.weighing self.new }
        ensures raised { IsRaised graph.now self.old self.new }
        ensures covers { Covers graph.now weights.now.weighing self.old self.new }
        ensures within { (most : ℕ) →
            IsWithin most self.old → IsWithin (most + most_stations * most_gain) self.new }
        ensures rests { IfNone result (self.new ≡ self.old) }
        ensures risen { IfSome result (HasRisen graph.now self.old self.new) }
    {
        let stations = graph.stations();
        let mut last = None;
        for step in 0..stations {
            let t = sweep.station(step, stations);
            if self.raise(graph, weights, t) {
                last = Some(t);
            }
        }
        last
    }

    /// The circuit of entries to which the entries lead back from station `t`, or none where they lead back to a
    /// station without an entry.
    pub fn circuit_behind(
        &self,
        alloc: Global,
        graph: &Graph,
        t: u32,
    ) -> Result<Option<Vec<u32>>, AllocError>
        requires station { t < stations graph.now }
        requires entry_for_each { length self.now.entries ≡ stations graph.now }
        requires enter { EntriesEnter graph.now self.now }
        ensures { IfOk result (λ found. (w : Weighing) → IsGrown graph.now w self.now →
            MatchOption found (IsSoonReached graph.now w self.now t) (λ arcs. IsHeavy graph.now w arcs.items)) }
    {
        let stations = graph.stations();
        let arcs = graph.arcs();
        let mut left = vec![in alloc; stations; stations as usize]?;
        let mut path = Vec::with_capacity(alloc, stations as usize)?;
        let mut at = t;
        while left[at as usize] == stations {
            let entry = self.entries[at as usize];
            if entry as usize >= arcs.len() {
                return Ok(None);
            }
            left[at as usize] = path.len() as u32;
            path.push_reserved(entry);
            at = arcs[entry as usize].from;
        }
        let circuit = turned_rest(alloc, &path, left[at as usize] as usize)?;
        Ok(Some(circuit))
    }

    /// The potentials.
    pub fn into_potentials(self) -> Vec<u128>
        ensures { result.items ≡ self.potentials }
    {
        self.potentials
    }
}
