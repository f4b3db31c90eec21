ghost use Rattle.std.specs.Prelude.{◌≡◌, ◌≤◌, ◌<◌, All, IfOk, OnOk, IfErr, IsTrue, ◌↔◌};
ghost use Rattle.event_graph.specs.Faults.{IsFirstFault};
ghost use Rattle.event_graph.specs.Limits.{IsWithinLimits};
ghost use Rattle.event_graph.specs.Lists.{IsListed};
ghost use Rattle.event_graph.specs.Network.{stations, jobs, arc_count, arc, time, demand, delay, label, ins, outs, IsGraph, EndsAt, StartsAt};
ghost use Rattle.event_graph.specs.Term.{work};
ghost use Rattle.event_graph.specs.Varying.{Varies};
ghost use Rattle.line_base.specs.Limits.{longest_time, most_cards};
ghost use Rattle.line_base.specs.Text.{is_label};

use crate::checks::{check_ends, check_feed, check_inputs};
use crate::error::GraphError;
use crate::lists::{ArcLists, End, arcs_by_station};
use line_base::{Arc, Date, Parts, Times};
use std::alloc::Global;
use std::marker::Model;

/// A timed event graph. Contracts see its parts.
#[derive(Drop)]
pub struct Graph {
    parts: Parts,
    into: ArcLists,
    out_of: ArcLists,
}

impl Model for Graph {
    ghost use Rattle.event_graph.specs.Lists.{IsListed};
    ghost use Rattle.line_base.specs.declared.event.Parts.{Parts};

    ghost Value = { Parts };

    ghost view = { λ g. g.parts };

    ghost invariant = { λ g. IsListed g.parts g.into g.out_of };
}

/// The arcs into each station of parts that give a graph, and those out of it.
fn arc_lists(alloc: Global, parts: &Parts) -> Result<(ArcLists, ArcLists), GraphError>
    requires { IsWithinLimits parts.now }
    ensures listed { IfOk result (λ lists. IsListed parts.now lists.0 lists.1) }
    ensures refused { IfErr result (IsFirstFault parts.now) }
{
    check_ends(parts)?;
    check_feed(parts)?;
    let into = arcs_by_station(alloc, parts, End::Finish)?;
    check_inputs(parts, &into)?;
    let out_of = arcs_by_station(alloc, parts, End::Start)?;
    Ok((into, out_of))
}

impl Graph {
    /// The graph of these parts. Stations and arcs are numbered from 0 in the order of their lists, jobs from 1.
    ///
    /// Parts with an arc that names no station are refused, else parts with an arc into station 0, the feed, else parts
    /// with another station that no arc enters. The error names the first arc or station.
    pub fn build(alloc: Global, parts: Parts) -> Result<Graph, GraphError>
        requires { IsWithinLimits parts }
        ensures built { IfOk result (λ graph. graph ≡ parts) }
        ensures sound { OnOk result (IsGraph parts) }
        ensures refused { IfErr result (IsFirstFault parts) }
    {
        match arc_lists(alloc, &parts) {
            Ok((into, out_of)) => Ok(Graph {
                parts,
                into,
                out_of,
            }),
            Err(error) => {
                drop(parts);
                Err(error)
            }
        }
    }

    /// How many stations there are.
    pub fn stations(&self) -> u32
        ensures count { result ≡ stations self.now }
        ensures graph { IsGraph self.now }
        ensures limits { IsWithinLimits self.now }
    {
        self.parts.labels.len() as u32
    }

    /// How many jobs there are.
    pub fn jobs(&self) -> u32
        ensures count { result ≡ jobs self.now }
        ensures graph { IsGraph self.now }
        ensures limits { IsWithinLimits self.now }
    {
        self.parts.dates.len() as u32
    }

    /// The arcs, in order.
    pub fn arcs(&self) -> &[Arc]
        ensures arcs { result.now ≡ self.now.arcs }
        ensures graph { IsGraph self.now }
        ensures limits { IsWithinLimits self.now }
    {
        self.parts.arcs.as_slice()
    }

    /// The numbers of the arcs into station `t`, ascending.
    #[tactic(auto, using(crate::proofs::ArcNumbers::listed))]
    pub fn ins(&self, t: u32) -> &[u32]
        requires { t < stations self.now }
        ensures arcs { result.now ≡ ins self.now t }
        ensures each { All (EndsAt self.now t) result.now }
        ensures graph { IsGraph self.now }
        ensures limits { IsWithinLimits self.now }
    {
        self.into.of(t)
    }

    /// The numbers of the arcs out of station `t`, ascending.
    #[tactic(auto, using(crate::proofs::ArcNumbers::listed))]
    pub fn outs(&self, t: u32) -> &[u32]
        requires { t < stations self.now }
        ensures arcs { result.now ≡ outs self.now t }
        ensures each { All (StartsAt self.now t) result.now }
        ensures graph { IsGraph self.now }
        ensures limits { IsWithinLimits self.now }
    {
        self.out_of.of(t)
    }

    /// Arc number `a`, whose two stations exist.
    pub fn arc(&self, a: u32) -> Arc
        requires { a < arc_count self.now }
        ensures arc { result ≡ arc self.now a }
        ensures starts { result.from < stations self.now }
        ensures ends { result.to < stations self.now }
        ensures tokens { result.tokens ≤ most_cards }
        ensures graph { IsGraph self.now }
        ensures limits { IsWithinLimits self.now }
    {
        self.parts.arcs.as_slice()[a as usize]
    }

    /// How many tokens arc `a` holds at the start.
    pub fn tokens(&self, a: u32) -> u32
        requires { a < arc_count self.now }
        ensures tokens { result ≡ (arc self.now a).tokens }
        ensures graph { IsGraph self.now }
        ensures limits { IsWithinLimits self.now }
    {
        self.parts.arcs.as_slice()[a as usize].tokens
    }

    /// The time that station `t` takes for job `n`, in the plant's unit.
    #[tactic(auto, unfolding(crate::specs::Network::time))]
    pub fn time(&self, t: u32, n: u32) -> u64
        requires station { t < stations self.now }
        requires from_one { 1 ≤ n }
        requires job { n ≤ jobs self.now }
        ensures time { result ≡ time self.now t n }
        ensures graph { IsGraph self.now }
        ensures limits { IsWithinLimits self.now }
    {
        self.parts.times.as_slice()[t as usize].at(n)
    }

    /// The time that arc `a` adds for job `n`: that of the station which it enters, where it is worked, else 0.
    pub fn work(&self, a: u32, n: u32) -> u64
        requires arc { a < arc_count self.now }
        requires from_one { 1 ≤ n }
        requires job { n ≤ jobs self.now }
        ensures work { result ≡ work self.now a n }
        ensures short { result ≤ longest_time }
        ensures graph { IsGraph self.now }
        ensures limits { IsWithinLimits self.now }
    {
        let arc = self.arc(a);
        if arc.worked { self.time(arc.to, n) } else { 0 }
    }

    /// Whether station `t` has a list of times, with one for each job.
    pub fn varies(&self, t: u32) -> bool
        requires { t < stations self.now }
        ensures varies { IsTrue result ↔ Varies self.now t }
        ensures graph { IsGraph self.now }
        ensures limits { IsWithinLimits self.now }
    {
        match self.parts.times.as_slice()[t as usize] {
            Times::Each(_) => true,
            Times::Fixed(_) => false,
        }
    }

    /// The demand date of job `n`, in the plant's unit.
    #[tactic(auto, unfolding(crate::specs::Network::demand))]
    pub fn demand(&self, n: u32) -> Date
        requires from_one { 1 ≤ n }
        requires job { n ≤ jobs self.now }
        ensures date { result ≡ demand self.now n }
        ensures graph { IsGraph self.now }
        ensures limits { IsWithinLimits self.now }
    {
        self.parts.dates.as_slice()[n as usize - 1]
    }

    /// The label of station `t`, in ASCII.
    pub fn label(&self, t: u32) -> &[u8]
        requires { t < stations self.now }
        ensures text { result.now ≡ label self.now t }
        ensures rule { IsTrue (is_label result.now) }
        ensures graph { IsGraph self.now }
        ensures limits { IsWithinLimits self.now }
    {
        self.parts.labels.as_slice()[t as usize].text()
    }

    /// The delay of arc `a`, in the plant's unit: a token that a firing puts on it can be taken that much later.
    #[tactic(auto, unfolding(crate::specs::Network::delay))]
    pub fn delay(&self, a: u32) -> u64
        requires { a < arc_count self.now }
        ensures delay { result ≡ delay self.now a }
        ensures graph { IsGraph self.now }
        ensures limits { IsWithinLimits self.now }
    {
        self.parts.delays.as_slice()[a as usize]
    }
}
