ghost use Rattle.std.specs.Prelude.{◌≡◌, ◌<◌, ◌≤◌, map, length, All, IsTrue, ◌↔◌, IfOk, IfErr, IfSome, OnOk, OnErr, replicate, []};
ghost use Rattle.event_graph.specs.Firing.{CanFire};
ghost use Rattle.event_graph.specs.Network.{stations, arc_count};
ghost use Rattle.event_graph.specs.Reached.{Reached};
ghost use Rattle.event_graph.specs.State.{log, place};
ghost use Rattle.line_base.specs.Roomy.{dates_of};
ghost use Rattle.line_core.specs.ArcTokens.{FillsCircuits, HasRoom};
ghost use Rattle.line_core.specs.Consistent.{IsFinished, firing_count, state_of};
ghost use Rattle.line_core.specs.Marked.{RefusesMarked, RefusesTokensAlone};
ghost use Rattle.line_core.specs.Parts.{LATEST_GIVEN, AreParts, run_with, IsStateRefusal, IsReachedExactly};
ghost use Rattle.line_core.specs.Refusals.{Refuses, first_unfinished};
ghost use Rattle.line_core.specs.Run.{run_of, first_run, fired_at, IsReached, IsLeastTable, IsRunWithRoom};

use crate::as_state::{AsState, place_in};
use crate::dates::{count_at, first_empty, first_unfinished, next_date, tokens_on};
use crate::error::{FireError, StateError};
use crate::parts::{check_marked, check_parts, with_room};
use crate::table::Table;
use crate::tokens::Tokens;
use event_graph::{Graph, Marking};
use line_base::{Date, Log, Logs, Places};
use live_check::Live;
use std::alloc::{AllocError, Global};
use std::marker::Model;
use std::snapshot::Snapshot;

/// A state of a live graph that some firings reach: a log of dates for each station, and a place of dated tokens for
/// each arc. Contracts see both, beside the graph; the dates are kept once, in the logs, and the places follow from
/// them.
///
/// Each call that takes a `Live` takes the one that the state was made for.
#[derive(Drop)]
pub struct State {
    logs: Logs,
    alloc: Global,
    // The graph that the state was made for. Contracts alone read it.
    graph: Snapshot<Graph>,
}

impl Model for State {
    ghost use Rattle.line_core.specs.Run.{Run, run_of, IsRunWithRoom};

    ghost Value = { Run };

    ghost view = { λ s. run_of s.graph.value s.logs };

    ghost invariant = { λ s. IsRunWithRoom s.graph.value s.logs };
}

/// An empty log for each station of the graph, with room for a date of each job.
fn empty_logs(alloc: Global, graph: &Graph) -> Result<Logs, AllocError>
    ensures has_room { IfOk result (IsRunWithRoom graph.now) }
    ensures start { IfOk result (λ logs. dates_of logs ≡ replicate (stations graph.now) []) }
{
    let stations = graph.stations();
    let jobs = graph.jobs();
    let mut logs = Logs::new(alloc, stations)?;
    for _ in 0..stations {
        logs.add(Log::new(alloc, jobs)?);
    }
    Ok(logs)
}

impl State {
    /// The start: empty logs, and on each arc its tokens, of date 0. It takes the room of all later firings.
    pub fn start(alloc: Global, live: &Live) -> Result<State, AllocError>
        ensures start { IfOk result (λ state. state ≡ first_run live.now.graph) }
        ensures reached { IfOk result IsReached }
    {
        let logs = empty_logs(alloc, live.graph())?;
        Ok(State {
            logs,
            alloc,
            graph: Snapshot::of(live.graph()),
        })
    }

    /// Fires station `t`: the front token of each input place goes away, and the new date goes to the end of the
    /// station's log and, later by the arc's delay, to the back of each output place. The date is the greatest of the
    /// dates that went away, each with the station's time for the job where its arc is worked; for the feed it is the
    /// demand date. It takes no memory, and time in the station's arcs alone.
    ///
    /// `Done` comes where the station has fired once for each job, else `Empty` where an input place has no token; the
    /// state is then unchanged.
    ///
    /// Source of the rule: Baccelli, Cohen, Olsder and Quadrat, Synchronization and Linearity, on event graphs.
    pub fn fire(&mut self, live: &Live, t: u32) -> Result<(), FireError>
        requires made_for { live.now.graph ≡ self.old.graph }
        requires station { t < stations self.old.graph }
        ensures could { OnOk result (CanFire self.old.graph self.old.state t) }
        ensures fired { OnOk result (self.new ≡ fired_at self.old t) }
        ensures refused { IfErr result (Refuses self.old t) }
        ensures kept { OnErr result (self.new ≡ self.old) }
        ensures reached { IsReached self.new }
    {
        let graph = live.graph();
        if count_at(&self.logs, graph, t) == graph.jobs() as usize {
            return Err(FireError::Done);
        }
        match first_empty(&self.logs, graph, t) {
            Some(arc) => Err(FireError::Empty { arc }),
            None => {
                self.fire_ready(live, t);
                Ok(())
            }
        }
    }

    /// Fires station `t`, which can fire.
    pub(crate) fn fire_ready(&mut self, live: &Live, t: u32)
        requires made_for { live.now.graph ≡ self.old.graph }
        requires can { CanFire self.old.graph self.old.state t }
        ensures fired { self.new ≡ fired_at self.old t }
        ensures reached { IsReached self.new }
    {
        let date = next_date(&self.logs, live.graph(), t);
        self.logs.add_to(t, date);
    }

    /// Whether every station has fired once for each job.
    pub fn finished(&self, live: &Live) -> bool
        requires made_for { live.now.graph ≡ self.now.graph }
        ensures finished { IsTrue result ↔ IsFinished self.now.graph self.now.state }
        ensures reached { IsReached self.now }
    {
        self.first_unfinished(live).is_none()
    }

    /// The first station that hasn't fired once for each job.
    pub(crate) fn first_unfinished(&self, live: &Live) -> Option<u32>
        requires made_for { live.now.graph ≡ self.now.graph }
        ensures station { result ≡ first_unfinished self.now.graph self.now.state }
        ensures exists { IfSome result (λ t. t < stations self.now.graph) }
        ensures reached { IsReached self.now }
    {
        first_unfinished(&self.logs, live.graph())
    }

    /// The log of station `t`: its dates, in the order of the jobs.
    pub fn log(&self, t: u32) -> &[Date]
        requires { t < stations self.now.graph }
        ensures log { result.now ≡ log self.now.state t }
        ensures reached { IsReached self.now }
    {
        self.logs.get(t).dates()
    }

    /// The tokens on arc `a`, from the front to the back.
    pub fn place<'a>(&'a self, live: &Live, a: u32) -> Tokens<'a>
        requires made_for { live.now.graph ≡ self.now.graph }
        requires arc { a < arc_count self.now.graph }
        ensures tokens { result ≡ place self.now.state a }
        ensures reached { IsReached self.now }
    {
        place_in(self, live, a)
    }

    /// How many firings made the state.
    pub fn fired(&self) -> u64
        ensures fired { result ≡ firing_count self.now.state }
        ensures reached { IsReached self.now }
    {
        let mut fired = 0;
        for t in 0..self.logs.len() as u32 {
            fired += self.logs.get(t).dates().len() as u64;
        }
        fired
    }

    /// How many tokens each arc has, in the order of the arcs. Each circuit has by them the tokens that it has at the
    /// start.
    pub fn marking(&self, live: &Live) -> Result<Marking, AllocError>
        requires made_for { live.now.graph ≡ self.now.graph }
        ensures lengths { IfOk result
            (λ m. m ≡ map (λ tokens. length tokens) self.now.state.places) }
        ensures circuits { IfOk result (FillsCircuits self.now.graph) }
        ensures reached { IsReached self.now }
    {
        let graph = live.graph();
        let arcs = graph.arcs().len() as u32;
        let mut lengths = Vec::with_capacity(self.alloc, arcs as usize)?;
        for a in 0..arcs {
            lengths.push_reserved(tokens_on(&self.logs, graph, a) as u32);
        }
        Ok(Marking::from_vec(lengths))
    }

    /// The state that firings reach with these logs, which take the room of all later firings. It takes no memory.
    pub fn of_reached(alloc: Global, live: &Live, logs: Logs) -> State
        requires reached { Reached live.now.graph (state_of live.now.graph (dates_of logs)) }
        requires room { HasRoom live.now.graph logs }
        ensures state { result ≡ run_of live.now.graph logs }
        ensures reached { IsReached result }
    {
        State {
            logs,
            alloc,
            graph: Snapshot::of(live.graph()),
        }
    }

    /// The state with these logs and these places, which can go on firing: it takes the room of all later firings.
    ///
    /// Every other answer but out of memory is the first thing that is wrong with the parts. A log with more dates than
    /// there are jobs is refused, else a place with another number of tokens than the logs leave there, else a date
    /// that isn't the one of its equation over the logs, else a token that isn't the one that the logs leave there.
    pub fn of_parts(
        alloc: Global,
        live: &Live,
        logs: Logs,
        places: Places,
    ) -> Result<State, StateError>
        requires parts { AreParts live.now.graph logs places }
        ensures state { IfOk result
            (λ state. state ≡ run_with live.now.graph (dates_of logs) (dates_of places)) }
        ensures reached { IfOk result IsReached }
        ensures refused { IfErr result
            (IsStateRefusal live.now.graph (dates_of logs) (dates_of places)) }
        ensures exact { IsReachedExactly live.now.graph (dates_of logs) (dates_of places) }
    {
        check_parts(live.graph(), &logs, &places)?;
        let logs = with_room(alloc, &logs, live.graph().jobs())?;
        Ok(State::of_reached(alloc, live, logs))
    }

    /// The state with these logs, which have the room of all later firings, and with this many tokens in each place. It
    /// takes no memory.
    ///
    /// Its refusals are those of `of_parts` but the last, for the dates of the tokens aren't given. After Ok nothing
    /// but these can be wrong.
    pub fn of_logs(
        alloc: Global,
        live: &Live,
        logs: Logs,
        marking: &Marking,
    ) -> Result<State, StateError>
        requires early { All (All (λ date. date ≤ LATEST_GIVEN)) (dates_of logs) }
        requires a_log_each { length logs.logs ≡ stations live.now.graph }
        requires a_count_each { length marking.now ≡ arc_count live.now.graph }
        requires room { HasRoom live.now.graph logs }
        ensures state { IfOk result (λ state. state ≡ run_of live.now.graph logs) }
        ensures reached { IfOk result IsReached }
        ensures tokens { OnOk result (RefusesTokensAlone live.now.graph (dates_of logs) marking.now) }
        ensures refused { IfErr result (RefusesMarked live.now.graph (dates_of logs) marking.now) }
    {
        check_marked(live.graph(), &logs, marking)?;
        Ok(State::of_reached(alloc, live, logs))
    }

    /// The table of a finished state. It takes no memory.
    pub fn into_table(self, live: &Live) -> Table
        requires made_for { live.now.graph ≡ self.graph }
        requires finished { IsFinished self.graph self.state }
        ensures dates { result ≡ record { graph = self.graph; rows = self.state.logs } }
        ensures least { IsLeastTable result }
    {
        Table::of(live.graph(), self.logs)
    }
}

impl AsState for State {
    ghost run = { λ s. s };

    fn log_of(&self, t: u32) -> &[Date] {
        self.log(t)
    }
}
