ghost use Rattle.std.specs.Prelude.{◌≡◌, ℕ, ◌+◌, ◌<◌, ◌≤◌, length, map, slice_index, IfOk, OnOk};
ghost use Rattle.line_base.specs.Limits.{most_workers};
ghost use Rattle.event_graph.specs.Network.{stations, jobs, arc, arc_count};
ghost use Rattle.event_graph.specs.State.{log};
ghost use Rattle.line_setup.specs.Making.{outlets_at, inlets_at, firsts_at, new_shelf, source_of, without, MayShelve, HaveSources, AreFitFrom, AreNewLogs, IsNewStation, AreNewStations, IsNewTeam, AreNewTeams, AreAllNew, SameStationsFrom, SameShelvesFrom};
ghost use Rattle.line_setup.specs.Start.{MayBegin};
ghost use Rattle.line_worker.specs.Share.{first_of};
ghost use Rattle.line_worker.specs.Team.{member};
ghost use Rattle.station_step.specs.Shelf.{log_on, source_at};

use crate::laying::Ends;
use crate::start::Start;
use line_base::{Date, Log};
use line_core::{State, log_with};
use line_worker::{Team, first_of};
use live_check::Live;
use station_step::{Shelf, Source, Station};
use std::alloc::{AllocError, Global};

/// A copy of the log of station `t`, with room for a date of each job.
fn log_of(alloc: Global, live: &Live, state: &State, t: u32) -> Result<Log, AllocError>
    requires made_for { live.now.graph ≡ state.now.graph }
    requires station { t < stations live.now.graph }
    ensures dates { IfOk result (λ copy. copy.dates ≡ log state.now.state t) }
    ensures room { IfOk result (λ copy. copy.room ≡ jobs live.now.graph) }
    ensures few { length (log state.now.state t) ≤ jobs live.now.graph }
{
    log_with(alloc, state.log(t), live.graph().jobs())
}

/// Copies of the logs of the stations from the first on, as far as the next one, each with room for a date of each job.
fn new_logs(
    alloc: Global,
    live: &Live,
    state: &State,
    first: u32,
    next: u32,
) -> Result<Vec<Log>, AllocError>
    requires made_for { live.now.graph ≡ state.now.graph }
    requires in_order { first ≤ next }
    requires stations { next ≤ stations live.now.graph }
    ensures count { IfOk result (λ logs. first + length logs.items ≡ next) }
    ensures logs { IfOk result (λ logs. AreNewLogs live.now.graph state.now.state first logs.items) }
{
    let mut logs = Vec::with_capacity(alloc, (next - first) as usize)?;
    for t in first..next {
        let log = log_of(alloc, live, state, t)?;
        logs.push_reserved(log);
    }
    Ok(logs)
}

/// Station `t`, which takes its ends and goes on from this copy of its log.
fn new_station(
    alloc: Global,
    live: &Live,
    state: &State,
    ends: &mut Ends,
    t: u32,
    copy: &Log,
) -> Result<Station, AllocError>
    requires made_for { live.now.graph ≡ state.now.graph }
    requires station { t < stations live.now.graph }
    requires fit { AreFitFrom live.now.graph state.now.state t ends.old }
    requires dates { copy.now.dates ≡ log state.now.state t }
    requires few { length copy.now.dates ≤ jobs live.now.graph }
    requires room { copy.now.room ≡ jobs live.now.graph }
    ensures station { IfOk result
        (IsNewStation live.now.graph state.now.state t (outlets_at ends.old t)
        (inlets_at ends.old t)) }
    ensures log { IfOk result (λ station. station.log ≡ copy.now) }
    ensures rest { OnOk result (ends.new ≡ without ends.old t) }
{
    let (outlets, inlets) = ends.take_station(alloc, t);
    Station::new(alloc, live, t, inlets, outlets, copy)
}

/// The stations from the first on that go on from these logs.
fn new_stations(
    alloc: Global,
    live: &Live,
    state: &State,
    ends: &mut Ends,
    first: u32,
    next: u32,
    logs: &Vec<Log>,
) -> Result<Vec<Station>, AllocError>
    requires made_for { live.now.graph ≡ state.now.graph }
    requires count { first + length logs.now.items ≡ next }
    requires stations { next ≤ stations live.now.graph }
    requires fit { AreFitFrom live.now.graph state.now.state first ends.old }
    requires logs { AreNewLogs live.now.graph state.now.state first logs.now.items }
    ensures count { IfOk result (λ made. first + length made.items ≡ next) }
    ensures made { IfOk result
        (λ made. AreNewStations live.now.graph state.now.state first ends.old made.items) }
    ensures logs { IfOk result (λ made. (i : ℕ) → i < length made.items →
        (member made.items i).log ≡ log_on logs.now.items i) }
    ensures rest { OnOk result (SameStationsFrom next ends.old ends.new) }
    ensures shelves { OnOk result (ends.new.shelves ≡ ends.old.shelves) }
    ensures arcs { OnOk result (ends.new.arcs ≡ ends.old.arcs) }
{
    let mut made = Vec::with_capacity(alloc, logs.len())?;
    for t in first..next {
        let copy = &logs[(t - first) as usize];
        let station = new_station(alloc, live, state, ends, t, copy)?;
        made.push_reserved(station);
    }
    Ok(made)
}

/// Where the tokens of these arcs come from: the stations where they start, by their numbers from the first on.
fn new_sources(
    alloc: Global,
    live: &Live,
    first: u32,
    arcs: &Vec<u32>,
) -> Result<Vec<Source>, AllocError>
    requires exist { (q : ℕ) → q < length arcs.now.items →
        slice_index arcs.now.items q < arc_count live.now.graph }
    requires own { (q : ℕ) → q < length arcs.now.items →
        first ≤ (arc live.now.graph (slice_index arcs.now.items q)).from }
    ensures { IfOk result (λ sources. sources.items ≡
        map (source_of live.now.graph first) arcs.now.items) }
{
    let mut sources = Vec::with_capacity(alloc, arcs.len())?;
    let graph = live.graph();
    for a in arcs {
        sources.push(Source {
            station: graph.arc(*a).from - first,
            delay: graph.delay(*a),
        })?;
    }
    Ok(sources)
}

/// The shelf with these logs, whose queues begin with these tokens and go on from these sources. A token may be put on
/// each of them for each job.
fn new_shelf(
    alloc: Global,
    live: &Live,
    logs: Vec<Log>,
    firsts: Vec<Vec<Date>>,
    sources: Vec<Source>,
) -> Result<Shelf, AllocError>
    requires shelf { MayShelve live.now.graph (map (λ tokens. tokens.items) firsts.items) }
    requires count { length sources.items ≡ length firsts.items }
    requires there { (q : ℕ) → q < length sources.items →
        (source_at sources.items q).station < length logs.items }
    requires few { (i : ℕ) → i < length logs.items →
        length (log_on logs.items i).dates ≤ jobs live.now.graph }
    ensures logs { IfOk result (λ shelf. shelf.logs ≡ logs.items) }
    ensures sources { IfOk result (λ shelf. shelf.sources ≡ sources.items) }
    ensures queues { IfOk result (λ shelf. shelf.queues ≡
        new_shelf live.now.graph (map (λ tokens. tokens.items) firsts.items)) }
{
    Shelf::new(alloc, logs, firsts, sources, live.graph().jobs())
}

/// The team of one worker, which takes its shelf and the ends of its stations.
fn new_team(
    alloc: Global,
    live: &Live,
    state: &State,
    ends: &mut Ends,
    worker_count: u32,
    worker_number: u32,
) -> Result<Team, AllocError>
    requires made_for { live.now.graph ≡ state.now.graph }
    requires worker_count { worker_count ≤ most_workers }
    requires worker_number { worker_number < worker_count }
    requires shelves { length ends.old.shelves ≡ worker_count }
    requires arcs { length ends.old.arcs ≡ worker_count }
    requires shelf { MayShelve live.now.graph (firsts_at ends.old worker_number) }
    requires sources { HaveSources live.now.graph worker_count ends.old worker_number }
    requires fit { AreFitFrom live.now.graph state.now.state
        (first_of worker_count (stations live.now.graph) worker_number) ends.old }
    ensures team { IfOk result (IsNewTeam live.now.graph state.now.state worker_count ends.old worker_number) }
    ensures stations { OnOk result
        (SameStationsFrom (first_of worker_count (stations live.now.graph) (worker_number + 1)) ends.old
        ends.new) }
    ensures shelves { OnOk result (SameShelvesFrom (worker_number + 1) ends.old ends.new) }
{
    let stations = live.graph().stations();
    let first = first_of(worker_count, stations, worker_number);
    let next = first_of(worker_count, stations, worker_number + 1);
    let (firsts, arcs) = ends.take_shelf(alloc, worker_number);
    let logs = new_logs(alloc, live, state, first, next)?;
    let stations = new_stations(alloc, live, state, ends, first, next, &logs)?;
    let sources = new_sources(alloc, live, first, &arcs)?;
    let shelf = new_shelf(alloc, live, logs, firsts, sources)?;
    Ok(Team::new(stations, shelf))
}

/// The teams of all workers, which take the ends of all queues.
fn new_teams(
    alloc: Global,
    live: &Live,
    state: &State,
    ends: &mut Ends,
    worker_count: u32,
) -> Result<Vec<Team>, AllocError>
    requires made_for { live.now.graph ≡ state.now.graph }
    requires worker_count { worker_count ≤ most_workers }
    requires some_station { 1 ≤ stations live.now.graph }
    requires shelves { length ends.old.shelves ≡ worker_count }
    requires arcs { length ends.old.arcs ≡ worker_count }
    requires sources { (w : ℕ) → w < worker_count →
        HaveSources live.now.graph worker_count ends.old w }
    requires each_shelf { (w : ℕ) → MayShelve live.now.graph (firsts_at ends.old w) }
    requires fit { AreFitFrom live.now.graph state.now.state 0 ends.old }
    ensures count { IfOk result (λ teams. length teams.items ≡ worker_count) }
    ensures teams { IfOk result
        (λ teams. AreNewTeams live.now.graph state.now.state worker_count ends.old teams.items) }
{
    let mut teams = Vec::with_capacity(alloc, worker_count as usize)?;
    for worker_number in 0..worker_count {
        let team = new_team(alloc, live, state, ends, worker_count, worker_number)?;
        teams.push_reserved(team);
    }
    Ok(teams)
}

/// A team for each worker, whose stations go on from a state, with all memory of the run.
///
/// A queue stands for each arc and begins with the tokens that the state has there: a ring between two workers, else a
/// queue on the worker's shelf. Each ring, and each log, has room for the dates that are left to be made. Each queue on
/// a shelf has room for a token of each job. Where a room is given, a ring has room for the tokens with which its arc
/// starts and for that many more.
pub(crate) fn teams_of(alloc: Global, start: &Start) -> Result<Vec<Team>, AllocError>
    requires { MayBegin start.now }
    ensures count { IfOk result (λ teams. length teams.items ≡ start.now.worker_count) }
    ensures teams { IfOk result
        (λ teams. AreAllNew start.now.room start.now.live.now.graph start.now.state.now.state
        teams.items) }
{
    let mut ends = Ends::of(alloc, start)?;
    let teams = new_teams(
        alloc,
        start.live,
        start.state,
        &mut ends,
        start.worker_count,
    );
    drop(ends);
    teams
}
