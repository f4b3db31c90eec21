ghost use Rattle.std.specs.Prelude.{◌≡◌, ◌+◌, ◌*◌, ◌^◌, ◌<◌, ◌≤◌, ◌↔◌, ℕ, None, Some, length, sum, min, All, IsTrue, IfOk, IfErr};
ghost use Rattle.line_base.specs.Limits.{most_workers, most_ring_room};
ghost use Rattle.line_setup.specs.Making.{MayHold};
ghost use Rattle.event_graph.specs.Firing.{CanFire};
ghost use Rattle.event_graph.specs.Least.{IsLeast};
ghost use Rattle.event_graph.specs.Network.{stations, jobs};
ghost use Rattle.event_graph.specs.State.{log, start};
ghost use Rattle.event_graph.specs.Table.{date_in};
ghost use Rattle.line_core.specs.Consistent.{IsFinished, firing_count};
ghost use Rattle.line_core.specs.Round.{HasFired};
ghost use Rattle.line_core.specs.Run.{IsReached};
ghost use Rattle.line_workers.specs.Gather.{logs_in};
ghost use Rattle.line_workers.specs.Line.{IsLine, Stands, StandsIn, LogsGrow, EachWorks, run_in};
ghost use Rattle.line_workers.specs.OfWorkers.{line_of};
ghost use Rattle.line_worker.specs.Workers.{live_of, room_of, AreWorkers};
ghost use Rattle.line_worker.specs.Work.{TurnsBelow};
ghost use Rattle.line_worker.specs.Sweeps.{most_sweeps};

use crate::closing::{copies_of, logs_of};
use crate::link::{Links, links_of, seat_of};
use crate::threading::Threading;
use crate::workers::{Counts, burst_of, gather_workers};
use line_base::Date;
use line_core::{AsState, State};
use line_setup::{Start, workers_of};
use line_worker::{Gate, Worker};
use live_check::Live;
use std::alloc::{AllocError, Global};
use std::marker::Model;
use std::thread::Threads;

/// An event graph that several workers run at once, burst by burst. Between two bursts it stands for a state of the
/// graph that firings reach: the log of each station, and on each arc the token in the hand that the arc fills, then
/// the tokens that were put into its queue and not taken.
///
/// Each call that takes a `Live` takes the one that the line was made for.
#[derive(Drop)]
pub struct Line {
    workers: Vec<Worker>,
    // How many firings had been made when the turns of the stations began to count. Contracts alone read it.
    made: u64,
    // How many firings and steps the stations have made, and how many firings and stations there are in all.
    counts: Counts,
    all: u64,
    station_count: u32,
    // The arcs between two workers.
    links: Links,
    // Whether the next burst goes by threads.
    threading: Threading,
}

impl Model for Line {
    ghost use Rattle.std.specs.Prelude.{◌≡◌, ◌*◌, length};
    ghost use Rattle.event_graph.specs.Network.{stations, jobs};
    ghost use Rattle.line_worker.specs.Workers.{graph_of};
    ghost use Rattle.line_workers.specs.Line.{WorkLine};
    ghost use Rattle.line_workers.specs.OfWorkers.{line_of, AreAtRest};
    ghost use Rattle.line_workers.specs.Counts.{AreCounts};
    ghost use Rattle.line_workers.specs.Link.{AreLinks};

    ghost Value = { WorkLine };

    ghost view = { λ l. line_of l.workers.items l.made };

    ghost invariant = { λ l. record {
      rest : AreAtRest l.workers.items l.made;
      counts : AreCounts l.counts l.workers.items;
      all : l.all ≡ stations (graph_of l.workers.items) * jobs (graph_of l.workers.items);
      station_count : l.station_count ≡ stations (graph_of l.workers.items);
      links : AreLinks (graph_of l.workers.items) (length l.workers.items) l.links;
    } };
}

/// What came of a burst.
#[derive(Clone, Copy)]
pub struct Burst {
    /// How many firings were made.
    pub fired: u64,
    /// How many steps were made.
    pub steps: u64,
}

/// How many firings there are in all: one for each station and job.
fn firings_of(live: &Live) -> u64
    ensures { result ≡ stations live.now.graph * jobs live.now.graph }
{
    u64::from(live.graph().stations()) * u64::from(live.graph().jobs())
}

impl Line {
    /// The line that goes on from a state.
    fn of(
        alloc: Global,
        live: &Live,
        state: &State,
        worker_count: u32,
        room: Option<u32>,
    ) -> Result<Line, AllocError>
        requires made_for { live.now.graph ≡ state.now.graph }
        requires some { 1 ≤ worker_count }
        requires few { worker_count ≤ most_workers }
        requires fits { MayHold room live.now.graph state.now.state }
        ensures line { IfOk result IsLine }
        ensures stands { IfOk result (StandsIn room live.now state.now.state worker_count) }
    {
        let made = state.fired();
        let counts = Counts {
            fired: made,
            steps: 0,
        };
        let start = Start {
            live,
            state,
            worker_count,
            room,
        };
        let links = links_of(alloc, live, worker_count)?;
        let workers = workers_of(alloc, &start)?;
        Ok(Line {
            workers,
            made,
            counts,
            all: firings_of(live),
            station_count: live.graph().stations(),
            links: Links::Listed(links),
            threading: Threading::new(),
        })
    }

    /// The line at the start: no station has fired. Station `t` belongs to worker `t * workers / stations`, rounded
    /// down. It takes all memory of the run, and fails only where there isn't enough.
    pub fn prepare(alloc: Global, live: &Live, worker_count: u32) -> Result<Line, AllocError>
        requires some { 1 ≤ worker_count }
        requires few { worker_count ≤ most_workers }
        ensures line { IfOk result IsLine }
        ensures stands { IfOk result (Stands live.now (start live.now.graph) worker_count) }
    {
        let state = State::start(alloc, live)?;
        let line = Line::of(alloc, live, &state, worker_count, None);
        drop(state);
        line
    }

    /// The line of `prepare`, in which the room of a ring between two workers is bounded: each such ring has room for
    /// the tokens with which its arc starts and for `room` more, 1 to 10,000. A station fires only where its outputs
    /// have space.
    pub fn prepare_room(
        alloc: Global,
        live: &Live,
        worker_count: u32,
        room: u32,
    ) -> Result<Line, AllocError>
        requires some { 1 ≤ worker_count }
        requires few { worker_count ≤ most_workers }
        requires some_room { 1 ≤ room }
        requires most_room { room ≤ most_ring_room }
        ensures line { IfOk result IsLine }
        ensures stands { IfOk result
            (StandsIn (Some room) live.now (start live.now.graph) worker_count) }
    {
        let state = State::start(alloc, live)?;
        let line = Line::of(alloc, live, &state, worker_count, Some(room));
        drop(state);
        line
    }

    /// The line that goes on from a state, of which it keeps copies. Where memory runs out, the state is handed back
    /// unchanged.
    pub fn from_state(
        alloc: Global,
        live: &Live,
        state: State,
        worker_count: u32,
    ) -> Result<Line, State>
        requires made_for { live.now.graph ≡ state.graph }
        requires some { 1 ≤ worker_count }
        requires few { worker_count ≤ most_workers }
        ensures line { IfOk result IsLine }
        ensures stands { IfOk result (Stands live.now state.state worker_count) }
        ensures handed_back { IfErr result (λ back. back ≡ state) }
    {
        match Line::of(alloc, live, &state, worker_count, None) {
            Ok(line) => {
                drop(state);
                Ok(line)
            }
            Err(_) => Err(state),
        }
    }

    /// How many workers the line has.
    pub fn worker_count(&self) -> u32
        ensures count { result ≡ self.now.worker_count }
        ensures line { IsLine self.now }
    {
        self.workers.len() as u32
    }

    /// How many firings made the state that the line stands for.
    pub fn fired(&self) -> u64
        ensures fired { result ≡ firing_count self.now.state }
        ensures line { IsLine self.now }
    {
        self.counts.fired
    }

    /// Whether every station has fired once for each job.
    pub fn finished(&self) -> bool
        ensures finished { IsTrue result ↔ IsFinished self.now.live.graph self.now.state }
        ensures line { IsLine self.now }
    {
        self.counts.fired == self.all
    }

    /// The log of station `t`: its dates, in the order of the jobs. It takes no memory.
    pub fn log(&self, t: u32) -> &[Date]
        requires { t < stations self.now.live.graph }
        ensures log { result.now ≡ log self.now.state t }
        ensures line { IsLine self.now }
    {
        let seat = seat_of(self.workers.len() as u32, self.station_count, t);
        self.workers[seat.worker_number].log(seat.number)
    }

    /// Lets each worker go over its stations 16 times, or fewer where all of them are done before, and then lets the
    /// ends of every queue meet on this thread. Each worker works on a thread of its own, as in the first burst of a
    /// line, or all of them in turn on this thread, where threads did not pay in the bursts before. One worker works on
    /// this thread. It takes no memory and waits for no lock.
    ///
    /// Whatever the threads do meanwhile, the line stands for a state that firings reach. `fired` and `steps` are 0
    /// exactly where every station had fired once for each job. Where the room of rings is bounded, no more tokens
    /// wait on an arc between two workers at the end than those with which it starts, the room, and one in a hand.
    pub fn burst<R: Threads + Sync, G: Gate>(&mut self, rt: &R, live: &Live, gate: &G) -> Burst
        requires made_for { live.now ≡ self.old.live }

        // The line stands for a reached state of its graph; dates come at the ends of logs.
        ensures line { IsLine self.new }
        ensures frame { self.new ≡
            record self.old { state = self.new.state; turns = self.new.turns } }
        ensures logs { LogsGrow self.old.live.graph self.old.state self.new.state }

        // What each station did, how many firings and steps were made, and which at least.
        ensures works { EachWorks self.old self.new }
        ensures fired { firing_count self.new.state ≡ firing_count self.old.state + result.fired }
        ensures steps { sum self.new.turns ≡ sum self.old.turns + result.steps }
        ensures at_most { result.fired ≤ result.steps }
        ensures few { result.steps ≤ most_sweeps * stations self.old.live.graph }
        ensures ready { self.old.room ≡ None → (t : ℕ) →
            CanFire self.old.live.graph self.old.state t →
            length (log self.old.state t) < length (log self.new.state t) }
        ensures idle { (result.fired ≡ 0) ↔ IsFinished self.old.live.graph self.old.state }
        ensures rest { IsFinished self.old.live.graph self.old.state → result.steps ≡ 0 }

        // One worker, where all stations have fired as often, fires each of them with every step.
        ensures alone { (times : ℕ) → self.old.worker_count ≡ 1 → HasFired (run_in self.old) times →
            HasFired (run_in self.new) (min (times + most_sweeps) (jobs self.old.live.graph)) }
        ensures alone_steps { (times : ℕ) → self.old.worker_count ≡ 1 →
            HasFired (run_in self.old) times → result.steps ≡ result.fired }
    {
        burst_of(
            rt,
            &mut self.workers,
            live,
            gate,
            &self.links,
            &mut self.counts,
            &mut self.threading,
        )
    }

    /// A copy of the state that the line stands for. It can go on firing by itself: it takes the room of all later
    /// firings.
    pub fn state(&self, live: &Live) -> Result<State, AllocError>
        requires made_for { live.now ≡ self.now.live }
        ensures state { IfOk result (λ state. state ≡ run_in self.now) }
        ensures reached { IfOk result IsReached }
        ensures line { IsLine self.now }
    {
        let alloc = self.workers[0].alloc();
        let logs = copies_of(alloc, live, &self.workers)?;
        Ok(State::of_reached(alloc, live, logs))
    }

    /// The state that the line stands for, with the very logs of its stations. It takes no memory.
    pub fn close(self, live: &Live) -> State
        requires made_for { live.now ≡ self.live }
        ensures state { result ≡ run_in self }
        ensures reached { IsReached result }
        ensures least { IsFinished self.live.graph self.state →
            IsLeast self.live.graph (date_in result.state.logs) }
    {
        let alloc = self.workers[0].alloc();
        let logs = logs_of(self.workers);
        State::of_reached(alloc, live, logs)
    }

    /// The workers of the line, in the order of their numbers. It takes no memory.
    pub fn workers(self) -> Vec<Worker>
        ensures workers { AreWorkers result.items }
        ensures line { line_of result.items self.made ≡ self }
        ensures turns { All (λ worker. TurnsBelow (2 ^ 38) worker.team) result.items }
    {
        self.workers
    }

    /// The line of these workers, all those of one line, in order. The ends of every queue meet on this thread, and the
    /// turns of the stations count from 0 again. It takes no memory.
    pub fn gather(live: &Live, workers: Vec<Worker>) -> Line
        requires workers { AreWorkers workers.items }
        requires made_for { live.now ≡ live_of workers.items }
        ensures line { IsLine result }
        ensures logs { result.state.logs ≡ logs_in workers.items }
        ensures stands { StandsIn (room_of workers.items) live.now result.state
            (length workers.items) result }
    {
        let mut workers = workers;
        let made = gather_workers(&mut workers, live);
        let counts = Counts {
            fired: made,
            steps: 0,
        };
        Line {
            workers,
            made,
            counts,
            all: firings_of(live),
            station_count: live.graph().stations(),
            links: Links::Unlisted,
            threading: Threading::new(),
        }
    }
}

impl AsState for Line {
    ghost run = { run_in };

    fn log_of(&self, t: u32) -> &[Date] {
        self.log(t)
    }
}
