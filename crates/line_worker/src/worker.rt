ghost use Rattle.std.specs.List.{Any};
ghost use Rattle.std.specs.Prelude.{◌≡◌, ◌+◌, ◌*◌, ◌<◌, ◌≤◌, ◌^◌, ◌++◌, ℕ, length, map, slice_index, if◌then◌else◌, IsTrue, ◌↔◌, IfOk, OnOk};
ghost use Rattle.line_base.specs.Limits.{most_workers};
ghost use Rattle.event_graph.specs.Network.{jobs, stations};
ghost use Rattle.event_graph.specs.Reached.{Reached};
ghost use Rattle.line_base.specs.declared.limits.TheConstants.{MAX_STATIONS, MAX_DEMANDS};
ghost use Rattle.station_step.specs.Ends.{AreEnds, AreMet};
ghost use Rattle.station_step.specs.Input.{input_at};
ghost use Rattle.station_step.specs.Station.{outlet_at};
ghost use Rattle.line_worker.specs.Cleared.{cleared_worker};
ghost use Rattle.line_worker.specs.Worker.{IsWorker, with_team};
ghost use Rattle.line_worker.specs.Workers.{IsSameWorker, HasDoneBurst, IsReadyFor, MayGoOn, HasMadeRound};
ghost use Rattle.line_worker.specs.Logs.{log_of, copy_of};
ghost use Rattle.line_worker.specs.Meeting.{OutletMet, InletMet};
ghost use Rattle.line_worker.specs.Share.{first_of};
ghost use Rattle.line_worker.specs.Team.{member, IsTeam};
ghost use Rattle.line_worker.specs.Work.{dates_of, turns_of, dates_made, turns_made, SteppedAt, SteppedInOrder, HasSwept, AllDone, TurnsBelow, IsAlone};

use crate::counts::{all_done, dates_made, most_turns, turns_made};
use crate::gate::Gate;
use crate::logs::{copy_logs, give_logs};
use crate::order::order_of;
use crate::owner::first_of;
use crate::team::{Team, clear_team, meet_teams};
use line_base::{Date, Logs};
use line_core::State;
use live_check::Live;
use station_step::Stepped;
use std::alloc::{AllocError, Global};
use std::marker::Model;
use std::snapshot::Snapshot;

/// How often a worker goes over its stations in a burst.
pub const SWEEPS: u32 = 16;

/// The stations of one worker of a line.
#[derive(Drop)]
pub struct Worker {
    worker_number: u32,
    // The first of its stations. Contracts alone read it.
    first: u32,
    // How many dates each station makes.
    target: u32,
    team: Team,
    // The numbers of the stations in the team, in the order in which they step.
    order: Vec<u32>,
    // An empty list with room for the logs of all stations, for the end of the line.
    spare: Logs,
    alloc: Global,
    // How many workers the line has. Contracts alone read it, as the next three: how much room a ring of the line has
    // beyond the tokens with which its arc starts, if it has a bound; what the line was made for; and the state with
    // which it began.
    worker_count: u32,
    room: Snapshot<Option<u32>>,
    live: Snapshot<Live>,
    begun: Snapshot<State>,
}

impl Model for Worker {
    ghost use Rattle.line_worker.specs.Worker.{LineWorker, IsWorker, seen_worker};

    ghost Value = { LineWorker };

    ghost view = { λ c. seen_worker c.live.value c.begun.value.state c.worker_count c.room.value c.worker_number c.first
        c.team c.target c.order.items c.spare };

    ghost invariant = { λ c. IsWorker (seen_worker c.live.value c.begun.value.state c.worker_count c.room.value
        c.worker_number c.first c.team c.target c.order.items c.spare) };
}

impl Worker {
    /// Worker number `worker_number` of a line, with its team. It takes the room for the logs of all stations.
    pub fn of(
        alloc: Global,
        live: &Live,
        state: &State,
        worker_count: u32,
        room: Option<u32>,
        worker_number: u32,
        team: Team,
    ) -> Result<Worker, AllocError>
        requires worker_number { worker_number < worker_count }
        requires worker_count { worker_count ≤ most_workers }
        requires reached { Reached live.now.graph state.now.state }
        requires team { IsTeam live.now.graph state.now.state
            (first_of worker_count (stations live.now.graph) worker_number) team }
        requires size { first_of worker_count (stations live.now.graph) worker_number + length team.stations ≡
            first_of worker_count (stations live.now.graph) (worker_number + 1) }
        ensures worker { IfOk result IsWorker }
        ensures live { IfOk result (λ worker. worker.live ≡ live.now) }
        ensures begun { IfOk result (λ worker. worker.begun ≡ state.now.state) }
        ensures worker_count { IfOk result (λ worker. worker.worker_count ≡ worker_count) }
        ensures room { IfOk result (λ worker. worker.room ≡ room) }
        ensures worker_number { IfOk result (λ worker. worker.worker_number ≡ worker_number) }
        ensures team { IfOk result (λ worker. worker.team ≡ team) }
    {
        let stations = live.graph().stations();
        let first = first_of(worker_count, stations, worker_number);
        let order = order_of(alloc, live, first, team.stations.len() as u32)?;
        let spare = Logs::new(alloc, stations)?;
        Ok(Worker {
            worker_number,
            first,
            target: live.graph().jobs(),
            team,
            order,
            spare,
            alloc,
            worker_count,
            room: Snapshot::of(&room),
            live: Snapshot::of(live),
            begun: Snapshot::of(state),
        })
    }

    /// Lets one station of the worker make a step. Answers whether it fired.
    #[inline(always)]
    fn step(&mut self, live: &Live, i: u32) -> bool
        requires made_for { live.now ≡ self.old.live }
        requires station { i < length self.old.team.stations }
        requires turns { (member self.old.team.stations i).turns < 2 ^ 40 }
        ensures worker { IsWorker self.new }
        ensures frame { self.new ≡ with_team self.old self.new.team }
        ensures stepped { SteppedAt i self.old.team self.new.team }
        ensures fired { dates_of (member self.new.team.stations i) ≡
            dates_of (member self.old.team.stations i) + (if result then 1 else 0) }
    {
        let team = &mut self.team;
        let stepped = team.stations[i as usize].step(live, &mut team.shelf, i);
        matches!(stepped, Stepped::Fired)
    }

    /// Lets station number `nth` of the order make a step, counted from 0. Answers whether it fired.
    #[inline(always)]
    fn turn(&mut self, live: &Live, nth: usize) -> bool
        requires made_for { live.now ≡ self.old.live }
        requires nth { nth < length self.old.order }
        requires turns { TurnsBelow (2 ^ 40) self.old.team }
        ensures worker { IsWorker self.new }
        ensures frame { self.new ≡ with_team self.old self.new.team }
        ensures stepped { SteppedAt (slice_index self.old.order nth) self.old.team self.new.team }
        ensures fired { dates_made self.new.team ≡
            dates_made self.old.team + (if result then 1 else 0) }
    {
        let i = self.order[nth];
        self.step(live, i)
    }

    /// Passes the gate, and lets each station of the worker make one step then, in the order of their ranks. Answers the
    /// number of firings, by which the logs of its stations together grew. It takes no memory.
    pub fn sweep<G: Gate>(&mut self, live: &Live, gate: &G) -> u64
        requires made_for { live.now ≡ self.old.live }
        requires turns { TurnsBelow (2 ^ 39) self.old.team }
        ensures worker { IsWorker self.new }
        ensures frame { self.new ≡ with_team self.old self.new.team }
        ensures swept { HasSwept self.old.team self.new.team }
        ensures in_order { SteppedInOrder self.old.order self.old.team self.new.team }
        ensures fired { dates_made self.new.team ≡ dates_made self.old.team + result }

        // The one worker of its line fires each of its stations, where all have made as many dates.
        ensures alone { (times : ℕ) → IsAlone self.old times → times < jobs self.old.live.graph →
            IsAlone self.new (times + 1) }
    {
        gate.pass(self.worker_number);
        let mut fired = 0;
        for nth in 0..self.order.len() {
            if self.turn(live, nth) {
                fired += 1;
            }
        }
        fired
    }

    /// Goes on with a burst: one more sweep, or none where all stations of the worker are done.
    pub fn go_on<G: Gate>(&mut self, live: &Live, gate: &G)
        requires ready { MayGoOn live.now self.old }
        ensures { HasMadeRound self.old self.new }
    {
        if !self.is_done() {
            self.sweep(live, gate);
        }
    }

    /// Lets the worker work for a burst: 16 sweeps, or fewer where all of its stations are done before.
    pub fn work<G: Gate>(&mut self, live: &Live, gate: &G)
        requires ready { IsReadyFor live.now self.old }
        ensures { HasDoneBurst self.old self.new }
    {
        for _sweep in 0..SWEEPS {
            self.go_on(live, gate);
        }
    }

    /// Whether each station of the worker has fired once for each job. It takes no memory.
    pub fn is_done(&self) -> bool
        ensures done { IsTrue result ↔ AllDone self.now.target self.now.team }
        ensures worker { IsWorker self.now }
    {
        all_done(self.team.logs(), self.target)
    }

    /// How many dates the stations of the worker have made together.
    pub fn dates(&self) -> u64
        ensures dates { result ≡ dates_made self.now.team }
        ensures few { result ≤ MAX_STATIONS * MAX_DEMANDS }
        ensures worker { IsWorker self.now }
    {
        dates_made(self.team.logs())
    }

    /// How many turns the stations of the worker have made together.
    pub fn steps(&self) -> u64
        requires { TurnsBelow (2 ^ 40) self.now.team }
        ensures steps { result ≡ turns_made self.now.team }
        ensures few { result ≤ 2 ^ 50 }
        ensures worker { IsWorker self.now }
    {
        turns_made(&self.team.stations)
    }

    /// The greatest number of turns that a station of the worker has made. It takes no memory.
    pub fn turns(&self) -> u64
        ensures most { (i : ℕ) → i < length self.now.team.stations →
            turns_of (member self.now.team.stations i) ≤ result }
        ensures one { 0 < result →
            Any (λ station. turns_of station ≡ result) self.now.team.stations }
        ensures worker { IsWorker self.now }
    {
        most_turns(&self.team.stations)
    }

    /// Brings the two ends of a ring together: output `k` of the worker's station `i`, and input `l` of station `j` of
    /// another worker. All that was put and not taken is then known there, and what was taken to the worker.
    pub fn meet(&mut self, i: u32, k: u32, to: &mut Worker, j: u32, l: u32)
        requires from { i < length self.old.team.stations }
        requires output { k < length (member self.old.team.stations i).outlets }
        requires to { j < length to.old.team.stations }
        requires input { l < length (member to.old.team.stations j).inputs }
        requires ends { AreEnds (outlet_at (member self.old.team.stations i).outlets k)
            (input_at (member to.old.team.stations j).inputs l).inlet }
        ensures from_same { IsSameWorker self.old self.new }
        ensures to_same { IsSameWorker to.old to.new }
        ensures from { OutletMet i k self.old.team self.new.team }
        ensures to { InletMet j l to.old.team to.new.team }
        ensures met { AreMet (outlet_at (member self.new.team.stations i).outlets k)
            (input_at (member to.new.team.stations j).inputs l).inlet }
    {
        meet_teams(&mut self.team, i, k, &mut to.team, j, l);
    }

    /// The allocator from which the worker takes its memory.
    pub fn alloc(&self) -> Global
        ensures { IsWorker self.now }
    {
        self.alloc
    }

    /// The log of station `i` of the worker, counted from 0: its dates, in the order of the jobs. It takes no memory.
    pub fn log(&self, i: u32) -> &[Date]
        requires { i < length self.now.team.stations }
        ensures log { result.now ≡ (log_of (member self.now.team.stations i)).dates }
        ensures worker { IsWorker self.now }
    {
        self.team.log(i)
    }

    /// Gives up the logs of the worker's stations, in the list that the worker has for them. It takes no memory.
    pub fn into_logs(self) -> Logs
        ensures logs { result.logs ≡ map log_of self.team.stations }
        ensures room { result.room ≡ self.spare.room }
        ensures worker { IsWorker self }
    {
        let Worker {
            team,
            mut spare,
            ..
        } = self;
        give_logs(team.into_logs(), &mut spare);
        spare
    }

    /// Gives up the logs of the worker's stations, behind those of a list. It takes no memory.
    pub fn give_logs(self, logs: &mut Logs)
        requires { length logs.old.logs + length self.team.stations ≤ logs.old.room }
        ensures { logs.new ≡
            record logs.old { logs = logs.old.logs ++ map log_of self.team.stations } }
    {
        give_logs(self.team.into_logs(), logs);
    }

    /// Copies the logs of the worker's stations behind those of a list, each with room for a date of each job. Where
    /// memory runs out, some of them may stand there.
    pub fn copy_logs(&self, logs: &mut Logs) -> Result<(), AllocError>
        requires { length logs.old.logs + length self.now.team.stations ≤ logs.old.room }
        ensures { OnOk result (logs.new ≡
            record logs.old {
              logs = logs.old.logs ++
                  map (copy_of self.now.target) self.now.team.stations;
            }) }
    {
        copy_logs(self.alloc, self.team.logs(), self.target, logs)
    }

    /// Counts the turns of the worker's stations from 0 again. Nothing else changes.
    pub fn clear_turns(&mut self)
        ensures { self.new ≡ cleared_worker self.old }
    {
        clear_team(&mut self.team);
    }
}
