ghost use Rattle.std.specs.Prelude.{◌≡◌, ℕ, ◌<◌, map, length};
ghost use Rattle.event_graph.specs.State.{State};
ghost use Rattle.line_base.specs.declared.event.Parts.{Parts};
ghost use Rattle.line_worker.specs.Cleared.{cleared_team};
ghost use Rattle.line_worker.specs.Logs.{log_of};
ghost use Rattle.line_worker.specs.Meeting.{OutletMet, InletMet};
ghost use Rattle.line_worker.specs.Team.{member, IsTeam, AreAt};
ghost use Rattle.station_step.specs.Ends.{AreEnds, AreMet};
ghost use Rattle.station_step.specs.Input.{input_at};
ghost use Rattle.station_step.specs.Station.{outlet_at};

use crate::clearing::clear_stations;
use line_base::{Date, Log};
use station_step::{Shelf, Station, meet_at};
use std::marker::Model;

/// The stations of one worker, and the shelf with their logs and the queues between them.
#[derive(Drop)]
pub struct Team {
    pub(crate) stations: Vec<Station>,
    pub(crate) shelf: Shelf,
}

impl Model for Team {
    ghost use Rattle.line_worker.specs.Team.{WorkTeam, AreAt};

    ghost Value = { WorkTeam };

    ghost view = { λ t. record { stations = t.stations.items; shelf = t.shelf.queues } };

    ghost invariant = { λ t. AreAt t.shelf t.stations.items };
}

impl Team {
    /// A team of these stations, with the shelf on which their logs and the queues between them stand.
    pub fn new(stations: Vec<Station>, shelf: Shelf) -> Team
        requires { AreAt shelf stations.items }
        ensures { result ≡ record { stations = stations.items; shelf = shelf.queues } }
    {
        Team { stations, shelf }
    }

    /// The logs of the stations. It takes no memory.
    pub(crate) fn logs(&self) -> &Vec<Log>
        ensures { result.now.items ≡ map log_of self.now.stations }
    {
        self.shelf.logs()
    }

    /// The log of station `i`: its dates, in the order of the jobs.
    pub(crate) fn log(&self, i: u32) -> &[Date]
        requires { i < length self.now.stations }
        ensures { result.now ≡ (member self.now.stations i).log.dates }
    {
        self.shelf.log(i).dates()
    }

    /// Gives up the logs of the stations. It takes no memory.
    pub(crate) fn into_logs(self) -> Vec<Log>
        ensures { result.items ≡ map log_of self.stations }
    {
        self.shelf.into_logs()
    }
}

/// Brings the two ends of a ring together: output `k` of station `i` of a team, and input `l` of station `j` of
/// another. All that was put and not taken is then known there, and what was taken to the outlet.
pub(crate) fn meet_teams(from: &mut Team, i: u32, k: u32, to: &mut Team, j: u32, l: u32)
    requires from { i < length from.old.stations }
    requires output { k < length (member from.old.stations i).outlets }
    requires to { j < length to.old.stations }
    requires input { l < length (member to.old.stations j).inputs }
    requires ends { AreEnds (outlet_at (member from.old.stations i).outlets k)
        (input_at (member to.old.stations j).inputs l).inlet }
    ensures from { OutletMet i k from.old from.new }
    ensures to { InletMet j l to.old to.new }
    ensures met { AreMet (outlet_at (member from.new.stations i).outlets k)
        (input_at (member to.new.stations j).inputs l).inlet }
    ensures from_team { (g : Parts) (begun : State) (first : ℕ) → IsTeam g begun first from.old →
        IsTeam g begun first from.new }
    ensures to_team { (g : Parts) (begun : State) (first : ℕ) → IsTeam g begun first to.old →
        IsTeam g begun first to.new }
{
    meet_at(
        &mut from.stations[i as usize],
        k,
        &mut to.stations[j as usize],
        l,
    );
}

/// Counts the turns of a team's stations from 0 again. Nothing else changes.
pub(crate) fn clear_team(team: &mut Team)
    ensures { team.new ≡ cleared_team team.old }
{
    clear_stations(&mut team.stations);
}
