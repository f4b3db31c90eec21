ghost use Rattle.std.specs.List.{Any};
ghost use Rattle.std.specs.Prelude.{◌≡◌, ◌*◌, ◌<◌, ◌≤◌, ◌^◌, ℕ, length, sum_by, IsTrue, ◌↔◌};
ghost use Rattle.line_base.specs.declared.limits.TheConstants.{MAX_STATIONS, MAX_DEMANDS};
ghost use Rattle.line_worker.specs.Logs.{dates_in};
ghost use Rattle.line_worker.specs.Team.{member};
ghost use Rattle.line_worker.specs.Work.{turns_of};
ghost use Rattle.station_step.specs.Shelf.{log_on};

use line_base::Log;
use station_step::Station;

/// How many dates these logs have together.
pub(crate) fn dates_made(logs: &Vec<Log>) -> u64
    requires count { length logs.now.items ≤ MAX_STATIONS }
    requires few { (i : ℕ) → i < length logs.now.items →
        dates_in (log_on logs.now.items i) ≤ MAX_DEMANDS }
    ensures dates { result ≡ sum_by dates_in logs.now.items }
    ensures few { result ≤ MAX_STATIONS * MAX_DEMANDS }
{
    logs.iter().map(|log| log.dates().len() as u64).sum()
}

/// How many turns these stations have made together.
pub(crate) fn turns_made(stations: &Vec<Station>) -> u64
    requires count { length stations.now.items ≤ MAX_STATIONS }
    requires few { (i : ℕ) → i < length stations.now.items →
        turns_of (member stations.now.items i) < 2 ^ 40 }
    ensures turns { result ≡ sum_by turns_of stations.now.items }
    ensures few { result ≤ 2 ^ 50 }
{
    stations.iter().map(Station::turns).sum()
}

/// Whether each of these logs has this many dates.
pub(crate) fn all_done(logs: &Vec<Log>, target: u32) -> bool
    requires { (i : ℕ) → i < length logs.now.items →
        dates_in (log_on logs.now.items i) ≤ target }
    ensures { IsTrue result ↔ ((i : ℕ) → i < length logs.now.items →
        dates_in (log_on logs.now.items i) ≡ target) }
{
    logs.iter().all(|log| log.dates().len() >= target as usize)
}

/// The greatest number of turns that one of these stations has made.
pub(crate) fn most_turns(stations: &Vec<Station>) -> u64
    ensures most { (i : ℕ) → i < length stations.now.items →
        turns_of (member stations.now.items i) ≤ result }
    ensures one { 0 < result → Any (λ station. turns_of station ≡ result) stations.now.items }
{
    stations.iter().map(Station::turns).max().unwrap_or(0)
}
