//! Sums of counts over time, from the dates of the jobs: a job that is done at a date counts at every date from that
//! one on, so it adds the time from its date to the end.
ghost use Rattle.std.specs.Prelude.{◌≡◌, ◌+◌, ◌-◌, ◌*◌, ◌<◌, ◌≤◌, ◌^◌, length, sum_by};
ghost use Rattle.event_graph.specs.Network.{stations};
ghost use Rattle.event_graph.specs.Table.{date_in};
ghost use Rattle.line_core.specs.Run.{IsLeastTable};
ghost use Rattle.line_stats.specs.Counts.{jobs_done, count_until};
ghost use Rattle.line_summary.specs.OverTime.{sum_until};

use line_base::{Date, MAX_DEMANDS};
use line_core::Table;

/// The time from each date, with a travel behind it, to the end, together.
fn time_left(dates: &[Date], travel: Date, end: Date) -> u128
    requires { length dates.now ≤ MAX_DEMANDS }
    ensures { result ≡ sum_by (λ date. end - travel - date) dates.now }
{
    let left = end.saturating_sub(travel);
    dates
        .iter()
        .map(|&date| u128::from(left.saturating_sub(date)))
        .sum()
}

/// The sum over time, up to the end, of how many jobs a station has done.
pub fn done_sum(table: &Table, t: u32, end: Date) -> u128
    requires { t < stations table.now.graph }
    ensures sum { result ≡ sum_until end (jobs_done table.now.graph (date_in table.now.rows) t) }
    ensures small { result ≤ 20_000 * 2 ^ 64 }
    ensures least { IsLeastTable table.now }
{
    time_left(table.dates(t), 0, end)
}

/// The sum over time, up to the end, of how many jobs of a station have ended their travel.
pub fn arrived_sum(table: &Table, t: u32, travel: Date, end: Date) -> u128
    requires { t < stations table.now.graph }
    ensures sum { result ≡ sum_until end (count_until table.now.graph (λ n. date_in table.now.rows t n + travel)) }
    ensures small { result ≤ 20_000 * 2 ^ 64 }
    ensures least { IsLeastTable table.now }
{
    time_left(table.dates(t), travel, end)
}
