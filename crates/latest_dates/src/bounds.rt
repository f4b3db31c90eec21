//! What bounds the date of a job at a station. None takes memory.
ghost use Rattle.std.specs.Prelude.{◌≡◌, ℕ, ◌^◌, ◌<◌, ◌≤◌};
ghost use Rattle.event_graph.specs.Network.{arc_count, jobs, StartsAt};
ghost use Rattle.latest_dates.specs.ArcBounds.{AreBoundsOf};
ghost use Rattle.latest_dates.specs.Found.{date_index, latest_in, HasDates, LeavesTime};
ghost use Rattle.latest_dates.specs.Latest.{promised_date, bound, earliest_bound};
ghost use Rattle.what_if.specs.Page.{IsDate};
ghost use Rattle.what_if.specs.Sheet.{date_count};

use crate::arc_bounds::{ArcBound, added_time};
use crate::latest_date::LatestDate;
use event_graph::Graph;
use live_check::Live;

/// The index of job `n` at station `t` in the list of latest dates: those of a station follow one another.
pub fn date_index(graph: &Graph, t: u32, n: u32) -> usize
    requires { IsDate graph.now t n }
    ensures date_index { result ≡ date_index graph.now t n }
    ensures below { result < date_count graph.now }
{
    t as usize * graph.jobs() as usize + (n as usize - 1)
}

/// The latest date of job `n` at station `t`.
pub fn latest_at(dates: &[LatestDate], live: &Live, t: u32, n: u32) -> LatestDate
    requires date { IsDate live.now.graph t n }
    requires one_for_each { HasDates live.now dates.now }
    ensures { result ≡ latest_in live.now dates.now t n }
{
    dates[date_index(live.graph(), t, n)]
}

/// At the delivery, the date until which the customer of job `n` waits.
fn promised_date(graph: &Graph, wait: u64, t: u32, n: u32) -> LatestDate
    requires date { IsDate graph.now t n }
    requires small { wait < 2 ^ 63 }
    ensures { result ≡ promised_date graph.now wait t n }
{
    if t == graph.stations() - 1 {
        LatestDate::at(graph.demand(n) + wait)
    } else {
        LatestDate::none()
    }
}

/// How late job `n` may be at the start of arc `a`, by the job that takes its token at the arc's end, if there is one.
fn bound(dates: &[LatestDate], bounds: &[ArcBound], live: &Live, a: u32, n: u32) -> LatestDate
    requires arc { a < arc_count live.now.graph }
    requires from_one { 1 ≤ n }
    requires job { n ≤ jobs live.now.graph }
    requires one_for_each { HasDates live.now dates.now }
    requires bounds { AreBoundsOf live.now.graph bounds.now }
    requires time { LeavesTime live.now.graph (latest_in live.now dates.now) n a }
    ensures { result ≡ bound live.now.graph (latest_in live.now dates.now) n a }
{
    let graph = live.graph();
    let arc = bounds[a as usize];
    let job = n + arc.tokens;
    if job > graph.jobs() {
        return LatestDate::none();
    }
    let added = added_time(graph, arc.added, a, job);
    let index = arc.first + (job as usize - 1);
    dates[index].less(added)
}

/// The earliest of all that bounds job `n` at station `t`. It takes one look at each arc out of the station.
pub fn earliest_bound(
    dates: &[LatestDate],
    bounds: &[ArcBound],
    live: &Live,
    wait: u64,
    t: u32,
    n: u32,
) -> LatestDate
    requires date { IsDate live.now.graph t n }
    requires small { wait < 2 ^ 63 }
    requires one_for_each { HasDates live.now dates.now }
    requires bounds { AreBoundsOf live.now.graph bounds.now }
    requires time { (a : ℕ) → StartsAt live.now.graph t a
        → LeavesTime live.now.graph (latest_in live.now dates.now) n a }
    ensures { result ≡ earliest_bound live.now.graph wait (latest_in live.now dates.now) t n }
{
    let graph = live.graph();
    let outs = graph.outs(t);
    let mut earliest = promised_date(graph, wait, t, n);
    for a in outs {
        let bound = bound(dates, bounds, live, *a, n);
        earliest = earliest.earlier(bound);
    }
    earliest
}
