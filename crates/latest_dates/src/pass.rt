ghost use Rattle.std.specs.Prelude.{◌≡◌, ◌-◌, ◌*◌, ◌^◌, ◌<◌, ◌≤◌, false, IfOk, IfErr};
ghost use Rattle.event_graph.specs.Network.{stations, jobs};
ghost use Rattle.event_graph.specs.Table.{date_in};
ghost use Rattle.latest_dates.specs.ArcBounds.{AreBoundsOf};
ghost use Rattle.latest_dates.specs.Found.{latest_in, HasDates, IsFound, IsInTime, IsLatestRefusal, NoneIsBefore};
ghost use Rattle.latest_dates.specs.Latest.{AreLatest};
ghost use Rattle.latest_dates.specs.Pass.{AreLatestFrom, IsServable};
ghost use Rattle.outside_io.specs.Outgoing.{nothing_waiting};

use crate::arc_bounds::{ArcBound, arc_bounds};
use crate::bounds::{date_index, earliest_bound};
use crate::error::LatestError;
use crate::latest_date::LatestDate;
use crate::waits::check_waits;
use line_core::Table;
use live_check::Live;
use outside_io::Outgoing;
use std::alloc::{AllocError, Global};

/// Finds the latest dates of job `n`, where those of later jobs are found. It goes against the order of the stations.
fn find_job(dates: &mut [LatestDate], bounds: &[ArcBound], live: &Live, wait: u64, n: u32)
    requires from_one { 1 ≤ n }
    requires job { n ≤ jobs live.now.graph }
    requires small { wait < 2 ^ 63 }
    requires bounds { AreBoundsOf live.now.graph bounds.now }
    requires servable { IsServable live.now.graph wait }
    requires one_for_each { HasDates live.now dates.old }
    requires later { AreLatestFrom live.now wait (latest_in live.now dates.old) (n * stations live.now.graph) }
    ensures one_for_each { HasDates live.now dates.new }
    ensures latest { AreLatestFrom live.now wait (latest_in live.now dates.new)
        ((n - 1) * stations live.now.graph) }
{
    let graph = live.graph();
    let stations = graph.stations();
    for above in 0..stations {
        let t = live.station_at(stations - 1 - above);
        let latest = earliest_bound(dates, bounds, live, wait, t, n);
        dates[date_index(graph, t, n)] = latest;
    }
}

/// The latest dates of a run in which no job waits longer than `wait`, station by station. It goes once from the last
/// date to the first, by job and then by the rank of the station, and takes memory for the dates and the arcs alone.
///
/// Source of the rule: Baccelli, Cohen, Olsder and Quadrat, Synchronization and Linearity, backward equations.
fn latest_of(
    alloc: Global,
    live: &Live,
    table: &Table,
    wait: u64,
) -> Result<Vec<LatestDate>, AllocError>
    requires of_graph { table.now.graph ≡ live.now.graph }
    requires small { wait < 2 ^ 63 }
    requires in_time { IsInTime live.now.graph (date_in table.now.rows) wait }
    ensures one_for_each { IfOk result (λ dates. HasDates live.now dates.items) }
    ensures latest { IfOk result
        (λ dates. AreLatest live.now.graph wait (latest_in live.now dates.items)) }
    ensures not_before { IfOk result
        (λ dates. NoneIsBefore live.now.graph (date_in table.now.rows) (latest_in live.now dates.items)) }
{
    // called for its clause: the table is the least solution of its graph
    let _least = table.stations();
    let graph = live.graph();
    let jobs = graph.jobs();
    let count = graph.stations() * jobs;
    let bounds = arc_bounds(alloc, graph)?;
    let mut dates = vec![in alloc; LatestDate::none(); count as usize]?;
    for behind in 0..jobs {
        find_job(&mut dates, &bounds, live, wait, jobs - behind);
    }
    Ok(dates)
}

/// The latest dates of a run, and room for one piece of their text; or the first job that waits longer than `wait`.
pub fn dates_of(
    alloc: Global,
    live: &Live,
    table: &Table,
    wait: u64,
) -> Result<(Vec<LatestDate>, Outgoing), LatestError>
    requires of_graph { table.now.graph ≡ live.now.graph }
    requires small { wait < 2 ^ 63 }
    ensures found { IfOk result (λ made. IsFound (record {
      live = live.now;
      rows = table.now.rows;
      may = wait;
      dates = made.0.items;
    })) }
    ensures room { IfOk result (λ made. made.1 ≡ nothing_waiting false) }
    ensures refused { IfErr result (IsLatestRefusal live.now.graph (date_in table.now.rows) wait) }
{
    // called for its clause: the table is the least solution of its graph
    let _least = table.stations();
    check_waits(live.graph(), table, wait)?;
    let out = Outgoing::new(alloc)?;
    let dates = latest_of(alloc, live, table, wait)?;
    Ok((dates, out))
}
