ghost use Rattle.std.specs.Prelude.{◌≡◌, ◌<◌, IfOk};
ghost use Rattle.event_graph.specs.Network.{stations, jobs, demand};
ghost use Rattle.line_core.specs.Run.{IsLeastTable};
ghost use Rattle.what_if.specs.Edited.{times_of, inputs_of};

use crate::row::Row;
use event_graph::Graph;
use line_core::Table;
use live_check::Live;
use std::alloc::{AllocError, Global};

/// The rank of each station.
pub fn ranks_of(alloc: Global, live: &Live) -> Result<Vec<u32>, AllocError>
    ensures { IfOk result (λ ranks. ranks.items ≡ live.now.ranks) }
{
    let stations = live.graph().stations();
    let mut ranks = Vec::with_capacity(alloc, stations as usize)?;
    for t in 0..stations {
        ranks.push_reserved(live.place_of(t));
    }
    Ok(ranks)
}

/// The time of each job at station `t`.
fn times_of(alloc: Global, graph: &Graph, t: u32) -> Result<Row, AllocError>
    requires { t < stations graph.now }
    ensures { IfOk result (λ times. times ≡ times_of graph.now t) }
{
    let jobs = graph.jobs();
    let mut times = Vec::with_capacity(alloc, jobs as usize)?;
    for n in 0..jobs {
        times.push_reserved(graph.time(t, n + 1));
    }
    Ok(Row::from_vec(times))
}

/// The time of each job at each station.
pub fn all_times(alloc: Global, graph: &Graph) -> Result<Vec<Row>, AllocError>
    ensures { IfOk result (λ times. times.items ≡ (inputs_of graph.now).times) }
{
    let stations = graph.stations();
    let mut rows = Vec::with_capacity(alloc, stations as usize)?;
    for t in 0..stations {
        rows.push_reserved(times_of(alloc, graph, t)?);
    }
    Ok(rows)
}

/// The demand date of each job.
pub fn demands_of(alloc: Global, graph: &Graph) -> Result<Row, AllocError>
    ensures { IfOk result (λ demands. demands ≡ (inputs_of graph.now).demands) }
{
    let jobs = graph.jobs();
    let mut dates = Vec::with_capacity(alloc, jobs as usize)?;
    for n in 0..jobs {
        dates.push_reserved(graph.demand(n + 1));
    }
    Ok(Row::from_vec(dates))
}

/// The dates of a table, a row for each station.
pub fn rows_of(alloc: Global, table: &Table) -> Result<Vec<Row>, AllocError>
    ensures rows { IfOk result (λ rows. rows.items ≡ table.now.rows) }
    ensures least { IsLeastTable table.now }
{
    let stations = table.stations();
    let mut rows = Vec::with_capacity(alloc, stations as usize)?;
    for t in 0..stations {
        rows.push_reserved(Row::of(alloc, table.dates(t))?);
    }
    Ok(rows)
}
