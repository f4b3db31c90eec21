ghost use Rattle.std.specs.Prelude.{◌≡◌};
ghost use Rattle.line_runs.specs.Bursts.{IsDone};
ghost use Rattle.line_runs.specs.AllFirings.{all_firings};
ghost use Rattle.line_runs.specs.Scheduler.{EndsFrom};
ghost use Rattle.line_runs.specs.Stop.{FinishesBefore};
ghost use Rattle.line_runs.specs.Table.{IsLeastOf};

use crate::scheduler::bursts::burst_on;
use crate::scheduler::long_burst::begin_long;
use crate::scheduler::standing::stand;
use line_core::Table;
use line_workers::{Gate, Line};
use live_check::Live;
use std::sync::Wait;
use std::thread::Threads;

/// The dates of a line that has made all of its firings. It takes no memory.
pub(crate) fn table_of(live: &Live, line: Line) -> Table
    requires made_for { live.now ≡ line.live }
    requires done { IsDone line }
    ensures table { IsLeastOf live.now.graph result }
    ensures dates { result.rows ≡ line.state.logs }
{
    line.close(live).into_table(live)
}

/// Lets a line work, burst by burst, until every station has fired once for each job. The table
/// that it answers is the least solution of its graph, whatever the number of workers and whatever
/// their threads do. It takes no memory.
///
/// It makes at most one burst for each station and job. One worker whose stations have fired as often
/// as each other, as at the start, makes a firing with every step.
pub fn run_to_end<R: Threads + Sync, G: Gate>(rt: &R, live: &Live, line: Line, gate: &G) -> Table
    requires { live.now ≡ line.live }
    ensures least { IsLeastOf live.now.graph result }
    ensures bursts { FinishesBefore (all_firings live.now.graph) line result }
{
    let mut line = line;
    while !line.finished() {
        burst_on(rt, live, &mut line, gate);
    }
    table_of(live, line)
}

/// Runs a line to its end: it begins with a long burst where it has several workers, and what is left then goes burst by
/// burst. The table is that of `run_to_end`. It takes no memory.
///
/// In a long burst all workers sweep at the same time, each in a thread of its own, and meet once, at its end. They
/// leave it when all of their stations are done, or when one of them has found nothing to fire for too long.
pub fn run_through<R: Threads + Sync, G: Gate>(rt: &R, live: &Live, line: Line, gate: &G) -> Table
    requires { live.now ≡ line.live }
    ensures least { IsLeastOf live.now.graph result }
    ensures ends { EndsFrom line result }
{
    let begun = begin_long(rt, line, live, gate);
    run_to_end(rt, live, begun, gate)
}

/// Lets the workers of a line stand in their threads until every station has fired once for each
/// job, and only then meets them. The table is that of `run_to_end`. It takes no memory. It waits
/// for its threads, and owes no return.
pub fn run_standing<R: Threads + Wait + Sync, G: Gate>(
    rt: &R,
    live: &Live,
    line: Line,
    gate: &G,
) -> Table
    requires { live.now ≡ line.live }
    ensures least { IsLeastOf live.now.graph result }
    ensures ends { EndsFrom line result }
{
    let line = stand(rt, line, live, gate);
    table_of(live, line)
}
