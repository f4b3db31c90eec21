ghost use Rattle.std.specs.Prelude.{◌≡◌, ◌≤◌, None, Some, IfOk, IfSome};
ghost use Rattle.event_graph.specs.State.{start};
ghost use Rattle.line_base.specs.Limits.{most_workers, most_ring_room};
ghost use Rattle.line_runs.specs.Scheduler.{Pay, IsLineOfRun};
ghost use Rattle.line_workers.specs.Line.{IsLine};

use line_workers::Line;
use live_check::Live;
use std::alloc::{AllocError, Global};

/// How many stations each worker has at least where several pay.
///
/// A token takes as long from one processor to another as some ten to twenty firings, so a worker with few stations waits
/// more than it fires: two with 25 each took no less than one alone, but four with 32 did. This was measured, and nothing
/// is proved of it.
pub const STATIONS_EACH: u32 = 30;

/// How many of this many workers pay: as many as have stations enough, or one.
pub(crate) fn paying_workers(live: &Live, workers: u32) -> u32
    requires { 1 ≤ workers }
    ensures { Pay live.now.graph workers result }
{
    let pay = live.graph().stations() / STATIONS_EACH;
    if workers <= pay {
        workers
    } else if pay > 0 {
        pay
    } else {
        1
    }
}

/// The line at the start by as many of this many workers as pay, with rings whose room has no bound.
fn line_of_paying(alloc: Global, live: &Live, workers: u32) -> Result<Line, AllocError>
    requires some { 1 ≤ workers }
    requires few { workers ≤ most_workers }
    ensures line { IfOk result IsLine }
    ensures of_run { IfOk result (IsLineOfRun None live.now (start live.now.graph) workers) }
{
    let line = Line::prepare(alloc, live, paying_workers(live, workers))?;
    Ok(line)
}

/// The line at the start by all of this many workers, with rings of this room.
fn line_of_all(alloc: Global, live: &Live, workers: u32, room: u32) -> Result<Line, AllocError>
    requires some { 1 ≤ workers }
    requires few { workers ≤ most_workers }
    requires some_room { 1 ≤ room }
    requires most_room { room ≤ most_ring_room }
    ensures line { IfOk result IsLine }
    ensures of_run { IfOk result (IsLineOfRun (Some room) live.now (start live.now.graph) workers) }
{
    let line = Line::prepare_room(alloc, live, workers, room)?;
    Ok(line)
}

/// The line of a run from the start that was asked for this many workers: as many of them as pay, or, where a room is
/// given, all of them with rings of this room. Workers that don't pay are never made. It takes all memory of the run, and
/// fails only where there isn't enough.
pub fn line_of_run(
    alloc: Global,
    live: &Live,
    workers: u32,
    room: Option<u32>,
) -> Result<Line, AllocError>
    requires some { 1 ≤ workers }
    requires few { workers ≤ most_workers }
    requires room { IfSome room (λ n. (1 ≤ n) × (n ≤ most_ring_room)) }
    ensures line { IfOk result IsLine }
    ensures live { IfOk result (λ line. live.now ≡ line.live) }
    ensures of_run { IfOk result (IsLineOfRun room live.now (start live.now.graph) workers) }
{
    match room {
        None => line_of_paying(alloc, live, workers),
        Some(room) => line_of_all(alloc, live, workers, room),
    }
}
