ghost use Rattle.std.specs.Prelude.{◌≡◌};
ghost use Rattle.line_core.specs.Consistent.{IsFinished};
ghost use Rattle.line_runs.specs.Standing.{GoesOn};

use crate::scheduler::apart::sweep_apart;
use crate::scheduler::bursts::finish;
use line_workers::{Gate, Line};
use live_check::Live;
use std::sync::Wait;
use std::thread::Threads;

/// Lets the workers of a line sweep side by side, and gathers them.
fn sweep_and_gather<R: Threads + Wait, G: Gate>(rt: &R, line: Line, live: &Live, gate: &G) -> Line
    requires { live.now ≡ line.live }
    ensures { GoesOn line result }
{
    let workers = sweep_apart(rt, line.workers(), live, gate);
    Line::gather(live, workers)
}

/// Runs a line to its end with workers that stay in their threads: each goes over its stations again
/// and again, without meeting the others, until all of them are done. The first worker stays on the
/// thread of the caller. Where a thread is refused all workers stop, and bursts make the firings that
/// are left, so there is no answer for a thread.
///
/// It takes no memory. It waits for its threads, and owes no return.
pub(crate) fn stand<R: Threads + Wait + Sync, G: Gate>(
    rt: &R,
    line: Line,
    live: &Live,
    gate: &G,
) -> Line
    requires made_for { live.now ≡ line.live }
    ensures goes_on { GoesOn line result }
    ensures finished { IsFinished result.live.graph result.state }
{
    let line = sweep_and_gather(rt, line, live, gate);
    finish(rt, line, live, gate)
}
