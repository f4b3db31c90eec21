ghost use Rattle.std.specs.Prelude.{◌≡◌};
ghost use Rattle.line_core.specs.Consistent.{IsFinished};
ghost use Rattle.line_workers.specs.Line.{IsLine};
ghost use Rattle.line_runs.specs.Bursts.{IsBurst, IsDone};
ghost use Rattle.line_runs.specs.Standing.{GoesOn};

use line_workers::{Gate, Line};
use live_check::Live;
use std::thread::Threads;

/// Lets a line work for a burst that has firings left.
pub(crate) fn burst_on<R: Threads + Sync, G: Gate>(rt: &R, live: &Live, line: &mut Line, gate: &G)
    requires made_for { live.now ≡ line.old.live }
    requires undone { ¬ IsDone line.old }
    ensures { IsBurst line.old line.new }
{
    line.burst(rt, live, gate);
}

/// Lets a line work, burst by burst, until every station has fired once for each job. It takes no
/// memory.
pub(crate) fn finish<R: Threads + Sync, G: Gate>(rt: &R, line: Line, live: &Live, gate: &G) -> Line
    requires line { IsLine line }
    requires made_for { live.now ≡ line.live }
    ensures goes_on { GoesOn line result }
    ensures finished { IsFinished result.live.graph result.state }
{
    let mut line = line;
    while !line.finished() {
        burst_on(rt, live, &mut line, gate);
    }
    line
}
