ghost use Rattle.std.specs.Prelude.{◌≡◌};
ghost use Rattle.line_core.specs.Consistent.{firing_count};
ghost use Rattle.line_runs.specs.Headline.{EndsWell};
ghost use Rattle.line_runs.specs.Stop.{EndsFirst, CountsWell};

use crate::run::table_of;
use crate::scheduler::bursts::burst_on;
use line_core::{State, Table};
use line_workers::{Gate, Line};
use live_check::Live;
use std::thread::Threads;

/// How a run ends that is to stop.
#[derive(Drop)]
pub enum Outcome {
    /// All firings were made first: their dates.
    Finished(Table),
    /// The run stopped before all firings were made, in this state.
    Stopped(State),
}

/// Lets a line work until this many firings are made, those with which it begins among them, and
/// stops it at the first burst's end, or before the first burst, where they are. Where all firings
/// are made first, the run is finished. It takes no memory: a state that it stops in has the very
/// logs of the line.
pub fn run_until<R: Threads + Sync, G: Gate>(
    rt: &R,
    live: &Live,
    line: Line,
    firings: u64,
    gate: &G,
) -> Outcome
    requires { live.now ≡ line.live }
    ensures headline { EndsWell live.now.graph result }
    ensures stop { EndsFirst firings line result }
    ensures count { CountsWell live.now.graph firings (firing_count line.state) result }
{
    let mut line = line;
    while !line.finished() {
        if line.fired() >= firings {
            return Outcome::Stopped(line.close(live));
        }
        burst_on(rt, live, &mut line, gate);
    }
    Outcome::Finished(table_of(live, line))
}
