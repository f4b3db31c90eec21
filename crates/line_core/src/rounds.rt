ghost use Rattle.std.specs.Prelude.{◌≡◌, ◌+◌, ◌<◌, IfOk};
ghost use Rattle.event_graph.specs.Network.{stations, jobs};
ghost use Rattle.line_core.specs.Consistent.{IsFinished};
ghost use Rattle.line_core.specs.Round.{IsInRound, HasFired};
ghost use Rattle.line_core.specs.Run.{IsReached};

use crate::state::State;
use live_check::Live;
use std::alloc::{AllocError, Global};

/// Fires the station at a rank, where those below it have fired once more than the others.
fn fire_at(state: &mut State, live: &Live, done: u32, rank: u32)
    requires made_for { live.now.graph ≡ state.old.graph }
    requires rank { rank < stations state.old.graph }
    requires more { done < jobs state.old.graph }
    requires round { IsInRound live.now.ranks state.old done rank }
    requires reached { IsReached state.old }
    ensures graph { state.new.graph ≡ state.old.graph }
    ensures reached { IsReached state.new }
    ensures round { IsInRound live.now.ranks state.new done (rank + 1) }
{
    state.fire_ready(live, live.station_at(rank));
}

/// Fires each station once, in the order of the ranks, where each has fired for the first `done` jobs. It takes no
/// memory.
pub fn fire_each(state: &mut State, live: &Live, done: u32)
    requires made_for { live.now.graph ≡ state.old.graph }
    requires more { done < jobs state.old.graph }
    requires fired { HasFired state.old done }
    requires reached { IsReached state.old }
    ensures graph { state.new.graph ≡ state.old.graph }
    ensures reached { IsReached state.new }
    ensures fired { HasFired state.new (done + 1) }
{
    for rank in 0..live.graph().stations() {
        fire_at(state, live, done, rank);
    }
}

/// The state in which every station has fired once for each job, from the start on: job by job, each in the order of
/// the ranks. Memory is taken before the first firing alone.
pub fn run(alloc: Global, live: &Live) -> Result<State, AllocError>
    ensures made_for { IfOk result (λ state. state.graph ≡ live.now.graph) }
    ensures finished { IfOk result (λ state. IsFinished state.graph state.state) }
    ensures reached { IfOk result IsReached }
{
    let mut state = State::start(alloc, live)?;
    for done in 0..live.graph().jobs() {
        fire_each(&mut state, live, done);
    }
    Ok(state)
}
