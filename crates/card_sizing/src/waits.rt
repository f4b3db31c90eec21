//! How long jobs wait for their delivery, job by job, up to the first that waits longer than it may.
ghost use Rattle.std.specs.Prelude.{◌≡◌, ◌+◌, ◌-◌, ◌<◌, MatchOption, IfSome};
ghost use Rattle.card_sizing.specs.Serving.{wait_until, NoneIsLateIn, IsFirstLateIn};
ghost use Rattle.event_graph.specs.Least.{IsLeast};
ghost use Rattle.event_graph.specs.Network.{stations, jobs};
ghost use Rattle.event_graph.specs.Table.{Table};
ghost use Rattle.line_core.specs.Round.{HasFired};
ghost use Rattle.line_core.specs.Run.{IsReached};

use crate::late_job::LateJob;
use line_core::{State, fire_each};
use live_check::Live;
use plant_model::FEED;

/// How long the job waits that every station made last.
fn last_wait(state: &State, live: &Live, done: u32) -> u64
    requires made_for { live.now.graph ≡ state.now.graph }
    requires more { done < jobs state.now.graph }
    requires fired { HasFired state.now (done + 1) }
    requires reached { IsReached state.now }
    ensures { (x : Table) → IsLeast live.now.graph x →
        wait_until x (stations live.now.graph - 1) (done + 1) ≡ result }
{
    let delivered = state.log(live.graph().stations() - 1);
    let demanded = state.log(FEED);
    delivered[done as usize].saturating_sub(demanded[done as usize])
}

/// The first job that waits longer than `may` until the last station is done with it. The line runs from its start, job
/// by job, and no further than to that job.
pub fn first_late(state: &mut State, live: &Live, may: u64) -> Option<LateJob>
    requires made_for { live.now.graph ≡ state.old.graph }
    requires none_fired { HasFired state.old 0 }
    requires reached { IsReached state.old }
    ensures first { MatchOption result
        (NoneIsLateIn live.now.graph may)
        (λ late. IsFirstLateIn live.now.graph may late.job late.wait) }
    ensures stops { IfSome result (λ late. HasFired state.new late.job) }
{
    for done in 0..live.graph().jobs() {
        fire_each(state, live, done);
        let wait = last_wait(state, live, done);
        if wait > may {
            let job = done + 1;
            return Some(LateJob { job, wait });
        }
    }
    None
}
