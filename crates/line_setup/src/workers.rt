ghost use Rattle.std.specs.Prelude.{IfOk};
ghost use Rattle.line_setup.specs.NewWorkers.{AreNewWorkers};
ghost use Rattle.line_setup.specs.Start.{MayBegin};
ghost use Rattle.event_graph.specs.Reached.{Reached};

use crate::making::teams_of;
use crate::start::Start;
use line_worker::Worker;
use std::alloc::{AllocError, Global};

/// The workers of a line, whose stations go on from a state, with all memory of the run.
pub fn workers_of(alloc: Global, start: &Start) -> Result<Vec<Worker>, AllocError>
    requires may_begin { MayBegin start.now }
    requires reached { Reached start.now.live.now.graph start.now.state.now.state }
    ensures { IfOk result (λ workers.
        AreNewWorkers start.now.live.now start.now.state.now.state start.now.worker_count start.now.room
        workers.items) }
{
    let teams = teams_of(alloc, start)?;
    let mut workers = Vec::with_capacity(alloc, start.worker_count as usize)?;
    for team in teams {
        let worker_number = workers.len() as u32;
        let worker = Worker::of(
            alloc,
            start.live,
            start.state,
            start.worker_count,
            start.room,
            worker_number,
            team,
        )?;
        workers.push_reserved(worker);
    }
    Ok(workers)
}
