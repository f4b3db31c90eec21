ghost use Rattle.std.specs.Prelude.{◌≡◌, IfOk};
ghost use Rattle.line_workers.specs.Close.{logs_among, copies_among};
ghost use Rattle.line_worker.specs.Worker.{teams_of};
ghost use Rattle.line_worker.specs.Workers.{live_of, graph_of, AreWorkers};

use line_base::Logs;
use line_worker::Worker;
use live_check::Live;
use std::alloc::{AllocError, Global};

/// The logs of the stations of all workers, in the order of their numbers. They go into the list that the first worker
/// has for them.
pub(crate) fn logs_of(workers: Vec<Worker>) -> Logs
    requires { AreWorkers workers.items }
    ensures { result.logs ≡ logs_among (graph_of workers.items) (teams_of workers.items) }
{
    let mut workers = workers.into_iter();
    let mut logs = workers.next().unwrap().into_logs();
    for worker in workers {
        worker.give_logs(&mut logs);
    }
    logs
}

/// Copies of the logs of the stations of all workers, in the order of their numbers.
pub(crate) fn copies_of(alloc: Global, live: &Live, workers: &[Worker]) -> Result<Logs, AllocError>
    requires workers { AreWorkers workers.now }
    requires made_for { live.now ≡ live_of workers.now }
    ensures { IfOk result (λ logs. logs.logs ≡
        copies_among (graph_of workers.now) (teams_of workers.now)) }
{
    let mut logs = Logs::new(alloc, live.graph().stations())?;
    for worker in workers {
        worker.copy_logs(&mut logs)?;
    }
    Ok(logs)
}
