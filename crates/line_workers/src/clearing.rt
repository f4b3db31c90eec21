ghost use Rattle.std.specs.Prelude.{◌≡◌, map};
ghost use Rattle.line_worker.specs.Cleared.{cleared_worker};

use line_worker::Worker;

/// Counts the turns of the stations of all workers from 0 again. Nothing else changes.
pub(crate) fn clear_workers(workers: &mut [Worker])
    ensures { workers.new ≡ map cleared_worker workers.old }
{
    for worker in workers.iter_mut() {
        worker.clear_turns();
    }
}
