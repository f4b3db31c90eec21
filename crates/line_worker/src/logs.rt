ghost use Rattle.std.specs.Prelude.{◌≡◌, ℕ, ◌+◌, ◌<◌, ◌≤◌, ◌++◌, map, length, OnOk};
ghost use Rattle.line_worker.specs.Logs.{copy_with, dates_in};
ghost use Rattle.station_step.specs.Shelf.{log_on};

use line_base::{Log, Logs};
use line_core::log_with;
use std::alloc::{AllocError, Global};

/// Gives up the logs of stations, one after the other, behind those of a list. It takes no memory.
pub(crate) fn give_logs(given: Vec<Log>, logs: &mut Logs)
    requires { length logs.old.logs + length given.items ≤ logs.old.room }
    ensures { logs.new ≡ record logs.old { logs = logs.old.logs ++ given.items } }
{
    for log in given {
        logs.add(log);
    }
}

/// Copies the logs of stations, one after the other, behind those of a list, each with room for this many dates.
pub(crate) fn copy_logs(
    alloc: Global,
    copied: &Vec<Log>,
    room: u32,
    logs: &mut Logs,
) -> Result<(), AllocError>
    requires fits { length logs.old.logs + length copied.now.items ≤ logs.old.room }
    requires few { (i : ℕ) → i < length copied.now.items →
        dates_in (log_on copied.now.items i) ≤ room }
    ensures { OnOk result (logs.new ≡
        record logs.old { logs = logs.old.logs ++ map (copy_with room) copied.now.items }) }
{
    for log in copied {
        logs.add(log_with(alloc, log.dates(), room)?);
    }
    Ok(())
}
