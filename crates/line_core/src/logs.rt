ghost use Rattle.std.specs.Prelude.{◌≡◌, ◌≤◌, length, IfOk};

use line_base::{Date, Log};
use std::alloc::{AllocError, Global};

/// A log with these dates, and room for this many.
pub fn log_with(alloc: Global, dates: &[Date], room: u32) -> Result<Log, AllocError>
    requires { length dates.now ≤ room }
    ensures { IfOk result (λ log. log ≡ record { dates = dates.now; room = room }) }
{
    let mut log = Log::new(alloc, room)?;
    for date in dates {
        log.add(*date);
    }
    Ok(log)
}
