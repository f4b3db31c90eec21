//! The longest wait, and the greatest backlog.
ghost use Rattle.std.specs.Prelude.{◌≡◌};
ghost use Rattle.event_graph.specs.Table.{date_in};
ghost use Rattle.line_core.specs.Run.{IsLeastTable};
ghost use Rattle.line_summary.specs.Figures.{IsLine};
ghost use Rattle.line_summary.specs.Waits.{most_wait, worst_job};
ghost use Rattle.line_summary.specs.OverTime.{most_backlog};

use line_base::Date;
use line_core::Table;
use line_stats::backlog;
use plant_model::{FEED, LineNumbers, Plant};

/// The greatest wait, and the first job that waits that long.
#[derive(Clone, Copy)]
pub struct LongestWait {
    pub wait: Date,
    pub job: u32,
}

/// The greatest wait of a table, and the first job that has it. It takes no memory.
pub fn longest_wait(table: &Table) -> LongestWait
    ensures wait { result.wait ≡ most_wait table.now.graph (date_in table.now.rows) }
    ensures job { result.job ≡ worst_job table.now.graph (date_in table.now.rows) }
{
    let delivered = table.dates(table.stations() - 1);
    let demanded = table.dates(FEED);
    let mut most = 0;
    let mut job = 1;
    for (before, date) in delivered.iter().enumerate() {
        let wait = date.saturating_sub(demanded[before]);
        if wait > most {
            most = wait;
            job = before as u32 + 1;
        }
    }
    LongestWait { wait: most, job }
}

/// The greatest backlog at any date: it is reached as a demand comes. It takes no memory, and halves the dates of the
/// feed and of the delivery for each job.
pub fn most_backlog(plant: &Plant, numbers: &LineNumbers, table: &Table) -> u32
    requires { IsLine plant.now numbers.now table.now }
    ensures most { result ≡ most_backlog plant.now (date_in table.now.rows) }
    ensures least { IsLeastTable table.now }
{
    // called for its clause: the table is the least solution of its graph
    let _stations = table.stations();
    let mut most = 0;
    for date in table.dates(FEED) {
        most = most.max(backlog(numbers, table, *date));
    }
    most
}
