ghost use Rattle.std.specs.Prelude.{◌≡◌};
ghost use Rattle.event_graph.specs.Table.{date_in};
ghost use Rattle.line_summary.specs.Figures.{IsLine, figures};

use crate::sizes::job_count;
use crate::stages::parts_sum;
use crate::waits::longest_wait;
use line_base::Date;
use line_core::Table;
use line_stats::{last, waiting_total};
use plant_model::{LineNumbers, Plant};

/// The figures of a line that need no memory. A mean is a ratio of two of them: the mean wait is `waited` over
/// `jobs`, the throughput `jobs` over `last`, and the mean number of parts in the line `parts` over `last`.
#[derive(Clone, Copy)]
pub struct Figures {
    /// How many jobs there are.
    pub jobs: u32,
    /// The greatest date of the table, in the plant's unit.
    pub last: Date,
    /// How long all jobs together wait.
    pub waited: u128,
    /// The greatest wait.
    pub most: Date,
    /// The first job that waits that long.
    pub worst: u32,
    /// The sum over time of the parts of all stages: how many there are, added up at each date before the last.
    pub parts: u128,
}

impl Figures {
    /// The figures of a plant's line. It takes no memory, and a few passes over the dates.
    pub fn of(plant: &Plant, numbers: &LineNumbers, table: &Table) -> Figures
        requires { IsLine plant.now numbers.now table.now }
        ensures { result ≡ figures plant.now (date_in table.now.rows) }
    {
        let last = last(table);
        let longest = longest_wait(table);
        Figures {
            jobs: job_count(plant),
            last,
            waited: waiting_total(table),
            most: longest.wait,
            worst: longest.job,
            parts: parts_sum(plant, numbers, table, last),
        }
    }
}
