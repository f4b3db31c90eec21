//! The sum of all dates of a table.
ghost use Rattle.std.specs.Prelude.{◌≡◌, ◌≤◌, length, sum};
ghost use Rattle.event_graph.specs.Table.{date_in};
ghost use Rattle.line_stats.specs.DateSums.{date_total};

use line_base::{Date, MAX_DEMANDS};
use line_core::Table;

/// The sum of the dates of a station.
fn row_total(dates: &[Date]) -> u128
    requires few { length dates.now ≤ MAX_DEMANDS }
    ensures { result ≡ sum dates.now }
{
    dates.iter().map(|&date| u128::from(date)).sum()
}

/// The sum of the dates of all jobs at all stations, in the plant's unit. It fits 128 bits: a table has at most 512
/// stations and 20,000 jobs, and a date is below 2^64.
///
/// It takes no memory, and one pass over all dates.
pub fn date_total(table: &Table) -> u128
    ensures { result ≡ date_total table.now.graph (date_in table.now.rows) }
{
    let mut total = 0;
    for t in 0..table.stations() {
        total += row_total(table.dates(t));
    }
    total
}
