//! What is said of a whole table of dates.
ghost use Rattle.std.specs.List.{range_with_len};
ghost use Rattle.std.specs.Prelude.{◌≡◌, ◌≤◌, length, sum_by};
ghost use Rattle.event_graph.specs.GreatestValue.{greatest};
ghost use Rattle.event_graph.specs.Table.{date_in};
ghost use Rattle.line_stats.specs.Counts.{last_date, waiting};

use line_base::Date;
use line_core::Table;
use plant_model::FEED;

/// The greatest of the dates, 0 where there is none.
fn latest(dates: &[Date]) -> Date
    ensures { result ≡ greatest (λ date. date) dates.now }
{
    match dates.iter().max() {
        Some(date) => *date,
        None => 0,
    }
}

/// The greatest date of the table, in the plant's unit.
///
/// It takes no memory, and one pass over all dates.
pub fn last(table: &Table) -> Date
    ensures { result ≡ last_date table.now.graph (date_in table.now.rows) }
{
    let mut last: Date = 0;
    for t in 0..table.stations() {
        last = last.max(latest(table.dates(t)));
    }
    last
}

/// How long all jobs together wait for their delivery, in the plant's unit: the sum of the dates of the last station,
/// each less the date of the feed for that job. In the table of a plant no delivery comes before its demand.
///
/// It takes no memory, and one pass over the dates of the two stations.
pub fn waiting_total(table: &Table) -> u128
    ensures { result ≡ waiting table.now.graph (date_in table.now.rows) }
{
    let delivered = table.dates(table.stations() - 1);
    let demanded = table.dates(FEED);
    let mut waiting = 0;
    for (job, date) in delivered.iter().enumerate() {
        waiting += u128::from(date.saturating_sub(demanded[job]));
    }
    waiting
}
