use crate::latest_date::LatestDate;
use line_core::Table;
use live_check::Live;

/// A run with its latest dates: what writing them looks at.
#[derive(Drop)]
pub struct LatestRun {
    pub live: Live,
    /// The dates of the run.
    pub table: Table,
    /// How long a customer may wait.
    pub wait: u64,
    /// The latest dates, those of a station one after another.
    pub dates: Vec<LatestDate>,
}
