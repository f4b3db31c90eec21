//! The waits that a share of the jobs don't exceed.
ghost use Rattle.std.specs.List.Sorted.{IsNonDecreasing};
ghost use Rattle.std.specs.Prelude.{◌≡◌, ◌==◌, ◌*◌, ◌<◌, ◌≤◌, ℕ, length, count_by, IfOk, IsPermutation};
ghost use Rattle.event_graph.specs.Table.{date_in};
ghost use Rattle.line_stats.specs.Between.{dates_until};
ghost use Rattle.line_summary.specs.Summarized.{ArePercentiles};
ghost use Rattle.line_summary.specs.Waits.{waits};

use line_base::{Date, MAX_DEMANDS};
use line_core::Table;
use plant_model::FEED;
use std::alloc::{AllocError, Global};

/// Four percentiles of the waits, and how many jobs don't wait.
#[derive(Clone, Copy)]
pub struct Percentiles {
    pub p50: Date,
    pub p90: Date,
    pub p95: Date,
    pub p99: Date,
    pub at_once: u32,
}

/// The waits of all jobs, in order of the jobs.
fn waits(alloc: Global, table: &Table) -> Result<Vec<Date>, AllocError>
    ensures { IfOk result (λ list. list.items ≡ waits table.now.graph (date_in table.now.rows)) }
{
    let delivered = table.dates(table.stations() - 1);
    let demanded = table.dates(FEED);
    let mut list = Vec::with_capacity(alloc, delivered.len())?;
    for (before, date) in delivered.iter().enumerate() {
        list.push(date.saturating_sub(demanded[before]))?;
    }
    Ok(list)
}

/// How many of the waits are 0.
fn count_zeros(waits: &[Date]) -> usize
    ensures count { result ≡ count_by (λ wait. wait == 0) waits.now }
    ensures few { result ≤ length waits.now }
{
    waits.iter().filter(|wait| **wait == 0).count()
}

/// The least of the waits that at least this many percent of them don't exceed. It is wait number `count` in order,
/// where `count` is this many percent of their number, rounded up.
///
/// Source of the rule: Hyndman and Fan 1996, Sample quantiles in statistical packages, definition 1, the inverse of the
/// empirical distribution function.
fn percentile(sorted: &[Date], percent: usize) -> Date
    requires in_order { IsNonDecreasing sorted.now }
    requires some { 1 ≤ length sorted.now }
    requires few { length sorted.now ≤ MAX_DEMANDS }
    requires percent { 1 ≤ percent }
    requires whole { percent ≤ 100 }
    ensures enough { percent * length sorted.now ≤ 100 * dates_until sorted.now result }
    ensures least { (v : ℕ) → v < result → 100 * dates_until sorted.now v < percent * length sorted.now }
{
    let count = (percent * sorted.len()).div_ceil(100);
    sorted[count - 1]
}

/// The percentiles of a table's waits, which were sorted.
fn percentiles_of(table: &Table, sorted: &[Date]) -> Percentiles
    requires in_order { IsNonDecreasing sorted.now }
    requires sorted { IsPermutation (waits table.now.graph (date_in table.now.rows)) sorted.now }
    requires some { 1 ≤ length sorted.now }
    requires few { length sorted.now ≤ MAX_DEMANDS }
    ensures { ArePercentiles table.now.graph (date_in table.now.rows) result }
{
    // called for its clause: the table is the least solution of its graph
    let _stations = table.stations();
    Percentiles {
        p50: percentile(sorted, 50),
        p90: percentile(sorted, 90),
        p95: percentile(sorted, 95),
        p99: percentile(sorted, 99),
        at_once: count_zeros(sorted) as u32,
    }
}

/// The percentiles of a table's waits, and how many jobs don't wait. The waits are sorted once.
pub fn wait_percentiles(alloc: Global, table: &Table) -> Result<Percentiles, AllocError>
    ensures { IfOk result (ArePercentiles table.now.graph (date_in table.now.rows)) }
{
    // called for its clause: the table is the least solution of its graph
    let _stations = table.stations();
    let mut list = waits(alloc, table)?;
    list.sort_unstable();
    Ok(percentiles_of(table, list.as_slice()))
}
