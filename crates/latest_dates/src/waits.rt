//! How long jobs wait for their delivery.
ghost use Rattle.std.specs.Prelude.{◌≡◌, ◌≤◌, MatchResult};
ghost use Rattle.event_graph.specs.Network.{jobs};
ghost use Rattle.event_graph.specs.Table.{date_in};
ghost use Rattle.latest_dates.specs.Found.{wait_of, IsInTime, IsLatestRefusal};

use crate::error::LatestError;
use event_graph::Graph;
use line_core::Table;
use plant_model::FEED;

/// How long job `n` waits, from its demand until the last station is done with it.
fn wait_of(table: &Table, n: u32) -> u64
    requires from_one { 1 ≤ n }
    requires job { n ≤ jobs table.now.graph }
    ensures { result ≡ wait_of table.now.graph (date_in table.now.rows) n }
{
    let delivered = table.date(table.stations() - 1, n);
    delivered.saturating_sub(table.date(FEED, n))
}

/// Refuses the first job that waits longer than `may`. It takes no memory.
pub fn check_waits(graph: &Graph, table: &Table, may: u64) -> Result<(), LatestError>
    requires of_graph { table.now.graph ≡ graph.now }
    ensures { MatchResult result
        (λ _. IsInTime graph.now (date_in table.now.rows) may)
        (IsLatestRefusal graph.now (date_in table.now.rows) may) }
{
    for before in 0..graph.jobs() {
        let job = before + 1;
        let wait = wait_of(table, job);
        if wait > may {
            return Err(LatestError::Late { job, wait });
        }
    }
    Ok(())
}
