ghost use Rattle.std.specs.Prelude.{◌≡◌, ◌<◌, ◌≤◌, [], slice_index_or};
ghost use Rattle.event_graph.specs.Network.{stations, jobs};
ghost use Rattle.event_graph.specs.Table.{date_in};
ghost use Rattle.line_base.specs.Roomy.{dates_of};
ghost use Rattle.line_core.specs.Run.{IsLeastTable};

use event_graph::Graph;
use line_base::{Date, Logs};
use std::marker::Model;
use std::snapshot::Snapshot;

/// The dates of a run in which every station has fired once for each job: the least solution of its graph. Contracts
/// see the graph, and a list of dates for each station.
#[derive(Drop)]
pub struct Table {
    rows: Logs,
    // The graph that the table is of. Contracts alone read it.
    graph: Snapshot<Graph>,
}

impl Model for Table {
    ghost use Rattle.line_base.specs.Roomy.{dates_of};
    ghost use Rattle.line_core.specs.Run.{Dates, IsLeastTable};

    ghost Value = { Dates };

    ghost view = { λ t. record { graph = t.graph.value; rows = dates_of t.rows } };

    ghost invariant = { λ t. IsLeastTable (record { graph = t.graph.value; rows = dates_of t.rows }) };
}

impl Table {
    /// The table of these dates.
    pub(crate) fn of(graph: &Graph, rows: Logs) -> Table
        requires { IsLeastTable (record { graph = graph.now; rows = dates_of rows }) }
        ensures { result ≡ record { graph = graph.now; rows = dates_of rows } }
    {
        Table {
            rows,
            graph: Snapshot::of(graph),
        }
    }

    /// The date of job `n` at station `t`, where jobs are counted from 1.
    pub fn date(&self, t: u32, n: u32) -> Date
        requires station { t < stations self.now.graph }
        requires from_one { 1 ≤ n }
        requires job { n ≤ jobs self.now.graph }
        ensures date { result ≡ date_in self.now.rows t n }
        ensures least { IsLeastTable self.now }
    {
        self.rows.get(t).dates()[n as usize - 1]
    }

    /// The dates of station `t`, that of job 1 first.
    pub fn dates(&self, t: u32) -> &[Date]
        requires { t < stations self.now.graph }
        ensures dates { result.now ≡ slice_index_or self.now.rows t [] }
        ensures least { IsLeastTable self.now }
    {
        let row = self.rows.get(t);
        row.dates()
    }

    /// How many stations there are.
    pub fn stations(&self) -> u32
        ensures stations { result ≡ stations self.now.graph }
        ensures least { IsLeastTable self.now }
    {
        self.rows.len() as u32
    }
}
