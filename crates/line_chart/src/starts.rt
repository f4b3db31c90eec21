//! When a machine starts on a job. None takes memory.
ghost use Rattle.std.specs.Prelude.{◌≡◌, ◌≤◌, ◌<◌};
ghost use Rattle.event_graph.specs.Network.{stations, jobs, arc, arc_count};
ghost use Rattle.event_graph.specs.Table.{date_in};
ghost use Rattle.event_graph.specs.Term.{token_date};
ghost use Rattle.line_chart.specs.Starts.{start};

use event_graph::Graph;
use line_base::Date;
use line_core::Table;

/// The date at which job `n` can take its token of arc `a`, 0 for a token of the start.
fn token_date(graph: &Graph, table: &Table, a: u32, n: u32) -> Date
    requires of_graph { table.now.graph ≡ graph.now }
    requires arc { a < arc_count graph.now }
    requires job { n ≤ jobs graph.now }
    ensures date { result ≡ token_date graph.now (date_in table.now.rows) a n }
    ensures early { result ≤ 2_002_000_000_000_000 }
{
    let arc = graph.arc(a);
    if arc.tokens < n {
        table.date(arc.from, n - arc.tokens) + graph.delay(a)
    } else {
        0
    }
}

/// The date from which station `t` works on job `n`: the greatest among the tokens that the job takes on worked arcs.
///
/// It takes no memory, and one look at each arc into the station.
pub fn start(graph: &Graph, table: &Table, t: u32, n: u32) -> Date
    requires of_graph { table.now.graph ≡ graph.now }
    requires station { t < stations graph.now }
    requires job { n ≤ jobs graph.now }
    ensures start { result ≡ start graph.now (date_in table.now.rows) t n }
    ensures early { result ≤ 2_002_000_000_000_000 }
{
    let arcs = graph.arcs();
    let mut start = 0;
    for &a in graph.ins(t) {
        if arcs[a as usize].worked {
            start = start.max(token_date(graph, table, a, n));
        }
    }
    start
}
