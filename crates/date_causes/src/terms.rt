ghost use Rattle.std.specs.Prelude.{◌≡◌, ◌<◌, ◌≤◌};
ghost use Rattle.event_graph.specs.Network.{jobs, arc_count};
ghost use Rattle.event_graph.specs.Table.{date_in};
ghost use Rattle.event_graph.specs.Term.{term};

use event_graph::Graph;
use line_base::Date;
use line_core::Table;

/// What arc `a` asks of the date of job `n` at the station that it enters.
pub(crate) fn term_of(graph: &Graph, table: &Table, a: u32, n: u32) -> Date
    requires of_graph { table.now.graph ≡ graph.now }
    requires arc { a < arc_count graph.now }
    requires from_one { 1 ≤ n }
    requires job { n ≤ jobs graph.now }
    ensures { result ≡ term graph.now (date_in table.now.rows) a n }
{
    let arc = graph.arc(a);
    let work = graph.work(a, n);
    if n <= arc.tokens {
        return work;
    }
    work + (table.date(arc.from, n - arc.tokens) + graph.delay(a))
}
