//! The sizes of a run and the sum of its dates, for runs whose dates are too many to print.
ghost use Rattle.event_graph.specs.Table.{date_in};
ghost use Rattle.outside_io.specs.Outgoing.{Pushed, stream};
ghost use Rattle.line_report.specs.SummaryText.{size_lines, sum_line};

use crate::words::write_number_line;
use event_graph::Graph;
use line_core::Table;
use line_stats::date_total;
use outside_io::{Outgoing, Sink};

/// Writes how many stations and jobs there are, and how often the stations fire in a whole run.
pub fn write_sizes<K: Sink>(out: &mut Outgoing, sink: &mut K, graph: &Graph)
    ensures { Pushed (stream (K.shown sink.old) out.old)
        (stream (K.shown sink.new) out.new) (size_lines graph.now) }
{
    let stations = graph.stations();
    let jobs = graph.jobs();
    write_number_line(out, sink, b"stations", stations as u128);
    write_number_line(out, sink, b"jobs", jobs as u128);
    write_number_line(out, sink, b"firings", (stations * jobs) as u128);
}

/// Writes the sum of all dates.
pub fn write_sum<K: Sink>(out: &mut Outgoing, sink: &mut K, table: &Table)
    ensures { Pushed (stream (K.shown sink.old) out.old)
        (stream (K.shown sink.new) out.new) (sum_line table.now.graph (date_in table.now.rows)) }
{
    write_number_line(out, sink, b"sum", date_total(table));
}
