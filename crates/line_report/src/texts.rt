//! The whole texts of a report and of a summary.
ghost use Rattle.std.specs.Prelude.{◌≡◌, ◌<◌, length};
ghost use Rattle.event_graph.specs.Table.{date_in};
ghost use Rattle.outside_io.specs.Outgoing.{Pushed, stream};
ghost use Rattle.line_report.specs.ReportText.{report};
ghost use Rattle.line_report.specs.Reported.{IsOfRun};
ghost use Rattle.line_report.specs.SummaryText.{summary};

use crate::dates::write_dates;
use crate::observed::write_observed;
use crate::portion::Portion;
use crate::run::FinishedRun;
use crate::summary::{write_sizes, write_sum};
use crate::totals::write_end;
use outside_io::{Outgoing, Sink};
use std::thread::Threads;

/// Writes the whole text of a report.
pub fn write_text<R: Threads + Sync, K: Sink>(
    rt: &R,
    out: &mut Outgoing,
    sink: &mut K,
    run: &FinishedRun,
    portions: &mut [Portion],
)
    requires run { IsOfRun run.now }
    requires some { 0 < length portions.old }
    ensures number { length portions.new ≡ length portions.old }
    ensures text { Pushed (stream (K.shown sink.old) out.old)
        (stream (K.shown sink.new) out.new) (report run.now.plant (date_in run.now.table.rows)) }
{
    write_dates(rt, out, sink, run.live.graph(), &run.table, portions);
    write_observed(out, sink, run);
    write_end(out, sink, run);
}

/// Writes the whole text of a summary.
pub fn write_summary_text<K: Sink>(out: &mut Outgoing, sink: &mut K, run: &FinishedRun)
    requires { IsOfRun run.now }
    ensures { Pushed (stream (K.shown sink.old) out.old)
        (stream (K.shown sink.new) out.new) (summary run.now.plant (date_in run.now.table.rows)) }
{
    write_sizes(out, sink, run.live.graph());
    write_sum(out, sink, &run.table);
    write_end(out, sink, run);
}
