//! What stands where at the dates that are looked at.
ghost use Rattle.std.specs.List.{flat_map};
ghost use Rattle.std.specs.Prelude.{◌<◌, length};
ghost use Rattle.event_graph.specs.Table.{date_in};
ghost use Rattle.outside_io.specs.Outgoing.{Pushed, stream};
ghost use Rattle.line_report.specs.ReportText.{stage_line, backlog_line, observed_lines};
ghost use Rattle.line_report.specs.Reported.{IsOfRun};

use crate::run::FinishedRun;
use crate::words::write_number_behind;
use line_base::Date;
use line_stats::{backlog, in_move, in_process, in_stock};
use outside_io::{Outgoing, Sink};

/// Writes how many parts of a stage there are at a date; those on their way where the way takes time.
fn write_stage<K: Sink>(out: &mut Outgoing, sink: &mut K, run: &FinishedRun, at: Date, stage: u32)
    requires run { IsOfRun run.now }
    requires exists { stage < length run.now.plant.stages }
    ensures { Pushed (stream (K.shown sink.old) out.old)
        (stream (K.shown sink.new) out.new) (stage_line run.now.plant (date_in run.now.table.rows) at stage) }
{
    let part = &run.plant.stages.as_slice()[stage as usize];
    write_number_behind(out, sink, b"at ", at);
    out.push(sink, b" ");
    out.push(sink, part.name.text());
    write_number_behind(
        out,
        sink,
        b" process ",
        in_process(&run.numbers, &run.table, stage, at) as u64,
    );
    if part.travel > 0 {
        write_number_behind(
            out,
            sink,
            b" move ",
            in_move(&run.plant, &run.numbers, &run.table, stage, at) as u64,
        );
    }
    write_number_behind(
        out,
        sink,
        b" stock ",
        in_stock(&run.plant, &run.numbers, &run.table, stage, at) as u64,
    );
    out.push(sink, b"\n");
}

/// Writes how many demands are not delivered at a date.
fn write_backlog<K: Sink>(out: &mut Outgoing, sink: &mut K, run: &FinishedRun, at: Date)
    requires { IsOfRun run.now }
    ensures { Pushed (stream (K.shown sink.old) out.old)
        (stream (K.shown sink.new) out.new) (backlog_line run.now.plant (date_in run.now.table.rows) at) }
{
    write_number_behind(out, sink, b"at ", at);
    write_number_behind(
        out,
        sink,
        b" backlog ",
        backlog(&run.numbers, &run.table, at) as u64,
    );
    out.push(sink, b"\n");
}

/// Writes what is in all stages at a date, and the backlog.
fn write_date_observed<K: Sink>(out: &mut Outgoing, sink: &mut K, run: &FinishedRun, at: Date)
    requires { IsOfRun run.now }
    ensures { Pushed (stream (K.shown sink.old) out.old)
        (stream (K.shown sink.new) out.new) (observed_lines run.now.plant (date_in run.now.table.rows) at) }
{
    for stage in 0..run.stages() {
        write_stage(out, sink, run, at, stage);
    }
    write_backlog(out, sink, run, at);
}

/// Writes what is in all stages, and the backlog, at each date that is looked at, in order.
pub fn write_observed<K: Sink>(out: &mut Outgoing, sink: &mut K, run: &FinishedRun)
    requires { IsOfRun run.now }
    ensures { Pushed (stream (K.shown sink.old) out.old)
        (stream (K.shown sink.new) out.new)
        (flat_map (observed_lines run.now.plant (date_in run.now.table.rows)) run.now.plant.observe) }
{
    for at in run.plant.observe.as_slice() {
        write_date_observed(out, sink, run, *at);
    }
}
