//! What is said of a whole run: the peak of each stage, how long the jobs wait, and the last date.
ghost use Rattle.std.specs.List.{flat_map};
ghost use Rattle.std.specs.Prelude.{◌<◌, ◌++◌, codes, decimal, length};
ghost use Rattle.event_graph.specs.Table.{date_in};
ghost use Rattle.outside_io.specs.Outgoing.{Pushed, stream};
ghost use Rattle.line_report.specs.ReportText.{bound_word, peak_line, waiting_line, last_line, end_lines};
ghost use Rattle.line_report.specs.Reported.{IsOfRun};
ghost use Rattle.plant_model.specs.Graph.{graph};
ghost use Rattle.plant_model.specs.Line.{stage_numbers};

use crate::run::FinishedRun;
use crate::words::{write_number_behind, write_number_line};
use line_core::Table;
use line_stats::{last, peak, waiting_total};
use outside_io::{Outgoing, Sink};
use plant_model::bound_of;

/// Writes the bound of a stage, or that it has none.
fn write_bound<K: Sink>(out: &mut Outgoing, sink: &mut K, bound: Option<u32>)
    ensures { Pushed (stream (K.shown sink.old) out.old)
        (stream (K.shown sink.new) out.new) (bound_word bound) }
{
    match bound {
        Some(number) => out.push_number(sink, number as u64),
        None => out.push(sink, b"none"),
    }
}

/// Writes how the line of a stage ends: words, the most parts that are ever in it, and its bound.
pub fn write_peak_end<K: Sink>(
    out: &mut Outgoing,
    sink: &mut K,
    words: &[u8],
    most: u32,
    bound: Option<u32>,
)
    ensures { Pushed (stream (K.shown sink.old) out.old) (stream (K.shown sink.new) out.new)
        ((words.now ++ decimal most) ++ (codes " of " ++ (bound_word bound ++ codes "\n"))) }
{
    write_number_behind(out, sink, words, most as u64);
    out.push(sink, b" of ");
    write_bound(out, sink, bound);
    out.push(sink, b"\n");
}

/// Writes the most parts that are ever in a stage, and its bound.
fn write_peak<K: Sink>(out: &mut Outgoing, sink: &mut K, run: &FinishedRun, stage: u32)
    requires run { IsOfRun run.now }
    requires exists { stage < length run.now.plant.stages }
    ensures { Pushed (stream (K.shown sink.old) out.old)
        (stream (K.shown sink.new) out.new) (peak_line run.now.plant (date_in run.now.table.rows) stage) }
{
    let part = &run.plant.stages.as_slice()[stage as usize];
    out.push(sink, b"peak ");
    out.push(sink, part.name.text());
    let most = peak(&run.plant, &run.numbers, &run.table, stage);
    write_peak_end(out, sink, b" ", most, bound_of(&run.plant, stage));
}

/// Writes the peaks of all stages, in order.
fn write_peaks<K: Sink>(out: &mut Outgoing, sink: &mut K, run: &FinishedRun)
    requires { IsOfRun run.now }
    ensures { Pushed (stream (K.shown sink.old) out.old)
        (stream (K.shown sink.new) out.new)
        (flat_map (peak_line run.now.plant (date_in run.now.table.rows)) (stage_numbers run.now.plant)) }
{
    for stage in 0..run.stages() {
        write_peak(out, sink, run, stage);
    }
}

/// Writes how long all jobs together wait, and the last date.
fn write_totals<K: Sink>(out: &mut Outgoing, sink: &mut K, table: &Table)
    ensures { Pushed (stream (K.shown sink.old) out.old)
        (stream (K.shown sink.new) out.new)
        (waiting_line table.now.graph (date_in table.now.rows) ++ last_line table.now.graph (date_in table.now.rows)) }
{
    write_number_line(out, sink, b"waiting", waiting_total(table));
    write_number_line(out, sink, b"last", last(table) as u128);
}

/// Writes how both texts end: the peaks of all stages, how long all jobs together wait, and the last date.
pub fn write_end<K: Sink>(out: &mut Outgoing, sink: &mut K, run: &FinishedRun)
    requires { IsOfRun run.now }
    ensures { Pushed (stream (K.shown sink.old) out.old)
        (stream (K.shown sink.new) out.new) (end_lines run.now.plant (date_in run.now.table.rows)) }
{
    write_peaks(out, sink, run);
    write_totals(out, sink, &run.table);
}
