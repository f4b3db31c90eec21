//! The rows of a curve.
ghost use Rattle.std.specs.Prelude.{◌≡◌, false};
ghost use Rattle.outside_io.specs.Outgoing.{Pushed, stream, nothing_waiting};
ghost use Rattle.outside_io.specs.SinkView.{WritesText};
ghost use Rattle.line_summary.specs.CurveText.{too_few_row, dead_row, figures_row, row_of};

use crate::figures::Figures;
use crate::point::Point;
use crate::thousandths::write_ratio;
use line_report::write_number_behind;
use outside_io::{Failed, Outgoing, Sink};

/// Writes that this many cards are fewer than the stock needs.
fn push_too_few<K: Sink>(out: &mut Outgoing, sink: &mut K, count: u32)
    ensures { Pushed (stream (K.shown sink.old) out.old)
        (stream (K.shown sink.new) out.new) (too_few_row count) }
{
    write_number_behind(out, sink, b"cards ", count as u64);
    out.push(sink, b" too few\n");
}

/// Writes that the line isn't live with this many cards.
fn push_dead<K: Sink>(out: &mut Outgoing, sink: &mut K, count: u32)
    ensures { Pushed (stream (K.shown sink.old) out.old)
        (stream (K.shown sink.new) out.new) (dead_row count) }
{
    write_number_behind(out, sink, b"cards ", count as u64);
    out.push(sink, b" dead\n");
}

/// Writes the figures of the line with this many cards.
fn push_figures<K: Sink>(out: &mut Outgoing, sink: &mut K, count: u32, figures: &Figures)
    ensures { Pushed (stream (K.shown sink.old) out.old)
        (stream (K.shown sink.new) out.new) (figures_row count figures.now) }
{
    let jobs = u128::from(figures.jobs);
    let last = u128::from(figures.last);
    write_number_behind(out, sink, b"cards ", count as u64);
    write_number_behind(out, sink, b" last ", figures.last);
    write_ratio(out, sink, b" throughput ", jobs, last);
    write_ratio(out, sink, b" wait mean ", figures.waited, jobs);
    write_number_behind(out, sink, b" most ", figures.most);
    write_ratio(out, sink, b" wip mean ", figures.parts, last);
    out.push(sink, b"\n");
}

/// Writes a row to the buffer.
fn push_row<K: Sink>(out: &mut Outgoing, sink: &mut K, count: u32, point: &Point)
    ensures { Pushed (stream (K.shown sink.old) out.old)
        (stream (K.shown sink.new) out.new) (row_of count point.now) }
{
    match point {
        Point::TooFew => push_too_few(out, sink, count),
        Point::Dead => push_dead(out, sink, count),
        Point::Alive { figures } => push_figures(out, sink, count, figures),
    }
}

/// Writes a row to the sink.
pub fn write_row<K: Sink>(
    out: &mut Outgoing,
    sink: &mut K,
    count: u32,
    point: &Point,
) -> Result<(), Failed>
    requires { out.old ≡ nothing_waiting false }
    ensures puts { WritesText (K.shown sink.old) (K.shown sink.new)
        (row_of count point.now) result }
    ensures as_new { out.new ≡ nothing_waiting false }
{
    push_row(out, sink, count, point);
    out.finish(sink)
}
