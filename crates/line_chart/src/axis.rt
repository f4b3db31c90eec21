//! The axis of a picture.
ghost use Rattle.std.specs.Prelude.{◌≡◌, ◌≤◌, ◌<◌, ◌+◌, ◌-◌};
ghost use Rattle.outside_io.specs.Outgoing.{Pushed, stream};
ghost use Rattle.line_chart.specs.Axis.{axis_step, axis_x};
ghost use Rattle.line_chart.specs.ChartText.{axis_line, axis_text};
ghost use Rattle.line_chart.specs.Picture.{IsWindow};

use crate::text::write_interleaved;
use crate::window::Window;
use outside_io::{Outgoing, Sink};

/// The step of the axis of a window that has this many dates.
fn axis_step(span: u64) -> u64
    ensures step { result ≡ axis_step span }
    ensures some { 1 ≤ result }
    ensures small { result ≤ 10_000_000_000_000_000 }
{
    let mut ten = 1;
    for _power in 0..16_u32 {
        if span / ten <= 10 {
            return ten;
        }
        if span / (2 * ten) <= 10 {
            return 2 * ten;
        }
        if span / (5 * ten) <= 10 {
            return 5 * ten;
        }
        ten = 10 * ten;
    }
    ten
}

/// Where a date of the window stands, from the left of the picture.
fn axis_x(window: Window, date: u64) -> u64
    requires window { IsWindow window }
    requires from { window.from ≤ date }
    requires to { date ≤ window.to }
    ensures { result ≡ axis_x window date }
{
    170 + (date - window.from) * 1000 / (window.to - window.from)
}

/// The line of a date between its numbers.
const LINE: [&[u8]; 6] = [
    b"<line class=\"g\" x1=\"",
    b"\" y1=\"36\" x2=\"",
    b"\" y2=\"",
    b"\"/><text class=\"m\" x=\"",
    b"\" y=\"30\">",
    b"</text>\n",
];

/// Writes the line of a date, down to `end`, and its number.
fn write_line<K: Sink>(out: &mut Outgoing, sink: &mut K, window: Window, end: u64, date: u64)
    requires window { IsWindow window }
    requires from { window.from ≤ date }
    requires to { date ≤ window.to }
    ensures { Pushed (stream (K.shown sink.old) out.old)
        (stream (K.shown sink.new) out.new) (axis_line window end date) }
{
    let x = axis_x(window, date);
    write_interleaved(out, sink, &LINE, &[x, x, end, x, date]);
}

/// Writes the axis.
pub fn write_axis<K: Sink>(out: &mut Outgoing, sink: &mut K, window: Window, end: u64)
    requires { IsWindow window }
    ensures { Pushed (stream (K.shown sink.old) out.old)
        (stream (K.shown sink.new) out.new) (axis_text window end) }
{
    let step = axis_step(window.to - window.from);
    let first = (window.from + step - 1) / step;
    for number in first..window.to / step + 1 {
        write_line(out, sink, window, end, step * number);
    }
}
