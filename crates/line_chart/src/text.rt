//! Texts and numbers, one after another.
ghost use Rattle.std.specs.Prelude.{◌≡◌, ◌+◌, length};
ghost use Rattle.outside_io.specs.Outgoing.{Pushed, stream};
ghost use Rattle.line_chart.specs.ChartText.{with_number};
ghost use Rattle.line_chart.specs.Interleaved.{interleave};

use outside_io::{Outgoing, Sink};

/// How the name of a lane or an area begins, on both sides of its height.
pub const NAME: [&[u8]; 2] = [b"<text class=\"e\" x=\"164\" y=\"", b"\">"];

/// Writes a text, and a number behind it.
pub fn write_numbered<K: Sink>(out: &mut Outgoing, sink: &mut K, text: &[u8], number: u64)
    ensures { Pushed (stream (K.shown sink.old) out.old)
        (stream (K.shown sink.new) out.new) (with_number text.now number) }
{
    out.push(sink, text);
    out.push_number(sink, number);
}

/// Writes texts, with a number behind each but the last.
pub fn write_interleaved<K: Sink>(
    out: &mut Outgoing,
    sink: &mut K,
    texts: &[&[u8]],
    numbers: &[u64],
)
    requires { length texts.now ≡ length numbers.now + 1 }
    ensures { Pushed (stream (K.shown sink.old) out.old)
        (stream (K.shown sink.new) out.new) (interleave texts.now numbers.now) }
{
    for before in 0..numbers.len() {
        write_numbered(out, sink, texts[before], numbers[before]);
    }
    out.push(sink, texts[numbers.len()]);
}
