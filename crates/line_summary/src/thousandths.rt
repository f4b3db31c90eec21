ghost use Rattle.std.specs.Prelude.{◌<◌, ◌^◌};
ghost use Rattle.outside_io.specs.Outgoing.{Pushed, stream};
ghost use Rattle.line_summary.specs.SummaryText.{mean_words};
ghost use Rattle.line_summary.specs.Thousandths.{three_digits, thousandths};

use outside_io::{Outgoing, Sink};

/// Gives the three digits of a number below 1,000 to the sink.
fn push_three_digits<K: Sink>(out: &mut Outgoing, sink: &mut K, n: u64)
    requires { n < 1000 }
    ensures { Pushed (stream (K.shown sink.old) out.old)
        (stream (K.shown sink.new) out.new) (three_digits n) }
{
    out.push_number(sink, n / 100);
    out.push_number(sink, n / 10 % 10);
    out.push_number(sink, n % 10);
}

/// Gives `part / whole` to the sink, as a decimal with three digits after the point, to the nearest, halves up; `none`
/// where the whole is 0. It takes no memory.
pub fn push_thousandths<K: Sink>(out: &mut Outgoing, sink: &mut K, part: u128, whole: u128)
    requires { whole < 2 ^ 100 }
    ensures { Pushed (stream (K.shown sink.old) out.old)
        (stream (K.shown sink.new) out.new) (thousandths part whole) }
{
    if whole == 0 {
        out.push(sink, b"none");
        return;
    }
    let rest = part % whole;
    let nearest = (2000 * rest + whole) / (2 * whole);
    out.push_wide_number(sink, part / whole + nearest / 1000);
    out.push(sink, b".");
    push_three_digits(out, sink, (nearest % 1000) as u64);
}

/// Writes words, and a ratio behind them.
pub fn write_ratio<K: Sink>(out: &mut Outgoing, sink: &mut K, words: &[u8], part: u128, whole: u128)
    requires { whole < 2 ^ 100 }
    ensures { Pushed (stream (K.shown sink.old) out.old)
        (stream (K.shown sink.new) out.new) (mean_words words.now part whole) }
{
    out.push(sink, words);
    push_thousandths(out, sink, part, whole);
}
