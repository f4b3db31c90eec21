//! Numbers with words before them.
ghost use Rattle.std.specs.Prelude.{◌++◌, decimal};
ghost use Rattle.outside_io.specs.Outgoing.{Pushed, stream};
ghost use Rattle.line_report.specs.SummaryText.{number_line};

use outside_io::{Outgoing, Sink};

/// Writes words, and the number behind them.
pub fn write_number_behind<K: Sink>(out: &mut Outgoing, sink: &mut K, words: &[u8], number: u64)
    ensures { Pushed (stream (K.shown sink.old) out.old)
        (stream (K.shown sink.new) out.new) (words.now ++ decimal number) }
{
    out.push(sink, words);
    out.push_number(sink, number);
}

/// Writes a line: a word, and a number behind it.
pub fn write_number_line<K: Sink>(out: &mut Outgoing, sink: &mut K, word: &[u8], number: u128)
    ensures { Pushed (stream (K.shown sink.old) out.old)
        (stream (K.shown sink.new) out.new) (number_line word.now number) }
{
    out.push(sink, word);
    out.push(sink, b" ");
    out.push_wide_number(sink, number);
    out.push(sink, b"\n");
}
