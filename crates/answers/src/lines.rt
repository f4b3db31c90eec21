//! Texts and lines that go to a sink whole, and take no memory.
ghost use Rattle.std.specs.Prelude.{◌++◌};
ghost use Rattle.command_line.specs.Lines.{as_line};
ghost use Rattle.outside_io.specs.SinkView.{WritesText};

use outside_io::{Failed, Sink, put_all};

/// Writes a text. After `Failed` a prefix of it was written.
pub fn put_text<K: Sink>(sink: &mut K, text: &[u8]) -> Result<(), Failed>
    ensures { WritesText (K.shown sink.old) (K.shown sink.new) text.now result }
{
    put_all(sink, text)
}

/// Writes a line: these words, and the name behind them. After `Failed` a prefix of it was written.
pub fn put_line<K: Sink>(sink: &mut K, words: &[u8], named: &[u8]) -> Result<(), Failed>
    ensures { WritesText (K.shown sink.old) (K.shown sink.new) (as_line (words.now ++ named.now)) result }
{
    put_text(sink, words)?;
    put_text(sink, named)?;
    put_text(sink, b"\n")
}
