//! What a command writes when it is done.
ghost use Rattle.std.specs.Prelude.{◌≡◌};
ghost use Rattle.answers.specs.Answer.{answer_bytes};
ghost use Rattle.answers.specs.Put.{whole_of, IsPut};
ghost use Rattle.answers.specs.declared.answer.Answer.TheVariants.{Stopped};
ghost use Rattle.outside_io.specs.SinkView.{WritesText};

use crate::changes::Changes;
use crate::curve::Curve;
use crate::lines::{put_line, put_text};
use crate::unwritten::Unwritten;
use command_line::{Topic, help_text};
use date_causes::Causes;
use itoa::Buffer;
use latest_dates::Latest;
use line_base::Items;
use line_chart::{Chart, DateTable};
use line_report::Report;
use line_summary::Summary;
use outside_io::{Failed, Sink};
use std::alloc::Global;
use std::thread::Threads;

/// What `--version` shows.
pub const VERSION: &str = "pull 1.0.0\n";

/// What a command writes when it is done; the program then ends with status 0.
#[derive(Drop)]
pub enum Answer {
    /// `--help`, `help COMMAND`: how the program is used, or the command.
    Help {
        /// The command, where one is named.
        topic: Option<Topic>,
    },
    /// `--version`: the name and version of the program.
    Version,
    /// `lint`, `check`, `cycle` and `cards`: a text that stands in memory.
    Text {
        /// The text.
        text: Items<u8>,
    },
    /// `run --stop-after`: the run was stopped, and its state is saved.
    Stopped {
        /// The firings that were made.
        fired: u64,
    },
    /// `run`, `resume` and `replay`: the plant was run to its end.
    Reported {
        /// Its report.
        report: Report,
    },
    /// `big`: the plant of a seed was run.
    Summarized {
        /// Its report, of which the summary is written.
        report: Report,
    },
    /// `why`: the plant was run, and a date has these causes.
    Caused {
        /// The chain of causes.
        causes: Causes,
    },
    /// `summary`: the plant was run, and its summary is written.
    Summary {
        /// The summary.
        summary: Summary,
    },
    /// `chart`: the plant was run, and this is its picture.
    Drawn {
        /// The picture.
        chart: Chart,
    },
    /// `table`: the plant was run, and its dates are a table.
    Dates {
        /// The table.
        dates: DateTable,
    },
    /// `latest`: the plant was run, and nobody waits longer than that.
    Latest {
        /// How late each job may be.
        latest: Latest,
    },
    /// `curve`: the counts of cards are there, and what they give is found when it is written.
    Curved {
        /// The counts.
        curve: Curve,
    },
    /// `whatif`: edits were followed.
    Changed {
        /// The dates that they change.
        changes: Changes,
    },
}

impl Answer {
    /// Writes all of it to the sink. After `Failed` a prefix of it was written. It takes no memory but for a curve,
    /// whose rows are found as they are written, by its workers: after `NoMemory` the rows of some first counts were.
    pub fn write<R: Threads + Sync, K: Sink>(
        mut self,
        rt: &R,
        alloc: Global,
        sink: &mut K,
    ) -> Result<(), Unwritten>
        ensures puts { IsPut self (K.shown sink.old) (K.shown sink.new) result }
    {
        let written = self.send(rt, alloc, sink);
        drop(self);
        written
    }

    /// Writes all of it, and keeps what is needed for writing it.
    fn send<R: Threads + Sync, K: Sink>(
        &mut self,
        rt: &R,
        alloc: Global,
        sink: &mut K,
    ) -> Result<(), Unwritten>
        ensures { IsPut self.old (K.shown sink.old) (K.shown sink.new) result }
    {
        match self {
            Answer::Help { topic } => whole(put_text(sink, help_text(*topic).as_bytes())),
            Answer::Version => whole(put_text(sink, VERSION.as_bytes())),
            Answer::Text { text } => whole(put_text(sink, text.as_slice())),
            Answer::Stopped { fired } => whole(put_stopped(sink, *fired)),
            Answer::Reported { report } => whole(report.write(rt, sink)),
            Answer::Summarized { report } => whole(report.write_summary(sink)),
            Answer::Caused { causes } => whole(causes.write(sink)),
            Answer::Summary { summary } => whole(summary.write(sink)),
            Answer::Drawn { chart } => whole(chart.write(sink)),
            Answer::Dates { dates } => whole(dates.write(sink)),
            Answer::Latest { latest } => whole(latest.write(sink)),
            Answer::Curved { curve } => curve.write(rt, alloc, sink),
            Answer::Changed { changes } => whole(changes.write(sink)),
        }
    }
}

/// Writes that a run was stopped.
fn put_stopped<K: Sink>(sink: &mut K, fired: u64) -> Result<(), Failed>
    ensures { WritesText (K.shown sink.old) (K.shown sink.new) (answer_bytes (Stopped fired)) result }
{
    let mut digits = Buffer::new();
    let count = digits.format(fired);
    put_line(sink, b"stopped ", count.as_bytes())
}

/// What is answered to bytes that were written.
fn whole(written: Result<(), Failed>) -> Result<(), Unwritten>
    ensures { result ≡ whole_of written }
{
    match written {
        Ok(()) => Ok(()),
        Err(Failed) => Err(Unwritten::Failed),
    }
}
