ghost use Rattle.std.specs.Prelude.{◌≡◌, IfOk};
ghost use Rattle.outside_io.specs.SinkView.{WritesText};
ghost use Rattle.line_report.specs.Reported.{report_of, summary_of};
ghost use Rattle.line_stats.specs.PlantDates.{AreLeastDates, AreOfPlant, Stays};

use crate::making::memory_for;
use crate::portion::Portion;
use crate::run::FinishedRun;
use crate::texts::{write_summary_text, write_text};
use line_core::Table;
use live_check::Live;
use outside_io::{Failed, Outgoing, Sink};
use plant_model::Plant;
use std::alloc::{AllocError, Global};
use std::marker::Model;
use std::thread::Threads;

/// The report of a finished run of a plant, and the memory for writing it. Contracts see the plant and the dates.
#[derive(Drop)]
pub struct Report {
    run: FinishedRun,
    out: Outgoing,
    // One for each worker.
    portions: Vec<Portion>,
}

impl Model for Report {
    ghost use Rattle.std.specs.Prelude.{◌≡◌, ◌<◌, false, length};
    ghost use Rattle.line_core.specs.Run.{IsLeastTable};
    ghost use Rattle.outside_io.specs.Outgoing.{nothing_waiting};
    ghost use Rattle.line_stats.specs.PlantDates.{PlantDates, AreOfPlant};

    ghost Value = { PlantDates };

    ghost view = { λ r. record { plant = r.run.plant; rows = r.run.table.rows } };

    ghost invariant = { λ r. AreOfPlant r.run.plant r.run.live r.run.table × IsLeastTable r.run.table
        × (r.out ≡ nothing_waiting false) × (r.run.numbers ≡ r.run.plant) × (0 < length r.portions.items) };
}

impl Report {
    /// The report of a sound plant, its live graph, and a table of that graph, to be written by this many workers,
    /// which are one at least. It takes all memory that writing takes: the numbers of the stations, room for one piece
    /// of the text, and for the one worker 256 KiB, or for each of several 1 MiB.
    pub fn new(
        alloc: Global,
        plant: Plant,
        live: Live,
        table: Table,
        workers: u32,
    ) -> Result<Report, AllocError>
        requires { AreOfPlant plant live table }
        ensures plant { IfOk result (λ report. report.plant ≡ plant) }
        ensures dates { IfOk result (λ report. report.rows ≡ table.rows) }
        ensures least { IfOk result AreLeastDates }
    {
        // called for its clause: the table is the least solution of its graph
        let _stations = table.stations();
        match memory_for(alloc, &plant, workers) {
            Ok((numbers, out, portions)) => Ok(Report {
                run: FinishedRun {
                    plant,
                    numbers,
                    live,
                    table,
                },
                out,
                portions,
            }),
            Err(error) => {
                drop(plant);
                drop(live);
                drop(table);
                Err(error)
            }
        }
    }

    /// Writes the report to the sink, from its beginning: a line for each station and job, what stands in each stage at
    /// each date that is looked at, the peak of each stage, how long the jobs wait, and the last date. It goes out in
    /// pieces of 4,096 bytes and a last one that may be shorter. The lines of the dates are formatted by as many
    /// threads as there are workers, and by one no thread is begun. After `Failed` a prefix of it was written. It takes
    /// no memory.
    pub fn write<R: Threads + Sync, K: Sink>(&mut self, rt: &R, sink: &mut K) -> Result<(), Failed>
        ensures puts { WritesText (K.shown sink.old) (K.shown sink.new) (report_of self.old) result }
        ensures stays { Stays self.old self.new }
    {
        write_text(rt, &mut self.out, sink, &self.run, &mut self.portions);
        self.out.finish(sink)
    }

    /// Writes the summary to the sink, from its beginning: how many stations, jobs and firings there are, the sum of
    /// all dates, and then as the report ends, the peak of each stage, how long the jobs wait, and the last date. All
    /// else is as with `write`.
    pub fn write_summary<K: Sink>(&mut self, sink: &mut K) -> Result<(), Failed>
        ensures puts { WritesText (K.shown sink.old) (K.shown sink.new) (summary_of self.old) result }
        ensures stays { Stays self.old self.new }
    {
        write_summary_text(&mut self.out, sink, &self.run);
        self.out.finish(sink)
    }
}
