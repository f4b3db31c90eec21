ghost use Rattle.std.specs.Prelude.{◌≡◌, IfOk};
ghost use Rattle.outside_io.specs.SinkView.{WritesText};
ghost use Rattle.line_stats.specs.PlantDates.{AreLeastDates, Stays};
ghost use Rattle.line_summary.specs.Summarized.{IsOfPlant, text_of};

use crate::figures::Figures;
use crate::making::memory_for;
use crate::texts::{SummaryRun, write_text};
use line_core::Table;
use outside_io::{Failed, Outgoing, Sink};
use plant_model::Plant;
use std::alloc::{AllocError, Global};
use std::marker::Model;

/// The summary of a finished run of a plant, and the memory for writing it. Contracts see the plant and the dates.
#[derive(Drop)]
pub struct Summary {
    line: SummaryRun,
    out: Outgoing,
}

impl Model for Summary {
    ghost use Rattle.std.specs.Prelude.{◌≡◌, false};
    ghost use Rattle.line_core.specs.Run.{IsLeastTable};
    ghost use Rattle.outside_io.specs.Outgoing.{nothing_waiting};
    ghost use Rattle.line_stats.specs.PlantDates.{PlantDates};
    ghost use Rattle.line_summary.specs.Summarized.{IsOfRun};

    ghost Value = { PlantDates };

    ghost view = { λ s. record { plant = s.line.plant; rows = s.line.table.rows } };

    ghost invariant = { λ s. IsOfRun s.line × IsLeastTable s.line.table × (s.out ≡ nothing_waiting false) };
}

impl Summary {
    /// The summary of a sound plant and a table of its graph. It takes all memory that writing takes: the numbers of
    /// the stations, the waits, which it sorts once, a record for each machine, and room for one piece of the text.
    pub fn new(alloc: Global, plant: Plant, table: Table) -> Result<Summary, AllocError>
        requires { IsOfPlant plant table }
        ensures plant { IfOk result (λ summary. summary.plant ≡ plant) }
        ensures dates { IfOk result (λ summary. summary.rows ≡ table.rows) }
        ensures least { IfOk result AreLeastDates }
    {
        // called for its clause: the table is the least solution of its graph
        let _stations = table.stations();
        let Ok((numbers, percentiles, uses, out)) = memory_for(alloc, &plant, &table) else {
            drop(plant);
            drop(table);
            return Err(AllocError);
        };
        let line = SummaryRun {
            figures: Figures::of(&plant, &numbers, &table),
            plant,
            numbers,
            table,
            percentiles,
            uses,
        };
        Ok(Summary { line, out })
    }

    /// Writes the summary to the sink, from its beginning: what the jobs wait, a line for each stage and each
    /// machine, and the busiest machine. It goes out in pieces of 4,096 bytes and a last one that may be shorter.
    /// After `Failed` a prefix of it was written. It takes no memory.
    pub fn write<K: Sink>(&mut self, sink: &mut K) -> Result<(), Failed>
        ensures puts { WritesText (K.shown sink.old) (K.shown sink.new) (text_of self.old) result }
        ensures stays { Stays self.old self.new }
    {
        write_text(&mut self.out, sink, &self.line);
        self.out.finish(sink)
    }
}
