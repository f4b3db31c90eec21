ghost use Rattle.std.specs.Prelude.{◌≡◌, IfOk};
ghost use Rattle.line_chart.specs.DateTable.{text_of};
ghost use Rattle.outside_io.specs.SinkView.{WritesText};
ghost use Rattle.line_stats.specs.PlantDates.{AreLeastDates, AreOfPlant, Stays};

use crate::making::memory_for;
use crate::records::write_table;
use crate::table_run::TableRun;
use line_core::Table;
use live_check::Live;
use outside_io::{Failed, Outgoing, Sink};
use plant_model::Plant;
use std::alloc::{AllocError, Global};
use std::marker::Model;

/// All dates of a finished run of a plant, and the memory for writing them as csv. Contracts see the plant and the
/// dates.
#[derive(Drop)]
pub struct DateTable {
    run: TableRun,
    out: Outgoing,
}

impl Model for DateTable {
    ghost use Rattle.line_chart.specs.DateTable.{IsWritable};
    ghost use Rattle.line_stats.specs.PlantDates.{PlantDates};

    ghost Value = { PlantDates };

    ghost view = { λ d. record { plant = d.run.plant; rows = d.run.table.rows } };

    ghost invariant = { λ d. IsWritable d.run d.out };
}

impl DateTable {
    /// The dates of a sound plant, its live graph, and a table of that graph. It takes all memory that writing takes:
    /// the numbers of the stations, the stock on each stage's path, and room for one piece of the text.
    pub fn new(
        alloc: Global,
        plant: Plant,
        live: Live,
        table: Table,
    ) -> Result<DateTable, AllocError>
        requires { AreOfPlant plant live table }
        ensures plant { IfOk result (λ dates. dates.plant ≡ plant) }
        ensures dates { IfOk result (λ dates. dates.rows ≡ table.rows) }
        ensures least { IfOk result AreLeastDates }
    {
        let Ok((numbers, stocks, out)) = memory_for(alloc, &plant) else {
            drop(plant);
            drop(live);
            drop(table);
            return Err(AllocError);
        };
        // called for its clause: the table is the least solution of its graph
        let _least = table.stations();
        Ok(DateTable {
            run: TableRun {
                plant,
                numbers,
                stocks,
                live,
                table,
            },
            out,
        })
    }

    /// Writes the table to the sink, from its beginning: the names of the fields, and then a record for each station
    /// and job in order, with whom the part serves, the start at a machine, and the date. It goes out in pieces of
    /// 4,096 bytes and a last one that may be shorter. After `Failed` a prefix of it was written. It takes no memory.
    pub fn write<K: Sink>(&mut self, sink: &mut K) -> Result<(), Failed>
        ensures puts { WritesText (K.shown sink.old) (K.shown sink.new) (text_of self.old) result }
        ensures stays { Stays self.old self.new }
    {
        write_table(&mut self.out, sink, &self.run);
        self.out.finish(sink)
    }
}
