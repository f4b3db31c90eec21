ghost use Rattle.std.specs.Prelude.{◌≡◌, IfOk, IfErr};
ghost use Rattle.event_graph.specs.Table.{date_in};
ghost use Rattle.line_chart.specs.Picture.{Picture, IsDrawn, IsReason, IsWindow, MayBeAskedFor, Stays, text_of};
ghost use Rattle.line_chart.specs.Window.{window_of};
ghost use Rattle.outside_io.specs.SinkView.{WritesText};
ghost use Rattle.line_stats.specs.Counts.{last_date};
ghost use Rattle.line_stats.specs.PlantDates.{AreOfPlant};
ghost use Rattle.plant_model.specs.Graph.{graph};

use crate::error::ChartError;
use crate::making::{room_for, run_of};
use crate::picture::write_picture;
use crate::run::ChartRun;
use crate::window::Window;
use line_core::Table;
use line_stats::last;
use live_check::Live;
use outside_io::{Failed, Outgoing, Sink};
use plant_model::Plant;
use std::alloc::Global;
use std::marker::Model;

/// A picture of a finished run of a plant, and the memory for writing it. Contracts see the plant, the dates and the
/// window.
#[derive(Drop)]
pub struct Chart {
    run: ChartRun,
    out: Outgoing,
}

impl Model for Chart {
    ghost use Rattle.std.specs.Prelude.{◌≡◌, ◌≤◌, false};
    ghost use Rattle.line_base.specs.Limits.{most_bars};
    ghost use Rattle.line_core.specs.Run.{IsLeastTable};
    ghost use Rattle.outside_io.specs.Outgoing.{nothing_waiting};
    ghost use Rattle.line_chart.specs.Picture.{Picture, IsOfRun, bars_and_lanes};

    ghost Value = { Picture };

    ghost view = { λ c. record { plant = c.run.plant; rows = c.run.table.rows; window = c.run.window } };

    ghost invariant = { λ c. IsOfRun c.run × IsLeastTable c.run.table × (c.out ≡ nothing_waiting false)
        × (bars_and_lanes (record { plant = c.run.plant; rows = c.run.table.rows; window = c.run.window }) ≤ most_bars) };
}

/// The window that is asked for, else all dates to the last, and the first one where that is 0.
fn window_of(table: &Table, window: Option<(u64, u64)>) -> Window
    requires { MayBeAskedFor window }
    ensures window { result ≡ window_of window (last_date table.now.graph (date_in table.now.rows)) }
    ensures is_one { IsWindow result }
{
    // called for its clause: the table is the least solution of its graph
    let _stations = table.stations();
    match window {
        Some((from, to)) => Window { from, to },
        None => Window {
            from: 0,
            to: last(table).max(1),
        },
    }
}

impl Chart {
    /// The picture of a sound plant, its live graph, and a table of that graph, over the window, else over all dates.
    /// It is refused exactly where the bars that meet the window and the lanes together are above 20,000. It takes all
    /// memory that writing takes: the numbers of the stations, the lanes of each machine, and room for one piece of the
    /// text.
    pub fn of(
        alloc: Global,
        plant: Plant,
        live: Live,
        table: Table,
        window: Option<(u64, u64)>,
    ) -> Result<Chart, ChartError>
        requires of_plant { AreOfPlant plant live table }
        requires window { MayBeAskedFor window }
        ensures drawn { IfOk result (λ chart. chart ≡ record {
          plant = plant;
          rows = table.rows;
          window = window_of window (last_date (graph plant) (date_in table.rows));
        }) }
        ensures small { IfOk result IsDrawn }
        ensures refused { IfErr result (IsReason (record {
          plant = plant;
          rows = table.rows;
          window = window_of window (last_date (graph plant) (date_in table.rows));
        })) }
    {
        let window = window_of(&table, window);
        let run = run_of(alloc, plant, live, table, window)?;
        match room_for(alloc, &run) {
            Err(error) => {
                drop(run);
                Err(error)
            }
            Ok(out) => Ok(Chart { run, out }),
        }
    }

    /// Writes the picture to the sink, from its beginning, in pieces of 4,096 bytes and a last one that may be shorter.
    /// After `Failed` a prefix of it was written. It takes no memory.
    pub fn write<K: Sink>(&mut self, sink: &mut K) -> Result<(), Failed>
        ensures puts { WritesText (K.shown sink.old) (K.shown sink.new) (text_of self.old) result }
        ensures stays { Stays self.old self.new }
    {
        write_picture(&mut self.out, sink, &self.run);
        self.out.finish(sink)
    }
}
