//! What a picture and a table are made of.
ghost use Rattle.std.specs.Prelude.{◌≡◌, ◌<◌, ◌≤◌, false, Err, IfOk, IfErr};
ghost use Rattle.line_base.specs.Limits.{most_bars};
ghost use Rattle.line_chart.specs.DateTable.{path_stocks};
ghost use Rattle.line_chart.specs.Machines.{AreLanesOf};
ghost use Rattle.line_chart.specs.Picture.{IsOfRun, IsReason, IsRunOf, IsWindow, bars_and_lanes, picture_of};
ghost use Rattle.line_chart.specs.declared.error.ChartError.TheVariants.{TooLarge};
ghost use Rattle.outside_io.specs.Outgoing.{nothing_waiting};
ghost use Rattle.line_stats.specs.PlantDates.{AreOfPlant};
ghost use Rattle.plant_model.specs.Sound.{IsSound};

use crate::bars::count_bars;
use crate::error::ChartError;
use crate::lanes::Lanes;
use crate::machines::all_lanes;
use crate::run::ChartRun;
use crate::stocks::path_stocks;
use crate::window::Window;
use line_base::MAX_BARS;
use line_core::Table;
use live_check::Live;
use outside_io::Outgoing;
use plant_model::{LineNumbers, Plant};
use std::alloc::{AllocError, Global};

/// The numbers of the stations of a plant, the lanes of its machines, and how many these are.
fn lanes_of(alloc: Global, plant: &Plant) -> Result<(LineNumbers, Vec<Lanes>, u64), AllocError>
    requires { IsSound plant.now }
    ensures { IfOk result (λ made. AreLanesOf plant.now made.0 made.1.items made.2) }
{
    let numbers = LineNumbers::of(alloc, plant)?;
    match all_lanes(alloc, plant, &numbers) {
        Ok((machines, lanes)) => Ok((numbers, machines, lanes)),
        Err(error) => {
            drop(numbers);
            Err(error)
        }
    }
}

/// What is drawn of a run of a plant in a window.
pub fn run_of(
    alloc: Global,
    plant: Plant,
    live: Live,
    table: Table,
    window: Window,
) -> Result<ChartRun, AllocError>
    requires of_plant { AreOfPlant plant live table }
    requires window { IsWindow window }
    ensures { IfOk result (IsRunOf plant table window) }
{
    // called for its clause: the graph is live
    let _graph = live.graph();
    match lanes_of(alloc, &plant) {
        Ok((numbers, machines, lanes)) => Ok(ChartRun {
            plant,
            numbers,
            live,
            table,
            machines,
            lanes,
            window,
        }),
        Err(error) => {
            drop(plant);
            drop(live);
            drop(table);
            Err(error)
        }
    }
}

/// Room for one piece of the text. A picture of too many bars and lanes is refused.
pub fn room_for(alloc: Global, run: &ChartRun) -> Result<Outgoing, ChartError>
    requires { IsOfRun run.now }
    ensures room { IfOk result (λ out. out ≡ nothing_waiting false) }
    ensures small { IfOk result (λ _. bars_and_lanes (picture_of run.now) ≤ most_bars) }
    ensures refused { IfErr result (IsReason (picture_of run.now)) }
    ensures too_large { most_bars < bars_and_lanes (picture_of run.now)
        → result ≡ Err (TooLarge (bars_and_lanes (picture_of run.now))) }
{
    let bars = count_bars(run) + run.lanes;
    if bars > MAX_BARS {
        return Err(ChartError::TooLarge { bars });
    }
    Ok(Outgoing::new(alloc)?)
}

/// What a table takes: the numbers of a plant's stations, the stock on the path of each stage, and room for one piece
/// of the text.
pub fn memory_for(
    alloc: Global,
    plant: &Plant,
) -> Result<(LineNumbers, Vec<u64>, Outgoing), AllocError>
    requires { IsSound plant.now }
    ensures numbers { IfOk result (λ made. made.0 ≡ plant.now) }
    ensures stocks { IfOk result (λ made. made.1.items ≡ path_stocks plant.now) }
    ensures out { IfOk result (λ made. made.2 ≡ nothing_waiting false) }
{
    let numbers = LineNumbers::of(alloc, plant)?;
    let stocks = path_stocks(alloc, plant)?;
    let out = Outgoing::new(alloc)?;
    Ok((numbers, stocks, out))
}
