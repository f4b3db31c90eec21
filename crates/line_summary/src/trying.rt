//! One count of cards tried.
ghost use Rattle.std.specs.Prelude.{◌≡◌, ◌≤◌, true, IfOk, OnOk};
ghost use Rattle.card_sizing.specs.Sized.{has_single_count, lowest};
ghost use Rattle.event_graph.specs.Live.{IsLive};
ghost use Rattle.line_base.specs.Limits.{most_cards};
ghost use Rattle.line_base.specs.declared.event.Parts.{Parts};
ghost use Rattle.line_summary.specs.Points.{AreFigures, IsPoint, IsPointOf};
ghost use Rattle.live_check.specs.NotLive.{SaysNotLive};
ghost use Rattle.plant_model.specs.Graph.{graph};
ghost use Rattle.plant_model.specs.Sound.{IsSound};

use crate::figures::Figures;
use crate::point::Point;
use card_sizing::sized_plant;
use line_core::run;
use line_graph::graph_of;
use live_check::{Live, NotLive, rank};
use plant_model::{LineNumbers, Plant};
use std::alloc::{AllocError, Global};

/// What a count of cards gives a plant whose lowest count is `least`. It takes the time of a run.
pub fn point_at(alloc: Global, plant: &Plant, least: u32, count: u32) -> Result<Point, AllocError>
    requires sound { IsSound plant.now }
    requires single { has_single_count plant.now ≡ true }
    requires least { least ≡ lowest plant.now }
    requires within { count ≤ most_cards }
    ensures { IfOk result (IsPoint plant.now count) }
{
    if count < least {
        return Ok(Point::TooFew);
    }
    let sized = sized_plant(alloc, plant, count)?;
    let point = point_of(alloc, &sized);
    drop(sized);
    point
}

/// What a plant gives with the cards that it has.
fn point_of(alloc: Global, plant: &Plant) -> Result<Point, AllocError>
    requires { IsSound plant.now }
    ensures { IfOk result (IsPointOf plant.now) }
{
    match rank(alloc, graph_of(alloc, plant)?) {
        Ok(live) => {
            let figures = figures_of(alloc, plant, &live);
            drop(live);
            Ok(Point::Alive { figures: figures? })
        }
        Err(not_live) => {
            check_dead(not_live)?;
            Ok(Point::Dead)
        }
    }
}

/// That a graph was handed back since it isn't live, and not because memory ran out.
fn check_dead(not_live: NotLive) -> Result<(), AllocError>
    ensures { (g : Parts) → SaysNotLive g not_live → OnOk result (¬ IsLive g) }
{
    match not_live {
        NotLive::Dead { graph, arcs } => {
            drop(graph);
            drop(arcs);
            Ok(())
        }
        NotLive::NoMemory { graph } => {
            drop(graph);
            Err(AllocError)
        }
    }
}

/// The figures of the least solution of a plant, whose graph is live.
fn figures_of(alloc: Global, plant: &Plant, live: &Live) -> Result<Figures, AllocError>
    requires sound { IsSound plant.now }
    requires of_plant { live.now.graph ≡ graph plant.now }
    ensures { IfOk result (AreFigures plant.now) }
{
    let numbers = LineNumbers::of(alloc, plant)?;
    let end = run(alloc, live)?;
    let table = end.into_table(live);
    let figures = Figures::of(plant, &numbers, &table);
    drop(table);
    drop(numbers);
    Ok(figures)
}
