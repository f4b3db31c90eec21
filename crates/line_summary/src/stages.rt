//! What stands in a stage, summed over time.
ghost use Rattle.std.specs.Prelude.{◌≡◌, ◌+◌, ◌≤◌, ◌^◌};
ghost use Rattle.event_graph.specs.Table.{date_in};
ghost use Rattle.line_stats.specs.Counts.{last_date};
ghost use Rattle.line_stats.specs.PlantDates.{IsStageOf};
ghost use Rattle.line_summary.specs.OverTime.{process_sum, move_sum, stock_sum, parts_sum};
ghost use Rattle.line_summary.specs.Figures.{IsLine};

use crate::date_sums::{arrived_sum, done_sum};
use crate::sizes::stage_count;
use line_base::Date;
use line_core::Table;
use plant_model::{LineNumbers, Plant};

/// The sums over time of the parts of a stage.
#[derive(Clone, Copy)]
pub struct StageSums {
    pub process: u128,
    pub moving: u128,
    pub stock: u128,
}

/// The sums over time of a stage, by four passes over the dates of three of its stations. `last` is the last date.
pub fn stage_sums(
    plant: &Plant,
    numbers: &LineNumbers,
    table: &Table,
    stage: u32,
    last: Date,
) -> StageSums
    requires stage { IsStageOf plant.now numbers.now table.now stage }
    requires last { last ≡ last_date table.now.graph (date_in table.now.rows) }
    ensures process { result.process ≡ process_sum plant.now (date_in table.now.rows) stage }
    ensures moving { result.moving ≡ move_sum plant.now (date_in table.now.rows) stage }
    ensures stock { result.stock ≡ stock_sum plant.now (date_in table.now.rows) stage }
    ensures small { result.process + result.moving + result.stock ≤ 2 ^ 82 }
{
    let machine = numbers.last_machine(stage);
    let travel = plant.stages.as_slice()[stage as usize].travel;
    let released = done_sum(table, numbers.release(stage), last);
    let worked = done_sum(table, machine, last);
    let arrived = arrived_sum(table, machine, travel, last);
    let taken = done_sum(table, numbers.receiver(plant, stage), last);
    let stocked = u128::from(plant.starting(stage)) * u128::from(last) + arrived;
    StageSums {
        process: released - worked,
        moving: worked - arrived,
        stock: stocked - taken,
    }
}

/// The sum over time of the parts of all stages. `last` is the last date.
pub fn parts_sum(plant: &Plant, numbers: &LineNumbers, table: &Table, last: Date) -> u128
    requires line { IsLine plant.now numbers.now table.now }
    requires last { last ≡ last_date table.now.graph (date_in table.now.rows) }
    ensures { result ≡ parts_sum plant.now (date_in table.now.rows) }
{
    let mut parts = 0;
    for stage in 0..stage_count(plant) {
        let sums = stage_sums(plant, numbers, table, stage, last);
        parts += sums.process + sums.moving + sums.stock;
    }
    parts
}
