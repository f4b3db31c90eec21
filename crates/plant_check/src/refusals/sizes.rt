//! The limits that a plant passes.
ghost use Rattle.std.specs.Prelude.{◌≡◌, ◌++◌, ◌*◌, ◌^◌, ◌≤◌, length, codes, OnOk};
ghost use Rattle.line_base.specs.Limits.{most_dates};
ghost use Rattle.plant_model.specs.Line.{station_count, stations_of};
ghost use Rattle.plant_model.specs.Refusals.{larger, too_large};

use super::whole::refuse;
use line_base::{MAX_DEMANDS, MAX_LOOPS, MAX_OBSERVE, MAX_STAGES, MAX_STATIONS, MAX_TABLE, Text};
use plant_model::{Plant, PlantError, Stage};
use std::alloc::{AllocError, Global};

/// Adds each limit that a plant passes.
pub(crate) fn find_sizes(
    alloc: Global,
    plant: &Plant,
    refusals: &mut Vec<PlantError>,
) -> Result<(), AllocError>
    ensures { OnOk result (refusals.new.items ≡ refusals.old.items ++ too_large plant.now) }
{
    let stations = count_all_stations(plant);
    let jobs = plant.demands.len() as u128;
    find_size(
        alloc,
        "stages",
        MAX_STAGES,
        plant.stages.len() as u128,
        refusals,
    )?;
    find_size(alloc, "stations", MAX_STATIONS, stations, refusals)?;
    find_size(alloc, "demands", MAX_DEMANDS, jobs, refusals)?;
    find_table(alloc, stations, jobs, refusals)?;
    find_size(
        alloc,
        "loops",
        MAX_LOOPS,
        plant.loops.len() as u128,
        refusals,
    )?;
    find_size(
        alloc,
        "observe",
        MAX_OBSERVE,
        plant.observe.len() as u128,
        refusals,
    )
}

/// Adds that the table has more dates than is allowed. A count that passes 128 bits does so too.
fn find_table(
    alloc: Global,
    stations: u128,
    jobs: u128,
    refusals: &mut Vec<PlantError>,
) -> Result<(), AllocError>
    ensures { OnOk result (refusals.new.items ≡ refusals.old.items
        ++ larger (codes "table") most_dates (stations * jobs)) }
{
    let dates = stations.saturating_mul(jobs);
    find_size(alloc, "table", MAX_TABLE, dates, refusals)
}

/// Adds that a count is above its limit.
fn find_size(
    alloc: Global,
    what: &str,
    limit: u32,
    count: u128,
    refusals: &mut Vec<PlantError>,
) -> Result<(), AllocError>
    ensures { OnOk result (refusals.new.items ≡ refusals.old.items ++ larger what.now limit count) }
{
    if count <= u128::from(limit) {
        return Ok(());
    }
    let what = Text::of(alloc, what)?;
    refuse(refusals, PlantError::TooLarge { what })
}

/// How many stations a plant has: the feed, those of the stages, the delivery.
fn count_all_stations(plant: &Plant) -> u128
    ensures { result ≡ station_count plant.now }
{
    1 + count_stations(plant.stages.as_slice()) + 1
}

/// How many stations these stages have, whatever stands in place of their job times: each a release and its machines.
pub fn count_stations<T>(stages: &[Stage<T>]) -> u128
    ensures count { result ≡ stations_of stages.now }
    ensures small { result ≤ length stages.now * 2 ^ 64 }
{
    let mut count = 0;
    for stage in stages {
        count += 1 + stage.machines.len() as u128;
    }
    count
}
