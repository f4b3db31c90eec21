//! All that is wrong with a plant as a whole, where its parts are right: the refusals 11 to 15.
ghost use Rattle.std.specs.Prelude.{◌≡◌, ◌<◌, ◌++◌, ◌∷◌, [], length, IfOk, OnOk};
ghost use Rattle.plant_model.specs.Refusals.{all_feeds_not_later, each, times_count, machine_times_count, stage_times_count, falling_date, too_few_cards, loops_not_downstream, whole_refusals};

use super::cards::find_on_paths;
use super::sizes::find_sizes;
use line_base::{Date, Times};
use plant_model::{FileTable, Machine, PathTable, Plant, PlantError, Stage, table_place};
use std::alloc::{AllocError, Global};

/// All that is wrong with a plant as a whole, class by class, in each in the order of a plant file. Where nothing is,
/// there is none.
#[tactic(auto, unfolding(plant_model::specs::Refusals::whole_refusals))]
pub fn refusals_of_plant(alloc: Global, plant: &Plant) -> Result<Vec<PlantError>, AllocError>
    requires { all_feeds_not_later plant.now ≡ [] }
    ensures { IfOk result (λ refusals. refusals.items ≡ whole_refusals plant.now) }
{
    let mut refusals = Vec::new(alloc);
    find_counts(
        alloc,
        plant.demands.len(),
        plant.stages.as_slice(),
        &mut refusals,
    )?;
    find_falls(plant.demands.as_slice(), &mut refusals)?;
    find_with_paths(alloc, plant, &mut refusals)?;
    find_sizes(alloc, plant, &mut refusals)?;
    Ok(refusals)
}

/// Adds each loop, and each key of cards, that is wrong by the paths of the plant.
fn find_with_paths(
    alloc: Global,
    plant: &Plant,
    refusals: &mut Vec<PlantError>,
) -> Result<(), AllocError>
    requires { all_feeds_not_later plant.now ≡ [] }
    ensures { OnOk result (refusals.new.items ≡ refusals.old.items
        ++ (too_few_cards plant.now ++ loops_not_downstream plant.now)) }
{
    let paths = PathTable::of(alloc, plant)?;
    let found = find_on_paths(alloc, &paths, refusals);
    drop(paths);
    found
}

/// Adds a refusal at the end.
pub(crate) fn refuse(refusals: &mut Vec<PlantError>, refusal: PlantError) -> Result<(), AllocError>
    ensures { OnOk result (refusals.new.items ≡ refusals.old.items ++ refusal ∷ []) }
{
    refusals.push(refusal)?;
    Ok(())
}

/// Adds each machine of these stages whose list of job times has another length than there are jobs.
fn find_counts(
    alloc: Global,
    jobs: usize,
    stages: &[Stage],
    refusals: &mut Vec<PlantError>,
) -> Result<(), AllocError>
    ensures { OnOk result (refusals.new.items ≡ refusals.old.items ++ each (stage_times_count jobs) stages.now) }
{
    for (i, stage) in stages.iter().enumerate() {
        let machines = stage.machines.as_slice();
        find_counts_in_stage(alloc, jobs, i, machines, refusals)?;
    }
    Ok(())
}

/// Adds each such machine of stage `i`.
fn find_counts_in_stage(
    alloc: Global,
    jobs: usize,
    i: usize,
    machines: &[Machine],
    refusals: &mut Vec<PlantError>,
) -> Result<(), AllocError>
    ensures { OnOk result (refusals.new.items ≡ refusals.old.items
        ++ each (machine_times_count jobs i) machines.now) }
{
    for (j, machine) in machines.iter().enumerate() {
        let table = FileTable::InMachine(i, j);
        find_count(alloc, jobs, table, &machine.times, refusals)?;
    }
    Ok(())
}

/// Adds a machine whose list of job times has another length than there are jobs.
fn find_count(
    alloc: Global,
    jobs: usize,
    machine: FileTable,
    times: &Times,
    refusals: &mut Vec<PlantError>,
) -> Result<(), AllocError>
    ensures { OnOk result (refusals.new.items ≡ refusals.old.items ++ times_count jobs machine times.now) }
{
    let Times::Each(times) = times else {
        return Ok(());
    };
    if times.len() == jobs {
        return Ok(());
    }
    let place = table_place(alloc, machine)?;
    let have = times.len() as u64;
    let need = jobs as u64;
    refuse(refusals, PlantError::TimesCount { place, have, need })
}

/// Adds each job whose demand date is less than the one before.
fn find_falls(dates: &[Date], refusals: &mut Vec<PlantError>) -> Result<(), AllocError>
    ensures { OnOk result (refusals.new.items ≡ refusals.old.items ++ each (falling_date dates.now) dates.now) }
{
    for (k, date) in dates.iter().enumerate() {
        find_fall(dates, k, *date, refusals)?;
    }
    Ok(())
}

/// Adds the job of demand date `k`, counted from 0, if that date is less than the one before.
fn find_fall(
    dates: &[Date],
    k: usize,
    date: Date,
    refusals: &mut Vec<PlantError>,
) -> Result<(), AllocError>
    requires { k < length dates.now }
    ensures { OnOk result (refusals.new.items ≡ refusals.old.items ++ falling_date dates.now k date) }
{
    if dates[k.saturating_sub(1)] <= date {
        return Ok(());
    }
    let job = k as u64 + 1;
    refuse(refusals, PlantError::DemandOrder { job })
}
