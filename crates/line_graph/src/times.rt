ghost use Rattle.std.specs.Prelude.{◌≡◌, [], ◌++◌, IfOk, OnOk};
ghost use Rattle.plant_model.specs.Graph.{times, stage_times};

use line_base::Times;
use plant_model::{Plant, Stage};
use std::alloc::{AllocError, Global};

/// The job times of the stations: none for the feed and the delivery, between them each stage's.
pub(crate) fn station_times(alloc: Global, plant: &Plant) -> Result<Vec<Times>, AllocError>
    ensures { IfOk result (λ all. all.items ≡ times plant.now) }
{
    let mut all = Vec::new(alloc);
    match fill_times(alloc, plant, &mut all) {
        Ok(()) => Ok(all),
        Err(error) => {
            drop(all);
            Err(error)
        }
    }
}

/// Puts the job times of the stations into an empty list.
#[tactic(auto, unfolding(plant_model::specs::Graph::times))]
fn fill_times(alloc: Global, plant: &Plant, all: &mut Vec<Times>) -> Result<(), AllocError>
    requires { all.old.items ≡ [] }
    ensures { OnOk result (all.new.items ≡ times plant.now) }
{
    all.push(Times::Fixed(0))?;
    for stage in plant.stages.as_slice() {
        add_stage_times(alloc, stage, all)?;
    }
    all.push(Times::Fixed(0))?;
    Ok(())
}

/// Adds the job times of a stage: none for its release, then those of its machines.
fn add_stage_times(alloc: Global, stage: &Stage, all: &mut Vec<Times>) -> Result<(), AllocError>
    ensures { OnOk result (all.new.items ≡ all.old.items ++ stage_times stage.now) }
{
    all.push(Times::Fixed(0))?;
    for machine in stage.machines.as_slice() {
        all.push(machine.times.copy(alloc)?)?;
    }
    Ok(())
}
