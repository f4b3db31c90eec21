ghost use Rattle.std.specs.Prelude.{◌≡◌, [], OnOk};
ghost use Rattle.plant_model.specs.Refusals.{AnswersFirst, parts_refusals, whole_refusals, refusals};
ghost use Rattle.plant_model.specs.Sound.{IsSound, IsSoundPlant};

use crate::feeds::check_flow;
use crate::refusals::refusals_of_plant;
use crate::{names, ranges};
use plant_model::{Plant, PlantError};
use std::alloc::Global;

/// Whether a plant is sound. The error is the first of the refusals 5 to 9 and 11 to 15 of `PlantError`, in their
/// order, each tried over the whole plant before the next, at the first key in the order of a plant file. Running out
/// of memory may come before any of them.
#[tactic(auto, unfolding(plant_model::specs::Refusals::refusals))]
pub fn check(alloc: Global, plant: &Plant) -> Result<(), PlantError>
    ensures sound { OnOk result (IsSound plant.now) }
    ensures plain { OnOk result (IsSoundPlant plant.now) }
    ensures first { AnswersFirst result (refusals plant.now) }
{
    check_parts(alloc, plant)?;
    check_whole(alloc, plant)
}

/// Whether nothing is wrong with a plant as a whole, where its parts are right: the error is the first of the refusals
/// 11 to 15.
pub fn check_whole(alloc: Global, plant: &Plant) -> Result<(), PlantError>
    requires { parts_refusals plant.now ≡ [] }
    ensures sound { OnOk result (IsSound plant.now) }
    ensures first { AnswersFirst result (whole_refusals plant.now) }
{
    first_of(refusals_of_plant(alloc, plant)?)
}

/// Whether nothing is wrong with the parts of a plant, each by itself.
#[tactic(auto, unfolding(plant_model::specs::Refusals::parts_refusals))]
fn check_parts(alloc: Global, plant: &Plant) -> Result<(), PlantError>
    ensures { AnswersFirst result (parts_refusals plant.now) }
{
    names::check_reserved(alloc, plant)?;
    names::check_repeated(alloc, plant)?;
    ranges::check_ranges(alloc, plant)?;
    check_flow(alloc, plant.stages.as_slice())
}

/// The first of these refusals, if there is one.
fn first_of(refusals: Vec<PlantError>) -> Result<(), PlantError>
    ensures { AnswersFirst result refusals.items }
{
    match refusals.into_iter().next() {
        Some(refusal) => Err(refusal),
        None => Ok(()),
    }
}
