//! How many jobs and stages a plant has.
ghost use Rattle.std.specs.Prelude.{◌≡◌, ◌≤◌, length};
ghost use Rattle.plant_model.specs.Sound.{IsSound};

use line_base::MAX_DEMANDS;
use plant_model::Plant;

/// How many jobs a plant has, one a demand.
pub fn job_count(plant: &Plant) -> u32
    requires { IsSound plant.now }
    ensures count { result ≡ length plant.now.demands }
    ensures few { result ≤ MAX_DEMANDS }
{
    plant.demands.len() as u32
}

/// How many stages a plant has.
pub fn stage_count(plant: &Plant) -> u32
    requires { IsSound plant.now }
    ensures { result ≡ length plant.now.stages }
{
    plant.stages.len() as u32
}
