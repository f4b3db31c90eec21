ghost use Rattle.std.specs.Prelude.{IfOk};
ghost use Rattle.live_plant.specs.LivePlant.{plant_in, IsLivePlant};
ghost use Rattle.live_plant.specs.Outside.{store_over};
ghost use Rattle.live_plant.specs.Sources.{OfSource};
ghost use Rattle.live_plant.specs.Steps.{Makes};

use crate::live_plant::{LivePlant, read_live_plant};
use crate::refusals::Refusal;
use command_line::PlantSource;
use outside_io::Store;
use std::alloc::Global;

/// The live plant of which a question is asked: that of its plant file.
pub fn read_source<S: Store>(
    alloc: Global,
    store: &mut S,
    source: &PlantSource,
) -> Result<LivePlant, Refusal>
    ensures makes { Makes (store_over S.tells (S.shown store.old) (S.shown store.new))
        (OfSource S.tells (S.shown store.old).files source.now) (plant_in result) }
    ensures line { IfOk result IsLivePlant }
{
    read_live_plant(alloc, store, source.file.as_str())
}
