ghost use Rattle.std.specs.Prelude.{◌≡◌, length};
ghost use Rattle.plant_model.specs.Sound.{IsSound};

use line_core::Table;
use live_check::Live;
use plant_model::{LineNumbers, Plant};

/// A finished run of a plant: what writing its report looks at.
#[derive(Drop)]
pub struct FinishedRun {
    pub plant: Plant,
    /// The numbers of its stations.
    pub numbers: LineNumbers,
    pub live: Live,
    pub table: Table,
}

impl FinishedRun {
    /// How many stages the plant has.
    pub fn stages(&self) -> u32
        requires { IsSound self.now.plant }
        ensures { result ≡ length self.now.plant.stages }
    {
        self.plant.stages.len() as u32
    }
}
