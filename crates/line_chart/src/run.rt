use crate::lanes::Lanes;
use crate::window::Window;
use line_core::Table;
use live_check::Live;
use plant_model::{LineNumbers, Plant};

/// A finished run of a plant, and what is drawn of it: what writing the picture looks at.
#[derive(Drop)]
pub struct ChartRun {
    pub plant: Plant,
    /// The numbers of its stations.
    pub numbers: LineNumbers,
    pub live: Live,
    pub table: Table,
    /// The lanes of its machines.
    pub machines: Vec<Lanes>,
    /// How many lanes there are.
    pub lanes: u64,
    pub window: Window,
}
