use line_core::Table;
use live_check::Live;
use plant_model::{LineNumbers, Plant};

/// A finished run of a plant: what writing its dates looks at.
#[derive(Drop)]
pub struct TableRun {
    pub plant: Plant,
    /// The numbers of its stations.
    pub numbers: LineNumbers,
    /// The starting stock on the path of each stage.
    pub stocks: Vec<u64>,
    pub live: Live,
    pub table: Table,
}
