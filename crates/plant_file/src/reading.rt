use crate::draft::Draft;
use plant_keys::FaultList;

/// What the reading of a tree gives where all that is wrong is asked for.
#[derive(Drop)]
pub enum TreeReading {
    /// Nothing is wrong: what the plant file says.
    Draft(Draft),
    /// What is wrong.
    Faults(FaultList),
}
