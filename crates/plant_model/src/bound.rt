ghost use Rattle.std.specs.Prelude.{◌≡◌, ◌<◌, ◌↔◌, length, IsNone};
ghost use Rattle.plant_model.specs.Bound.{bound};
ghost use Rattle.plant_model.specs.Line.{stage_at};

use crate::plant::{Plant, Policy};

/// The bound of a stage, numbered from 0: how many parts at most stand in it, in process, in move and in stock
/// together. It is the stage's cards under kanban and extended kanban, the line's cards under CONWIP, and `None`
/// exactly under base stock. It takes no memory.
pub fn bound_of(plant: &Plant, stage: u32) -> Option<u32>
    requires { stage < length plant.now.stages }
    ensures bound { result ≡ bound plant.now stage }
    ensures unbounded { IsNone result ↔ (plant.now.policy ≡ Policy.BaseStock) }
{
    match plant.policy {
        Policy::Kanban | Policy::Extended => Some(plant.stages.as_slice()[stage as usize].cards),
        Policy::Conwip(cards) => Some(cards),
        Policy::BaseStock => None,
    }
}
