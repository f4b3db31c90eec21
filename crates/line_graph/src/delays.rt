//! How long cards are on their way back: the delays of the policy's arcs, and those of the loops.
ghost use Rattle.std.specs.List.{flat_map};
ghost use Rattle.std.specs.Prelude.{◌≡◌, ◌∷◌, [], length, map, replicate, IfOk};
ghost use Rattle.plant_model.specs.Graph.{delays_of, policy_rows};

use plant_model::{CardLoop, Plant, Policy, Stage};
use std::alloc::{AllocError, Global};

/// The delays of the policy's arcs, of which there are this many: those of cards on their way back.
pub(crate) fn policy_delays(
    alloc: Global,
    plant: &Plant,
    arcs: usize,
) -> Result<Vec<u64>, AllocError>
    requires { arcs ≡ length (policy_rows plant.now) }
    ensures { IfOk result (λ delays. delays.items ≡ delays_of (policy_rows plant.now)) }
{
    match plant.policy {
        Policy::Kanban => card_times(alloc, plant.stages.as_slice()),
        Policy::Conwip(_) => repeat_delay(alloc, plant.card_time, arcs),
        Policy::BaseStock => repeat_delay(alloc, 0, arcs),
        Policy::Extended => demand_and_card_times(alloc, plant.stages.as_slice()),
    }
}

/// The same delay this many times.
fn repeat_delay(alloc: Global, delay: u64, count: usize) -> Result<Vec<u64>, AllocError>
    ensures { IfOk result (λ delays. delays.items ≡ replicate count delay) }
{
    vec![in alloc; delay; count]
}

/// How long the cards of each stage move back.
fn card_times(alloc: Global, stages: &[Stage]) -> Result<Vec<u64>, AllocError>
    ensures { IfOk result (λ times. times.items ≡ map (λ s. s.card_time) stages.now) }
{
    stages.iter().map(|stage| stage.card_time).collect(alloc)
}

/// For each stage no delay of the demand, then how long its cards move back.
fn demand_and_card_times(alloc: Global, stages: &[Stage]) -> Result<Vec<u64>, AllocError>
    ensures { IfOk result (λ times. times.items ≡ flat_map (λ s. 0 ∷ s.card_time ∷ []) stages.now) }
{
    let mut times = Vec::new(alloc);
    for stage in stages {
        times.push(0)?;
        times.push(stage.card_time)?;
    }
    Ok(times)
}

/// How long the cards of each loop move back.
pub(crate) fn loop_delays(alloc: Global, loops: &[CardLoop]) -> Result<Vec<u64>, AllocError>
    ensures { IfOk result (λ times. times.items ≡ map (λ l. l.card_time) loops.now) }
{
    loops
        .iter()
        .map(|card_loop| card_loop.card_time)
        .collect(alloc)
}
