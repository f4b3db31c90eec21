//! The lanes of all machines.
ghost use Rattle.std.specs.Prelude.{◌≡◌, ◌≤◌, ◌<◌, ◌+◌, ◌*◌, ◌++◌, length, IfOk};
ghost use Rattle.line_chart.specs.Bars.{lanes_of_stages, stage_machines, lane_count, machines};
ghost use Rattle.plant_model.specs.Line.{release};
ghost use Rattle.plant_model.specs.Sound.{IsSound};

use crate::lanes::Lanes;
use plant_model::{LineNumbers, Plant};
use std::alloc::{AllocError, Global};

/// Adds the lanes of the machines of a stage, from the lane `first` on, and answers which lane comes after them.
fn add_stage(
    list: &mut Vec<Lanes>,
    plant: &Plant,
    numbers: &LineNumbers,
    stage: u32,
    first: u64,
) -> Result<u64, AllocError>
    requires sound { IsSound plant.now }
    requires numbers { numbers.now ≡ plant.now }
    requires exists { stage < length plant.now.stages }
    requires first { first ≡ lanes_of_stages plant.now stage }
    requires few { first ≤ 10_000 * release plant.now stage }
    ensures next { IfOk result (λ next. next ≡ lanes_of_stages plant.now (stage + 1)) }
    ensures few { IfOk result (λ next. next ≤ 10_000 * release plant.now (stage + 1)) }
    ensures added { IfOk result (λ _. list.new.items ≡ list.old.items ++ stage_machines plant.now stage) }
{
    let release = numbers.release(stage);
    let most = plant.demands.len() as u32;
    let machines = plant.stages.as_slice()[stage as usize].machines.as_slice();
    let mut next = first;
    for before in 0..machines.len() {
        let machine = &machines[before];
        let count = machine.servers.min(most) as u64;
        list.push(Lanes {
            station: release + 1 + before as u32,
            first: next,
            count,
        })?;
        next += count;
    }
    Ok(next)
}

/// The lanes of all machines, in order, and how many they are.
pub fn all_lanes(
    alloc: Global,
    plant: &Plant,
    numbers: &LineNumbers,
) -> Result<(Vec<Lanes>, u64), AllocError>
    requires sound { IsSound plant.now }
    requires numbers { numbers.now ≡ plant.now }
    ensures machines { IfOk result (λ made. made.0.items ≡ machines plant.now) }
    ensures lanes { IfOk result (λ made. made.1 ≡ lane_count plant.now) }
    ensures small { IfOk result (λ made. made.1 ≤ 5_120_000) }
{
    let mut list = Vec::new(alloc);
    let mut next = 0;
    for stage in 0..plant.stages.len() {
        next = add_stage(&mut list, plant, numbers, stage as u32, next)?;
    }
    Ok((list, next))
}
