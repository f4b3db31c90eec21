//! How busy the machines are.
ghost use Rattle.std.specs.List.{best_of, range_with_len};
ghost use Rattle.std.specs.Prelude.{◌≡◌, ◌<◌, ◌≤◌, ◌++◌, ℕ, length, slice_index, sum, sum_by, IfOk, OnOk};
ghost use Rattle.line_base.specs.Times.{time_at};
ghost use Rattle.line_summary.specs.Machines.{stage_uses, machine_uses, is_busier, busiest_of};
ghost use Rattle.plant_model.specs.Sound.{AreSoundTimes, IsSound};

use crate::sizes::{job_count, stage_count};
use line_base::{MAX_DEMANDS, MAX_TIME, Times};
use plant_model::Plant;
use std::alloc::{AllocError, Global};

/// A machine of a plant, with its servers and how long it works.
#[derive(Clone, Copy)]
pub struct MachineUse {
    /// The number of its stage.
    pub stage: u32,
    /// Its number in the stage.
    pub machine: u32,
    pub servers: u32,
    /// The sum of its times for all jobs, in the plant's unit.
    pub busy: u64,
}

/// The sum of times.
fn total(times: &[u64]) -> u64
    requires few { length times.now ≤ MAX_DEMANDS }
    requires short { (k : ℕ) → k < length times.now → slice_index times.now k ≤ MAX_TIME }
    ensures { result ≡ sum times.now }
{
    let mut sum = 0;
    for time in times {
        sum += *time;
    }
    sum
}

/// The sum of job times over all jobs.
fn busy(times: &Times, jobs: u32) -> u64
    requires times { AreSoundTimes jobs times.now }
    requires few { jobs ≤ MAX_DEMANDS }
    ensures { result ≡ sum_by (time_at times.now) (range_with_len 1 jobs) }
{
    match times {
        Times::Fixed(time) => *time * u64::from(jobs),
        Times::Each(times) => total(times.as_slice()),
    }
}

/// Adds the machines of a stage, in order.
fn add_stage_uses(uses: &mut Vec<MachineUse>, plant: &Plant, stage: u32) -> Result<(), AllocError>
    requires sound { IsSound plant.now }
    requires exists { stage < length plant.now.stages }
    ensures { OnOk result (uses.new.items ≡ uses.old.items ++ stage_uses plant.now stage) }
{
    let jobs = job_count(plant);
    let machines = plant.stages.as_slice()[stage as usize].machines.as_slice();
    for (machine, part) in machines.iter().enumerate() {
        uses.push(MachineUse {
            stage,
            machine: machine as u32,
            servers: part.servers,
            busy: busy(&part.times, jobs),
        })?;
    }
    Ok(())
}

/// The machines of a plant, in order.
pub fn machine_uses(alloc: Global, plant: &Plant) -> Result<Vec<MachineUse>, AllocError>
    requires { IsSound plant.now }
    ensures { IfOk result (λ uses. uses.items ≡ machine_uses plant.now) }
{
    let mut uses = Vec::new(alloc);
    for stage in 0..stage_count(plant) {
        add_stage_uses(&mut uses, plant, stage)?;
    }
    Ok(uses)
}

/// Whether the first machine is busier than the second, in proportion to their servers.
fn is_busier(a: &MachineUse, b: &MachineUse) -> bool
    ensures { result ≡ is_busier a.now b.now }
{
    u128::from(b.busy) * u128::from(a.servers) < u128::from(a.busy) * u128::from(b.servers)
}

/// The first of the machines than which none is busier, where `first` comes before the others.
fn busiest_from(first: MachineUse, others: &[MachineUse]) -> MachineUse
    ensures { result ≡ best_of is_busier first others.now }
{
    let mut best = first;
    for other in others {
        if is_busier(other, &best) {
            best = *other;
        }
    }
    best
}

/// The first of the machines than which none is busier.
pub fn busiest(uses: &[MachineUse]) -> MachineUse
    ensures { result ≡ busiest_of uses.now }
{
    match uses.split_first() {
        Some((first, others)) => busiest_from(*first, others),
        None => MachineUse {
            stage: 0,
            machine: 0,
            servers: 0,
            busy: 0,
        },
    }
}
