//! A copy of a plant with another count of cards, or with a count for each stage.
ghost use Rattle.std.specs.Prelude.{◌≡◌, map, length, IfOk};
ghost use Rattle.card_sizing.specs.Counted.{stage_counted, with_counts};
ghost use Rattle.card_sizing.specs.Sized.{policy_with, cards_under, stage_with, sized_plant};
ghost use Rattle.plant_model.specs.Line.{stage_numbers};

use line_base::{Date, Items};
use plant_model::{CardLoop, Machine, Plant, Policy, Stage};
use std::alloc::{AllocError, Global};

/// A copy of the plant with `count` cards at each stage under kanban and extended kanban, and for the line under
/// CONWIP. Under base stock it is a copy of the plant as it is.
#[tactic(auto, unfolding(crate::specs::Sized::sized_plant))]
pub fn sized_plant(alloc: Global, plant: &Plant, count: u32) -> Result<Plant, AllocError>
    ensures { IfOk result (λ copy. copy ≡ sized_plant plant.now count) }
{
    let stages = copy_of_stages(alloc, plant.policy, plant.stages.as_slice(), count)?;
    with_stages(alloc, plant, policy_with(plant.policy, count), stages)
}

/// A copy of the plant with this policy and these stages.
fn with_stages(
    alloc: Global,
    plant: &Plant,
    policy: Policy,
    stages: Items<Stage>,
) -> Result<Plant, AllocError>
    ensures { IfOk result (λ copy. copy ≡ record plant.now { policy = policy; stages = stages }) }
{
    let Ok((loops, demands, observe)) = lists_of(alloc, plant) else {
        drop(stages);
        return Err(AllocError);
    };
    Ok(Plant {
        policy,
        loops,
        card_time: plant.card_time,
        demands,
        observe,
        stages,
    })
}

/// Copies of the plant's loops, of its demands, and of the dates that are looked at.
fn lists_of(
    alloc: Global,
    plant: &Plant,
) -> Result<(Items<CardLoop>, Items<Date>, Items<Date>), AllocError>
    ensures loops { IfOk result (λ lists. lists.0 ≡ plant.now.loops) }
    ensures demands { IfOk result (λ lists. lists.1 ≡ plant.now.demands) }
    ensures observe { IfOk result (λ lists. lists.2 ≡ plant.now.observe) }
{
    let loops = copy_of_loops(alloc, plant.loops.as_slice())?;
    let demands = plant.demands.copy(alloc)?;
    let observe = plant.observe.copy(alloc)?;
    Ok((loops, demands, observe))
}

/// The policy, with `count` cards for the line.
fn policy_with(policy: Policy, count: u32) -> Policy
    ensures { result ≡ policy_with count policy }
{
    match policy {
        Policy::Conwip(_) => Policy::Conwip(count),
        Policy::Kanban | Policy::BaseStock | Policy::Extended => policy,
    }
}

/// The cards of a stage that has `own` cards, where `count` are given to the stages that have cards.
fn cards_under(policy: Policy, count: u32, own: u32) -> u32
    ensures { result ≡ cards_under policy count own }
{
    match policy {
        Policy::Kanban | Policy::Extended => count,
        Policy::Conwip(_) | Policy::BaseStock => own,
    }
}

/// A copy of the stages.
fn copy_of_stages(
    alloc: Global,
    policy: Policy,
    stages: &[Stage],
    count: u32,
) -> Result<Items<Stage>, AllocError>
    ensures { IfOk result (λ copy. copy ≡ map (stage_with policy count) stages.now) }
{
    let mut copy = Vec::with_capacity(alloc, stages.len())?;
    for stage in stages {
        let cards = cards_under(policy, count, stage.cards);
        copy.push_reserved(copy_of_stage(alloc, stage, cards)?);
    }
    Ok(Items::from_vec(copy))
}

/// A copy of the plant with a count of cards for each stage, under kanban and extended kanban.
#[tactic(auto, unfolding(crate::specs::Counted::with_counts))]
pub fn counted_plant(alloc: Global, plant: &Plant, counts: &[u32]) -> Result<Plant, AllocError>
    requires { length counts.now ≡ length plant.now.stages }
    ensures { IfOk result (λ copy. copy ≡ with_counts plant.now counts.now) }
{
    let stages = counted_stages(alloc, plant, counts)?;
    with_stages(alloc, plant, plant.policy, stages)
}

/// A copy of the stages, each with its count of cards.
fn counted_stages(alloc: Global, plant: &Plant, counts: &[u32]) -> Result<Items<Stage>, AllocError>
    requires { length counts.now ≡ length plant.now.stages }
    ensures { IfOk result
        (λ copy. copy ≡ map (stage_counted plant.now counts.now) (stage_numbers plant.now)) }
{
    let stages = plant.stages.as_slice();
    let mut copy = Vec::with_capacity(alloc, stages.len())?;
    for (i, stage) in stages.iter().enumerate() {
        copy.push_reserved(copy_of_stage(alloc, stage, counts[i])?);
    }
    Ok(Items::from_vec(copy))
}

/// A copy of a stage with this count of cards.
fn copy_of_stage(alloc: Global, stage: &Stage, cards: u32) -> Result<Stage, AllocError>
    ensures { IfOk result (λ copy. copy ≡ record stage.now { cards = cards }) }
{
    Ok(Stage {
        name: stage.name.copy(alloc)?,
        feeds: stage.feeds,
        cards,
        stock: stage.stock,
        travel: stage.travel,
        card_time: stage.card_time,
        machines: copy_of_machines(alloc, stage.machines.as_slice())?,
    })
}

/// A copy of the machines of a stage.
fn copy_of_machines(alloc: Global, machines: &[Machine]) -> Result<Items<Machine>, AllocError>
    ensures { IfOk result (λ copy. copy ≡ machines.now) }
{
    let mut copy = Vec::with_capacity(alloc, machines.len())?;
    for machine in machines {
        copy.push_reserved(machine.copy(alloc)?);
    }
    Ok(Items::from_vec(copy))
}

/// A copy of the loops.
fn copy_of_loops(alloc: Global, loops: &[CardLoop]) -> Result<Items<CardLoop>, AllocError>
    ensures { IfOk result (λ copy. copy ≡ loops.now) }
{
    let mut copy = Vec::with_capacity(alloc, loops.len())?;
    for card_loop in loops {
        copy.push_reserved(CardLoop {
            first: card_loop.first,
            last: card_loop.last,
            cards: card_loop.cards,
            card_time: card_loop.card_time,
        });
    }
    Ok(Items::from_vec(copy))
}
