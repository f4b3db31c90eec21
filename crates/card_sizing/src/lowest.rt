//! Which plants have a single count of cards, and from which count on their stock has a card each.
ghost use Rattle.std.specs.Prelude.{◌≡◌, ◌<◌, length, IfOk};
ghost use Rattle.card_sizing.specs.Counted.{has_stage_counts, least_at};
ghost use Rattle.card_sizing.specs.Sized.{has_single_count, most_stock, most_path_stock, lowest, highest};
ghost use Rattle.plant_model.specs.Sound.{IsSound};

use line_base::MAX_CARDS;
use plant_model::{Layout, Plant, Policy};
use std::alloc::{AllocError, Global};

/// Whether one count says how many cards the plant has.
pub fn has_single_count(plant: &Plant) -> bool
    ensures { result ≡ has_single_count plant.now }
{
    match plant.policy {
        Policy::Kanban => plant.loops.len() == 0,
        Policy::BaseStock => false,
        Policy::Conwip(_) | Policy::Extended => true,
    }
}

/// Whether each stage has a count of cards.
pub fn has_stage_counts(plant: &Plant) -> bool
    ensures { result ≡ has_stage_counts plant.now }
{
    match plant.policy {
        Policy::Kanban => has_single_count(plant),
        Policy::BaseStock | Policy::Conwip(_) => false,
        Policy::Extended => true,
    }
}

/// The least count of a stage.
pub fn least_count(plant: &Plant, stage: usize) -> u32
    requires { stage < length plant.now.stages }
    ensures { result ≡ least_at plant.now stage }
{
    match plant.policy {
        Policy::Extended => plant.stages.as_slice()[stage].stock,
        Policy::Kanban | Policy::BaseStock | Policy::Conwip(_) => 0,
    }
}

/// The lowest count with which each part of the stock has a card.
#[tactic(auto, unfolding(crate::specs::Sized::lowest))]
pub fn lowest_count(alloc: Global, plant: &Plant) -> Result<u32, AllocError>
    requires { IsSound plant.now }
    ensures { IfOk result (λ least. least ≡ lowest plant.now) }
{
    match plant.policy {
        Policy::Kanban | Policy::BaseStock => Ok(0),
        Policy::Conwip(_) => Ok(most_path_stock(&Layout::of(alloc, plant)?)),
        Policy::Extended => Ok(most_stock(plant)),
    }
}

/// The count that is tried first: from it on no card more changes a date, or it is 10,000.
#[tactic(auto, unfolding(crate::specs::Sized::highest))]
pub fn highest_count(plant: &Plant) -> u32
    requires { IsSound plant.now }
    ensures { result ≡ highest plant.now }
{
    match plant.policy {
        Policy::Kanban | Policy::BaseStock | Policy::Conwip(_) => MAX_CARDS,
        Policy::Extended => {
            let jobs = plant.demands.len() as u32;
            MAX_CARDS.min(most_stock(plant).saturating_add(jobs))
        }
    }
}

/// The most stock of a stage.
#[tactic(auto, using(crate::proofs::Most::greatest_more), unfolding(event_graph::specs::GreatestValue::greatest))]
fn most_stock(plant: &Plant) -> u32
    ensures { result ≡ most_stock plant.now }
{
    let mut most: u32 = 0;
    for stage in plant.stages.as_slice() {
        most = most.max(stage.stock);
    }
    most
}

/// The most stock on the path of a first stage.
#[tactic(auto, using(crate::proofs::Most::greatest_more), unfolding(event_graph::specs::GreatestValue::greatest))]
fn most_path_stock(layout: &Layout) -> u32
    requires { IsSound layout.now }
    ensures { result ≡ most_path_stock layout.now }
{
    let mut most: u32 = 0;
    for stage in 0..layout.stages() {
        if layout.is_first(stage) {
            most = most.max(layout.path_stock(stage));
        }
    }
    most
}
