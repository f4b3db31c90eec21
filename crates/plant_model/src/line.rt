//! The looks at a plant as a line: what a stage feeds, its starting stock, its path. None takes memory.
ghost use Rattle.std.specs.Prelude.{◌≡◌, ◌+◌, ◌^◌, ◌<◌, ℕ, length, IfSome, IsNone, ◌↔◌, []};
ghost use Rattle.plant_model.specs.Line.{next, stock_under, starting, path_stock, stock_down_to};
ghost use Rattle.plant_model.specs.Refusals.{all_feeds_not_later};
ghost use Rattle.plant_model.specs.Sound.{IsSound};

use crate::plant::{Plant, Policy, Stage};

impl Plant {
    /// The stage that a stage feeds, both numbered from 0; `None` exactly for the final stage.
    pub fn next(&self, stage: u32) -> Option<u32>
        requires sound { IsSound self.now }
        requires exists { stage < length self.now.stages }
        ensures fed { result ≡ next self.now stage }
        ensures later { IfSome result (λ fed. stage < fed) }
        ensures exists { IfSome result (λ fed. fed < length self.now.stages) }
        ensures last { IsNone result ↔ (stage + 1 ≡ length self.now.stages) }
    {
        next_stage(self, stage as usize)
    }

    /// The starting stock of a stage, numbered from 0: its cards under kanban, else its stock.
    pub fn starting(&self, stage: u32) -> u32
        requires sound { IsSound self.now }
        requires exists { stage < length self.now.stages }
        ensures { result ≡ starting self.now stage }
    {
        starting_stock(self, stage as usize)
    }
}

/// The starting stock on the path of stage `from`.
pub(crate) fn stock_on_path(plant: &Plant, from: usize) -> u64
    requires later { all_feeds_not_later plant.now ≡ [] }
    requires exists { from < length plant.now.stages }
    ensures { result ≡ path_stock plant.now from }
{
    let mut stock = u64::from(starting_stock(plant, from));
    let mut next = next_stage(plant, from);
    while let Some(i) = next {
        stock += u64::from(starting_stock(plant, i as usize));
        next = next_stage(plant, i as usize);
    }
    stock
}

/// The starting stock of the stages from `from` to `to` on the path of `from`; `None` exactly where `to` isn't on it.
pub(crate) fn stock_up_to(plant: &Plant, from: u32, to: u32) -> Option<u64>
    requires later { all_feeds_not_later plant.now ≡ [] }
    requires exists { from < length plant.now.stages }
    ensures { result ≡ stock_down_to plant.now from to }
{
    let mut stock = 0;
    let mut next = Some(from);
    while let Some(i) = next {
        stock += u64::from(starting_stock(plant, i as usize));
        if i == to {
            return Some(stock);
        }
        next = next_stage(plant, i as usize);
    }
    None
}

/// The starting stock of stage `i`.
pub(crate) fn starting_stock(plant: &Plant, i: usize) -> u32
    requires { i < length plant.now.stages }
    ensures { result ≡ starting plant.now i }
{
    stock_under(plant.policy, &plant.stages.as_slice()[i])
}

/// The stage that stage `i` feeds.
pub(crate) fn next_stage(plant: &Plant, i: usize) -> Option<u32>
    requires { i < length plant.now.stages }
    ensures { result ≡ next plant.now i }
{
    plant.stages.as_slice()[i].feeds
}

/// The starting stock of a stage under a policy: its cards under kanban, else its stock. It takes no memory.
pub fn stock_under(policy: Policy, stage: &Stage) -> u32
    ensures { result ≡ stock_under policy stage.now }
{
    match policy {
        Policy::Kanban => stage.cards,
        Policy::Conwip(_) | Policy::BaseStock | Policy::Extended => stage.stock,
    }
}
