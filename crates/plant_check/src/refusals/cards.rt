//! The cards that are fewer than starting stock needs, and the loops that go down no path.
ghost use Rattle.std.specs.Prelude.{◌≡◌, ◌<◌, ◌++◌, [], if◌then◌else◌, length, codes, OnOk};
ghost use Rattle.plant_model.specs.Line.{is_first, path_stock};
ghost use Rattle.plant_model.specs.Place.{key_of};
ghost use Rattle.plant_model.specs.Refusals.{each, too_few, too_few_in_line, too_few_in_stage, too_few_under, loop_stock, too_few_cards, loops_not_downstream};
ghost use Rattle.plant_check.specs.Rules.{refused_loop};

use super::whole::refuse;
use plant_model::{
    CardLoop, FileTable, PathTable, PlantError, Policy, Stage, key_place, table_place,
};
use std::alloc::{AllocError, Global};

/// What each loop keeps.
#[derive(Clone, Copy)]
pub(crate) enum LoopRule {
    /// It has as many cards as its stages have starting stock, where it goes down a path.
    EnoughCards,
    /// It goes down a path.
    Downstream,
}

/// Adds each key whose cards are fewer than starting stock needs, and each loop that goes down no path.
pub(crate) fn find_on_paths(
    alloc: Global,
    paths: &PathTable,
    refusals: &mut Vec<PlantError>,
) -> Result<(), AllocError>
    ensures { OnOk result (refusals.new.items ≡ refusals.old.items
        ++ (too_few_cards paths.now ++ loops_not_downstream paths.now)) }
{
    find_few_by_policy(alloc, paths, refusals)?;
    LoopRule::EnoughCards.find_in_loops(alloc, paths, refusals)?;
    LoopRule::Downstream.find_in_loops(alloc, paths, refusals)
}

/// Adds each key of the policy's cards that are fewer than starting stock needs.
fn find_few_by_policy(
    alloc: Global,
    paths: &PathTable,
    refusals: &mut Vec<PlantError>,
) -> Result<(), AllocError>
    ensures { OnOk result (refusals.new.items ≡ refusals.old.items ++ too_few_under paths.now paths.now.policy) }
{
    let plant = paths.plant();
    match plant.policy {
        Policy::Conwip(cards) => {
            find_few_in_line(alloc, paths, cards, plant.stages.as_slice(), refusals)
        }
        Policy::Extended => find_few_in_stages(alloc, plant.stages.as_slice(), refusals),
        Policy::Kanban | Policy::BaseStock => Ok(()),
    }
}

/// Adds the line's cards for each first stage whose path has more stock.
fn find_few_in_line(
    alloc: Global,
    paths: &PathTable,
    cards: u32,
    stages: &[Stage],
    refusals: &mut Vec<PlantError>,
) -> Result<(), AllocError>
    requires { length stages.now ≡ length paths.now.stages }
    ensures { OnOk result (refusals.new.items ≡ refusals.old.items
        ++ each (too_few_in_line paths.now cards) stages.now) }
{
    for (i, _) in stages.iter().enumerate() {
        find_few_on_path(alloc, paths, cards, i, refusals)?;
    }
    Ok(())
}

/// Adds the line's cards, if stage `i` is a first stage and its path has more stock.
fn find_few_on_path(
    alloc: Global,
    paths: &PathTable,
    cards: u32,
    i: usize,
    refusals: &mut Vec<PlantError>,
) -> Result<(), AllocError>
    requires { i < length paths.now.stages }
    ensures { OnOk result (refusals.new.items ≡ refusals.old.items
        ++ (if is_first paths.now i then too_few (codes "cards") cards (path_stock paths.now i) else [])) }
{
    if !paths.is_first(i) {
        return Ok(());
    }
    find_few(
        alloc,
        FileTable::Top,
        u64::from(cards),
        paths.stock(i),
        refusals,
    )
}

/// Adds the cards of each stage that has more starting stock.
fn find_few_in_stages(
    alloc: Global,
    stages: &[Stage],
    refusals: &mut Vec<PlantError>,
) -> Result<(), AllocError>
    ensures { OnOk result (refusals.new.items ≡ refusals.old.items ++ each too_few_in_stage stages.now) }
{
    for (i, stage) in stages.iter().enumerate() {
        let (cards, stock) = (u64::from(stage.cards), u64::from(stage.stock));
        find_few(alloc, FileTable::InStage(i), cards, stock, refusals)?;
    }
    Ok(())
}

impl LoopRule {
    /// Adds each loop that breaks the rule.
    fn find_in_loops(
        self,
        alloc: Global,
        paths: &PathTable,
        refusals: &mut Vec<PlantError>,
    ) -> Result<(), AllocError>
        ensures { OnOk result (refusals.new.items ≡ refusals.old.items
            ++ each (refused_loop self paths.now) paths.now.loops) }
    {
        let loops = paths.plant().loops.as_slice();
        for (k, card_loop) in loops.iter().enumerate() {
            self.find_in_loop(alloc, paths, k, card_loop, refusals)?;
        }
        Ok(())
    }

    /// Adds loop `k`, if it breaks the rule.
    fn find_in_loop(
        self,
        alloc: Global,
        paths: &PathTable,
        k: usize,
        card_loop: &CardLoop,
        refusals: &mut Vec<PlantError>,
    ) -> Result<(), AllocError>
        ensures { OnOk result (refusals.new.items ≡ refusals.old.items
            ++ refused_loop self paths.now k card_loop.now) }
    {
        match (self, stock_of_loop(paths, card_loop)) {
            (LoopRule::EnoughCards, Some(stock)) => {
                let cards = u64::from(card_loop.cards);
                find_few(alloc, FileTable::InLoop(k), cards, stock, refusals)
            }
            (LoopRule::Downstream, None) => {
                let place = table_place(alloc, FileTable::InLoop(k))?;
                refuse(refusals, PlantError::LoopNotDownstream { place })
            }
            (LoopRule::EnoughCards, None) | (LoopRule::Downstream, Some(_)) => Ok(()),
        }
    }
}

/// The starting stock of a loop's stages; `None` exactly where it goes down no path.
pub fn stock_of_loop(paths: &PathTable, card_loop: &CardLoop) -> Option<u64>
    ensures { result ≡ loop_stock paths.now card_loop.now }
{
    let first = card_loop.first as usize;
    if first < paths.plant().stages.len() {
        paths.stock_up_to(first, card_loop.last as usize)
    } else {
        None
    }
}

/// Adds the cards at a table, if starting stock is more.
fn find_few(
    alloc: Global,
    table: FileTable,
    cards: u64,
    stock: u64,
    refusals: &mut Vec<PlantError>,
) -> Result<(), AllocError>
    ensures { OnOk result (refusals.new.items ≡ refusals.old.items
        ++ too_few (key_of table (codes "cards")) cards stock) }
{
    if stock <= cards {
        return Ok(());
    }
    let place = key_place(alloc, table, "cards")?;
    refuse(
        refusals,
        PlantError::TooFewCards {
            place,
            cards,
            stock,
        },
    )
}
