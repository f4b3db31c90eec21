//! The two questions: the least count of cards that serves, and the least counts stage by stage.
ghost use Rattle.std.specs.Prelude.{◌≡◌, ◌+◌, ◌*◌, ◌≤◌, true, false, ◌↔◌, map, sum, length, IfOk, OnOk, IfErr, IsErrOf};
ghost use Rattle.card_sizing.specs.Counted.{has_stage_counts, ServeEach, NoneServesLess};
ghost use Rattle.card_sizing.specs.Each.{counts_of, names_of, AreLeastInOrder, HalvesFromStart, HaveReasons, IsEachRefusal};
ghost use Rattle.card_sizing.specs.Serving.{Serves};
ghost use Rattle.card_sizing.specs.Sized.{has_single_count, lowest, highest};
ghost use Rattle.card_sizing.specs.Sizing.{NoneServesBelow, IsBelow, HalvesCounts, IsSizingRefusal};
ghost use Rattle.card_sizing.specs.declared.sizing.SizingError.{SizingError};
ghost use Rattle.event_graph.specs.Live.{IsLive};
ghost use Rattle.line_base.specs.Limits.{most_cards};
ghost use Rattle.plant_model.specs.Graph.{graph};
ghost use Rattle.plant_model.specs.Sound.{IsSound};

use crate::each::EachSizing;
use crate::lowering::{lower_each, total_of, with_reasons};
use crate::lowest::{has_single_count, has_stage_counts, highest_count, lowest_count};
use crate::sizing::{Below, Sizing, SizingError};
use crate::trying::try_count;
use plant_model::Plant;
use std::alloc::{AllocError, Global};

/// The least count of cards with which the line is live and no job waits longer than `wait` from its demand to its
/// delivery, in the plant's unit; and why it can't be one less. The count is that of each stage under kanban and
/// extended kanban, and of the line under CONWIP, from the lowest with which the starting stock has its cards to
/// 10,000.
///
/// `NoSingleCount` comes exactly where the plant runs by base stock, or by kanban with a loop; else `NoCount` exactly
/// where 10,000 cards don't serve. Under extended kanban no count is tried above one card for each part of the most
/// stock and one for each job, with which no job waits for a card. Halving finds the count, so at most fifteen counts
/// are tried, each in the time of a run at most, and one that fails up to its first late job: with more cards no job
/// waits longer (Baccelli, Cohen, Olsder and Quadrat, Synchronization and Linearity, on tokens and dates).
pub fn least_cards(alloc: Global, plant: &Plant, wait: u64) -> Result<Sizing, SizingError>
    requires sound { IsSound plant.now }
    requires live { IsLive (graph plant.now) }
    ensures serves { IfOk result (λ sizing. Serves plant.now wait sizing.cards) }
    ensures least { IfOk result (λ sizing. NoneServesBelow plant.now wait sizing.cards) }
    ensures below { IfOk result (λ sizing. IsBelow plant.now wait sizing.cards sizing.below) }
    ensures few_tries { IfOk result (λ sizing. sizing.tries ≤ 15) }
    ensures halved { IfOk result (λ sizing. HalvesCounts plant.now sizing.tries) }

    // No answer but running out of memory is free.
    ensures refused { IfErr result (IsSizingRefusal plant.now wait) }
    ensures no_single_count { IsErrOf result SizingError.NoSingleCount ↔
        (has_single_count plant.now ≡ false) }
    ensures most_serve { OnOk result (Serves plant.now wait most_cards) }
{
    if !has_single_count(plant) {
        return Err(SizingError::NoSingleCount);
    }
    let lowest = lowest_count(alloc, plant)?;
    let highest = highest_count(plant);
    let mut tries = 0;
    match try_count(alloc, plant, wait, highest, &mut tries)? {
        None => Ok(halve(alloc, plant, wait, lowest, highest, tries)?),
        Some(below) => match below {
            Below::Job { job, wait } => Err(SizingError::NoCount { job, wait }),
            _ => unreachable!(),
        },
    }
}

/// The least count that serves, from `start` to `end`, the lowest and the highest count, where the highest serves,
/// which is the one that was tried.
fn halve(
    alloc: Global,
    plant: &Plant,
    may: u64,
    start: u32,
    end: u32,
    tried: u32,
) -> Result<Sizing, AllocError>
    requires sound { IsSound plant.now }
    requires single { has_single_count plant.now ≡ true }
    requires start { start ≡ lowest plant.now }
    requires end { end ≡ highest plant.now }
    requires serves { Serves plant.now may end }
    requires tries { tried ≡ 1 }
    ensures serves { IfOk result (λ sizing. Serves plant.now may sizing.cards) }
    ensures least { IfOk result (λ sizing. NoneServesBelow plant.now may sizing.cards) }
    ensures below { IfOk result (λ sizing. IsBelow plant.now may sizing.cards sizing.below) }
    ensures few_tries { IfOk result (λ sizing. sizing.tries ≤ 15) }
    ensures halved { IfOk result (λ sizing. HalvesCounts plant.now sizing.tries) }
{
    let mut tries = tried;
    let mut low = start;
    let mut high = end;
    let mut below = Below::Lowest;
    while low < high {
        let middle = low + (high - low) / 2;
        match try_count(alloc, plant, may, middle, &mut tries)? {
            None => high = middle,
            Some(why) => {
                low = middle + 1;
                below = why;
            }
        }
    }
    Ok(Sizing {
        cards: high,
        below,
        tries,
    })
}

/// Counts of cards, one for each stage, with which the line is live and no job waits longer than `wait` from its demand
/// to its delivery, in the plant's unit; and with one card less at any one stage, the others as they stand, that isn't
/// so. They begin at the answer of `least_cards` at each stage. From the last stage back to the first a stage gets the
/// least count with which the line is still in time, the others as they stand. The order decides: from the first stage
/// on there may be other counts. There is one answer (the law `counts_in_order_are_one`). One pass is enough: with more
/// cards no job waits longer (the law `more_cards_never_later` of line_graph), so what a stage needs it needs also with
/// fewer cards elsewhere.
///
/// `NoSingleCount` comes exactly where the plant runs by CONWIP or base stock, or by kanban with a loop; else `NoCount`
/// exactly where 10,000 cards at each stage don't serve. At most fourteen counts of a stage are tried, and one of them
/// once more for its reason.
pub fn least_each(alloc: Global, plant: &Plant, wait: u64) -> Result<EachSizing, SizingError>
    requires sound { IsSound plant.now }
    requires live { IsLive (graph plant.now) }
    ensures serves { IfOk result (λ each. ServeEach plant.now wait (counts_of each.stages)) }
    ensures least { IfOk result (λ each. NoneServesLess plant.now wait (counts_of each.stages)) }
    ensures in_order { IfOk result (λ each. AreLeastInOrder plant.now wait (counts_of each.stages)) }
    ensures below { IfOk result (λ each.
        HaveReasons plant.now wait (counts_of each.stages) each.stages (length plant.now.stages)) }
    ensures named { IfOk result (λ each. names_of each.stages ≡ map (λ s. s.name) plant.now.stages) }
    ensures total { IfOk result (λ each. each.total ≡ sum (counts_of each.stages)) }
    ensures few_tries { IfOk result (λ each. each.tries ≤ 15 + 15 * length plant.now.stages) }
    ensures halved { IfOk result (λ each. HalvesFromStart plant.now wait each.tries) }

    // No answer but running out of memory is free.
    ensures refused { IfErr result (IsEachRefusal plant.now wait) }
    ensures no_single_count { IsErrOf result SizingError.NoSingleCount ↔
        (has_stage_counts plant.now ≡ false) }
    ensures most_serve { OnOk result (Serves plant.now wait most_cards) }
{
    if !has_stage_counts(plant) {
        return Err(SizingError::NoSingleCount);
    }
    let start = match least_cards(alloc, plant, wait) {
        Ok(start) => start,
        Err(refusal) => return Err(refusal),
    };
    let mut tries = start.tries;
    let mut counts = vec![in alloc; start.cards; plant.stages.len()]?;
    lower_each(alloc, plant, wait, counts.as_mut_slice(), &mut tries)?;
    let lowered = counts.as_slice();
    let stages = with_reasons(alloc, plant, wait, lowered, &mut tries)?;
    let total = total_of(plant, lowered);
    Ok(EachSizing {
        stages,
        total,
        tries,
    })
}
