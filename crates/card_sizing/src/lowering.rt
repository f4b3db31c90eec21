//! What lowering the counts of the stages takes: one stage after the other, and why none can have one less.
ghost use Rattle.std.specs.Prelude.{◌≡◌, ◌+◌, ◌-◌, ◌*◌, ◌<◌, ◌≤◌, true, map, sum, length, slice_index, IfOk, OnOk};
ghost use Rattle.card_sizing.specs.Counted.{has_stage_counts, least_at, with_counts, AreCounts, ServeEach, NoneServesLess};
ghost use Rattle.card_sizing.specs.Lowered.{with_count, IsLowered, AreLowered};
ghost use Rattle.card_sizing.specs.Each.{counts_of, names_of, HalvesEach, IsBelowAt, HaveReasons};
ghost use Rattle.card_sizing.specs.Trying.{Tells, HalvesRange};
ghost use Rattle.line_base.specs.Limits.{most_cards};
ghost use Rattle.plant_model.specs.Sound.{IsSound};

use crate::each::StageSizing;
use crate::lowest::least_count;
use crate::sized::counted_plant;
use crate::sizing::Below;
use crate::trying::try_plant;
use line_base::Items;
use plant_model::Plant;
use std::alloc::{AllocError, Global};

/// Lowers counts that serve, one after the other from the last back to the first, until no one can be less, the others
/// as they stand.
pub fn lower_each(
    alloc: Global,
    plant: &Plant,
    may: u64,
    counts: &mut [u32],
    tries: &mut u32,
) -> Result<(), AllocError>
    requires sound { IsSound plant.now }
    requires counts { has_stage_counts plant.now ≡ true }
    requires serves { ServeEach plant.now may counts.old }
    requires few_tries { tries.old ≤ 15 }
    ensures serves { OnOk result (ServeEach plant.now may counts.new) }
    ensures least { OnOk result (NoneServesLess plant.now may counts.new) }
    ensures in_order { OnOk result (AreLowered (ServeEach plant.now may) counts.old counts.new) }
    ensures halved { OnOk result (HalvesEach plant.now counts.old tries.old tries.new) }
    ensures counted { OnOk result (tries.new ≤ tries.old + 14 * length plant.now.stages) }
{
    let stages = plant.stages.len();
    for done in 0..stages {
        lower(alloc, plant, may, counts, stages - 1 - done, tries)?;
    }
    Ok(())
}

/// Lowers the count of a stage to the least with which the line is in time, the others as they stand.
fn lower(
    alloc: Global,
    plant: &Plant,
    may: u64,
    counts: &mut [u32],
    stage: usize,
    tries: &mut u32,
) -> Result<(), AllocError>
    requires sound { IsSound plant.now }
    requires counts { has_stage_counts plant.now ≡ true }
    requires serves { ServeEach plant.now may counts.old }
    requires stage { stage < length plant.now.stages }
    requires few_tries { tries.old < 980 }
    ensures least { OnOk result (IsLowered (ServeEach plant.now may) counts.old stage counts.new) }
    ensures halved { OnOk result (HalvesRange
        (slice_index counts.old stage - least_at plant.now stage) tries.old tries.new) }
    ensures counted { OnOk result (tries.new ≤ tries.old + 14) }
{
    let mut low = least_count(plant, stage);
    let mut high = counts[stage];
    while low < high {
        let middle = low + (high - low) / 2;
        match try_counts(alloc, plant, may, counts, stage, middle, tries)? {
            None => high = middle,
            Some(why) => {
                drop(why);
                low = middle + 1;
            }
        }
    }
    counts[stage] = high;
    Ok(())
}

/// Why the line isn't in time with `count` cards at a stage, the others as they stand; `None` where it is. It counts as
/// a try.
fn try_counts(
    alloc: Global,
    plant: &Plant,
    may: u64,
    counts: &[u32],
    stage: usize,
    count: u32,
    tries: &mut u32,
) -> Result<Option<Below>, AllocError>
    requires sound { IsSound plant.now }
    requires counts { has_stage_counts plant.now ≡ true }
    requires fit { AreCounts plant.now counts.now }
    requires stage { stage < length plant.now.stages }
    requires enough { least_at plant.now stage ≤ count }
    requires few { count ≤ most_cards }
    requires few_tries { tries.old < 1_000 }
    ensures tells { IfOk result (Tells (with_counts plant.now (with_count counts.now stage count)) may) }
    ensures counted { tries.new ≡ tries.old + 1 }
{
    *tries += 1;
    let with = counts_with(alloc, counts, stage, count)?;
    let counted = counted_plant(alloc, plant, with.as_slice())?;
    let known = try_plant(alloc, &counted, may);
    drop(counted);
    known
}

/// The counts with another one at a stage.
fn counts_with(
    alloc: Global,
    counts: &[u32],
    stage: usize,
    count: u32,
) -> Result<Vec<u32>, AllocError>
    requires { stage < length counts.now }
    ensures { IfOk result (λ with. with.items ≡ with_count counts.now stage count) }
{
    let mut with = counts.to_vec(alloc)?;
    with[stage] = count;
    Ok(with)
}

/// Each stage with its count, and why it can't be one less, the others as they stand.
pub fn with_reasons(
    alloc: Global,
    plant: &Plant,
    may: u64,
    counts: &[u32],
    tries: &mut u32,
) -> Result<Items<StageSizing>, AllocError>
    requires sound { IsSound plant.now }
    requires counts { has_stage_counts plant.now ≡ true }
    requires fit { AreCounts plant.now counts.now }
    requires least { NoneServesLess plant.now may counts.now }
    requires few_tries { tries.old ≤ 15 + 14 * length plant.now.stages }
    ensures counts { IfOk result (λ sizings. counts_of sizings ≡ counts.now) }
    ensures named { IfOk result (λ sizings. names_of sizings ≡ map (λ s. s.name) plant.now.stages) }
    ensures below { IfOk result (λ sizings.
        HaveReasons plant.now may counts.now sizings (length plant.now.stages)) }
    ensures counted { OnOk result (tries.new ≤ tries.old + length plant.now.stages) }
    ensures kept { OnOk result (tries.old ≤ tries.new) }
{
    let stages = plant.stages.as_slice();
    let mut sizings = Vec::with_capacity(alloc, stages.len())?;
    for (i, stage) in stages.iter().enumerate() {
        let below = reason_of(alloc, plant, may, counts, i, tries)?;
        sizings.push_reserved(StageSizing {
            stage: stage.name.copy(alloc)?,
            cards: counts[i],
            below,
        });
    }
    Ok(Items::from_vec(sizings))
}

/// Why a stage can't have one card less, the others as they stand.
fn reason_of(
    alloc: Global,
    plant: &Plant,
    may: u64,
    counts: &[u32],
    stage: usize,
    tries: &mut u32,
) -> Result<Below, AllocError>
    requires sound { IsSound plant.now }
    requires counts { has_stage_counts plant.now ≡ true }
    requires fit { AreCounts plant.now counts.now }
    requires least { NoneServesLess plant.now may counts.now }
    requires stage { stage < length plant.now.stages }
    requires few_tries { tries.old < 1_000 }
    ensures below { IfOk result (IsBelowAt plant.now may counts.now stage) }
    ensures counted { OnOk result (tries.new ≤ tries.old + 1) }
    ensures kept { OnOk result (tries.old ≤ tries.new) }
{
    let count = counts[stage];
    if count == least_count(plant, stage) {
        return Ok(Below::Lowest);
    }
    match try_counts(alloc, plant, may, counts, stage, count - 1, tries)? {
        Some(below) => Ok(below),
        None => unreachable!(),
    }
}

/// The sum of the counts.
pub fn total_of(plant: &Plant, counts: &[u32]) -> u32
    requires sound { IsSound plant.now }
    requires fit { AreCounts plant.now counts.now }
    ensures { result ≡ sum counts.now }
{
    let mut total = 0;
    for count in counts {
        total += *count;
    }
    total
}
