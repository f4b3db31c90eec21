ghost use Rattle.std.specs.Prelude.{◌≡◌, ◌<◌, ◌++◌, length};
ghost use Rattle.plant_model.specs.Refusals.{AnswersFirst, each, feeds_not_later, feeds_not_later_in, second_final, second_finals_in};
ghost use Rattle.plant_check.specs.Rules.{refused_flow};

use plant_model::{FileTable, PlantError, Stage, key_place, table_place};
use std::alloc::Global;

/// Whether each stage that feeds one feeds a later one, and then whether no stage but the last feeds none. The error is
/// the first of the refusals 8 and 9 of `PlantError`; running out of memory may come before any of them.
pub fn check_flow<T>(alloc: Global, stages: &[Stage<T>]) -> Result<(), PlantError>
    ensures { AnswersFirst result (feeds_not_later_in stages.now ++ second_finals_in stages.now) }
{
    check_stages(alloc, FlowRule::FeedsLater, stages)?;
    check_stages(alloc, FlowRule::FeedsOne, stages)
}

/// What each stage keeps.
#[derive(Clone, Copy)]
pub(crate) enum FlowRule {
    /// If it feeds one, it feeds a later one.
    FeedsLater,
    /// If it isn't the last, it feeds one.
    FeedsOne,
}

/// Whether each stage keeps a rule.
fn check_stages<T>(alloc: Global, rule: FlowRule, stages: &[Stage<T>]) -> Result<(), PlantError>
    ensures { AnswersFirst result (each (refused_flow rule (length stages.now)) stages.now) }
{
    for (i, stage) in stages.iter().enumerate() {
        check_stage(alloc, rule, stages.len(), i, stage)?;
    }
    Ok(())
}

/// Whether stage `i` of this many keeps a rule.
fn check_stage<T>(
    alloc: Global,
    rule: FlowRule,
    count: usize,
    i: usize,
    stage: &Stage<T>,
) -> Result<(), PlantError>
    requires { i < count }
    ensures { AnswersFirst result (refused_flow rule count i stage.now) }
{
    match rule {
        FlowRule::FeedsLater => check_stage_feeds(alloc, count, i, stage),
        FlowRule::FeedsOne => check_stage_final(alloc, count, i, stage),
    }
}

/// Whether stage `i` of this many feeds a later one, if it feeds one.
fn check_stage_feeds<T>(
    alloc: Global,
    count: usize,
    i: usize,
    stage: &Stage<T>,
) -> Result<(), PlantError>
    ensures { AnswersFirst result (feeds_not_later count i stage.now) }
{
    let Some(fed) = stage.feeds else {
        return Ok(());
    };
    let fed = fed as usize;
    if i < fed && fed < count {
        return Ok(());
    }
    let place = key_place(alloc, FileTable::InStage(i), "feeds")?;
    Err(PlantError::FeedsNotLater { place })
}

/// Whether stage `i` of this many feeds one, if it isn't the last.
fn check_stage_final<T>(
    alloc: Global,
    count: usize,
    i: usize,
    stage: &Stage<T>,
) -> Result<(), PlantError>
    requires { i < count }
    ensures { AnswersFirst result (second_final count i stage.now) }
{
    if stage.feeds.is_some() || i + 1 == count {
        return Ok(());
    }
    let place = table_place(alloc, FileTable::InStage(i))?;
    Err(PlantError::TwoFinals { place })
}
