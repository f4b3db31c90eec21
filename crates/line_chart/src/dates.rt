//! The dates at which a count may change. None takes memory.
ghost use Rattle.std.specs.List.Sorted.{IsNonDecreasing};
ghost use Rattle.std.specs.Prelude.{◌≡◌, ◌<◌, ◌≤◌, [], length, slice_index_or};
ghost use Rattle.event_graph.specs.Table.{date_in};
ghost use Rattle.line_chart.specs.Areas.{count_of};
ghost use Rattle.line_chart.specs.Counts.{IsCountOf, NoneBetween, IsStill};
ghost use Rattle.line_chart.specs.Picture.{IsOfRun};
ghost use Rattle.line_core.specs.Run.{IsLeastTable};
ghost use Rattle.plant_model.specs.Line.{station_count};

use crate::count::Count;
use crate::run::ChartRun;
use line_base::Date;
use line_stats::{backlog, in_move, in_process, in_stock};
use plant_model::FEED;

/// The first of the dates, each `late` later, that is above `at`, or `end` where none before it is.
fn first_after(dates: &[Date], late: u64, at: Date, end: Date) -> Date
    requires order { IsNonDecreasing dates.now }
    requires before { at < end }
    ensures after { at < result }
    ensures within { result ≤ end }
    ensures none { NoneBetween dates.now late at result }
{
    let passed = dates.partition_point(|date| u128::from(*date) + u128::from(late)
        <= u128::from(at));
    match dates.get(passed) {
        Some(date) => date.saturating_add(late).min(end),
        None => end,
    }
}

/// The first date above `at`, and before `end`, at which a job is done at station `t`, each `late` later; `end` where
/// there is none.
fn next_at(run: &ChartRun, t: u32, late: u64, at: Date, end: Date) -> Date
    requires run { IsOfRun run.now }
    requires station { t < station_count run.now.plant }
    requires before { at < end }
    ensures after { at < result }
    ensures within { result ≤ end }
    ensures none { NoneBetween (slice_index_or run.now.table.rows t []) late at result }
    ensures least { IsLeastTable run.now.table }
{
    first_after(run.table.dates(t), late, at, end)
}

/// How many parts of a stage are in process or on their way at a date.
fn under_way(run: &ChartRun, stage: u32, at: Date) -> u64
    requires run { IsOfRun run.now }
    requires exists { stage < length run.now.plant.stages }
    ensures count { result ≡ count_of run.now.plant (date_in run.now.table.rows) (Count.UnderWay stage) at }
    ensures few { result ≤ 8_589_934_590 }
{
    in_process(&run.numbers, &run.table, stage, at) as u64
        + in_move(&run.plant, &run.numbers, &run.table, stage, at) as u64
}

/// How many there are at a date.
pub fn count_at(run: &ChartRun, count: Count, at: Date) -> u64
    requires run { IsOfRun run.now }
    requires exists { IsCountOf run.now.plant count }
    ensures { result ≡ count_of run.now.plant (date_in run.now.table.rows) count at }
{
    match count {
        Count::Parts(stage) => {
            under_way(run, stage, at)
                + in_stock(&run.plant, &run.numbers, &run.table, stage, at) as u64
        }
        Count::UnderWay(stage) => under_way(run, stage, at),
        Count::Backlog => backlog(&run.numbers, &run.table, at) as u64,
    }
}

/// The first date above `at`, and before `end`, at which a part of a stage is released, is done by the last machine,
/// has ended its travel or is taken; `end` where there is none.
fn next_of_stage(run: &ChartRun, stage: u32, at: Date, end: Date) -> Date
    requires run { IsOfRun run.now }
    requires exists { stage < length run.now.plant.stages }
    requires before { at < end }
    ensures after { at < result }
    ensures within { result ≤ end }
    ensures parts { IsStill (count_of run.now.plant (date_in run.now.table.rows) (Count.Parts stage)) at result }
    ensures under_way { IsStill (count_of run.now.plant (date_in run.now.table.rows) (Count.UnderWay stage)) at result }
{
    let last = run.numbers.last_machine(stage);
    let travel = run.plant.stages.as_slice()[stage as usize].travel;
    let released = next_at(run, run.numbers.release(stage), 0, at, end);
    let done = next_at(run, last, 0, at, released);
    let arrived = next_at(run, last, travel, at, done);
    next_at(run, run.numbers.receiver(&run.plant, stage), 0, at, arrived)
}

/// The first date above `at`, and before `end`, at which the count may change, `end` where there is none.
pub fn next_date(run: &ChartRun, count: Count, at: Date, end: Date) -> Date
    requires run { IsOfRun run.now }
    requires exists { IsCountOf run.now.plant count }
    requires before { at < end }
    ensures after { at < result }
    ensures within { result ≤ end }
    ensures still { IsStill (count_of run.now.plant (date_in run.now.table.rows) count) at result }
{
    match count {
        Count::Parts(stage) | Count::UnderWay(stage) => next_of_stage(run, stage, at, end),
        Count::Backlog => {
            let demanded = next_at(run, FEED, 0, at, end);
            next_at(run, run.numbers.deliver(), 0, at, demanded)
        }
    }
}
