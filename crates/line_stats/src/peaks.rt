//! The most parts that a stage ever has.
ghost use Rattle.std.specs.List.Sorted.{IsNonDecreasing};
ghost use Rattle.std.specs.Prelude.{◌≡◌, ◌+◌, ◌≤◌, ℕ, length, IfSome};
ghost use Rattle.event_graph.specs.Table.{date_in};
ghost use Rattle.line_stats.specs.Between.{between};
ghost use Rattle.line_stats.specs.Counts.{standing, peak};
ghost use Rattle.line_stats.specs.PlantDates.{IsStageOf};
ghost use Rattle.plant_model.specs.Bound.{bound};

use crate::logs::{dates_until, dates_until_from};
use line_base::{Date, MAX_CARDS, MAX_DEMANDS};
use line_core::Table;
use plant_model::{LineNumbers, Plant};

/// The most parts that are between two stations at a date, where `start` are between them before any has entered. It
/// goes through the dates of both once: the most is reached at date 0, or at a date at which a part enters.
fn most_between(entered: &[Date], left: &[Date], start: usize) -> u32
    requires entered_in_order { IsNonDecreasing entered.now }
    requires left_in_order { IsNonDecreasing left.now }
    requires few { length entered.now ≤ MAX_DEMANDS }
    requires small { start ≤ MAX_CARDS }
    ensures covers { (v : ℕ) → between entered.now left.now start v ≤ result }
    ensures least { (most : ℕ) → ((v : ℕ) → between entered.now left.now start v ≤ most) → result ≤ most }
{
    let at_first = start + dates_until(entered, 0);
    let mut most = at_first.saturating_sub(dates_until(left, 0));
    let mut gone = 0;
    for (before, date) in entered.iter().enumerate() {
        gone = dates_until_from(left, gone, *date);
        most = most.max((start + before + 1).saturating_sub(gone));
    }
    most as u32
}

/// The most parts of a stage that there are at a date, in process, on their travel and in stock together.
///
/// It takes no memory, and one pass over the dates of the stage's release and of the station that takes its parts.
pub fn peak(plant: &Plant, numbers: &LineNumbers, table: &Table, stage: u32) -> u32
    requires { IsStageOf plant.now numbers.now table.now stage }
    ensures peak { result ≡ peak plant.now (date_in table.now.rows) stage }
    ensures covers { (v : ℕ) → standing plant.now (date_in table.now.rows) stage v ≤ result }
    ensures bounded { IfSome (bound plant.now stage) (λ number. result ≤ number) }
{
    let released = table.dates(numbers.release(stage));
    let taken = table.dates(numbers.receiver(plant, stage));
    most_between(released, taken, plant.starting(stage) as usize)
}
