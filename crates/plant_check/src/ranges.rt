ghost use Rattle.std.specs.Prelude.{◌≡◌, ◌++◌, codes};
ghost use Rattle.plant_model.specs.Place.{key_of};
ghost use Rattle.plant_model.specs.Refusals.{AnswersFirst, each, above, element_above, empty, cards_out_of_range, top_out_of_range, times_out_of_range, machine_out_of_range, stage_out_of_range, loop_out_of_range, out_of_range};

use line_base::{Items, MAX_CARDS, MAX_DEMAND_DATE, MAX_OBSERVE_DATE, MAX_TIME, Times};
use plant_model::{
    CardLoop, FileTable, Machine, Plant, PlantError, Policy, Stage, element_place, key_place,
};
use std::alloc::Global;

/// Whether every number of a plant is within its limits, and no list is empty that may not be.
pub(crate) fn check_ranges(alloc: Global, plant: &Plant) -> Result<(), PlantError>
    ensures { AnswersFirst result (out_of_range plant.now) }
{
    check_top(alloc, plant)?;
    check_stages(alloc, plant.stages.as_slice())?;
    check_loops(alloc, plant.loops.as_slice())
}

/// Whether what stands at the top of a plant is within its limits.
fn check_top(alloc: Global, plant: &Plant) -> Result<(), PlantError>
    ensures { AnswersFirst result (top_out_of_range plant.now) }
{
    check_number(
        alloc,
        FileTable::Top,
        "card_time",
        MAX_TIME,
        plant.card_time,
    )?;
    check_line_cards(alloc, plant.policy)?;
    check_filled(alloc, FileTable::Top, "demands", &plant.demands)?;
    check_numbers(
        alloc,
        FileTable::Top,
        "demands",
        MAX_DEMAND_DATE,
        &plant.demands,
    )?;
    check_numbers(
        alloc,
        FileTable::Top,
        "observe",
        MAX_OBSERVE_DATE,
        &plant.observe,
    )?;
    check_filled(alloc, FileTable::Top, "stage", &plant.stages)
}

/// Whether the cards of CONWIP are within their limit.
fn check_line_cards(alloc: Global, policy: Policy) -> Result<(), PlantError>
    ensures { AnswersFirst result (cards_out_of_range policy) }
{
    match policy {
        Policy::Conwip(cards) => check_cards(alloc, FileTable::Top, "cards", cards),
        Policy::Kanban | Policy::BaseStock | Policy::Extended => Ok(()),
    }
}

/// Whether the numbers of each stage are within their limits.
fn check_stages(alloc: Global, stages: &[Stage]) -> Result<(), PlantError>
    ensures { AnswersFirst result (each stage_out_of_range stages.now) }
{
    for (i, stage) in stages.iter().enumerate() {
        check_stage(alloc, i, stage)?;
    }
    Ok(())
}

/// Whether the numbers of stage `i` are within their limits.
fn check_stage(alloc: Global, i: usize, stage: &Stage) -> Result<(), PlantError>
    ensures { AnswersFirst result (stage_out_of_range i stage.now) }
{
    let table = FileTable::InStage(i);
    check_number(alloc, table, "card_time", MAX_TIME, stage.card_time)?;
    check_cards(alloc, table, "cards", stage.cards)?;
    check_filled(alloc, table, "machine", &stage.machines)?;
    check_cards(alloc, table, "stock", stage.stock)?;
    check_number(alloc, table, "travel", MAX_TIME, stage.travel)?;
    check_machines(alloc, i, stage.machines.as_slice())
}

/// Whether the numbers of each machine of stage `i` are within their limits.
fn check_machines(alloc: Global, i: usize, machines: &[Machine]) -> Result<(), PlantError>
    ensures { AnswersFirst result (each (machine_out_of_range i) machines.now) }
{
    for (j, machine) in machines.iter().enumerate() {
        check_machine(alloc, i, j, machine)?;
    }
    Ok(())
}

/// Whether the numbers of machine `j` of stage `i` are within their limits.
fn check_machine(alloc: Global, i: usize, j: usize, machine: &Machine) -> Result<(), PlantError>
    ensures { AnswersFirst result (machine_out_of_range i j machine.now) }
{
    let table = FileTable::InMachine(i, j);
    check_cards(alloc, table, "servers", machine.servers)?;
    check_times(alloc, table, &machine.times)
}

/// Whether job times are within their limit.
fn check_times(alloc: Global, machine: FileTable, times: &Times) -> Result<(), PlantError>
    ensures { AnswersFirst result (times_out_of_range machine times.now) }
{
    match times {
        Times::Fixed(time) => check_number(alloc, machine, "time", MAX_TIME, *time),
        Times::Each(times) => check_numbers(alloc, machine, "times", MAX_TIME, times),
    }
}

/// Whether the numbers of each loop are within their limits.
fn check_loops(alloc: Global, loops: &[CardLoop]) -> Result<(), PlantError>
    ensures { AnswersFirst result (each loop_out_of_range loops.now) }
{
    for (k, card_loop) in loops.iter().enumerate() {
        check_loop(alloc, FileTable::InLoop(k), card_loop)?;
    }
    Ok(())
}

/// Whether the numbers of the loop at a table are within their limits.
fn check_loop(alloc: Global, table: FileTable, card_loop: &CardLoop) -> Result<(), PlantError>
    ensures { AnswersFirst result (above (key_of table (codes "card_time")) MAX_TIME card_loop.now.card_time
        ++ above (key_of table (codes "cards")) MAX_CARDS card_loop.now.cards) }
{
    check_number(alloc, table, "card_time", MAX_TIME, card_loop.card_time)?;
    check_cards(alloc, table, "cards", card_loop.cards)
}

/// Whether a count of cards, of stock or of servers is within its limit.
fn check_cards(alloc: Global, table: FileTable, key: &str, count: u32) -> Result<(), PlantError>
    ensures { AnswersFirst result (above (key_of table key.now) MAX_CARDS count) }
{
    check_number(alloc, table, key, u64::from(MAX_CARDS), u64::from(count))
}

/// Whether a number is at most its limit.
fn check_number(
    alloc: Global,
    table: FileTable,
    key: &str,
    limit: u64,
    number: u64,
) -> Result<(), PlantError>
    ensures { AnswersFirst result (above (key_of table key.now) limit number) }
{
    if number <= limit {
        return Ok(());
    }
    let place = key_place(alloc, table, key)?;
    Err(PlantError::OutOfRange { place })
}

/// Whether each number of a list is at most its limit.
fn check_numbers(
    alloc: Global,
    table: FileTable,
    key: &str,
    limit: u64,
    numbers: &Items<u64>,
) -> Result<(), PlantError>
    ensures { AnswersFirst result (each (element_above (key_of table key.now) limit) numbers.now) }
{
    let items = numbers.as_slice();
    for (k, number) in items.iter().enumerate() {
        check_element(alloc, table, key, limit, k, *number)?;
    }
    Ok(())
}

/// Whether number `k` of a list is at most its limit.
fn check_element(
    alloc: Global,
    table: FileTable,
    key: &str,
    limit: u64,
    k: usize,
    number: u64,
) -> Result<(), PlantError>
    ensures { AnswersFirst result (element_above (key_of table key.now) limit k number) }
{
    if number > limit {
        let place = element_place(alloc, table, key, k)?;
        return Err(PlantError::OutOfRange { place });
    }
    Ok(())
}

/// Whether a list has an element.
fn check_filled<T>(
    alloc: Global,
    table: FileTable,
    key: &str,
    items: &Items<T>,
) -> Result<(), PlantError>
    ensures { AnswersFirst result (empty (key_of table key.now) items.now) }
{
    if !items.is_empty() {
        return Ok(());
    }
    let place = key_place(alloc, table, key)?;
    Err(PlantError::OutOfRange { place })
}
