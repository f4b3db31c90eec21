//! The draft of a plant file, read from its tree. What the walk refuses is read as the value of an absent key.
ghost use Rattle.std.specs.Prelude.{◌≡◌, ◌≤◌, ◌++◌, [], ◌∷◌, codes, map, position, bytes_eq, OnOk};
ghost use Rattle.line_base.specs.declared.limits.TheConstants.{MAX_CARDS};
ghost use Rattle.plant_file.specs.Code.{Builds};
ghost use Rattle.plant_file.specs.Reading.{count_at, time_at, column_at, policy_of, demands_of, times_file_of, times_of, machine_of, feeds_of, stage_of, loop_of, draft_of};
ghost use Rattle.plant_keys.specs.Readers.{number_in, number_of, number_at, numbers_at, tables_at, text_at, name_in, stage_names};
ghost use Rattle.toml.specs.View.{view};

use crate::draft::{DraftDemands, DraftLoop, DraftMachine, DraftPlant, DraftStage, DraftTimes};
use line_base::{Items, MAX_CARDS, MAX_COLUMN, MAX_DEMAND_DATE, MAX_OBSERVE_DATE, MAX_TIME, Name};
use plant_keys::{Names, elements_of, has, has_column, tables_at, text_at, text_of, value_at};
use plant_model::{PlantError, Policy, Text};
use std::alloc::{AllocError, Global};
use toml::Value;

/// A whole number, and the default where it isn't within limits.
fn number_in(number: i64, least: u64, most: u64, default: u64) -> u64
    ensures read { result ≡ number_in least most default number }
    ensures bound { default ≤ most → result ≤ most }
{
    match u64::try_from(number) {
        Ok(number) if least <= number && number <= most => number,
        _ => default,
    }
}

/// The number of a value, and the default where it is none within limits.
fn number_of(value: &Value, least: u64, most: u64, default: u64) -> u64
    ensures read { result ≡ number_of least most default (view value.now) }
    ensures bound { default ≤ most → result ≤ most }
{
    match value.as_integer() {
        Some(number) => number_in(number, least, most, default),
        None => default,
    }
}

/// The number at a key, and the default where there is none within limits.
fn number_at(table: &Value, key: &str, least: u64, most: u64, default: u64) -> u64
    ensures read { result ≡ number_at least most default key.now (view table.now) }
    ensures bound { default ≤ most → result ≤ most }
{
    match value_at(table, key) {
        Some(value) => number_of(value, least, most, default),
        None => default,
    }
}

/// A number of cards, of stock or of servers.
fn count_at(table: &Value, key: &str, default: u32) -> u32
    requires { default ≤ MAX_CARDS }
    ensures { result ≡ count_at default key.now (view table.now) }
{
    number_at(table, key, 0, u64::from(MAX_CARDS), u64::from(default)) as u32
}

/// A length of time.
fn time_at(table: &Value, key: &str) -> u64
    ensures { result ≡ time_at key.now (view table.now) }
{
    number_at(table, key, 0, MAX_TIME, 0)
}

/// The number of a column, 1 where the key is absent.
fn column_at(table: &Value, key: &str) -> u32
    ensures { result ≡ column_at key.now (view table.now) }
{
    number_at(table, key, 1, u64::from(MAX_COLUMN), 1) as u32
}

/// The numbers of the list at a key.
fn numbers_at(alloc: Global, table: &Value, key: &str, most: u64) -> Result<Items<u64>, PlantError>
    ensures { Builds result (numbers_at most key.now (view table.now)) }
{
    match value_at(table, key) {
        Some(value) => numbers_of(alloc, elements_of(value), most),
        None => Ok(Items::from_vec(Vec::new(alloc))),
    }
}

/// The numbers of these values.
fn numbers_of(alloc: Global, values: &[Value], most: u64) -> Result<Items<u64>, PlantError>
    ensures { Builds result (map (λ v. number_of 0 most 0 (view v)) values.now) }
{
    let mut numbers = Vec::with_capacity(alloc, values.len())?;
    for value in values {
        push(&mut numbers, number_of(value, 0, most, 0))?;
    }
    Ok(Items::from_vec(numbers))
}

/// The text at a key.
fn file_at(alloc: Global, table: &Value, key: &str) -> Result<Text, PlantError>
    ensures { Builds result (text_at key.now (view table.now)) }
{
    let text = String::from_str(alloc, text_at(table, key))?;
    Ok(Text::from_string(text))
}

/// The name of a stage or of a machine. A text that is no name has been refused before, so only memory can run out.
fn name_in(alloc: Global, table: &Value) -> Result<Name, PlantError>
    ensures { Builds result (name_in (view table.now)) }
{
    match Name::of(alloc, text_at(table, "name").as_bytes()) {
        Ok(name) => Ok(name),
        Err(_) => Err(PlantError::NoMemory),
    }
}

/// The policy that the top names.
fn policy_of(top: &Value) -> Policy
    ensures { result ≡ policy_of (view top.now) }
{
    match text_at(top, "policy") {
        "kanban" => Policy::Kanban,
        "conwip" => Policy::Conwip(count_at(top, "cards", 0)),
        "base-stock" => Policy::BaseStock,
        _ => Policy::Extended,
    }
}

/// Where the demand dates stand.
fn demands_of(alloc: Global, top: &Value) -> Result<DraftDemands, PlantError>
    ensures { Builds result (demands_of (view top.now)) }
{
    if has(top, "demands") {
        let dates = numbers_at(alloc, top, "demands", MAX_DEMAND_DATE)?;
        return Ok(DraftDemands::Given(dates));
    }
    let name = file_at(alloc, top, "demands_file")?;
    Ok(DraftDemands::File {
        name,
        column: column_at(top, "demands_column"),
    })
}

/// The times file, where a machine names a column of it.
fn times_file_of(alloc: Global, top: &Value) -> Result<Option<Text>, PlantError>
    ensures { Builds result (times_file_of (view top.now)) }
{
    if !has_column(top) {
        return Ok(None);
    }
    Ok(Some(file_at(alloc, top, "times_file")?))
}

/// Where the job times of a machine stand.
fn times_of(alloc: Global, machine: &Value) -> Result<DraftTimes, PlantError>
    ensures { Builds result (times_of (view machine.now)) }
{
    if has(machine, "column") {
        return Ok(DraftTimes::Column(column_at(machine, "column")));
    }
    if has(machine, "time") {
        return Ok(DraftTimes::Fixed(time_at(machine, "time")));
    }
    let times = numbers_at(alloc, machine, "times", MAX_TIME)?;
    Ok(DraftTimes::Each(times))
}

/// A machine.
fn machine_of(alloc: Global, machine: &Value) -> Result<DraftMachine, PlantError>
    ensures { Builds result (machine_of (view machine.now)) }
{
    let name = name_in(alloc, machine)?;
    let times = times_of(alloc, machine)?;
    Ok(DraftMachine {
        name,
        servers: count_at(machine, "servers", 1),
        times,
    })
}

/// The machines of a stage.
fn machines_of(alloc: Global, machines: &[Value]) -> Result<Items<DraftMachine>, PlantError>
    ensures { Builds result (map (λ m. machine_of (view m)) machines.now) }
{
    let mut drafts = Vec::with_capacity(alloc, machines.len())?;
    for machine in machines {
        push(&mut drafts, machine_of(alloc, machine)?)?;
    }
    Ok(Items::from_vec(drafts))
}

/// The number of the stage that a stage feeds, if it feeds any.
fn feeds_of(names: &Names<'_>, stage: &Value) -> Result<Option<u32>, PlantError>
    ensures { Builds result (feeds_of names.now (view stage.now)) }
{
    match value_at(stage, "feeds") {
        None => Ok(None),
        Some(fed) => Ok(Some(number_within(names.number_or_count(text_of(fed)))?)),
    }
}

/// The number of the stage with this name, if there is one.
fn stage_number(names: &Names<'_>, name: &str) -> Result<Option<u32>, PlantError>
    ensures { Builds result (position (bytes_eq name.now) names.now) }
{
    match names.number_of(name) {
        None => Ok(None),
        Some(number) => Ok(Some(number_within(number)?)),
    }
}

/// The number of a stage. No memory holds stages whose numbers pass 32 bits.
fn number_within(number: usize) -> Result<u32, PlantError>
    ensures { Builds result number }
{
    match u32::try_from(number) {
        Ok(number) => Ok(number),
        Err(_) => Err(PlantError::NoMemory),
    }
}

/// A stage of a file whose stages have these names.
fn stage_of(alloc: Global, names: &Names<'_>, stage: &Value) -> Result<DraftStage, PlantError>
    ensures { Builds result (stage_of names.now (view stage.now)) }
{
    let name = name_in(alloc, stage)?;
    let feeds = feeds_of(names, stage)?;
    let machines = machines_of(alloc, tables_at(stage, "machine"))?;
    Ok(DraftStage {
        name,
        feeds,
        cards: count_at(stage, "cards", 0),
        stock: count_at(stage, "stock", 0),
        travel: time_at(stage, "travel"),
        card_time: time_at(stage, "card_time"),
        machines,
    })
}

/// The stages of a file whose stages have these names.
fn stages_of(
    alloc: Global,
    names: &Names<'_>,
    stages: &[Value],
) -> Result<Items<DraftStage>, PlantError>
    ensures { Builds result (map (λ s. stage_of names.now (view s)) stages.now) }
{
    let mut drafts = Vec::with_capacity(alloc, stages.len())?;
    for stage in stages {
        push(&mut drafts, stage_of(alloc, names, stage)?)?;
    }
    Ok(Items::from_vec(drafts))
}

/// A loop of a file whose stages have these names.
fn loop_of(names: &Names<'_>, card_loop: &Value) -> Result<DraftLoop, PlantError>
    ensures { Builds result (loop_of names.now (view card_loop.now)) }
{
    let first = stage_number(names, text_at(card_loop, "from"))?;
    let last = stage_number(names, text_at(card_loop, "to"))?;
    Ok(DraftLoop {
        first,
        last,
        cards: count_at(card_loop, "cards", 0),
        card_time: time_at(card_loop, "card_time"),
    })
}

/// The loops of a file whose stages have these names.
fn loops_of(alloc: Global, names: &Names<'_>, top: &Value) -> Result<Items<DraftLoop>, PlantError>
    ensures { Builds result (map (loop_of names.now) (tables_at (codes "loop") (view top.now))) }
{
    let loops = tables_at(top, "loop");
    let mut drafts = Vec::with_capacity(alloc, loops.len())?;
    for card_loop in loops {
        push(&mut drafts, loop_of(names, card_loop)?)?;
    }
    Ok(Items::from_vec(drafts))
}

/// Adds an element at the end.
pub(crate) fn push<T: Drop>(list: &mut Vec<T>, element: T) -> Result<(), AllocError>
    ensures { OnOk result (list.new.items ≡ list.old.items ++ element ∷ []) }
{
    list.push(element)?;
    Ok(())
}

/// What a plant file says whose stages have these names.
pub(crate) fn draft_of(
    alloc: Global,
    names: &Names<'_>,
    top: &Value,
) -> Result<DraftPlant, PlantError>
    requires { names.now ≡ stage_names (view top.now) }
    ensures { Builds result (draft_of (view top.now)) }
{
    let observe = numbers_at(alloc, top, "observe", MAX_OBSERVE_DATE)?;
    let loops = loops_of(alloc, names, top)?;
    let times_file = times_file_of(alloc, top)?;
    let demands = demands_of(alloc, top)?;
    let stages = stages_of(alloc, names, tables_at(top, "stage"))?;
    Ok(DraftPlant {
        policy: policy_of(top),
        card_time: time_at(top, "card_time"),
        demands,
        times_file,
        observe,
        stages,
        loops,
    })
}
