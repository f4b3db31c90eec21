//! How many job times the machines of a draft have. By it a plant is refused before any of them is copied.
ghost use Rattle.std.specs.Prelude.{◌≡◌, length, option_map};
ghost use Rattle.plant_file.specs.Counts.{can_be_copied, list_length, machine_counts, stage_counts, stays_within, table_within};
ghost use Rattle.plant_file.specs.Finish.{dates_with, times_with};
ghost use Rattle.plant_model.specs.Refusals.{AnswersFirst, each, times_count};

use crate::{DraftDemands, DraftMachine, DraftStage, DraftTimes};
use demand_feed::Columns;
use line_base::{Date, MAX_DEMANDS, MAX_STATIONS, MAX_TABLE};
use plant_check::count_stations;
use plant_model::{FileTable, PlantError, table_place};
use std::alloc::Global;

/// The most numbers of copied columns, of 8 bytes each: 512 MiB.
const MOST_COPIED_NUMBERS: u128 = 67_108_864;

/// The most stations of a plant whose columns are copied before it is known to stay within its limits.
const MOST_COPYING_STATIONS: u128 = 1_000_000;

/// How many demands a plant has, with the dates of its demand file.
pub(crate) fn count_demands(demands: &DraftDemands, dates: &Option<Vec<Date>>) -> usize
    ensures { result ≡ length (dates_with demands.now (option_map (λ read. read.items) dates.now)) }
{
    match (demands, dates) {
        (DraftDemands::Given(given), _) => given.len(),
        (DraftDemands::File { .. }, Some(dates)) => dates.len(),
        (DraftDemands::File { .. }, None) => 0,
    }
}

/// Whether each machine that has a list of job times, or a column of the table, has one time a job.
pub(crate) fn check_counts(
    alloc: Global,
    jobs: usize,
    stages: &[DraftStage],
    table: &Option<Columns>,
) -> Result<(), PlantError>
    ensures { AnswersFirst result (each (stage_counts jobs table.now) stages.now) }
{
    for (i, stage) in stages.iter().enumerate() {
        check_machines(alloc, jobs, i, stage.machines.as_slice(), table)?;
    }
    Ok(())
}

/// The same of the machines of stage `i`.
fn check_machines(
    alloc: Global,
    jobs: usize,
    i: usize,
    machines: &[DraftMachine],
    table: &Option<Columns>,
) -> Result<(), PlantError>
    ensures { AnswersFirst result (each (machine_counts jobs table.now i) machines.now) }
{
    for (j, machine) in machines.iter().enumerate() {
        check_times(
            alloc,
            jobs,
            FileTable::InMachine(i, j),
            &machine.times,
            table,
        )?;
    }
    Ok(())
}

/// The same of one machine.
fn check_times(
    alloc: Global,
    jobs: usize,
    machine: FileTable,
    times: &DraftTimes,
    table: &Option<Columns>,
) -> Result<(), PlantError>
    ensures { AnswersFirst result (times_count jobs machine (times_with table.now times.now)) }
{
    let need = jobs as u64;
    match list_length(times, table) {
        Some(have) if have != need => Err(PlantError::TimesCount {
            place: table_place(alloc, machine)?,
            have,
            need,
        }),
        _ => Ok(()),
    }
}

/// How many times the list or the column of a machine has.
fn list_length(times: &DraftTimes, table: &Option<Columns>) -> Option<u64>
    ensures { result ≡ list_length (times_with table.now times.now) }
{
    match times {
        DraftTimes::Fixed(_) => None,
        DraftTimes::Each(times) => Some(times.len() as u64),
        DraftTimes::Column(_) => match table {
            Some(table) => Some(u64::from(table.records())),
            None => None,
        },
    }
}

/// Whether a copy of a table's records for each station is no more numbers than are copied.
pub(crate) fn can_be_copied(stages: &[DraftStage], table: &Option<Columns>) -> bool
    ensures { result ≡ can_be_copied stages.now table.now }
{
    match table {
        None => true,
        Some(table) => {
            let stations = count_stations(stages);
            let records = u128::from(table.records());
            stations <= MOST_COPYING_STATIONS && stations * records <= MOST_COPIED_NUMBERS
        }
    }
}

/// The table, where a plant of this many jobs and these stages stays within its limits. The columns of a plant that is
/// too large are left out: what is refused of it first doesn't depend on them.
pub(crate) fn table_within(
    jobs: usize,
    stages: &[DraftStage],
    table: Option<Columns>,
) -> Option<Columns>
    ensures { result ≡ table_within (stays_within jobs stages.now) table }
{
    if stays_within(jobs, stages) {
        table
    } else {
        None
    }
}

/// Whether a plant of this many jobs and these stages has no more stations, jobs and dates than is allowed.
fn stays_within(jobs: usize, stages: &[DraftStage]) -> bool
    ensures { result ≡ stays_within jobs stages.now }
{
    let stations = 1 + count_stations(stages) + 1;
    let jobs = jobs as u128;
    stations <= u128::from(MAX_STATIONS)
        && jobs <= u128::from(MAX_DEMANDS)
        && stations * jobs <= u128::from(MAX_TABLE)
}
