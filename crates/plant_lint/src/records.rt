//! The tables of a draft's files, and their bad records: the first of each.
ghost use Rattle.std.specs.Prelude.{◌≡◌, ◌≢◌, ◌≤◌, ℕ, List, [], ◌∷◌, Option, IfOk, IfSome, is_some, length, option_copied};
ghost use Rattle.demand_feed.specs.BadField.{bad_field};
ghost use Rattle.demand_feed.specs.Dates.{date_columns, dates_of};
ghost use Rattle.demand_feed.specs.Records.{records_of};
ghost use Rattle.demand_feed.specs.Times.{times_of};
ghost use Rattle.line_base.specs.Limits.{last_demand, longest_time};
ghost use Rattle.line_base.specs.declared.limits.TheConstants.{MAX_CHECKPOINT_BYTES};
ghost use Rattle.plant_file.specs.Complete.{HoldsDates, HoldsTimes};
ghost use Rattle.plant_file.specs.Draft.{demands_file, demands_column, columns_of};
ghost use Rattle.plant_file.specs.declared.draft.DraftPlant.{DraftPlant};
ghost use Rattle.plant_file.specs.Finish.{AreFilesOf, bad_record_in};
ghost use Rattle.plant_keys.specs.Found.{AreFaults, Finds};
ghost use Rattle.plant_lint.specs.Records.{AreTables, wanted_in, wanted_record, demand_faults, time_faults, record_faults};

use demand_feed::{BadField, Columns, bad_date, bad_time};
use line_base::{Date, Text};
use plant_file::{Draft, dates_in, times_in};
use plant_keys::{Asked, Fault, FaultList, Faults, Wants};
use plant_model::PlantError;
use std::alloc::{AllocError, Global};

/// What the files hold that a draft names.
#[derive(Drop)]
pub(crate) enum TablesRead {
    /// The dates and the table of job times, each where there is a file of them; no record is bad.
    Whole {
        dates: Option<Vec<Date>>,
        table: Option<Columns>,
    },
    /// The first bad record of each.
    Bad(FaultList),
}

/// What the files hold that a draft names, each read once, or the first bad record of each beside what stands there.
pub(crate) fn read_tables(
    alloc: Global,
    draft: &Draft,
    demands: Option<&[u8]>,
    times: Option<&[u8]>,
) -> Result<TablesRead, AllocError>
    requires { AreFilesOf draft.now demands times }
    ensures { IfOk result (AreTables draft.now (option_copied demands.entry) (option_copied times.entry)) }
{
    let mut faults = Faults::new(alloc, Asked::All);
    let dates = find_bad_date(alloc, draft, demands, &mut faults);
    let table = find_bad_time(alloc, draft, times, &mut faults);
    match faults.into_list() {
        Ok(list) => tables_or_faults(dates, table, list),
        Err(AllocError) => {
            drop(dates);
            drop(table);
            Err(AllocError)
        }
    }
}

/// These tables of a draft's files, where there is no fault. One is lacking only where its file has a bad record, or
/// memory ran out.
fn tables_or_faults(
    dates: Option<Option<Vec<Date>>>,
    table: Option<Option<Columns>>,
    list: FaultList,
) -> Result<TablesRead, AllocError>
    ensures { (d : DraftPlant) (demands times : Option (List ℕ)) → IfSome dates (HoldsDates d demands)
        → IfSome table (HoldsTimes d times) → AreFaults list (record_faults d demands times)
        → IfOk result (AreTables d demands times) }
{
    if list.count > 0 {
        drop(dates);
        drop(table);
        return Ok(TablesRead::Bad(list));
    }
    drop(list);
    let Some(dates) = dates else {
        drop(table);
        return Err(AllocError);
    };
    let Some(table) = table else {
        drop(dates);
        return Err(AllocError);
    };
    Ok(TablesRead::Whole { dates, table })
}

/// The dates of the demand file, if there is one; finds its first bad record.
fn find_bad_date(
    alloc: Global,
    draft: &Draft,
    bytes: Option<&[u8]>,
    faults: &mut Faults,
) -> Option<Option<Vec<Date>>>
    requires { is_some bytes ≡ is_some (demands_file draft.now) }
    ensures found { Finds faults.old faults.new (demand_faults draft.now (option_copied bytes.entry)) }
    ensures held { IfSome result (HoldsDates draft.now (option_copied bytes.entry)) }
{
    match dates_in(alloc, draft, bytes) {
        Ok(dates) => Some(dates),
        Err(error) => {
            find_date(alloc, draft, bytes, error, faults);
            None
        }
    }
}

/// Finds the first bad record of the demand file, of which this is the refusal.
fn find_date(
    alloc: Global,
    draft: &Draft,
    bytes: Option<&[u8]>,
    error: PlantError,
    faults: &mut Faults,
)
    requires { error ≢ PlantError.NoMemory → bad_record_in (dates_of (demands_column draft.now))
        (demands_file draft.now) (option_copied bytes) ≡ error ∷ [] }
    ensures { Finds faults.old faults.new (demand_faults draft.now (option_copied bytes.entry)) }
{
    let Some(bytes) = bytes else {
        drop(error);
        return faults.run_out();
    };
    match error {
        PlantError::NoMemory => faults.run_out(),
        error => faults.add(date_fault(alloc, draft.demands_column(), bytes, error)),
    }
}

/// A refusal of these bytes of a demand file, with what stands in its first bad record.
fn date_fault(
    alloc: Global,
    column: u32,
    bytes: &[u8],
    error: PlantError,
) -> Result<Fault, AllocError>
    requires { 1 ≤ column }
    ensures { IfOk result (λ fault. fault ≡ record {
      error = error;
      wants = wanted_record (bad_field (date_columns column) last_demand (records_of bytes.now));
    }) }
{
    match bad_date(alloc, bytes, column) {
        Ok(field) => Ok(Fault {
            error,
            wants: wanted_record(field),
        }),
        Err(fault) => {
            drop(fault);
            drop(error);
            Err(AllocError)
        }
    }
}

/// The table of the times file, if there is one; finds its first bad record.
fn find_bad_time(
    alloc: Global,
    draft: &Draft,
    bytes: Option<&[u8]>,
    faults: &mut Faults,
) -> Option<Option<Columns>>
    requires where_used { is_some bytes ≡ is_some draft.now.times_file }
    requires size { IfSome bytes (λ bs. length bs.now ≤ MAX_CHECKPOINT_BYTES) }
    ensures found { Finds faults.old faults.new (time_faults draft.now (option_copied bytes.entry)) }
    ensures held { IfSome result (HoldsTimes draft.now (option_copied bytes.entry)) }
{
    match times_in(alloc, draft, bytes) {
        Ok(table) => Some(table),
        Err(error) => {
            find_time(alloc, draft, bytes, error, faults);
            None
        }
    }
}

/// Finds the first bad record of the times file, of which this is the refusal.
fn find_time(
    alloc: Global,
    draft: &Draft,
    bytes: Option<&[u8]>,
    error: PlantError,
    faults: &mut Faults,
)
    requires { error ≢ PlantError.NoMemory → bad_record_in (times_of (columns_of draft.now))
        draft.now.times_file (option_copied bytes) ≡ error ∷ [] }
    ensures { Finds faults.old faults.new (time_faults draft.now (option_copied bytes.entry)) }
{
    let Some(bytes) = bytes else {
        drop(error);
        return faults.run_out();
    };
    match error {
        PlantError::NoMemory => faults.run_out(),
        error => faults.add(time_fault(alloc, draft, bytes, error)),
    }
}

/// A refusal of these bytes of a times file, with what stands in its first bad record.
fn time_fault(
    alloc: Global,
    draft: &Draft,
    bytes: &[u8],
    error: PlantError,
) -> Result<Fault, AllocError>
    ensures { IfOk result (λ fault. fault ≡ record {
      error = error;
      wants = wanted_record (bad_field (columns_of draft.now) longest_time (records_of bytes.now));
    }) }
{
    match bad_time(alloc, bytes, draft.columns()) {
        Ok(field) => Ok(Fault {
            error,
            wants: wanted_record(field),
        }),
        Err(fault) => {
            drop(fault);
            drop(error);
            Err(AllocError)
        }
    }
}

/// What is wanted at the first bad record, and where none is bad, in a file without a date.
fn wanted_record(field: Option<BadField>) -> Wants
    ensures { result ≡ wanted_record field }
{
    match field {
        None => Wants::ADate,
        Some(BadField { column, text }) => wanted_in(column, text),
    }
}

/// What is wanted where a record has this text in this column, or no field there.
fn wanted_in(column: u32, text: Option<Text>) -> Wants
    ensures { result ≡ wanted_in column text }
{
    match text {
        None => Wants::AField { column },
        Some(text) => Wants::NumberFor { text },
    }
}
