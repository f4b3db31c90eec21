//! What lint says of a draft, which nothing is wrong with by itself, and of the files that it names.
ghost use Rattle.std.specs.Prelude.{◌≡◌, ◌≤◌, ◌<◌, List, [], All, IfOk, IfSome, is_some, option_copied, option_map, vec_len};
ghost use Rattle.line_base.specs.declared.limits.TheConstants.{MAX_DEMAND_DATE};
ghost use Rattle.plant_file.specs.Draft.{demands_file, columns_of};
ghost use Rattle.plant_file.specs.Finish.{AreFilesOf, plant_with};
ghost use Rattle.plant_keys.specs.Found.{AreFaults};
ghost use Rattle.plant_keys.specs.declared.fault.Fault.{Fault};
ghost use Rattle.plant_lint.specs.DraftLints.{LintsDraft, LintsWhole};
ghost use Rattle.plant_lint.specs.Remarks.{no_remark};
ghost use Rattle.plant_lint.specs.Texts.{fault_lines};
ghost use Rattle.plant_model.specs.Refusals.{all_feeds_not_later, whole_refusals};
ghost use Rattle.plant_model.specs.Sound.{IsSound};

use crate::draft_lint::DraftLint;
use crate::file::text_of;
use crate::lint::Lint;
use crate::plant::lint_plant;
use crate::records::{TablesRead, read_tables};
use crate::remarks::NoRemarks;
use demand_feed::Columns;
use line_base::{Date, Text};
use plant_file::{Draft, assemble_plant};
use plant_keys::FaultList;
use plant_model::Plant;
use std::alloc::{AllocError, Global};

/// What lint says of a draft and of the bytes of the files that it names: the first bad record of each, and where none
/// is bad, all that is wrong with its plant as a whole. Where nothing is, the plant is handed on with its notes.
pub fn lint_draft(
    alloc: Global,
    draft: Draft,
    demands: Option<&[u8]>,
    times: Option<&[u8]>,
) -> Result<DraftLint, AllocError>
    requires { AreFilesOf draft demands times }
    ensures { IfOk result (LintsDraft draft (option_copied demands.entry) (option_copied times.entry)) }
{
    match read_tables(alloc, &draft, demands, times) {
        Ok(TablesRead::Whole { dates, table }) => lint_tables(alloc, draft, dates, table),
        Ok(TablesRead::Bad(list)) => {
            drop(draft);
            let lint = refused_by(alloc, &list);
            drop(list);
            lint
        }
        Err(AllocError) => {
            drop(draft);
            Err(AllocError)
        }
    }
}

/// That there are these faults.
fn refused_by(alloc: Global, list: &FaultList) -> Result<DraftLint, AllocError>
    ensures { (faults : List Fault) → AreFaults list.now faults
        → IfOk result (λ lint. lint ≡ DraftLint.Refused (fault_lines no_remark faults)) }
{
    let lines = text_of(alloc, &NoRemarks, list)?;
    Ok(DraftLint::Refused { lines })
}

/// What lint says of a draft, with the dates of its demand file and the times of its times file where it uses them.
fn lint_tables(
    alloc: Global,
    draft: Draft,
    dates: Option<Vec<Date>>,
    times: Option<Columns>,
) -> Result<DraftLint, AllocError>
    requires dates_where_used { is_some dates ≡ is_some (demands_file draft) }
    requires some_dates { IfSome dates (λ read. 0 < vec_len read) }
    requires dates_limit { IfSome dates (λ read. All (λ date. date ≤ MAX_DEMAND_DATE) read.items) }
    requires times_where_used { is_some times ≡ is_some draft.times_file }
    requires times_columns { IfSome times (λ table. table.columns ≡ columns_of draft) }
    ensures { IfOk result (LintsWhole (demands_file draft)
        (plant_with draft (option_map (λ read. read.items) dates) times)) }
{
    match copy_of(alloc, draft.demands_file()) {
        Ok(file) => match assemble_plant(alloc, draft, dates, times) {
            Ok(plant) => lint_whole(alloc, text_in(&file), plant),
            Err(error) => {
                drop(error);
                Err(AllocError)
            }
        },
        Err(AllocError) => {
            drop(draft);
            drop(dates);
            drop(times);
            Err(AllocError)
        }
    }
}

/// A copy of a name, if there is one.
fn copy_of(alloc: Global, name: Option<&str>) -> Result<Option<Text>, AllocError>
    ensures { IfOk result (λ copy. copy ≡ option_map (λ text. text.now) name.entry) }
{
    match name {
        None => Ok(None),
        Some(name) => Ok(Some(Text::of(alloc, name)?)),
    }
}

/// A name, if there is one.
fn text_in(name: &Option<Text>) -> Option<&str>
    ensures { option_map (λ text. text.now) result ≡ name.now }
{
    match name {
        None => None,
        Some(name) => Some(name.as_str()),
    }
}

/// What lint says of a plant whose parts are right, which is handed on where nothing is wrong with it as a whole.
fn lint_whole(alloc: Global, file: Option<&str>, plant: Plant) -> Result<DraftLint, AllocError>
    requires feeds { all_feeds_not_later plant ≡ [] }
    requires sound { whole_refusals plant ≡ [] → IsSound plant }
    ensures { IfOk result (LintsWhole (option_map (λ name. name.now) file.entry) plant) }
{
    match lint_plant(alloc, file, &plant) {
        Ok(Lint::Sound { notes }) => Ok(DraftLint::Sound { plant, notes }),
        Ok(Lint::Refused { lines }) => {
            drop(plant);
            Ok(DraftLint::Refused { lines })
        }
        Err(AllocError) => {
            drop(plant);
            Err(AllocError)
        }
    }
}
