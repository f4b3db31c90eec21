//! What lint says of a plant whose parts are right.
ghost use Rattle.std.specs.Prelude.{◌≡◌, ◌++◌, List, [], IfOk, option_map, string_bytes};
ghost use Rattle.plant_check.specs.PlantNotes.{plant_notes};
ghost use Rattle.plant_keys.specs.Faults.{plain};
ghost use Rattle.plant_keys.specs.Found.{AreFaults, Finds};
ghost use Rattle.plant_keys.specs.declared.fault.Fault.{Fault};
ghost use Rattle.plant_lint.specs.FileLints.{faults_or_notes};
ghost use Rattle.plant_lint.specs.PlantLints.{lint_of_plant, clean_text};
ghost use Rattle.plant_lint.specs.Remarks.{plant_remark};
ghost use Rattle.plant_model.specs.Refusals.{all_feeds_not_later};

use crate::file::text_of;
use crate::lint::Lint;
use crate::remarks::PlantRemarks;
use line_base::Text;
use plant_check::{plant_notes, refusals_of_plant};
use plant_keys::{Asked, Fault, FaultList, Faults, Wants};
use plant_model::{Plant, PlantError};
use std::alloc::{AllocError, Global};

/// What lint says of a plant whose parts are right, and whose dates stand in this file, if they stand in one: all that
/// is wrong with it as a whole, and where nothing is, its notes.
pub fn lint_plant(alloc: Global, file: Option<&str>, plant: &Plant) -> Result<Lint, AllocError>
    requires { all_feeds_not_later plant.now ≡ [] }
    ensures { IfOk result (λ lint. lint ≡ lint_of_plant (option_map (λ name. name.now) file.entry) plant.now) }
{
    let list = faults_of(alloc, refusals_of_plant(alloc, plant)?)?;
    let lint = faults_or_plant_notes(alloc, &list, file, plant);
    drop(list);
    lint
}

/// The lines of a plant's faults, and where there is none its notes.
fn faults_or_plant_notes(
    alloc: Global,
    list: &FaultList,
    file: Option<&str>,
    plant: &Plant,
) -> Result<Lint, AllocError>
    ensures { (faults : List Fault) → AreFaults list.now faults → IfOk result (λ lint. lint
        ≡ faults_or_notes (plant_remark plant.now) faults (plant_notes (option_map (λ name. name.now) file.entry) plant.now)) }
{
    if list.count > 0 {
        let lines = text_of(alloc, &PlantRemarks { plant }, list)?;
        return Ok(Lint::Refused { lines });
    }
    let notes = Text::from_string(plant_notes(alloc, file, plant)?);
    Ok(Lint::Sound { notes })
}

/// The faults of refusals that say all.
fn faults_of(alloc: Global, refusals: Vec<PlantError>) -> Result<FaultList, AllocError>
    ensures { IfOk result (λ list. AreFaults list (plain refusals.items)) }
{
    let mut faults = Faults::new(alloc, Asked::All);
    add_plain(refusals, &mut faults);
    faults.into_list()
}

/// Adds refusals that say all.
fn add_plain(refusals: Vec<PlantError>, faults: &mut Faults)
    ensures { Finds faults.old faults.new (plain refusals.items) }
{
    for error in refusals {
        faults.add(Ok(Fault {
            error,
            wants: Wants::Nothing,
        }));
    }
}

/// What lint writes where nothing is wrong: that, then the notes of the file, then those of the plant.
pub fn clean_text(alloc: Global, of_file: &str, of_plant: &str) -> Result<String, AllocError>
    ensures { IfOk result (λ text. string_bytes text ≡ clean_text of_file.now of_plant.now) }
{
    format!(in alloc; "no fault\n{of_file}{of_plant}")
}
