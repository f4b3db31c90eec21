ghost use Rattle.std.specs.Prelude.{◌≡◌, ◌≢◌, [], Some, None, IfOk, IfSome, MatchResult};
ghost use Rattle.plant_file.specs.Code.{AreStageNames, Builds};
ghost use Rattle.plant_file.specs.Draft.{IsSoundDraft};
ghost use Rattle.plant_file.specs.Reading.{AnswersReading, IsReadingOf, draft_of, tree_of, tree_reading, reading};
ghost use Rattle.plant_model.specs.declared.error.PlantError.TheVariants.{NoMemory, NotToml};
ghost use Rattle.plant_keys.specs.Found.{AreFaults};
ghost use Rattle.plant_keys.specs.Walk.{tree_faults};
ghost use Rattle.toml.specs.View.{view};

use crate::build::draft_of;
use crate::columns::columns_of;
use crate::draft::{Draft, DraftPlant};
use crate::reading::TreeReading;
use plant_keys::{Asked, FaultList, Faults, Names, find_in_plant};
use plant_model::PlantError;
use std::alloc::{AllocError, Global};
use toml::Value;

/// Reads the bytes of a plant file. The answer is what the file says, or the first of the refusals 1 to 9 of
/// `PlantError`, each class tried over the whole file before the next. Running out of memory may come before any of
/// them.
#[tactic(auto, unfolding(crate::specs::Reading::reading))]
pub fn read_plant(alloc: Global, bytes: &[u8]) -> Result<Draft, PlantError>
    ensures { AnswersReading result (reading bytes.now) }
{
    let top = tree_of(alloc, bytes)?;
    read_tree(alloc, &top)
}

/// The tree of TOML that bytes are.
fn tree_of(alloc: Global, bytes: &[u8]) -> Result<Value, PlantError>
    ensures { MatchResult result (λ top. tree_of bytes.now ≡ Some (view top))
        (λ e. e ≢ NoMemory → (tree_of bytes.now ≡ None) × (e ≡ NotToml)) }
{
    match toml::table_from_slice(alloc, bytes) {
        Ok(top) => Ok(Value::Table(top)),
        Err(error) if error.is_memory() => Err(PlantError::NoMemory),
        Err(_) => Err(PlantError::NotToml),
    }
}

/// Reads a tree as a plant file: what it says, or the first refusal.
fn read_tree(alloc: Global, top: &Value) -> Result<Draft, PlantError>
    ensures { AnswersReading result (tree_reading (view top.now)) }
{
    let mut faults = Faults::new(alloc, Asked::First);
    let names = find_in_plant(top, &mut faults);
    match faults.into_first() {
        Ok(()) => draft_with(alloc, names, top),
        Err(refusal) => {
            drop(names);
            Err(refusal)
        }
    }
}

/// Reads a tree as a plant file: what it says, or all that is wrong with it.
pub fn read_tree_or_faults(alloc: Global, top: &Value) -> Result<TreeReading, AllocError>
    ensures { IfOk result (IsReadingOf (view top.now)) }
{
    let mut faults = Faults::new(alloc, Asked::All);
    let names = find_in_plant(top, &mut faults);
    match faults.into_list() {
        Ok(list) => draft_or_faults(alloc, names, list, top),
        Err(AllocError) => {
            drop(names);
            Err(AllocError)
        }
    }
}

/// What a tree says with which this is wrong, if something is.
fn draft_or_faults(
    alloc: Global,
    names: Option<Names<'_>>,
    list: FaultList,
    top: &Value,
) -> Result<TreeReading, AllocError>
    requires list { AreFaults list (tree_faults (view top.now)) }
    requires names { IfSome names (AreStageNames (view top.now)) }
    ensures { IfOk result (IsReadingOf (view top.now)) }
{
    if list.count > 0 {
        drop(names);
        return Ok(TreeReading::Faults(list));
    }
    drop(list);
    match draft_with(alloc, names, top) {
        Ok(draft) => Ok(TreeReading::Draft(draft)),
        Err(error) => {
            drop(error);
            Err(AllocError)
        }
    }
}

/// The draft of a tree with which nothing is wrong, whose stages have these names. There are none where memory ran out
/// before.
fn draft_with(alloc: Global, names: Option<Names<'_>>, top: &Value) -> Result<Draft, PlantError>
    requires sound { tree_faults (view top.now) ≡ [] }
    requires names { IfSome names (AreStageNames (view top.now)) }
    ensures { Builds result (draft_of (view top.now)) }
{
    let Some(names) = names else {
        return Err(PlantError::NoMemory);
    };
    let draft = named_draft(alloc, &names, top);
    drop(names);
    draft
}

/// The same, where the names are there.
fn named_draft(alloc: Global, names: &Names<'_>, top: &Value) -> Result<Draft, PlantError>
    requires sound { tree_faults (view top.now) ≡ [] }
    requires names { AreStageNames (view top.now) names.now }
    ensures { Builds result (draft_of (view top.now)) }
{
    let plant = draft_of(alloc, names, top)?;
    draft_with_columns(alloc, plant)
}

/// The draft of what a plant file says, where nothing is wrong with it.
fn draft_with_columns(alloc: Global, plant: DraftPlant) -> Result<Draft, PlantError>
    requires { IsSoundDraft plant }
    ensures { Builds result plant }
{
    match columns_of(alloc, &plant) {
        Ok(columns) => Ok(Draft { plant, columns }),
        Err(error) => {
            drop(plant);
            Err(error.into())
        }
    }
}
