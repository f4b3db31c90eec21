ghost use Rattle.std.specs.Prelude.{◌≡◌, ◌⊎◌, ◌≤◌, Err, length, option_map, is_some, IfOk, IfSome};
ghost use Rattle.plant_file.specs.Finish.{completed_plant};
ghost use Rattle.plant_file.specs.Reading.{reading as reading_of, AnswersReading};
ghost use Rattle.plant_model.specs.Sound.{IsSound};
ghost use Rattle.live_plant.specs.Outside.{store_over, limit_of};
ghost use Rattle.live_plant.specs.PlantSteps.{or_refused, AreNamedBy, LooksAtFilesOf, OfDraft, OfPlantFile};
ghost use Rattle.live_plant.specs.Refused.{IsFaultOf, refusal_of};
ghost use Rattle.live_plant.specs.Steps.{Makes, LooksAt, LooksAtNamed};
ghost use Rattle.live_plant.specs.declared.refusals.refusal.Refusal.TheVariants.{NoMemory};

use crate::refusals::Refusal;
use command_line::FileName;
use line_base::{Items, MAX_CHECKPOINT_BYTES, MAX_FILE_BYTES, is_checkpoint_name};
use outside_io::{Store, StoreError};
use plant_file::{Draft, complete_draft, read_plant};
use plant_model::{Plant, PlantError};
use std::alloc::Global;

/// The bytes of a file: at most 167,772,160 of a checkpoint, whose name ends in `.ckpt`, and at
/// most 67,108,864 of another one.
pub fn read_file<S: Store>(alloc: Global, store: &mut S, name: &str) -> Result<Items<u8>, Refusal>
    ensures makes { Makes (store_over S.tells (S.shown store.old) (S.shown store.new)) (LooksAt name.now) result }
    ensures within { IfOk result (λ bytes. length bytes ≤ limit_of name.now) }
{
    match store.read(alloc, name, limit_of(name)) {
        Ok(bytes) => Ok(Items::from_vec(bytes)),
        Err(error) => Err(file_fault(alloc, name, error)),
    }
}

/// The most bytes of a file of this name.
fn limit_of(name: &str) -> u64
    ensures { result ≡ limit_of name.now }
{
    if is_checkpoint_name(name.as_bytes()) {
        MAX_CHECKPOINT_BYTES
    } else {
        MAX_FILE_BYTES
    }
}

/// What a file answers that can't be read.
fn file_fault(alloc: Global, name: &str, error: StoreError) -> Refusal
    ensures { IsFaultOf name.now error result }
{
    let Ok(file) = FileName::of(alloc, name) else {
        return Refusal::NoMemory;
    };
    match error {
        StoreError::Failed => Refusal::StoreFault { file },
        StoreError::TooLong => Refusal::TooLong { file },
        StoreError::NoMemory => Refusal::NoMemory,
    }
}

/// The bytes of the files that a plant file names, where it names them.
#[derive(Drop)]
pub struct NamedFiles {
    /// Those of the file of its demands.
    pub demands: Option<Items<u8>>,
    /// Those of the file of its times.
    pub times: Option<Items<u8>>,
}

/// The bytes of a file, if one is named.
fn read_named<S: Store>(
    alloc: Global,
    store: &mut S,
    name: Option<&str>,
) -> Result<Option<Items<u8>>, Refusal>
    ensures makes { Makes (store_over S.tells (S.shown store.old) (S.shown store.new))
        (LooksAtNamed (option_map (λ text. text.now) name.entry)) result }
    ensures where_named { IfOk result (λ bytes. is_some bytes ≡ is_some name.entry) }
    ensures within { IfOk result (λ bytes. IfSome bytes (λ read. length read ≤ MAX_CHECKPOINT_BYTES)) }
{
    match name {
        None => Ok(None),
        Some(name) => Ok(Some(read_file(alloc, store, name)?)),
    }
}

/// The plant of a plant file, and of the files that it names.
pub fn read_plant_files<S: Store>(
    alloc: Global,
    store: &mut S,
    name: &str,
) -> Result<Plant, Refusal>
    ensures makes { Makes (store_over S.tells (S.shown store.old) (S.shown store.new)) (OfPlantFile name.now) result }
    ensures sound { IfOk result IsSound }
{
    let bytes = read_file(alloc, store, name)?;
    match draft_of(alloc, bytes) {
        Ok(draft) => complete(alloc, store, draft),
        Err(error) => Err(refusal_of(error)),
    }
}

/// The draft that the bytes of a plant file are, which are let go.
fn draft_of(alloc: Global, bytes: Items<u8>) -> Result<Draft, PlantError>
    ensures { AnswersReading result (reading_of bytes) }
{
    read_plant(alloc, bytes.as_slice())
}

/// The plant of a draft, and of the files that it names.
fn complete<S: Store>(alloc: Global, store: &mut S, draft: Draft) -> Result<Plant, Refusal>
    ensures makes { Makes (store_over S.tells (S.shown store.old) (S.shown store.new)) (OfDraft draft) result }
    ensures sound { IfOk result IsSound }
{
    match read_files_of(alloc, store, &draft) {
        Ok(files) => {
            let answer = plant_of(alloc, draft, &files);
            drop(files);
            answer
        }
        Err(refusal) => {
            drop(draft);
            Err(refusal)
        }
    }
}

/// The bytes of the files that a draft names: first that of the demands, then that of the times.
pub(crate) fn read_files_of<S: Store>(
    alloc: Global,
    store: &mut S,
    draft: &Draft,
) -> Result<NamedFiles, Refusal>
    ensures makes { Makes (store_over S.tells (S.shown store.old) (S.shown store.new))
        (LooksAtFilesOf draft.now) result }
    ensures named { IfOk result (AreNamedBy draft.now) }
{
    let demands = read_named(alloc, store, draft.demands_file())?;
    let times = read_named(alloc, store, draft.times_file())?;
    Ok(NamedFiles { demands, times })
}

/// The plant of a draft and of the bytes of the files that it names.
fn plant_of(alloc: Global, draft: Draft, files: &NamedFiles) -> Result<Plant, Refusal>
    requires { AreNamedBy draft files.now }
    ensures plant { (result ≡ or_refused (completed_plant draft files.now.demands files.now.times))
        ⊎ (result ≡ Err NoMemory) }
    ensures sound { IfOk result IsSound }
{
    match complete_draft(
        alloc,
        draft,
        slice_of(&files.demands),
        slice_of(&files.times),
    ) {
        Ok(plant) => Ok(plant),
        Err(error) => Err(refusal_of(error)),
    }
}

/// The bytes, if there are any.
pub(crate) fn slice_of(bytes: &Option<Items<u8>>) -> Option<&[u8]>
    ensures { option_map (λ slice. slice.now) result ≡ bytes.now }
{
    match bytes {
        Some(bytes) => Some(bytes.as_slice()),
        None => None,
    }
}

/// What a refusal of a plant answers.
fn refusal_of(error: PlantError) -> Refusal
    ensures { result ≡ refusal_of error }
{
    match error {
        PlantError::NoMemory => Refusal::NoMemory,
        error => Refusal::Refused { error },
    }
}
