//! What lint says of a plant file and of the files that it names.
ghost use Rattle.std.specs.Prelude.{◌≡◌, ◌⊎◌, Ok, Err};
ghost use Rattle.plant_lint.specs.PlantLints.{clean_text};
ghost use Rattle.plant_model.specs.Sound.{IsSound};
ghost use Rattle.live_plant.specs.declared.refusals.refusal.Refusal.TheVariants.{NoMemory};
ghost use Rattle.live_plant.specs.LintSteps.{IsCleanOrDead, IsDraftLint, IsFileLint, LintsDraft, LintsPlant};
ghost use Rattle.live_plant.specs.Outside.{store_over};
ghost use Rattle.live_plant.specs.PlantSteps.{AreNamedBy};
ghost use Rattle.live_plant.specs.Steps.{Makes};

use crate::files::{NamedFiles, read_file, read_files_of, slice_of};
use crate::live_plant::live_graph;
use crate::refusals::Refusal;
use crate::sound_file::SoundFile;
use line_base::{Items, Text};
use outside_io::Store;
use plant_lint::{DraftLint, FileLint, clean_text, lint_draft, lint_file};
use plant_model::Plant;
use std::alloc::Global;

/// What lint says of a plant file and of the files that it names: that there is no fault, with notes of what may not be
/// meant; or all faults, or a circuit without a token.
pub fn lint_plant_file<S: Store>(
    alloc: Global,
    store: &mut S,
    name: &str,
) -> Result<Items<u8>, Refusal>
    ensures { Makes (store_over S.tells (S.shown store.old) (S.shown store.new)) (LintsPlant name.now) result }
{
    let bytes = read_file(alloc, store, name)?;
    match sound_file(alloc, bytes) {
        Ok(file) => lint_files(alloc, store, file),
        Err(refusal) => Err(refusal),
    }
}

/// A plant file of these bytes, which are let go; or what is wrong with it by itself.
fn sound_file(alloc: Global, bytes: Items<u8>) -> Result<SoundFile, Refusal>
    ensures { IsFileLint bytes result ⊎ (result ≡ Err NoMemory) }
{
    match lint_file(alloc, bytes.as_slice()) {
        Ok(FileLint::Sound { draft, notes }) => Ok(SoundFile { notes, draft }),
        Ok(FileLint::Refused { lines }) => Err(Refusal::Faults { lines }),
        Err(_) => Err(Refusal::NoMemory),
    }
}

/// What lint says of the files that a sound plant file names.
fn lint_files<S: Store>(alloc: Global, store: &mut S, file: SoundFile) -> Result<Items<u8>, Refusal>
    ensures { Makes (store_over S.tells (S.shown store.old) (S.shown store.new)) (LintsDraft file) result }
{
    match read_files_of(alloc, store, &file.draft) {
        Ok(files) => {
            let answer = lint_bytes(alloc, file, &files);
            drop(files);
            answer
        }
        Err(refusal) => {
            drop(file);
            Err(refusal)
        }
    }
}

/// The same of the bytes of these files.
fn lint_bytes(alloc: Global, file: SoundFile, files: &NamedFiles) -> Result<Items<u8>, Refusal>
    requires { AreNamedBy file.draft files.now }
    ensures { IsDraftLint file files.now.demands files.now.times result ⊎ (result ≡ Err NoMemory) }
{
    let SoundFile { notes, draft } = file;
    match lint_draft(
        alloc,
        draft,
        slice_of(&files.demands),
        slice_of(&files.times),
    ) {
        Ok(DraftLint::Sound { plant, notes: more }) => {
            let answer = lint_live(alloc, &plant, &notes, &more);
            drop(plant);
            answer
        }
        Ok(DraftLint::Refused { lines }) => Err(Refusal::Faults { lines }),
        Err(_) => Err(Refusal::NoMemory),
    }
}

/// That there is no fault, with the notes of the file and of the plant, where its graph is live; else a circuit without
/// a token.
fn lint_live(
    alloc: Global,
    plant: &Plant,
    of_file: &Text,
    of_plant: &Text,
) -> Result<Items<u8>, Refusal>
    requires { IsSound plant.now }
    ensures { IsCleanOrDead plant.now (clean_text of_file.now of_plant.now) result ⊎ (result ≡ Err NoMemory) }
{
    match live_graph(alloc, plant) {
        Ok(live) => {
            drop(live);
            clean(alloc, of_file, of_plant)
        }
        Err(dead) => Err(dead),
    }
}

/// That there is no fault, with the notes of the file and of the plant.
fn clean(alloc: Global, of_file: &Text, of_plant: &Text) -> Result<Items<u8>, Refusal>
    ensures { (result ≡ Ok (clean_text of_file.now of_plant.now)) ⊎ (result ≡ Err NoMemory) }
{
    match clean_text(alloc, of_file.as_str(), of_plant.as_str()) {
        Ok(text) => Ok(Items::from_vec(text.into_bytes())),
        Err(_) => Err(Refusal::NoMemory),
    }
}
