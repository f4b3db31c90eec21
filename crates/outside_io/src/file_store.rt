ghost use Rattle.std.specs.Prelude.{◌≡◌, ◌<◌, ◌≤◌, ◌↔◌, ◌+◌, Some, false, length, string_bytes, is_ok, IsTrue, IfOk, OnOk, OnErr, IsErrOf};
ghost use Rattle.outside_io.specs.Calls.{after_read, after_write, bytes_of};
ghost use Rattle.outside_io.specs.Contents.{SameFiles, OthersStay, IsTorn, IsLongerThan};
ghost use Rattle.outside_io.specs.Faults.{Rose};
ghost use Rattle.outside_io.specs.Machine.{file_view};
ghost use Rattle.outside_io.specs.Noted.{asked_of};
ghost use Rattle.outside_io.specs.RawFiles.{Asks, AsksToRead, AsksToWrite, SameHeld, SameNamed, Named, empties, given_by, named_files, spare_of};
ghost use Rattle.outside_io.specs.Writing.{WritesCounted};

use crate::calls::Calls;
use crate::faults::count_fault;
use crate::file_reading::read_file;
use crate::file_writing::write_file;
use crate::raw_files::RawFiles;
use crate::store::{Store, StoreError};
use std::alloc::{AllocError, Global};

/// What the name of a spare file has behind the name of the file beside it.
const SPARE_ENDING: &str = ".new";

/// Files as a store, over the machine's own calls. One count of faults serves every name and both kinds of call. A file
/// is written beside the named one, synced, and renamed over it, so that a fault or a crash leaves the old one or the
/// new one whole; where no file can be made in that folder, or the name is a link or a device, it is written in its
/// place.
#[derive(Drop)]
pub struct FileStore<F: RawFiles + Drop> {
    files: F,
    alloc: Global,
    faults: u64,
    taken: u64,
    calls: Calls,
}

impl<F: RawFiles + Drop> FileStore<F> {
    ghost use Rattle.outside_io.specs.StoreView.{IsUnused};

    /// The machine's own calls as a store of which nothing was asked. Names are put together in memory of this
    /// allocator.
    pub fn over(alloc: Global, files: F) -> Self
        ensures files { result.files ≡ files }
        ensures unused { IsUnused (file_view (F.shown result.files) result.faults result.taken result.calls) }
    {
        FileStore {
            files,
            alloc,
            faults: 0,
            taken: 0,
            calls: Calls::new(),
        }
    }

    /// The machine's own calls below the store.
    pub fn files(&self) -> &F
        ensures { result.now ≡ self.now.files }
    {
        &self.files
    }
}

/// The name of the spare file beside a file.
fn spare_name(alloc: Global, name: &str) -> Result<String, AllocError>
    ensures { IfOk result (λ spare. string_bytes spare ≡ spare_of name.now) }
{
    let mut spare = String::from_str(alloc, name)?;
    spare.push_str(SPARE_ENDING)?;
    Ok(spare)
}

/// Writes a file, and counts a fault where the machine refused. Without memory for the name of the spare file nothing
/// is asked.
fn write_counted<F: RawFiles>(
    alloc: Global,
    files: &mut F,
    name: &str,
    bytes: &[u8],
    faults: &mut u64,
) -> Result<(), StoreError>
    ensures { WritesCounted F.tells (F.shown files.old) (F.shown files.new) name.now bytes.now faults.old faults.new
        result }
{
    match spare_name(alloc, name) {
        Ok(spare) => count_fault(write_file(files, spare.as_str(), name, bytes), faults),
        Err(_) => Err(StoreError::NoMemory),
    }
}

impl<F: RawFiles + Drop> Store for FileStore<F> {
    ghost tells = { F.tells };

    ghost shown = { λ store. file_view (F.shown store.files) store.faults store.taken store.calls };

    fn read(&mut self, alloc: Global, name: &str, limit: u64) -> Result<Vec<u8>, StoreError>
        ensures asks { Asks (F.shown self.old.files) (F.shown self.new.files) (λ calls.
            AsksToRead name.now limit calls (bytes_of result) × (self.new.taken ≡ length (given_by calls))) }
        ensures closed { (F.shown self.new.files).is_open ≡ false }
        ensures recorded { asked_of self.new.calls ≡ after_read (asked_of self.old.calls) name.now result }
        ensures bytes { IfOk result (λ v. IsTrue F.tells
            → named_files (F.shown self.old.files) name.now ≡ Some v.items) }
        ensures within_limit { IfOk result (λ v. length v.items ≤ limit) }
        ensures took_them { IfOk result (λ v. self.new.taken ≡ length v.items) }
        ensures too_long { IsErrOf result StoreError.TooLong ↔ (limit < self.new.taken) }
        ensures one_more_at_most { self.new.taken ≤ limit + 1 }
        ensures longer { IsErrOf result StoreError.TooLong → IsTrue F.tells
            → IsLongerThan limit (named_files (F.shown self.old.files) name.now) }
        ensures cause { IsErrOf result StoreError.Failed → Rose self.old.faults self.new.faults }
        ensures files_stay { SameHeld F.tells (F.shown self.old.files) (F.shown self.new.files) }
        ensures faults_stay { OnOk result (self.new.faults ≡ self.old.faults) }
        ensures faults_stay_or_rise { self.old.faults ≤ self.new.faults }
        ensures faults_rise_by_one { self.new.faults ≤ self.old.faults + 1 }
        ensures memory_is_no_fault { IsErrOf result StoreError.NoMemory → self.new.faults ≡ self.old.faults }
    {
        self.taken = 0;
        let answer = read_file(
            alloc,
            &mut self.files,
            name,
            limit,
            &mut self.taken,
            &mut self.faults,
        );
        self.files.close();
        self.calls.note_read(name, answer)
    }

    fn write(&mut self, name: &str, bytes: &[u8]) -> Result<(), StoreError>
        ensures asks { ¬ (IsErrOf result StoreError.NoMemory)
            → Asks (F.shown self.old.files) (F.shown self.new.files) (λ calls.
            AsksToWrite (spare_of name.now) name.now bytes.now calls (is_ok result)
            × (empties calls ≡ false → OnErr result
            (SameNamed F.tells (F.shown self.old.files) (F.shown self.new.files)))) }
        ensures asks_nothing { IsErrOf result StoreError.NoMemory
            → (F.shown self.new.files).asked ≡ (F.shown self.old.files).asked }
        ensures closed { (F.shown self.new.files).is_open ≡ false }
        ensures recorded { asked_of self.new.calls ≡ after_write (asked_of self.old.calls) name.now bytes.now result }
        ensures written { OnOk result (IsTrue F.tells
            → named_files (F.shown self.new.files) name.now ≡ Some bytes.now) }
        ensures others_stay { OthersStay F.tells (named_files (F.shown self.old.files))
            (named_files (F.shown self.new.files)) name.now }
        ensures torn { IsErrOf result StoreError.Failed → IsTrue F.tells
            → IsTorn (named_files (F.shown self.old.files) name.now)
            (named_files (F.shown self.new.files) name.now) bytes.now }
        ensures no_memory { IsErrOf result StoreError.NoMemory
            → SameFiles F.tells (named_files (F.shown self.old.files)) (named_files (F.shown self.new.files)) }
        ensures never_too_long { ¬ (IsErrOf result StoreError.TooLong) }
        ensures cause { IsErrOf result StoreError.Failed → Rose self.old.faults self.new.faults }
        ensures taken_stays { self.new.taken ≡ self.old.taken }
        ensures faults_stay { OnOk result (self.new.faults ≡ self.old.faults) }
        ensures faults_stay_or_rise { self.old.faults ≤ self.new.faults }
        ensures faults_rise_by_one { self.new.faults ≤ self.old.faults + 1 }
        ensures memory_is_no_fault { IsErrOf result StoreError.NoMemory → self.new.faults ≡ self.old.faults }
    {
        let answer = write_counted(self.alloc, &mut self.files, name, bytes, &mut self.faults);
        self.files.close();
        self.calls.note_write(name, bytes, answer)
    }
}
