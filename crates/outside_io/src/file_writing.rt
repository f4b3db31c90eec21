//! How a file is written: a spare one beside it, which is synced and takes its name; or in its place.
ghost use Rattle.std.specs.Prelude.{◌≡◌, ◌≢◌, ◌<◌, ◌≤◌, ◌-◌, ◌++◌, ◌∷◌, [], ℕ, Bool, Option, Some, true, false, length, take, drop, is_ok, IsTrue, OnOk, OnErr};
ghost use Rattle.outside_io.specs.Contents.{IsTorn};
ghost use Rattle.outside_io.specs.RawFiles.{RawName, Named, Spare, Writes, Removes, CreatesSpare, Asks, AsksToWrite, WritesNamed, SyncsFolder, Replaces, WritesFile, WritesInPlace, WritesBeside, FillsAndRenames, RenamesOnce, Fills, SyncsOnce, WritesOn, SameHeld, SameNamed, OthersHeld, StaysOpen, StartsEmpty, IsEmptyOpen, Grows, GrowsByPrefix, Moves, by_kind, is_absent, bars_new_files, folder_of};
ghost use Rattle.outside_io.specs.RawOut.{count_of};
ghost use Rattle.std.specs.declared.io.ErrorKind.{ErrorKind};

use crate::raw_files::RawFiles;
use std::io;
use std::io::ErrorKind;
use std::path::Path;

/// The machine refused.
#[derive(Drop)]
pub struct Refused;

/// Whether the machine did what it was asked.
type Outcome = Result<(), Refused>;

/// Writes the bytes behind the first `from`, once, and answers how many the machine took: none where it refused.
fn write_once<F: RawFiles>(files: &mut F, bytes: &[u8], from: usize) -> usize
    requires open { (F.shown files.old).is_open ≡ true }
    requires within { from ≤ length bytes.now }
    ensures recorded { (answer : Option ℕ) × ((F.shown files.new).asked ≡ (F.shown files.old).asked
        ++ Writes (drop from bytes.now) answer ∷ []) × (count_of answer ≡ result) }
    ensures open_stays { (F.shown files.new).is_open ≡ true }
    ensures bound { result ≤ length bytes.now - from }
    ensures written { 0 < result → IsTrue F.tells
        → Grows (F.shown files.old) (F.shown files.new) (take result (drop from bytes.now)) }
    ensures torn { IsTrue F.tells → GrowsByPrefix (F.shown files.old) (F.shown files.new) (drop from bytes.now) }
{
    files.write(&bytes[from..]).unwrap_or(0)
}

/// Writes bytes until all were taken, or the machine refuses, or takes nothing.
fn put<F: RawFiles>(files: &mut F, bytes: &[u8]) -> Outcome
    requires open { (F.shown files.old).is_open ≡ true }
    ensures asks { Asks (F.shown files.old) (F.shown files.new) (λ calls. WritesOn bytes.now calls (is_ok result)) }
    ensures open_stays { (F.shown files.new).is_open ≡ true }
    ensures written { OnOk result (IsTrue F.tells → Grows (F.shown files.old) (F.shown files.new) bytes.now) }
    ensures torn { IsTrue F.tells → GrowsByPrefix (F.shown files.old) (F.shown files.new) bytes.now }
{
    let mut taken = 0;
    while taken < bytes.len() {
        let count = write_once(files, bytes, taken);
        if count == 0 {
            return Err(Refused);
        }
        taken += count;
    }
    Ok(())
}

/// Syncs the file that is open.
fn sync_open<F: RawFiles>(files: &mut F) -> Outcome
    requires open { (F.shown files.old).is_open ≡ true }
    ensures asks { Asks (F.shown files.old) (F.shown files.new) (λ calls. SyncsOnce calls (is_ok result)) }
    ensures stays { IsTrue F.tells → StaysOpen (F.shown files.old) (F.shown files.new) }
{
    match files.sync() {
        Ok(()) => Ok(()),
        Err(_) => Err(Refused),
    }
}

/// Fills the file that is open: writes all bytes, and syncs it.
fn fill<F: RawFiles>(files: &mut F, bytes: &[u8]) -> Outcome
    requires open { (F.shown files.old).is_open ≡ true }
    ensures asks { Asks (F.shown files.old) (F.shown files.new) (λ calls. Fills bytes.now calls (is_ok result)) }
    ensures written { OnOk result (IsTrue F.tells → Grows (F.shown files.old) (F.shown files.new) bytes.now) }
    ensures torn { IsTrue F.tells → GrowsByPrefix (F.shown files.old) (F.shown files.new) bytes.now }
{
    match put(files, bytes) {
        Ok(()) => sync_open(files),
        Err(refused) => Err(refused),
    }
}

/// Writes a file in its place. Where this fails the file may hold a prefix of the bytes, and what it held is gone.
fn write_in_place<F: RawFiles>(files: &mut F, name: &str, bytes: &[u8]) -> Outcome
    ensures asks { Asks (F.shown files.old) (F.shown files.new)
        (λ calls. WritesInPlace name.now bytes.now calls (is_ok result)) }
    ensures written { OnOk result (IsTrue F.tells
        → (F.shown files.new).held (Named name.now) ≡ Some bytes.now) }
    ensures torn { IsTrue F.tells → IsTorn ((F.shown files.old).held (Named name.now))
        ((F.shown files.new).held (Named name.now)) bytes.now }
    ensures others_stay { IsTrue F.tells → (q : RawName) → q ≢ Named name.now
        → (F.shown files.new).held q ≡ (F.shown files.old).held q }
{
    match files.create(name) {
        Ok(()) => fill(files, bytes),
        Err(_) => Err(Refused),
    }
}

/// Makes an empty spare file where there is none, or where one is left of a run that was broken off.
fn make_spare<F: RawFiles>(files: &mut F, spare: &str) -> io::Result<()>
    ensures recorded { (gone : Bool) × ((F.shown files.new).asked ≡ (F.shown files.old).asked
        ++ Removes spare.now gone ∷ (CreatesSpare spare.now (by_kind result) ∷ [])) }
    ensures opened { OnOk result ((F.shown files.new).is_open ≡ true) }
    ensures empty { OnOk result (IsTrue F.tells → IsEmptyOpen (F.shown files.new) (Spare spare.now)) }
    ensures others_stay { IsTrue F.tells → (q : RawName) → q ≢ Spare spare.now
        → (F.shown files.new).held q ≡ (F.shown files.old).held q }
{
    let _ = files.remove(spare);
    files.create_spare(spare)
}

/// Gives a spare file the name of a file.
fn rename_spare<F: RawFiles>(files: &mut F, spare: &str, name: &str) -> Outcome
    ensures asks { Asks (F.shown files.old) (F.shown files.new)
        (λ calls. RenamesOnce spare.now name.now calls (is_ok result)) }
    ensures moved { OnOk result (IsTrue F.tells
        → Moves (F.shown files.old) (F.shown files.new) spare.now name.now) }
    ensures stays { OnErr result (IsTrue F.tells → (q : RawName)
        → (F.shown files.new).held q ≡ (F.shown files.old).held q) }
{
    match files.rename(spare, name) {
        Ok(()) => Ok(()),
        Err(_) => Err(Refused),
    }
}

/// Fills the spare file that is open, and gives it the name.
fn fill_and_rename<F: RawFiles>(files: &mut F, spare: &str, name: &str, bytes: &[u8]) -> Outcome
    requires open { (F.shown files.old).is_open ≡ true }
    requires empty { IsTrue F.tells → IsEmptyOpen (F.shown files.old) (Spare spare.now) }
    ensures asks { Asks (F.shown files.old) (F.shown files.new)
        (λ calls. FillsAndRenames spare.now name.now bytes.now calls (is_ok result)) }
    ensures written { OnOk result (IsTrue F.tells
        → (F.shown files.new).held (Named name.now) ≡ Some bytes.now) }
    ensures unharmed { OnErr result (IsTrue F.tells → (q : RawName) → q ≢ Spare spare.now
        → (F.shown files.new).held q ≡ (F.shown files.old).held q) }
    ensures others_stay { OthersHeld F.tells (F.shown files.old) (F.shown files.new) spare.now name.now }
{
    match fill(files, bytes) {
        Ok(()) => rename_spare(files, spare, name),
        Err(refused) => Err(refused),
    }
}

/// The same, and where the machine refuses the spare file is removed. The named file is as it was then.
fn write_beside<F: RawFiles>(files: &mut F, spare: &str, name: &str, bytes: &[u8]) -> Outcome
    requires open { (F.shown files.old).is_open ≡ true }
    requires empty { IsTrue F.tells → IsEmptyOpen (F.shown files.old) (Spare spare.now) }
    ensures { WritesFile F.tells (F.shown files.old) (F.shown files.new) spare.now name.now bytes.now
        (WritesBeside spare.now name.now bytes.now) result }
{
    match fill_and_rename(files, spare, name, bytes) {
        Ok(()) => Ok(()),
        Err(refused) => {
            let _ = files.remove(spare);
            Err(refused)
        }
    }
}

/// Whether no file can be made in that folder, while one that is there may be writable.
fn bars_new_files(kind: ErrorKind) -> bool
    ensures { result ≡ bars_new_files kind }
{
    matches!(
        kind,
        ErrorKind::PermissionDenied | ErrorKind::ReadOnlyFilesystem | ErrorKind::InvalidFilename
    )
}

/// Replaces a file by a spare one that is filled first; or writes it in its place where none can be made.
fn replace<F: RawFiles>(files: &mut F, spare: &str, name: &str, bytes: &[u8]) -> Outcome
    ensures { WritesFile F.tells (F.shown files.old) (F.shown files.new) spare.now name.now bytes.now
        (Replaces spare.now name.now bytes.now) result }
{
    match make_spare(files, spare) {
        Ok(()) => write_beside(files, spare, name, bytes),
        Err(error) if bars_new_files(error.kind()) => write_in_place(files, name, bytes),
        Err(_) => Err(Refused),
    }
}

/// Whether nothing stands at a name.
fn is_absent(kind: ErrorKind) -> bool
    ensures { result ≡ is_absent kind }
{
    matches!(kind, ErrorKind::NotFound)
}

/// Writes a file by its name: a plain file or none is replaced where that can be, and a link or a device is written in
/// its place.
fn write_named<F: RawFiles>(files: &mut F, spare: &str, name: &str, bytes: &[u8]) -> Outcome
    ensures { WritesFile F.tells (F.shown files.old) (F.shown files.new) spare.now name.now bytes.now
        (WritesNamed spare.now name.now bytes.now) result }
{
    match files.is_file(name) {
        Ok(true) => replace(files, spare, name, bytes),
        Ok(false) => write_in_place(files, name, bytes),
        Err(error) if is_absent(error.kind()) => replace(files, spare, name, bytes),
        Err(_) => Err(Refused),
    }
}

/// The folder in which a name stands.
fn folder_of(name: &str) -> &str
    ensures { result.now ≡ folder_of name.now }
{
    match Path::new(name).parent() {
        Some(folder) if !folder.as_str().is_empty() => folder.as_str(),
        _ => ".",
    }
}

/// Syncs a folder where it can be opened. Some machines can't do it, so whatever they answer changes nothing.
fn sync_folder<F: RawFiles>(files: &mut F, folder: &str)
    ensures asks { Asks (F.shown files.old) (F.shown files.new) (λ calls. SyncsFolder folder.now calls true) }
    ensures stays { SameHeld F.tells (F.shown files.old) (F.shown files.new) }
{
    match files.open(folder) {
        Ok(()) => {
            let _ = files.sync();
        }
        Err(_) => {}
    }
}

/// Writes a file, and then syncs its folder.
pub fn write_file<F: RawFiles>(
    files: &mut F,
    spare: &str,
    name: &str,
    bytes: &[u8],
) -> Result<(), Refused>
    ensures { WritesFile F.tells (F.shown files.old) (F.shown files.new) spare.now name.now bytes.now
        (AsksToWrite spare.now name.now bytes.now) result }
{
    match write_named(files, spare, name, bytes) {
        Ok(()) => {
            sync_folder(files, folder_of(name));
            Ok(())
        }
        Err(refused) => Err(refused),
    }
}
