ghost use Rattle.std.specs.Bool.{OnTrue, OnFalse};
ghost use Rattle.std.specs.Prelude.{◌≡◌, ◌≢◌, ◌+◌, ◌≤◌, ◌<◌, ◌↔◌, ◌⊎◌, List, ℕ, Some, None, length, string_bytes, vec_len, vec_capacity, IfOk, OnOk, OnErr, IsErr, IsErrOf, option_map, true};
ghost use Rattle.outside_io.specs.Calls.{none_asked};
ghost use Rattle.outside_io.specs.Contents.{SameFiles, OthersStay, IsTorn};
ghost use Rattle.outside_io.specs.Faults.{Rose, NeverFall, RiseByOneAtMost, SameFaults};
ghost use Rattle.outside_io.specs.Held.{contents, times_noted, CountsFault, NotesOnce};
ghost use Rattle.outside_io.specs.Left.{left_by};

use crate::calls::Calls;
use crate::fail_plan::FailPlan;
use crate::store::{Store, StoreError};
use std::alloc::{AllocError, Global};
use std::collections::BTreeMap;

/// Files in memory: what each name holds.
pub type Files = BTreeMap<String, Vec<u8>>;

/// Files in memory as a store. Calls whose numbers are on a list fail, and so does a read of a file
/// that is not there.
#[derive(Drop)]
pub struct MemStore {
    alloc: Global,
    files: Files,
    plan: FailPlan,
    keep: Option<u32>,
    failed_reads: Vec<String>,
    failed_writes: Vec<String>,
    taken: u64,
    calls: Calls,
}

/// Gives a file these bytes.
fn set_file(alloc: Global, files: &mut Files, name: &str, bytes: &[u8]) -> Result<(), AllocError>
    ensures written { OnOk result (contents files.new name.now ≡ Some bytes.now) }
    ensures others_stay { OthersStay true (contents files.old) (contents files.new) name.now }
    ensures no_memory { OnErr result (SameFiles true (contents files.old) (contents files.new)) }
{
    let copy = bytes.to_vec(alloc)?;
    let _ = files.insert(String::from_str(alloc, name)?, copy)?;
    Ok(())
}

/// Makes room for one more fault, and gives the name that is to be noted.
fn prepare(alloc: Global, faults: &mut Vec<String>, name: &str) -> Result<String, AllocError>
    ensures name { IfOk result (λ text. string_bytes text ≡ name.now) }
    ensures room { OnOk result (vec_len faults.new < vec_capacity faults.new) }
    ensures counts { SameFaults (times_noted faults.old) (times_noted faults.new) }
{
    let text = String::from_str(alloc, name)?;
    faults.reserve(1)?;
    Ok(text)
}

/// Notes a fault at this name, for which there is room.
fn note(faults: &mut Vec<String>, text: String)
    requires { vec_len faults.old < vec_capacity faults.old }
    ensures noted { NotesOnce faults.old faults.new (string_bytes text) }
    ensures stays_or_rises { NeverFall (times_noted faults.old) (times_noted faults.new) }
    ensures rises_by_one { RiseByOneAtMost (times_noted faults.old) (times_noted faults.new) }
{
    faults.push_reserved(text);
}

impl MemStore {
    ghost use Rattle.outside_io.specs.Memory.{IsNewStore, store_files};

    /// A store in which a failing write leaves that many bytes, or with none given the file as it was.
    fn make(alloc: Global, files: Files, failing: Vec<u32>, keep: Option<u32>) -> MemStore
        ensures { IsNewStore result files failing.items keep }
    {
        MemStore {
            alloc,
            files,
            plan: FailPlan::new(failing),
            keep,
            failed_reads: Vec::new(alloc),
            failed_writes: Vec::new(alloc),
            taken: 0,
            calls: Calls::new(),
        }
    }

    /// A store of these files. The calls whose numbers, from 1, are in `failing` fail and change
    /// nothing.
    pub fn new(alloc: Global, files: Files, failing: Vec<u32>) -> MemStore
        ensures { IsNewStore result files failing.items None }
    {
        MemStore::make(alloc, files, failing, None)
    }

    /// The same, but that a write which is to fail leaves the first `keep` bytes of those that it
    /// was given.
    pub fn torn(alloc: Global, files: Files, failing: Vec<u32>, keep: u32) -> MemStore
        ensures { IsNewStore result files failing.items (Some keep) }
    {
        MemStore::make(alloc, files, failing, Some(keep))
    }

    /// What the files hold. It takes no memory.
    pub fn files(&self) -> &Files
        ensures { result.now ≡ store_files self.now }
    {
        &self.files
    }
}

/// A file that is there, unless the call is to fail.
fn readable<'a>(files: &'a Files, name: &str, is_due: bool) -> Option<&'a Vec<u8>>
    ensures due { OnTrue is_due (result ≡ None) }
    ensures else_found { OnFalse is_due (option_map (λ v. v.now.items) result ≡ contents files.now name.now) }
{
    if is_due {
        return None;
    }
    files.get(name)
}

/// The bytes of a file that is at most that long, and how many were taken of it.
fn copy_to_limit(
    alloc: Global,
    bytes: &[u8],
    limit: u64,
    taken: &mut u64,
) -> Result<Vec<u8>, StoreError>
    ensures bytes { IfOk result (λ v. v.items ≡ bytes.now) }
    ensures took_them { IfOk result (λ v. taken.new ≡ length v.items) }
    ensures within_limit { IfOk result (λ v. length v.items ≤ limit) }
    ensures too_long { IsErrOf result StoreError.TooLong ↔ (limit < taken.new) }
    ensures longer { IsErrOf result StoreError.TooLong → limit < length bytes.now }
    ensures one_more_at_most { taken.new ≤ limit + 1 }
    ensures never_failed { ¬ (IsErrOf result StoreError.Failed) }
{
    let len = bytes.len() as u64;
    if len > limit {
        *taken = limit + 1;
        return Err(StoreError::TooLong);
    }
    *taken = len;
    Ok(bytes.to_vec(alloc)?)
}

/// A read that fails, which is noted.
fn refuse(alloc: Global, faults: &mut Vec<String>, name: &str) -> Result<Vec<u8>, StoreError>
    ensures refused { IsErr result }
    ensures never_too_long { ¬ (IsErrOf result StoreError.TooLong) }
    ensures counts { CountsFault faults.old faults.new name.now result }
{
    let text = prepare(alloc, faults, name)?;
    note(faults, text);
    Err(StoreError::Failed)
}

/// Gives a file these bytes, or answers that there is no memory.
fn give(alloc: Global, files: &mut Files, name: &str, bytes: &[u8]) -> Result<(), StoreError>
    ensures written { OnOk result (contents files.new name.now ≡ Some bytes.now) }
    ensures others_stay { OthersStay true (contents files.old) (contents files.new) name.now }
    ensures no_memory { IsErrOf result StoreError.NoMemory → SameFiles true (contents files.old) (contents files.new) }
    ensures never_failed { ¬ (IsErrOf result StoreError.Failed) }
    ensures never_too_long { ¬ (IsErrOf result StoreError.TooLong) }
{
    Ok(set_file(alloc, files, name, bytes)?)
}

/// Leaves what a write that is to fail leaves: this many of the bytes, or with none given the file as it was.
fn leave(
    alloc: Global,
    files: &mut Files,
    keep: Option<u32>,
    name: &str,
    bytes: &[u8],
) -> Result<(), AllocError>
    ensures kept { OnOk result
        (contents files.new name.now ≡ left_by keep (contents files.old name.now) bytes.now) }
    ensures others_stay { OthersStay true (contents files.old) (contents files.new) name.now }
    ensures no_memory { OnErr result (SameFiles true (contents files.old) (contents files.new)) }
{
    let Some(keep) = keep else {
        return Ok(());
    };
    let kept = &bytes[..bytes.len().min(keep as usize)];
    set_file(alloc, files, name, kept)
}

/// A write that fails, which is noted, and leaves this many of the bytes, or with none given the file as it was.
fn break_off(
    alloc: Global,
    files: &mut Files,
    faults: &mut Vec<String>,
    keep: Option<u32>,
    name: &str,
    bytes: &[u8],
) -> Result<(), StoreError>
    ensures refused { IsErr result }
    ensures never_too_long { ¬ (IsErrOf result StoreError.TooLong) }
    ensures kept { IsErrOf result StoreError.Failed
        → contents files.new name.now ≡ left_by keep (contents files.old name.now) bytes.now }
    ensures others_stay { OthersStay true (contents files.old) (contents files.new) name.now }
    ensures no_memory { IsErrOf result StoreError.NoMemory → SameFiles true (contents files.old) (contents files.new) }
    ensures counts { CountsFault faults.old faults.new name.now result }
{
    let text = prepare(alloc, faults, name)?;
    leave(alloc, files, keep, name, bytes)?;
    note(faults, text);
    Err(StoreError::Failed)
}

impl Store for MemStore {
    ghost use Rattle.outside_io.specs.Calls.{after_read, after_write};
    ghost use Rattle.outside_io.specs.Contents.{IsLongerThan};
    ghost use Rattle.outside_io.specs.FailPlans.{IsDue, Counts};
    ghost use Rattle.outside_io.specs.Memory.{store_view, store_plan, store_files, store_keep, failed_reads, failed_writes, IsAbsent, left_of};

    ghost tells = { true };

    ghost shown = { store_view };

    fn read(&mut self, alloc: Global, name: &str, limit: u64) -> Result<Vec<u8>, StoreError>
        ensures due { IsDue (store_plan self.old) → IsErr result }
        ensures due_as_failed { IsDue (store_plan self.old) → ¬ (IsErrOf result StoreError.TooLong) }
        ensures refused { IsErrOf result StoreError.Failed → IsDue (store_plan self.old) ⊎ IsAbsent self.old name.now }
        ensures counted { Counts (store_plan self.old) (store_plan self.new) }
        ensures keep_stays { store_keep self.new ≡ store_keep self.old }
        ensures recorded { (store_view self.new).asked ≡ after_read (store_view self.old).asked name.now result }
        ensures bytes { IfOk result (λ v. (store_view self.old).files name.now ≡ Some v.items) }
        ensures within_limit { IfOk result (λ v. length v.items ≤ limit) }
        ensures took_them { IfOk result (λ v. (store_view self.new).taken ≡ length v.items) }
        ensures too_long { IsErrOf result StoreError.TooLong ↔ (limit < (store_view self.new).taken) }
        ensures one_more_at_most { (store_view self.new).taken ≤ limit + 1 }
        ensures fault_takes_none { IsErrOf result StoreError.Failed → (store_view self.new).taken ≡ 0 }
        ensures longer { IsErrOf result StoreError.TooLong → IsLongerThan limit ((store_view self.old).files name.now) }
        ensures cause { IsErrOf result StoreError.Failed
            → Rose ((store_view self.old).read_faults name.now) ((store_view self.new).read_faults name.now) }
        ensures files_stay { store_files self.new ≡ store_files self.old }
        ensures read_faults_stay { OnOk result
            (SameFaults (store_view self.old).read_faults (store_view self.new).read_faults) }
        ensures read_faults_stay_or_rise { NeverFall (store_view self.old).read_faults
            (store_view self.new).read_faults }
        ensures write_faults_stay { failed_writes self.new ≡ failed_writes self.old }
        ensures read_faults_rise_by_one { RiseByOneAtMost (store_view self.old).read_faults
            (store_view self.new).read_faults }
        ensures memory_is_no_read_fault { IsErrOf result StoreError.NoMemory
            → SameFaults (store_view self.old).read_faults (store_view self.new).read_faults }
    {
        self.taken = 0;
        let is_due = self.plan.next();
        match readable(&self.files, name, is_due) {
            Some(bytes) => {
                let answer = copy_to_limit(alloc, bytes, limit, &mut self.taken);
                self.calls.note_read(name, answer)
            }
            None => {
                let answer = refuse(self.alloc, &mut self.failed_reads, name);
                self.calls.note_read(name, answer)
            }
        }
    }

    fn write(&mut self, name: &str, bytes: &[u8]) -> Result<(), StoreError>
        ensures due { IsDue (store_plan self.old) → IsErr result }
        ensures refused { IsErrOf result StoreError.Failed → IsDue (store_plan self.old) }
        ensures kept { IsErrOf result StoreError.Failed
            → (store_view self.new).files name.now ≡ left_of self.old name.now bytes.now }
        ensures counted { Counts (store_plan self.old) (store_plan self.new) }
        ensures keep_stays { store_keep self.new ≡ store_keep self.old }
        ensures recorded { (store_view self.new).asked
            ≡ after_write (store_view self.old).asked name.now bytes.now result }
        ensures written { OnOk result ((store_view self.new).files name.now ≡ Some bytes.now) }
        ensures others_stay { OthersStay true (store_view self.old).files (store_view self.new).files name.now }
        ensures torn { IsErrOf result StoreError.Failed
            → IsTorn ((store_view self.old).files name.now) ((store_view self.new).files name.now) bytes.now }
        ensures no_memory { IsErrOf result StoreError.NoMemory
            → SameFiles true (store_view self.old).files (store_view self.new).files }
        ensures never_too_long { ¬ (IsErrOf result StoreError.TooLong) }
        ensures cause { IsErrOf result StoreError.Failed
            → Rose ((store_view self.old).write_faults name.now) ((store_view self.new).write_faults name.now) }
        ensures taken_stays { (store_view self.new).taken ≡ (store_view self.old).taken }
        ensures read_faults_stay { failed_reads self.new ≡ failed_reads self.old }
        ensures write_faults_stay { OnOk result
            (SameFaults (store_view self.old).write_faults (store_view self.new).write_faults) }
        ensures write_faults_stay_or_rise { NeverFall (store_view self.old).write_faults
            (store_view self.new).write_faults }
        ensures write_faults_rise_by_one { RiseByOneAtMost (store_view self.old).write_faults
            (store_view self.new).write_faults }
        ensures memory_is_no_write_fault { IsErrOf result StoreError.NoMemory
            → SameFaults (store_view self.old).write_faults (store_view self.new).write_faults }
    {
        if self.plan.next() {
            let answer = break_off(
                self.alloc,
                &mut self.files,
                &mut self.failed_writes,
                self.keep,
                name,
                bytes,
            );
            return self.calls.note_write(name, bytes, answer);
        }
        let answer = give(self.alloc, &mut self.files, name, bytes);
        self.calls.note_write(name, bytes, answer)
    }
}
