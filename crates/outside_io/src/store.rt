ghost use Rattle.std.specs.Prelude.{◌≡◌, ◌<◌, ◌≤◌, ◌↔◌, ◌+◌, Bool, Some, length, IsTrue, IfOk, OnOk, IsErrOf};
ghost use Rattle.outside_io.specs.Calls.{after_read, after_write};
ghost use Rattle.outside_io.specs.Contents.{SameFiles, OthersStay, IsTorn, IsLongerThan};
ghost use Rattle.outside_io.specs.Faults.{Rose, NeverFall, RiseByOneAtMost, SameFaults};
ghost use Rattle.outside_io.specs.StoreView.{StoreView};
ghost use Rattle.outside_io.specs.declared.store.StoreError.{StoreError};

use std::alloc::{AllocError, Global};
use thiserror::Error;

/// Why a call of a store gave up.
#[derive(Clone, Copy, Debug, PartialEq, Eq, Error)]
pub enum StoreError {
    /// The outside refused; the count of faults of that file and kind rose.
    #[error("the store failed")]
    Failed,
    /// More bytes than the limit were taken from the file.
    #[error("the file is longer than the limit")]
    TooLong,
    /// There was no memory for it, and every file is as before.
    #[error("out of memory")]
    NoMemory,
}

impl From<AllocError> for StoreError {
    ghost from_gives = { λ _ e. e ≡ StoreError.NoMemory };

    fn from(_: AllocError) -> Self {
        StoreError::NoMemory
    }
}

/// Files by name, each read and written whole.
pub trait Store {
    /// Whether what the files hold is known. Over real files it isn't, and clauses on contents then
    /// say nothing.
    ghost tells: { Bool };

    /// What the files hold, how often calls have failed, what the last read took, and every call with its answer.
    ghost shown: { Self → StoreView };

    /// The bytes of a file, at most `limit` of them.
    fn read(&mut self, alloc: Global, name: &str, limit: u64) -> Result<Vec<u8>, StoreError>
        ensures recorded { (shown self.new).asked ≡ after_read (shown self.old).asked name.now result }
        ensures bytes { IfOk result (λ v. IsTrue tells → (shown self.old).files name.now ≡ Some v.items) }
        ensures within_limit { IfOk result (λ v. length v.items ≤ limit) }
        ensures took_them { IfOk result (λ v. (shown self.new).taken ≡ length v.items) }
        ensures too_long { IsErrOf result StoreError.TooLong ↔ (limit < (shown self.new).taken) }
        ensures one_more_at_most { (shown self.new).taken ≤ limit + 1 }
        ensures longer { IsErrOf result StoreError.TooLong → IsTrue tells
            → IsLongerThan limit ((shown self.old).files name.now) }
        ensures cause { IsErrOf result StoreError.Failed
            → Rose ((shown self.old).read_faults name.now) ((shown self.new).read_faults name.now) }
        ensures files_stay { SameFiles tells (shown self.old).files (shown self.new).files }
        ensures read_faults_stay { OnOk result
            (SameFaults (shown self.old).read_faults (shown self.new).read_faults) }
        ensures write_faults_stay { OnOk result
            (SameFaults (shown self.old).write_faults (shown self.new).write_faults) }
        ensures read_faults_stay_or_rise { NeverFall (shown self.old).read_faults (shown self.new).read_faults }
        ensures write_faults_stay_or_rise { NeverFall (shown self.old).write_faults (shown self.new).write_faults }
        ensures read_faults_rise_by_one { RiseByOneAtMost (shown self.old).read_faults (shown self.new).read_faults }
        ensures write_faults_rise_by_one { RiseByOneAtMost (shown self.old).write_faults (shown self.new).write_faults }
        ensures memory_is_no_read_fault { IsErrOf result StoreError.NoMemory
            → SameFaults (shown self.old).read_faults (shown self.new).read_faults }
        ensures memory_is_no_write_fault { IsErrOf result StoreError.NoMemory
            → SameFaults (shown self.old).write_faults (shown self.new).write_faults };

    /// Gives a file these bytes, whether it was there or not. After `Failed` it may hold a prefix of
    /// them.
    fn write(&mut self, name: &str, bytes: &[u8]) -> Result<(), StoreError>
        ensures recorded { (shown self.new).asked
            ≡ after_write (shown self.old).asked name.now bytes.now result }
        ensures written { OnOk result (IsTrue tells → (shown self.new).files name.now ≡ Some bytes.now) }
        ensures others_stay { OthersStay tells (shown self.old).files (shown self.new).files name.now }
        ensures torn { IsErrOf result StoreError.Failed → IsTrue tells
            → IsTorn ((shown self.old).files name.now) ((shown self.new).files name.now) bytes.now }
        ensures no_memory { IsErrOf result StoreError.NoMemory
            → SameFiles tells (shown self.old).files (shown self.new).files }
        ensures never_too_long { ¬ (IsErrOf result StoreError.TooLong) }
        ensures cause { IsErrOf result StoreError.Failed
            → Rose ((shown self.old).write_faults name.now) ((shown self.new).write_faults name.now) }
        ensures taken_stays { (shown self.new).taken ≡ (shown self.old).taken }
        ensures read_faults_stay { OnOk result
            (SameFaults (shown self.old).read_faults (shown self.new).read_faults) }
        ensures write_faults_stay { OnOk result
            (SameFaults (shown self.old).write_faults (shown self.new).write_faults) }
        ensures read_faults_stay_or_rise { NeverFall (shown self.old).read_faults (shown self.new).read_faults }
        ensures write_faults_stay_or_rise { NeverFall (shown self.old).write_faults (shown self.new).write_faults }
        ensures read_faults_rise_by_one { RiseByOneAtMost (shown self.old).read_faults (shown self.new).read_faults }
        ensures write_faults_rise_by_one { RiseByOneAtMost (shown self.old).write_faults (shown self.new).write_faults }
        ensures memory_is_no_read_fault { IsErrOf result StoreError.NoMemory
            → SameFaults (shown self.old).read_faults (shown self.new).read_faults }
        ensures memory_is_no_write_fault { IsErrOf result StoreError.NoMemory
            → SameFaults (shown self.old).write_faults (shown self.new).write_faults };
}
