ghost use Rattle.std.specs.Prelude.{◌≡◌, ◌+◌, ◌≤◌, ◌++◌, ◌∷◌, [], ℕ, Bool, length, IsTrue, IfOk, OnOk, OnErr, IsErrOf};
ghost use Rattle.crash_disk.specs.DiskView.{DiskView, Passes, Torn, disk_read, disk_write, disk_sync, held_now, after_write, synced_file, bytes_at};
ghost use Rattle.crash_disk.specs.declared.disk.DiskError.{DiskError};
ghost use Rattle.outside_io.specs.Faults.{Rose, RoseByOne};

use std::alloc::{AllocError, AllocFailed, Global};
use thiserror::Error;

/// The end of a disk: every byte that is read or written lies below it.
pub const DISK_END: u64 = 1 << 40;

/// Why a call of a disk gave up.
#[derive(Clone, Copy, Debug, PartialEq, Eq, Error)]
pub enum DiskError {
    /// The outside refused; the count of faults rose.
    #[error("the disk failed")]
    Failed,
    /// There was no memory for it, and the disk is as before.
    #[error("out of memory")]
    NoMemory,
}

impl From<AllocError> for DiskError {
    ghost from_gives = { λ _ e. e ≡ DiskError.NoMemory };

    fn from(_: AllocError) -> Self {
        DiskError::NoMemory
    }
}

impl<T: Drop> From<AllocFailed<T>> for DiskError {
    ghost from_gives = { λ _ e. e ≡ DiskError.NoMemory };

    fn from(_: AllocFailed<T>) -> Self {
        DiskError::NoMemory
    }
}

/// Bytes by their addresses, which outlive a crash once they are synced. Until then a crash may leave any bytes where
/// something was written since the last sync that succeeded, and leaves every other byte as it is.
pub trait Disk {
    /// Whether what the disk holds is known. Over a real file it isn't, and clauses on contents then say nothing.
    ghost tells: { Bool };

    /// What the disk holds now and held at each moment before, how often calls have failed, and every call with its
    /// answer.
    ghost shown: { Self → DiskView };

    /// As many bytes as are asked for, from an address on. A byte that was never written is 0.
    fn read(&mut self, alloc: Global, at: u64, len: u32) -> Result<Vec<u8>, DiskError>
        requires inside { at + len ≤ DISK_END }
        ensures recorded { (shown self.new).asked ≡ (shown self.old).asked ++ disk_read at len result ∷ [] }
        ensures count { IfOk result (λ v. length v.items ≡ len) }
        ensures bytes { IfOk result
            (λ v. IsTrue tells → v.items ≡ bytes_at (held_now (shown self.old)).bytes at len) }
        ensures stays { IsTrue tells → held_now (shown self.new) ≡ held_now (shown self.old) }
        ensures time { IsTrue tells → Passes (shown self.old) (shown self.new) }
        ensures cause { IsErrOf result DiskError.Failed
            → Rose (shown self.old).faults (shown self.new).faults }
        ensures once { IsErrOf result DiskError.Failed
            → RoseByOne (shown self.old).faults (shown self.new).faults }
        ensures memory_is_no_fault { IsErrOf result DiskError.NoMemory
            → (shown self.new).faults ≡ (shown self.old).faults }
        ensures faults_stay { OnOk result ((shown self.new).faults ≡ (shown self.old).faults) }
        ensures faults_stay_or_rise { (shown self.old).faults ≤ (shown self.new).faults };

    /// Writes bytes from an address on. Until a sync succeeds, a crash may leave any bytes there. After `Failed` a read
    /// may give any bytes there too.
    fn write_at(&mut self, at: u64, bytes: &[u8]) -> Result<(), DiskError>
        requires inside { at + length bytes.now ≤ DISK_END }
        ensures recorded { (shown self.new).asked ≡ (shown self.old).asked ++ disk_write at bytes.now result ∷ [] }
        ensures written { OnOk result (IsTrue tells
            → held_now (shown self.new) ≡ after_write (held_now (shown self.old)) at bytes.now) }
        ensures torn { IsErrOf result DiskError.Failed → IsTrue tells
            → Torn (held_now (shown self.old)) (held_now (shown self.new)) at (length bytes.now) }
        ensures no_memory { IsErrOf result DiskError.NoMemory → IsTrue tells
            → held_now (shown self.new) ≡ held_now (shown self.old) }
        ensures time { IsTrue tells → Passes (shown self.old) (shown self.new) }
        ensures cause { IsErrOf result DiskError.Failed
            → Rose (shown self.old).faults (shown self.new).faults }
        ensures once { IsErrOf result DiskError.Failed
            → RoseByOne (shown self.old).faults (shown self.new).faults }
        ensures memory_is_no_fault { IsErrOf result DiskError.NoMemory
            → (shown self.new).faults ≡ (shown self.old).faults }
        ensures faults_stay { OnOk result ((shown self.new).faults ≡ (shown self.old).faults) }
        ensures faults_stay_or_rise { (shown self.old).faults ≤ (shown self.new).faults };

    /// Makes all that was written durable. From then on a crash leaves what a read gives.
    fn sync(&mut self) -> Result<(), DiskError>
        ensures recorded { (shown self.new).asked ≡ (shown self.old).asked ++ disk_sync result ∷ [] }
        ensures synced { OnOk result (IsTrue tells
            → held_now (shown self.new) ≡ synced_file (held_now (shown self.old))) }
        ensures stays { OnErr result
            (IsTrue tells → held_now (shown self.new) ≡ held_now (shown self.old)) }
        ensures time { IsTrue tells → Passes (shown self.old) (shown self.new) }
        ensures cause { IsErrOf result DiskError.Failed
            → Rose (shown self.old).faults (shown self.new).faults }
        ensures once { IsErrOf result DiskError.Failed
            → RoseByOne (shown self.old).faults (shown self.new).faults }
        ensures memory_is_no_fault { IsErrOf result DiskError.NoMemory
            → (shown self.new).faults ≡ (shown self.old).faults }
        ensures faults_stay { OnOk result ((shown self.new).faults ≡ (shown self.old).faults) }
        ensures faults_stay_or_rise { (shown self.old).faults ≤ (shown self.new).faults };
}
