ghost use Rattle.std.specs.Prelude.{◌≡◌, ◌+◌, ◌-◌, ◌^◌, ◌≤◌, ◌↔◌, ◌++◌, [], length, map, min, not, is_ok, IsTrue, IfOk, OnOk, OnErr, IsErrOf};
ghost use Rattle.crash_disk.specs.Counted.{CountsFault};
ghost use Rattle.crash_disk.specs.Memory.{span_of, after_call, left_by, spans_left};
ghost use Rattle.outside_io.specs.Faults.{Rose, RoseByOne};

use crate::asked::{AskLog, note_read, note_sync, note_write};
use crate::disk::{DISK_END, Disk, DiskError};
use crate::patch::{
    Copied, DiskCall, Patch, byte_after, byte_of, copy_patches, copy_writes, in_effect,
    settled_count,
};
use std::alloc::{AllocError, Global};

/// A disk in memory, zeros at first. It keeps each call but those that found no memory, so it can tell what a crash
/// during one may leave. Calls whose numbers among these, from 1, are on a list fail.
#[derive(Drop)]
pub struct MemDisk {
    alloc: Global,
    first: Vec<Patch>,
    calls: Vec<DiskCall>,
    failing: Vec<u32>,
    faults: u64,
    asked: AskLog,
}

impl MemDisk {
    ghost use Rattle.std.specs.Prelude.{IsErr};
    ghost use Rattle.crash_disk.specs.DiskView.{MayLeave, Passes, Torn, after_write, bytes_at, held_now};
    ghost use Rattle.crash_disk.specs.MemDisk.{mem_view, IsDue, Counts, CountsWrite, CountsNone, held_during, crash_image};

    /// A disk of zeros. The calls whose numbers, from 1, are in `failing` fail. It takes no memory.
    pub fn new(alloc: Global, failing: Vec<u32>) -> MemDisk
        ensures nothing_written { result.first.items ≡ [] }
        ensures no_call { result.calls.items ≡ [] }
        ensures failing { result.failing.items ≡ failing.items }
        ensures no_fault { result.faults ≡ 0 }
        ensures nothing_asked { (mem_view result).asked ≡ [] }
    {
        MemDisk {
            alloc,
            first: Vec::new(alloc),
            calls: Vec::new(alloc),
            failing,
            faults: 0,
            asked: AskLog::new(),
        }
    }

    /// How many calls the disk got, those that failed too, but not those that found no memory. It takes no memory.
    pub fn calls(&self) -> u32
        ensures { result ≡ min (length self.now.calls.items) (2 ^ 32 - 1) }
    {
        u32::try_from(self.calls.len()).unwrap_or(u32::MAX)
    }

    /// A disk as a crash during the call of this number, from 1, may leave it, or at 0 a crash before the first. Where
    /// a byte was written and no sync made it stable, it is the one before the write at pick 0, the one that was
    /// written at 1, and 255 at 2. The disk never fails.
    pub fn crash(&self, call: u32, pick: u8) -> Result<MemDisk, AllocError>
        requires made { call ≤ length self.now.calls.items }
        requires pick { pick ≤ 2 }
        ensures image { IfOk result
            (λ disk. (held_now (mem_view disk)).bytes ≡ crash_image self.now call pick) }
        ensures may_be_left { IfOk result (λ disk.
            MayLeave (held_during self.now call) (held_now (mem_view disk)).bytes) }
        ensures no_call { IfOk result (λ disk. disk.calls.items ≡ []) }
        ensures never_fails { IfOk result (λ disk. disk.failing.items ≡ []) }
    {
        let made = &self.calls[..call as usize];
        let made = &made[..in_effect(made)];
        Ok(MemDisk {
            alloc: self.alloc,
            first: patches_left(self.alloc, &self.first, made, pick)?,
            calls: Vec::new(self.alloc),
            failing: Vec::new(self.alloc),
            faults: 0,
            asked: AskLog::new(),
        })
    }

    /// Whether the next call is to fail.
    fn is_due(&self) -> bool
        ensures { IsTrue result ↔ IsDue self.now }
    {
        let number = self.calls.len() as u64 + 1;
        self.failing.iter().any(|n| u64::from(*n) == number)
    }

    /// The bytes from an address on.
    fn bytes_at(&self, alloc: Global, at: u64, len: u32) -> Result<Vec<u8>, AllocError>
        requires { at + len ≤ DISK_END }
        ensures { IfOk result
            (λ v. v.items ≡ bytes_at (held_now (mem_view self.now)).bytes at len) }
    {
        let mut bytes = Vec::with_capacity(alloc, len as usize)?;
        for i in 0..u64::from(len) {
            let first = byte_of(&self.first, at + i);
            bytes.push(byte_after(first, &self.calls, at + i))?;
        }
        Ok(bytes)
    }

    /// What a read answers, which isn't noted.
    fn answer_read(&mut self, alloc: Global, at: u64, len: u32) -> Result<Vec<u8>, DiskError>
        requires inside { at + len ≤ DISK_END }
        ensures asked_stays { (mem_view self.new).asked ≡ (mem_view self.old).asked }
        ensures due { IsDue self.old → IsErr result }
        ensures refused { IsErrOf result DiskError.Failed → IsDue self.old }
        ensures failing_stays { self.new.failing.items ≡ self.old.failing.items }
        ensures counted { ¬ (IsErrOf result DiskError.NoMemory)
            → Counts self.old self.new DiskCall.Read }
        ensures not_counted { IsErrOf result DiskError.NoMemory → CountsNone self.old self.new }
        ensures count { IfOk result (λ v. length v.items ≡ len) }
        ensures bytes { IfOk result
            (λ v. v.items ≡ bytes_at (held_now (mem_view self.old)).bytes at len) }
        ensures stays { held_now (mem_view self.new) ≡ held_now (mem_view self.old) }
        ensures time { Passes (mem_view self.old) (mem_view self.new) }
        ensures faults { CountsFault self.old.faults self.new.faults result }
    {
        let failed = self.is_due();
        let bytes = self.bytes_at(alloc, at, len)?;
        self.count_call(DiskCall::Read, failed)?;
        Ok(bytes)
    }

    /// What a write answers, which isn't noted.
    fn answer_write(&mut self, at: u64, bytes: &[u8]) -> Result<(), DiskError>
        requires inside { at + length bytes.now ≤ DISK_END }
        ensures asked_stays { (mem_view self.new).asked ≡ (mem_view self.old).asked }
        ensures due { IsDue self.old → IsErr result }
        ensures refused { IsErrOf result DiskError.Failed → IsDue self.old }
        ensures failing_stays { self.new.failing.items ≡ self.old.failing.items }
        ensures counted { ¬ (IsErrOf result DiskError.NoMemory)
            → CountsWrite self.old self.new at bytes.now (is_ok result) }
        ensures not_counted { IsErrOf result DiskError.NoMemory → CountsNone self.old self.new }
        ensures written { OnOk result (held_now (mem_view self.new)
            ≡ after_write (held_now (mem_view self.old)) at bytes.now) }
        ensures torn { IsErrOf result DiskError.Failed
            → Torn (held_now (mem_view self.old)) (held_now (mem_view self.new)) at (length bytes.now) }
        ensures no_memory { IsErrOf result DiskError.NoMemory
            → held_now (mem_view self.new) ≡ held_now (mem_view self.old) }
        ensures time { Passes (mem_view self.old) (mem_view self.new) }
        ensures faults { CountsFault self.old.faults self.new.faults result }
    {
        let failed = self.is_due();
        let patch = Patch {
            at,
            bytes: bytes.to_vec(self.alloc)?,
        };
        let done = !failed;
        self.count_call(DiskCall::Write { patch, done }, failed)
    }

    /// Counts a call that found memory, and a fault where it failed.
    fn count_call(&mut self, call: DiskCall, failed: bool) -> Result<(), DiskError>
        ensures failed { IsErrOf result DiskError.Failed → IsTrue failed }
        ensures due { IsTrue failed → IsErr result }
        ensures asked_stays { (mem_view self.new).asked ≡ (mem_view self.old).asked }
        ensures failing_stays { self.new.failing.items ≡ self.old.failing.items }
        ensures counted { ¬ (IsErrOf result DiskError.NoMemory) → Counts self.old self.new call }
        ensures not_counted { IsErrOf result DiskError.NoMemory → CountsNone self.old self.new }
        ensures done_unless_failed { ¬ (IsErrOf result DiskError.NoMemory) → not failed ≡ is_ok result }
        ensures held { ¬ (IsErrOf result DiskError.NoMemory)
            → held_now (mem_view self.new) ≡ after_call (held_now (mem_view self.old)) call }
        ensures no_memory { IsErrOf result DiskError.NoMemory
            → held_now (mem_view self.new) ≡ held_now (mem_view self.old) }
        ensures time { Passes (mem_view self.old) (mem_view self.new) }
        ensures faults { CountsFault self.old.faults self.new.faults result }
    {
        self.calls.push(call)?;
        answer(&mut self.faults, failed)
    }
}

/// Adds what a crash leaves of writes that no sync made stable.
fn copy_left(
    alloc: Global,
    patches: &mut Vec<Patch>,
    calls: &[DiskCall],
    pick: u8,
) -> Result<(), AllocError>
    requires { pick ≤ 2 }
    ensures { OnOk result (map span_of patches.new.items
        ≡ map span_of patches.old.items ++ left_by pick calls.now) }
{
    match pick {
        0 => Ok(()),
        1 => copy_writes(alloc, patches, calls, Copied::Asked),
        _ => copy_writes(alloc, patches, calls, Copied::Torn),
    }
}

/// What a crash leaves after these calls: what was there at first, what a sync made stable, and what is left of the
/// rest.
fn patches_left(
    alloc: Global,
    first: &[Patch],
    made: &[DiskCall],
    pick: u8,
) -> Result<Vec<Patch>, AllocError>
    requires { pick ≤ 2 }
    ensures { IfOk result (λ v. map span_of v.items ≡ spans_left first.now made.now pick) }
{
    let (stable, pending) = made.split_at(settled_count(made));
    let mut patches = copy_patches(alloc, first)?;
    copy_writes(alloc, &mut patches, stable, Copied::Done)?;
    copy_left(alloc, &mut patches, pending, pick)?;
    Ok(patches)
}

/// The answer of a call, where a failure is counted.
fn answer(faults: &mut u64, failed: bool) -> Result<(), DiskError>
    ensures failed { IsTrue failed ↔ IsErrOf result DiskError.Failed }
    ensures never_no_memory { ¬ (IsErrOf result DiskError.NoMemory) }
    ensures cause { IsErrOf result DiskError.Failed → Rose faults.old faults.new }
    ensures once { IsErrOf result DiskError.Failed → RoseByOne faults.old faults.new }
    ensures stays { OnOk result (faults.new ≡ faults.old) }
    ensures faults_stay_or_rise { faults.old ≤ faults.new }
{
    if failed {
        *faults = faults.saturating_add(1);
        return Err(DiskError::Failed);
    }
    Ok(())
}

impl Disk for MemDisk {
    ghost use Rattle.std.specs.Prelude.{true, IsErr, ◌∷◌};
    ghost use Rattle.crash_disk.specs.DiskView.{Passes, Torn, disk_read, disk_write, disk_sync, held_now, after_write, synced_file, bytes_at};
    ghost use Rattle.crash_disk.specs.MemDisk.{mem_view, IsDue, Counts, CountsWrite, CountsNone};

    ghost tells = { true };

    ghost shown = { mem_view };

    fn read(&mut self, alloc: Global, at: u64, len: u32) -> Result<Vec<u8>, DiskError>
        requires inside { at + len ≤ DISK_END }
        ensures recorded { (mem_view self.new).asked ≡ (mem_view self.old).asked ++ disk_read at len result ∷ [] }
        ensures due { IsDue self.old → IsErr result }
        ensures refused { IsErrOf result DiskError.Failed → IsDue self.old }
        ensures failing_stays { self.new.failing.items ≡ self.old.failing.items }
        ensures counted { ¬ (IsErrOf result DiskError.NoMemory)
            → Counts self.old self.new DiskCall.Read }
        ensures not_counted { IsErrOf result DiskError.NoMemory → CountsNone self.old self.new }
        ensures count { IfOk result (λ v. length v.items ≡ len) }
        ensures bytes { IfOk result
            (λ v. v.items ≡ bytes_at (held_now (mem_view self.old)).bytes at len) }
        ensures stays { held_now (mem_view self.new) ≡ held_now (mem_view self.old) }
        ensures time { Passes (mem_view self.old) (mem_view self.new) }
        ensures cause { IsErrOf result DiskError.Failed → Rose self.old.faults self.new.faults }
        ensures once { IsErrOf result DiskError.Failed → RoseByOne self.old.faults self.new.faults }
        ensures memory_is_no_fault { IsErrOf result DiskError.NoMemory → self.new.faults ≡ self.old.faults }
        ensures faults_stay { OnOk result (self.new.faults ≡ self.old.faults) }
        ensures faults_stay_or_rise { self.old.faults ≤ self.new.faults }
    {
        let answer = self.answer_read(alloc, at, len);
        note_read(&mut self.asked, at, len, answer)
    }

    fn write_at(&mut self, at: u64, bytes: &[u8]) -> Result<(), DiskError>
        requires inside { at + length bytes.now ≤ DISK_END }
        ensures recorded { (mem_view self.new).asked
            ≡ (mem_view self.old).asked ++ disk_write at bytes.now result ∷ [] }
        ensures due { IsDue self.old → IsErr result }
        ensures refused { IsErrOf result DiskError.Failed → IsDue self.old }
        ensures failing_stays { self.new.failing.items ≡ self.old.failing.items }
        ensures counted { ¬ (IsErrOf result DiskError.NoMemory)
            → CountsWrite self.old self.new at bytes.now (is_ok result) }
        ensures not_counted { IsErrOf result DiskError.NoMemory → CountsNone self.old self.new }
        ensures written { OnOk result (held_now (mem_view self.new)
            ≡ after_write (held_now (mem_view self.old)) at bytes.now) }
        ensures torn { IsErrOf result DiskError.Failed
            → Torn (held_now (mem_view self.old)) (held_now (mem_view self.new)) at
            (length bytes.now) }
        ensures no_memory { IsErrOf result DiskError.NoMemory
            → held_now (mem_view self.new) ≡ held_now (mem_view self.old) }
        ensures time { Passes (mem_view self.old) (mem_view self.new) }
        ensures cause { IsErrOf result DiskError.Failed → Rose self.old.faults self.new.faults }
        ensures once { IsErrOf result DiskError.Failed → RoseByOne self.old.faults self.new.faults }
        ensures memory_is_no_fault { IsErrOf result DiskError.NoMemory → self.new.faults ≡ self.old.faults }
        ensures faults_stay { OnOk result (self.new.faults ≡ self.old.faults) }
        ensures faults_stay_or_rise { self.old.faults ≤ self.new.faults }
    {
        let answer = self.answer_write(at, bytes);
        note_write(&mut self.asked, at, bytes, &answer);
        answer
    }

    fn sync(&mut self) -> Result<(), DiskError>
        ensures recorded { (mem_view self.new).asked ≡ (mem_view self.old).asked ++ disk_sync result ∷ [] }
        ensures due { IsDue self.old → IsErr result }
        ensures refused { IsErrOf result DiskError.Failed → IsDue self.old }
        ensures failing_stays { self.new.failing.items ≡ self.old.failing.items }
        ensures counted { ¬ (IsErrOf result DiskError.NoMemory)
            → Counts self.old self.new (DiskCall.Sync (is_ok result)) }
        ensures not_counted { IsErrOf result DiskError.NoMemory → CountsNone self.old self.new }
        ensures synced { OnOk result
            (held_now (mem_view self.new) ≡ synced_file (held_now (mem_view self.old))) }
        ensures stays { OnErr result (held_now (mem_view self.new) ≡ held_now (mem_view self.old)) }
        ensures time { Passes (mem_view self.old) (mem_view self.new) }
        ensures cause { IsErrOf result DiskError.Failed → Rose self.old.faults self.new.faults }
        ensures once { IsErrOf result DiskError.Failed → RoseByOne self.old.faults self.new.faults }
        ensures memory_is_no_fault { IsErrOf result DiskError.NoMemory → self.new.faults ≡ self.old.faults }
        ensures faults_stay { OnOk result (self.new.faults ≡ self.old.faults) }
        ensures faults_stay_or_rise { self.old.faults ≤ self.new.faults }
    {
        let failed = self.is_due();
        let answer = self.count_call(DiskCall::Sync { done: !failed }, failed);
        note_sync(&mut self.asked, &answer);
        answer
    }
}
