//! Bytes that outlive a crash: each save goes into the older of two slots of a disk, and counts once its gate is open.
ghost use Rattle.std.specs.Prelude.{◌≡◌, ◌≤◌};
ghost use Rattle.crash_disk.specs.declared.slots.head.TheConstants.{MAX_ROOM};

mod error;
mod finding;
mod head;
mod saving;
mod target;

use crate::disk::Disk;
pub use error::SlotError;
pub use head::MAX_ROOM;
use head::{HEAD_BYTES, newer, read_heads};
use saving::save_content;
use std::alloc::Global;

/// A disk with two slots, of which one holds what was saved last. Each save goes into the other one, so a crash at any
/// moment leaves what was saved before or what is being saved.
#[derive(Drop)]
pub struct Slots<'a, D: Disk> {
    disk: &'a mut D,
    room: u64,
    ghost some: { 1 ≤ room },
    ghost at_most: { room ≤ MAX_ROOM },
}

impl<'a, D: Disk> Slots<'a, D> {
    ghost use Rattle.std.specs.Prelude.{◌↔◌, ◌<◌, ℕ, Ok, Err, Some, None, length, IsTrue, IfOk, OnOk, OnErr, IsErrOf};
    ghost use Rattle.crash_disk.specs.DiskView.{Stays, LeavesOnly, held_now};
    ghost use Rattle.crash_disk.specs.Crash.{IsOldOrNew, IsSaved, bytes_now};
    ghost use Rattle.crash_disk.specs.Layout.{content};
    ghost use Rattle.crash_disk.specs.Loads.{HasLoaded, items_of};
    ghost use Rattle.crash_disk.specs.SaveCalls.{HasSaved};
    ghost use Rattle.crash_disk.specs.Within.{OutsideStays};
    ghost use Rattle.crash_disk.specs.declared.slots.error.SlotError.TheVariants.{TooLong};
    ghost use Rattle.outside_io.specs.Faults.{Rose};

    /// The slots of this disk, each with this room for its content: 1 to 167,772,160 bytes. It takes no memory, and
    /// the disk is untouched.
    pub fn new(disk: &'a mut D, room: u64) -> Slots<'a, D>
        requires some { 1 ≤ room }
        requires at_most { room ≤ MAX_ROOM }
        ensures same_disk { result.disk.ghost_name ≡ disk.entry.ghost_name }
        ensures untouched { result.disk.now ≡ disk.old }
        ensures room { result.room ≡ room }
    {
        Slots { disk, room }
    }

    /// Saves bytes as the content. A crash at any moment leaves the content of an image that it might have left when
    /// the call began, or these bytes. After `Ok` every crash leaves these bytes.
    pub fn save(&mut self, alloc: Global, bytes: &[u8]) -> Result<(), SlotError>
        ensures same_disk { self.new.disk.ghost_name ≡ self.old.disk.ghost_name }
        ensures same_room { self.new.room ≡ self.old.room }
        ensures any_moment { IsTrue D.tells
            → LeavesOnly (D.shown self.old.disk.now) (D.shown self.new.disk.now)
            (IsOldOrNew (held_now (D.shown self.old.disk.now)) self.old.room bytes.now) }
        ensures saved { OnOk result (IsTrue D.tells
            → IsSaved (held_now (D.shown self.new.disk.now)) self.old.room bytes.now) }
        ensures outside_stays { OutsideStays D.tells self.old.room (D.shown self.old.disk.now)
            (D.shown self.new.disk.now) }
        ensures too_long { IsErrOf result (TooLong (length bytes.now))
            ↔ (self.old.room < length bytes.now) }
        ensures have { (have : ℕ) → IsErrOf result (TooLong have) → have ≡ length bytes.now }
        ensures untouched { self.old.room < length bytes.now
            → self.new.disk.now ≡ self.old.disk.now }
        ensures disk_fault { IsErrOf result SlotError.DiskFault
            → Rose (D.shown self.old.disk.now).faults (D.shown self.new.disk.now).faults }
        ensures never_none_saved { ¬ (IsErrOf result SlotError.NoneSaved) }
        ensures asks { length bytes.now ≤ self.old.room → HasSaved self.old.room bytes.now
            (D.shown self.old.disk.now) (D.shown self.new.disk.now) result }
        ensures faults_stay_or_rise { (D.shown self.old.disk.now).faults
            ≤ (D.shown self.new.disk.now).faults }
    {
        let have = bytes.len() as u64;
        if have > self.room {
            return Err(SlotError::TooLong { have });
        }
        Ok(save_content(self.disk, alloc, self.room, bytes)?)
    }

    /// The content that was saved last. It changes nothing.
    pub fn load(&mut self, alloc: Global) -> Result<Vec<u8>, SlotError>
        ensures same_disk { self.new.disk.ghost_name ≡ self.old.disk.ghost_name }
        ensures same_room { self.new.room ≡ self.old.room }
        ensures within_room { IfOk result (λ v. length v.items ≤ self.old.room) }
        ensures saved { IfOk result (λ v. IsTrue D.tells
            → content (bytes_now (D.shown self.old.disk.now)) self.old.room ≡ Some v.items) }
        ensures none_saved { IsErrOf result SlotError.NoneSaved → IsTrue D.tells
            → content (bytes_now (D.shown self.old.disk.now)) self.old.room ≡ None }
        ensures read { HasLoaded self.old.room (D.shown self.old.disk.now) (D.shown self.new.disk.now)
            (items_of result) }
        ensures stays { IsTrue D.tells
            → Stays (D.shown self.old.disk.now) (D.shown self.new.disk.now) }
        ensures disk_fault { IsErrOf result SlotError.DiskFault
            → Rose (D.shown self.old.disk.now).faults (D.shown self.new.disk.now).faults }
        ensures never_too_long { (have : ℕ) → ¬ (IsErrOf result (TooLong have)) }
        ensures faults_stay_or_rise { (D.shown self.old.disk.now).faults
            ≤ (D.shown self.new.disk.now).faults }
    {
        let (zero, one) = read_heads(self.disk, alloc, self.room)?;
        let Some((slot, head)) = newer(zero, one, self.room) else {
            return Err(SlotError::NoneSaved);
        };
        let start = slot.start(self.room) + HEAD_BYTES;
        Ok(self.disk.read(alloc, start, head.length as u32)?)
    }
}
