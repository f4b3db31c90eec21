//! What a save writes, in three parts, each of which says what a crash leaves while it runs; and the save of them.
ghost use Rattle.std.specs.Int.{w64, to_be_bytes};
ghost use Rattle.std.specs.Prelude.{◌≡◌, ◌⊎◌, ◌∷◌, ◌+◌, ◌≤◌, Some, length, IsTrue, IfOk, OnOk, IsErrOf};
ghost use Rattle.crash_disk.specs.DiskView.{MayLeave, LeavesOnly, held_now};
ghost use Rattle.crash_disk.specs.Crash.{TellsGate, IsSettled, IsClosed, IsStaged, IsReady, IsSaved, IsKeptOrNew, bytes_now, staged_in};
ghost use Rattle.crash_disk.specs.Layout.{head_at, newer_head, start_of, content, target_by};
ghost use Rattle.crash_disk.specs.SaveCalls.{Asks, WritesGate, ClosesGate, WritesContent, OpensGate};
ghost use Rattle.crash_disk.specs.Saving.{IsHarmless, SavesContent};
ghost use Rattle.crash_disk.specs.Within.{WritesWithin, OutsideStays};
ghost use Rattle.outside_io.specs.Faults.{Rose};

use super::finding::find_target;
use super::head::{HEAD_BYTES, MAX_ROOM, OPEN, Slot};
use super::target::Target;
use crate::disk::{Disk, DiskError};
use std::alloc::Global;

/// The gate of a slot that is not open.
const CLOSED: u8 = 0;

/// What a part of a save answers.
type Outcome = Result<(), DiskError>;

/// Writes the gate of a slot, and makes it durable. Nothing else is written.
fn write_gate<D: Disk>(disk: &mut D, room: u64, slot: Slot, gate: u8) -> Outcome
    requires room { room ≤ MAX_ROOM }
    requires settled { IsTrue D.tells → IsSettled (held_now (D.shown disk.old)) }
    ensures within { IsTrue D.tells
        → WritesWithin (start_of room slot) 1 (D.shown disk.old) (D.shown disk.new) }
    ensures stands { OnOk result (IsTrue D.tells → IsSettled (held_now (D.shown disk.new))) }
    ensures gate { OnOk result
        (IsTrue D.tells → bytes_now (D.shown disk.new) (start_of room slot) ≡ gate) }
    ensures cause { IsErrOf result DiskError.Failed
        → Rose (D.shown disk.old).faults (D.shown disk.new).faults }
    ensures faults_stay_or_rise { (D.shown disk.old).faults ≤ (D.shown disk.new).faults }
    ensures asks { Asks (D.shown disk.old) (D.shown disk.new)
        (λ calls. WritesGate (start_of room slot) gate calls result) }
{
    disk.write_at(slot.start(room), &[gate])?;
    disk.sync()
}

/// Closes the gate of the target where it is open. A crash leaves the content as it is.
fn close_gate<D: Disk>(disk: &mut D, room: u64, target: Target) -> Outcome
    requires room { room ≤ MAX_ROOM }
    requires ready { IsTrue D.tells → IsReady (D.shown disk.old) room target }
    requires gate { IsTrue D.tells → TellsGate (bytes_now (D.shown disk.old)) room target }
    ensures harmless { IsHarmless D.tells room (D.shown disk.old) (D.shown disk.new) }
    ensures ready { OnOk result (IsTrue D.tells → IsReady (D.shown disk.new) room target) }
    ensures closed { OnOk result
        (IsTrue D.tells → IsClosed (bytes_now (D.shown disk.new)) room target) }
    ensures closed_by_zero { OnOk result (IsTrue target.gate_is_open → IsTrue D.tells
        → bytes_now (D.shown disk.new) (start_of room target.slot) ≡ 0) }
    ensures cause { IsErrOf result DiskError.Failed
        → Rose (D.shown disk.old).faults (D.shown disk.new).faults }
    ensures faults_stay_or_rise { (D.shown disk.old).faults ≤ (D.shown disk.new).faults }
    ensures asks { Asks (D.shown disk.old) (D.shown disk.new) (λ calls. ClosesGate room target calls result) }
{
    if !target.gate_is_open {
        return Ok(());
    }
    write_gate(disk, room, target.slot, CLOSED)
}

/// The number and the length of a content, as they stand behind the gate.
fn number_and_length(number: u8, length: u64) -> [u8; 9]
    ensures { result ≡ number ∷ to_be_bytes w64 length }
{
    let [a, b, c, d, e, f, g, h] = length.to_be_bytes();
    [number, a, b, c, d, e, f, g, h]
}

/// Writes the number, the length and the content behind the closed gate. A crash leaves the content as it is.
fn write_content<D: Disk>(disk: &mut D, room: u64, target: Target, bytes: &[u8]) -> Outcome
    requires room { room ≤ MAX_ROOM }
    requires fits { length bytes.now ≤ room }
    requires ready { IsTrue D.tells → IsReady (D.shown disk.old) room target }
    requires closed { IsTrue D.tells → IsClosed (bytes_now (D.shown disk.old)) room target }
    ensures harmless { IsHarmless D.tells room (D.shown disk.old) (D.shown disk.new) }
    ensures ready { OnOk result (IsTrue D.tells → IsReady (D.shown disk.new) room target) }
    ensures staged { OnOk result
        (IsTrue D.tells → IsStaged (bytes_now (D.shown disk.new)) room target bytes.now) }
    ensures cause { IsErrOf result DiskError.Failed
        → Rose (D.shown disk.old).faults (D.shown disk.new).faults }
    ensures faults_stay_or_rise { (D.shown disk.old).faults ≤ (D.shown disk.new).faults }
    ensures asks { Asks (D.shown disk.old) (D.shown disk.new)
        (λ calls. WritesContent room target bytes.now calls result) }
{
    let start = target.slot.start(room);
    disk.write_at(
        start + 1,
        &number_and_length(target.number, bytes.len() as u64),
    )?;
    disk.write_at(start + HEAD_BYTES, bytes)?;
    disk.sync()
}

/// Opens the gate before what was written. A crash leaves the content as it was, or what was written; after `Ok` it
/// leaves the latter.
fn open_gate<D: Disk>(disk: &mut D, room: u64, target: Target) -> Outcome
    requires room { room ≤ MAX_ROOM }
    requires ready { IsTrue D.tells → IsReady (D.shown disk.old) room target }
    requires staged { IsTrue D.tells → IsStaged (bytes_now (D.shown disk.old)) room target
        (staged_in (bytes_now (D.shown disk.old)) room target) }
    requires fits { IsTrue D.tells
        → length (staged_in (bytes_now (D.shown disk.old)) room target) ≤ room }
    ensures outside_stays { OutsideStays D.tells room (D.shown disk.old) (D.shown disk.new) }
    ensures any_moment { IsTrue D.tells → LeavesOnly (D.shown disk.old) (D.shown disk.new)
        (IsKeptOrNew (bytes_now (D.shown disk.old)) room
        (staged_in (bytes_now (D.shown disk.old)) room target)) }
    ensures saved { OnOk result (IsTrue D.tells → IsSaved (held_now (D.shown disk.new)) room
        (staged_in (bytes_now (D.shown disk.old)) room target)) }
    ensures cause { IsErrOf result DiskError.Failed
        → Rose (D.shown disk.old).faults (D.shown disk.new).faults }
    ensures faults_stay_or_rise { (D.shown disk.old).faults ≤ (D.shown disk.new).faults }
    ensures asks { Asks (D.shown disk.old) (D.shown disk.new) (λ calls. OpensGate room target calls result) }
{
    write_gate(disk, room, target.slot, OPEN)
}

/// Saves bytes as the content, in the slot that is not the newer one.
pub fn save_content<D: Disk>(disk: &mut D, alloc: Global, room: u64, bytes: &[u8]) -> Outcome
    requires room { room ≤ MAX_ROOM }
    requires fits { length bytes.now ≤ room }
    ensures { SavesContent D.tells room bytes.now (D.shown disk.old) (D.shown disk.new) result }
{
    let target = find_target(disk, alloc, room)?;
    close_gate(disk, room, target)?;
    write_content(disk, room, target, bytes)?;
    open_gate(disk, room, target)
}
