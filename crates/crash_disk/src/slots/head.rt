//! The two slots, and the bytes at their heads.
ghost use Rattle.std.specs.Prelude.{◌≡◌, ◌+◌, ◌≤◌, ◌^◌, length, IsTrue, IfOk, IfSome, IsErrOf};
ghost use Rattle.crash_disk.specs.DiskView.{Stays, held_now};
ghost use Rattle.crash_disk.specs.Crash.{bytes_now};
ghost use Rattle.crash_disk.specs.Layout.{start_of, head_of_bytes, head_at, is_open, next, newer_head};
ghost use Rattle.crash_disk.specs.Loads.{ReadsHead, ReadsHeads};
ghost use Rattle.crash_disk.specs.declared.slots.head.Slot.TheVariants.{Zero, One};
ghost use Rattle.outside_io.specs.Faults.{Rose};

use crate::disk::{Disk, DiskError};
use line_base::MAX_CHECKPOINT_BYTES;
use std::alloc::Global;

/// The most bytes that a slot may have room for: as many as a checkpoint may have.
pub const MAX_ROOM: u64 = MAX_CHECKPOINT_BYTES;

/// The bytes of a slot before its content.
pub const HEAD_BYTES: u64 = 16;

/// How many of them say something: the gate, the number and the length.
pub const USED_BYTES: u32 = 10;

/// The greatest number of a slot.
const MAX_NUMBER: u8 = 2;

/// The gate of a slot that is open. Every other value closes it.
pub const OPEN: u8 = 1;

/// One of the two slots.
#[derive(Clone, Copy)]
pub enum Slot {
    Zero,
    One,
}

impl Slot {
    /// The address at which the slot begins, where each has that much room for its content.
    pub fn start(self, room: u64) -> u64
        requires { room ≤ 2 ^ 32 }
        ensures { result ≡ start_of room self }
    {
        match self {
            Slot::Zero => 0,
            Slot::One => HEAD_BYTES + room,
        }
    }
}

/// What the head of a slot says.
#[derive(Clone, Copy)]
pub struct Head {
    pub gate: u8,
    pub number: u8,
    pub length: u64,
}

impl Head {
    /// Whether the slot is open, where it has that much room for its content.
    pub fn is_open(self, room: u64) -> bool
        ensures { result ≡ is_open room self }
    {
        self.gate == OPEN && self.number <= MAX_NUMBER && self.length <= room
    }
}

/// The head of a slot by its bytes.
fn head_of(bytes: &[u8]) -> Head
    requires { length bytes.now ≡ USED_BYTES }
    ensures { result ≡ head_of_bytes bytes.now }
{
    let &[gate, number, a, b, c, d, e, f, g, h] = bytes else {
        unreachable!();
    };
    Head {
        gate,
        number,
        length: u64::from_be_bytes([a, b, c, d, e, f, g, h]),
    }
}

/// Reads the head of the slot that begins there.
fn read_head<D: Disk>(disk: &mut D, alloc: Global, start: u64) -> Result<Head, DiskError>
    requires { start ≤ 2 ^ 33 }
    ensures head { IfOk result (λ head. IsTrue D.tells
        → head ≡ head_at (held_now (D.shown disk.old)).bytes start) }
    ensures read { ReadsHead start (D.shown disk.old) (D.shown disk.new) result }
    ensures stays { IsTrue D.tells → Stays (D.shown disk.old) (D.shown disk.new) }
    ensures cause { IsErrOf result DiskError.Failed
        → Rose (D.shown disk.old).faults (D.shown disk.new).faults }
    ensures faults_stay_or_rise { (D.shown disk.old).faults ≤ (D.shown disk.new).faults }
{
    let bytes = disk.read(alloc, start, USED_BYTES)?;
    Ok(head_of(&bytes))
}

/// Reads the heads of both slots, where each has that much room for its content.
pub fn read_heads<D: Disk>(
    disk: &mut D,
    alloc: Global,
    room: u64,
) -> Result<(Head, Head), DiskError>
    requires { room ≤ MAX_ROOM }
    ensures zero { IfOk result (λ heads. IsTrue D.tells
        → heads.0 ≡ head_at (bytes_now (D.shown disk.old)) (start_of room Zero)) }
    ensures one { IfOk result (λ heads. IsTrue D.tells
        → heads.1 ≡ head_at (bytes_now (D.shown disk.old)) (start_of room One)) }
    ensures read { ReadsHeads room (D.shown disk.old) (D.shown disk.new) result }
    ensures stays { IsTrue D.tells → Stays (D.shown disk.old) (D.shown disk.new) }
    ensures cause { IsErrOf result DiskError.Failed
        → Rose (D.shown disk.old).faults (D.shown disk.new).faults }
    ensures faults_stay_or_rise { (D.shown disk.old).faults ≤ (D.shown disk.new).faults }
{
    let zero = read_head(disk, alloc, Slot::Zero.start(room))?;
    let one = read_head(disk, alloc, Slot::One.start(room))?;
    Ok((zero, one))
}

/// The newer one of the slots that are open, with its head.
pub fn newer(zero: Head, one: Head, room: u64) -> Option<(Slot, Head)>
    ensures newer { result ≡ newer_head room zero one }
    ensures is_open { IfSome result (λ found. IsTrue (is_open room found.1)) }
{
    match (zero.is_open(room), one.is_open(room)) {
        (false, false) => None,
        (false, true) => Some((Slot::One, one)),
        (true, false) => Some((Slot::Zero, zero)),
        (true, true) if one.number == next(zero.number) => Some((Slot::One, one)),
        (true, true) => Some((Slot::Zero, zero)),
    }
}

/// The number after this one, of 0, 1 and 2 in turn.
pub fn next(number: u8) -> u8
    ensures { result ≡ next number }
{
    ((u16::from(number) + 1) % 3) as u8
}
