//! What the two slots of a disk hold, from one command of a case to the next.
use crate::reason::{Reason, both_if_ok, value_if_ok};
use crash_disk::slots::MAX_ROOM;
use crash_disk::{Disk, DiskError, MemDisk};
use line_base::digits;
use std::alloc::Global;

/// The bytes of a slot before its content.
const HEAD_BYTES: u32 = 16;

/// The address of slot 1.
const START_OF_ONE: u64 = MAX_ROOM + HEAD_BYTES as u64;

/// The most bytes of a slot that are kept.
const MAX_KEPT: u32 = 67_108_864;

/// The calls with which a disk is given what the slots hold, before the first call of a command.
const FILLING: u32 = 3;

/// The bytes of both slots: their heads, and behind each its content.
#[derive(Drop)]
pub struct Slots {
    zero: Vec<u8>,
    one: Vec<u8>,
}

/// What is left of the disk to the commands below.
#[derive(Clone, Copy)]
pub struct Crash {
    /// The call of the disk during which it crashes, counted from 1; 0 where it doesn't.
    pub call: u32,
    /// What is left of a byte that was written and not yet stable: 0 the old one, 1 the new one, 2 the byte 255.
    pub pick: u32,
}

impl From<DiskError> for Reason {
    fn from(error: DiskError) -> Self {
        match error {
            DiskError::Failed => Reason::NoSuchCall,
            DiskError::NoMemory => Reason::NoMemory,
        }
    }
}

impl Slots {
    /// The slots of a disk of zeros.
    pub fn blank(alloc: Global) -> Self {
        Slots {
            zero: Vec::new(alloc),
            one: Vec::new(alloc),
        }
    }

    /// A disk that holds the slots. This call of it fails, counted from 1; none at 0.
    pub fn disk(&self, alloc: Global, failing: u32) -> Result<MemDisk, Reason> {
        let failing = if failing == 0 {
            0
        } else {
            failing.saturating_add(FILLING)
        };
        let mut disk = MemDisk::new(alloc, vec![in alloc; failing]?);
        let filled = self.fill(&mut disk);
        value_if_ok(disk, filled)
    }

    /// Writes the slots to a disk.
    fn fill(&self, disk: &mut MemDisk) -> Result<(), Reason> {
        write_slot(disk, 0, &self.zero)?;
        write_slot(disk, START_OF_ONE, &self.one)?;
        Ok(disk.sync()?)
    }

    /// The slots as a command leaves them, or as a crash during one of its calls does.
    pub fn left_by(alloc: Global, disk: &MemDisk, crash: Crash) -> Result<Self, Reason> {
        let call = match crash.call {
            0 => disk.calls(),
            call => call.saturating_add(FILLING),
        };
        let pick = match crash.pick {
            0 => 0,
            1 => 1,
            2 => 2,
            _ => return Err(Reason::NoSuchCall),
        };
        if call > disk.calls() {
            return Err(Reason::NoSuchCall);
        }
        let mut left = disk.crash(call, pick)?;
        let slots = Slots::read_from(alloc, &mut left);
        drop(left);
        slots
    }

    /// Reads the slots of a disk.
    fn read_from(alloc: Global, disk: &mut MemDisk) -> Result<Self, Reason> {
        let zero = read_slot(alloc, disk, 0)?;
        let (zero, one) = both_if_ok(zero, read_slot(alloc, disk, START_OF_ONE))?;
        Ok(Slots { zero, one })
    }

    /// What the slots hold, as a text: for each a line with its gate, its number and its length, and its content
    /// where the gate is open.
    pub fn text(&self, alloc: Global) -> Result<Vec<u8>, Reason> {
        let mut text = Vec::new(alloc);
        let added = self.add_to_text(&mut text);
        value_if_ok(text, added)
    }

    /// Adds what both slots hold.
    fn add_to_text(&self, text: &mut Vec<u8>) -> Result<(), Reason> {
        add_slot(text, 0, &self.zero)?;
        add_slot(text, 1, &self.one)
    }
}

/// Writes the bytes of a slot, which begins there.
fn write_slot(disk: &mut MemDisk, start: u64, bytes: &[u8]) -> Result<(), Reason> {
    if start > START_OF_ONE || bytes.len() > MAX_KEPT as usize {
        return Err(Reason::NoSuchCall);
    }
    disk.write_at(start, bytes)?;
    Ok(())
}

/// Reads the bytes of the slot that begins there.
fn read_slot(alloc: Global, disk: &mut MemDisk, start: u64) -> Result<Vec<u8>, Reason> {
    if start > START_OF_ONE {
        return Err(Reason::NoSuchCall);
    }
    let head = disk.read(alloc, start, HEAD_BYTES)?;
    let count = HEAD_BYTES.saturating_add(content_length(&head));
    Ok(disk.read(alloc, start, count)?)
}

/// How many bytes of content the head of a slot gives; none where it gives more than are kept.
fn content_length(head: &[u8]) -> u32 {
    match head {
        &[_, _, 0, 0, 0, 0, a, b, c, d, ..] => {
            let length = u32::from_be_bytes([a, b, c, d]);
            if length < MAX_KEPT - HEAD_BYTES {
                length
            } else {
                0
            }
        }
        _ => 0,
    }
}

/// Adds what a slot holds.
fn add_slot(text: &mut Vec<u8>, slot: u32, bytes: &[u8]) -> Result<(), Reason> {
    let (gate, number) = match bytes {
        &[gate, number, ..] => (gate, number),
        _ => (0, 0),
    };
    let numbers = [
        ("slot ", slot),
        (" gate ", u32::from(gate)),
        (" number ", u32::from(number)),
        (" length ", content_length(bytes)),
    ];
    for (label, number) in &numbers {
        add_number(text, *label, *number)?;
    }
    add_bytes(text, b"\n")?;
    add_bytes(text, open_content(bytes))
}

/// Adds some bytes.
fn add_bytes(text: &mut Vec<u8>, bytes: &[u8]) -> Result<(), Reason> {
    Ok(text.extend_from_slice(bytes)?)
}

/// Adds a number behind its label.
pub fn add_number(text: &mut Vec<u8>, label: &str, number: u32) -> Result<(), Reason> {
    add_bytes(text, label.as_bytes())?;
    let mut buffer = [0; 40];
    let count = digits(u128::from(number), &mut buffer) as usize;
    add_bytes(text, &buffer[..count])
}

/// The content of a slot whose gate is open; nothing of any other.
fn open_content(bytes: &[u8]) -> &[u8] {
    match bytes {
        [1, _, ..] => bytes.get(HEAD_BYTES as usize..).unwrap_or(&[]),
        _ => &[],
    }
}
