use crate::tests::assert_same::assert_same;
use crate::tests::leak::leak;
use crate::tests::texts::{NO_TEXT, TEXTS, rank_among};
use crash_disk::slots::{SlotError, Slots};
use crash_disk::{Disk, MemDisk};
use std::alloc::Global;
use std::test::Fail;

/// How many bytes a slot has for its content.
const ROOM: u64 = 32;

/// Saves bytes in the slots of a disk.
pub fn save<D: Disk>(alloc: Global, disk: &mut D, bytes: &[u8]) -> Result<(), SlotError> {
    Slots::new(disk, ROOM).save(alloc, bytes)
}

/// A disk on which the three texts were saved, where the calls of these numbers fail, and how each save ended.
fn saved_disk(
    alloc: Global,
    failing: Vec<u32>,
) -> Result<(&'static mut MemDisk, [Result<(), SlotError>; 3]), Fail> {
    let disk = leak(alloc, MemDisk::new(alloc, failing))?;
    let first = save(alloc, disk, TEXTS[0]);
    let second = save(alloc, disk, TEXTS[1]);
    let third = save(alloc, disk, TEXTS[2]);
    Ok((disk, [first, second, third]))
}

/// The rank among the three texts of what a load gives, or 3 where it gives nothing.
pub fn rank_of<D: Disk>(alloc: Global, disk: &mut D) -> Result<usize, SlotError> {
    match Slots::new(disk, ROOM).load(alloc) {
        Ok(bytes) => {
            let rank = rank_among(&bytes);
            drop(bytes);
            Ok(rank)
        }
        Err(SlotError::NoneSaved) => Ok(3),
        Err(error) => Err(error),
    }
}

/// The same of a disk as a crash leaves it.
pub fn rank_after(alloc: Global, disk: &MemDisk, call: u32, pick: u8) -> Result<usize, Fail> {
    if call > disk.calls() || pick > 2 {
        return Ok(NO_TEXT);
    }
    let mut left = disk.crash(call, pick)?;
    let rank = rank_of(alloc, &mut left);
    drop(left);
    Ok(rank?)
}

/// How many of the crashes during these calls, by each pick, leave each of the three texts, and how many leave nothing.
fn crash_counts(alloc: Global, disk: &MemDisk, first: u32, last: u32) -> Result<[u32; 4], Fail> {
    let mut counts = [0u32; 4];
    for call in first..=last.min(disk.calls()) {
        for pick in 0..3 {
            let rank = rank_after(alloc, disk, call, pick)?;
            if rank < 4 {
                counts[rank] = counts[rank].saturating_add(1);
            }
        }
    }
    Ok(counts)
}

/// The first and the last call of each save, and how many of the crashes during these, by each pick, leave each of the
/// three texts, and how many leave nothing.
const CRASHES: [(u32, u32, [u32; 4]); 3] = [
    (0, 8, [2, 0, 0, 25]),
    (9, 16, [22, 2, 0, 0]),
    (17, 26, [0, 28, 2, 0]),
];

// The first two saves make 8 calls each, the third 10, since the gate of slot 0 is open then. The new text is there
// once the byte of its gate is: at pick 1 of the last two calls.
#[test]
fn each_crash_of_a_save_leaves_the_text_from_before_or_the_new_one(
    rt: HostRuntime,
) -> Result<(), Fail> {
    let alloc = rt.alloc();
    let (disk, ends) = saved_disk(alloc, Vec::new(alloc))?;
    assert_same(&rt, ends, [Ok(()); 3]);
    assert_same(&rt, disk.calls(), 26);
    for (first, last, counts) in &CRASHES {
        assert_same(&rt, crash_counts(alloc, disk, *first, *last)?, *counts);
    }
    assert_same(&rt, rank_of(alloc, disk)?, 2);
    Ok(())
}

/// The rank among the texts of what a load gives after three saves of which one answers a fault, since the call of
/// this number failed; 8 where another number of saves answers one, or where a crash of the third leaves a text from
/// before the second.
fn rank_with_fault(alloc: Global, call: u32) -> Result<usize, Fail> {
    let (disk, ends) = saved_disk(alloc, vec![in alloc; call]?)?;
    let faults = ends
        .iter()
        .filter(|end| **end == Err(SlotError::DiskFault))
        .count();
    let [hello, _, _, none] = crash_counts(alloc, disk, call.max(17), 26)?;
    if faults != 1 || (call > 16 && (hello > 0 || none > 0)) {
        return Ok(8);
    }
    Ok(rank_of(alloc, disk)?)
}

/// How often each text stands at the end, where each of the calls fails in turn.
fn ranks_with_faults(alloc: Global) -> Result<[u32; 4], Fail> {
    let mut counts = [0u32; 4];
    for call in 1..27 {
        let rank = rank_with_fault(alloc, call)?;
        if rank < 4 {
            counts[rank] = counts[rank].saturating_add(1);
        }
    }
    Ok(counts)
}

// A call of the first two saves that fails: the third one stands. One of the third: the second stands, but where the
// last sync fails, after its gate was written.
#[test]
fn each_call_that_fails_is_a_fault_of_its_save_alone(rt: HostRuntime) -> Result<(), Fail> {
    assert_same(&rt, ranks_with_faults(rt.alloc())?, [0, 9, 17, 0]);
    Ok(())
}
