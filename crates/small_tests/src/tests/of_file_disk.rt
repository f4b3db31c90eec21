use crate::tests::assert_same::assert_same;
use crate::tests::leak::leak;
use crate::tests::of_slots::{rank_after, rank_of, save};
use crate::tests::short_file::ShortFile;
use crate::tests::texts::TEXTS;
use crash_disk::{Disk, DiskError, FileDisk, MemDisk};
use std::alloc::{AllocError, Global};
use std::test::Fail;

/// A disk over a file that isn't there, whose calls of these numbers fail, and which takes and gives at most this many
/// bytes a call. It is leaked.
fn file_disk(
    alloc: Global,
    failing: Vec<u32>,
    most: u32,
) -> Result<&'static mut FileDisk<ShortFile>, AllocError> {
    let file = ShortFile::new(alloc, MemDisk::new(alloc, failing), false, most);
    leak(alloc, FileDisk::over(file))
}

/// Saves the three texts, and answers the rank of the last one whose save was acknowledged, or 3.
fn save_all(alloc: Global, disk: &mut FileDisk<ShortFile>) -> usize {
    let mut last = 3;
    for (rank, text) in TEXTS.iter().enumerate() {
        if save(alloc, disk, text).is_ok() {
            last = rank;
        }
    }
    last
}

#[test]
fn saves_over_short_calls_succeed(rt: HostRuntime) -> Result<(), Fail> {
    let alloc = rt.alloc();
    for most in [1, 3, 64] {
        let disk = file_disk(alloc, Vec::new(alloc), most)?;
        assert_same(&rt, [save_all(alloc, disk), rank_of(alloc, disk)?], [2; 2]);
    }
    Ok(())
}

/// What a sync, a sync, a write and a read of a disk answer.
fn answers_of(alloc: Global, disk: &mut FileDisk<ShortFile>) -> [Result<(), DiskError>; 4] {
    let syncs = [disk.sync(), disk.sync()];
    let write = disk.write_at(0, b"a");
    let read = match disk.read(alloc, 0, 1) {
        Ok(bytes) => {
            drop(bytes);
            Ok(())
        }
        Err(error) => Err(error),
    };
    [syncs[0], syncs[1], write, read]
}

#[test]
fn nothing_is_asked_after_a_sync_that_failed(rt: HostRuntime) -> Result<(), Fail> {
    let alloc = rt.alloc();
    let disk = file_disk(alloc, vec![in alloc; 2]?, 64)?;
    assert_same(&rt, answers_of(alloc, disk), [Err(DiskError::Failed); 4]);
    assert_same(&rt, disk.file().disk.calls(), 2);
    Ok(())
}

/// Whether three saves of which this call fails leave the text whose save was acknowledged last, or the one after it,
/// by this pick of a crash behind them.
fn old_or_new_is_left(alloc: Global, call: u32, pick: u8) -> Result<bool, Fail> {
    let disk = file_disk(alloc, vec![in alloc; call]?, 5)?;
    let last = save_all(alloc, disk);
    // A crash during a sync leaves what was before it, so the last call is to be another.
    let _ = rank_of(alloc, disk);
    let file = disk.file();
    let rank = rank_after(alloc, &file.disk, file.disk.calls(), pick)?;
    let after = if last == 3 { 0 } else { last.saturating_add(1) };
    Ok(rank == last || rank == after)
}

// In calls of at most 5 bytes the first save opens the file and makes 11 calls, the second 11, and the third 13.
#[test]
fn each_call_that_fails_leaves_what_was_saved_or_what_is_being_saved(
    rt: HostRuntime,
) -> Result<(), Fail> {
    for call in 1..=36 {
        for pick in 0..3 {
            assert!(rt; old_or_new_is_left(rt.alloc(), call, pick)?);
        }
    }
    Ok(())
}
