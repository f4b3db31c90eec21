use crate::tests::assert_same::assert_same;
use crate::tests::expect_ok::expect_ok;
use crate::tests::leak::leak;
use crate::tests::mem_files::{Faults, MemFiles};
use crate::tests::texts::{NO_TEXT, OLD, TEXTS, rank_among};
use outside_io::{FileStore, Store, StoreError};
use std::alloc::Global;
use std::process::Abort;

/// A store over one file, which holds `OLD`, of a machine with these faults. It is leaked.
fn store_of(rt: &impl Abort, alloc: Global, faults: Faults) -> &'static mut FileStore<MemFiles> {
    let files = expect_ok(rt, MemFiles::new(alloc, OLD, faults));
    expect_ok(rt, leak(alloc, FileStore::over(alloc, files)))
}

/// The rank of what a read of the file answers.
fn rank_read(
    store: &mut FileStore<MemFiles>,
    alloc: Global,
    limit: u64,
) -> Result<usize, StoreError> {
    match store.read(alloc, "a", limit) {
        Ok(bytes) => {
            let rank = rank_among(&bytes);
            drop(bytes);
            Ok(rank)
        }
        Err(error) => Err(error),
    }
}

/// Writes the three texts, and answers how many writes were done, and the rank of the last one that was, or 3.
fn write_all(store: &mut FileStore<MemFiles>) -> (usize, usize) {
    let mut done = (0usize, 3);
    for (rank, text) in TEXTS.iter().enumerate() {
        if store.write("a", text).is_ok() {
            done = (done.0.saturating_add(1), rank);
        }
    }
    done
}

#[test]
fn writes_and_reads_go_on_after_short_calls(rt: HostRuntime) {
    let alloc = rt.alloc();
    for most in [1, 3, 64] {
        let faults = Faults {
            calls: (1, 0),
            most,
            bars_spare: false,
        };
        let store = store_of(&rt, alloc, faults);
        assert_same(&rt, write_all(store), (3, 2));
        assert_same(&rt, rank_read(store, alloc, 5), Ok(2));
        assert_same(&rt, rank_read(store, alloc, 4), Err(StoreError::TooLong));
    }
}

/// How three writes end of which these calls fail: how many were done, the rank of the last one that was, of what the
/// file holds then, and of what a crash leaves of it, and whether a spare file is left.
fn ends_of(rt: &impl Abort, alloc: Global, calls: (u32, u32), bars_spare: bool) -> [usize; 5] {
    let faults = Faults {
        calls,
        most: 64,
        bars_spare,
    };
    let store = store_of(rt, alloc, faults);
    let (count, last) = write_all(store);
    let files = store.files();
    let now = rank_among(files.content(false));
    let left = rank_among(files.content(true));
    [count, last, now, left, usize::from(files.has_spare())]
}

// Each write asks for eight calls: to look at the name, to remove a spare file, to make one, to write it, to sync it, to
// rename it, to open the folder, and to sync that. Where the second fails, or one of the last two, all goes well.
#[test]
fn each_call_that_fails_is_a_fault_of_its_write_alone_and_leaves_the_file_as_it_was(
    rt: HostRuntime,
) {
    for number in 1..=24 {
        let goes_well = matches!(number % 8, 2 | 7 | 0);
        let count = if goes_well { 3 } else { 2 };
        let last = if number > 16 && !goes_well { 1 } else { 2 };
        let ends = ends_of(&rt, rt.alloc(), (number, number), false);
        assert_same(&rt, ends, [count, last, last, last, 0]);
    }
}

// A machine that stops behind some calls. Six of them make a write; behind the third it leaves the spare file.
#[test]
fn a_stop_at_any_call_leaves_what_was_acknowledged(rt: HostRuntime) {
    for calls in 0..=24u32 {
        let count = (calls as usize + 2) / 8;
        let last = [3, 0, 1, 2][count];
        let spare = usize::from(matches!(calls % 8, 3..=5));
        let ends = ends_of(&rt, rt.alloc(), (calls + 1, u32::MAX), false);
        assert_same(&rt, ends, [count, last, last, last, spare]);
    }
}

/// Which call of three writes in place fails, and how they end. Each asks for eight calls: to look at the name, to remove
/// and to make a spare file, to empty the file, to write it, to sync it, to open the folder, and to sync that.
const IN_PLACE: [(u32, [usize; 5]); 4] = [
    (23, [3, 2, 2, 2, 0]),
    (20, [2, 1, 1, 1, 0]),
    (21, [2, 1, NO_TEXT, NO_TEXT, 0]),
    (22, [2, 1, 2, NO_TEXT, 0]),
];

#[test]
fn a_file_is_written_in_its_place_where_no_other_can_be_made(rt: HostRuntime) {
    for (number, ends) in &IN_PLACE {
        let have = ends_of(&rt, rt.alloc(), (*number, *number), true);
        assert_same(&rt, have, *ends);
    }
}

/// The rank of what a read answers of which this call fails: to open, to read, and to find the end.
fn read_where_one_fails(rt: &impl Abort, alloc: Global, number: u32) -> Result<usize, StoreError> {
    let faults = Faults {
        calls: (number, number),
        most: 64,
        bars_spare: false,
    };
    rank_read(store_of(rt, alloc, faults), alloc, 64)
}

#[test]
fn a_read_of_which_a_call_fails_answers_no_bytes(rt: HostRuntime) {
    for number in 1..=4 {
        let wanted = if number < 4 {
            Err(StoreError::Failed)
        } else {
            Ok(3)
        };
        let answer = read_where_one_fails(&rt, rt.alloc(), number);
        assert_same(&rt, answer, wanted);
    }
}
