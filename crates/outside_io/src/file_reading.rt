//! How a file is read: to its end, or until it is longer than the limit.
ghost use Rattle.std.specs.Prelude.{◌≡◌, ◌<◌, ◌≤◌, ◌+◌, ◌-◌, ◌^◌, ◌++◌, ◌∷◌, [], Some, true, length, take, min, IsTrue, IfOk, IfErr, OnOk, OnErr, IsErrOf};
ghost use Rattle.outside_io.specs.Calls.{bytes_of};
ghost use Rattle.outside_io.specs.Contents.{IsLongerThan};
ghost use Rattle.outside_io.specs.RawFiles.{Named, Reads, Asks, AsksToRead, ReadsOn, SameHeld, read_bytes, given_by};
ghost use Rattle.outside_io.specs.Reading.{TakesToLimit};

use crate::faults::count_fault;
use crate::raw_files::RawFiles;
use crate::store::StoreError;
use std::alloc::Global;

/// The most bytes that one turn of reading asks for.
const MAX_TURN: usize = 16_384;

/// Reads once into the beginning of a buffer, `most` bytes at most, and answers how many there are. A refusal is a
/// fault that is counted.
fn read_once<F: RawFiles>(
    files: &mut F,
    buffer: &mut [u8],
    most: usize,
    faults: &mut u64,
) -> Result<usize, StoreError>
    requires open { (F.shown files.old).is_open ≡ true }
    requires within { most ≤ length buffer.old }
    ensures recorded { (F.shown files.new).asked
        ≡ (F.shown files.old).asked ++ Reads most (read_bytes result buffer.new) ∷ [] }
    ensures open_stays { (F.shown files.new).is_open ≡ true }
    ensures size { length buffer.new ≡ length buffer.old }
    ensures bound { IfOk result (λ n. n ≤ most) }
    ensures bytes { IfOk result (λ n. IsTrue F.tells
        → (F.shown files.old).left ≡ take n buffer.new ++ (F.shown files.new).left) }
    ensures end { IfOk result (λ n. n ≡ 0 → 0 < most → IsTrue F.tells → (F.shown files.old).left ≡ []) }
    ensures stays { SameHeld F.tells (F.shown files.old) (F.shown files.new) }
    ensures failed { IfErr result (λ error. error ≡ StoreError.Failed) }
    ensures faults_stay { OnOk result (faults.new ≡ faults.old) }
    ensures once { OnErr result (faults.new ≡ min (faults.old + 1) (2 ^ 64 - 1)) }
    ensures faults_stay_or_rise { faults.old ≤ faults.new }
{
    count_fault(files.read(&mut buffer[..most]), faults)
}

/// How many bytes the next turn asks for: as many as the limit leaves and one more, or as a turn asks for at most.
fn turn_size(limit: u64, taken: u64) -> usize
    requires { taken ≤ limit }
    ensures some { 0 < result }
    ensures within { taken + result ≤ limit + 1 }
    ensures fits { result ≤ MAX_TURN }
{
    (limit - taken).saturating_add(1).min(MAX_TURN as u64) as usize
}

/// Reads the file that is open to its end, to an error, or until limit + 1 bytes were taken, and counts the bytes
/// taken.
fn read_to_limit<F: RawFiles>(
    alloc: Global,
    files: &mut F,
    limit: u64,
    taken: &mut u64,
    faults: &mut u64,
) -> Result<Vec<u8>, StoreError>
    requires open { (F.shown files.old).is_open ≡ true }
    requires none_taken { taken.old ≡ 0 }
    ensures asks { Asks (F.shown files.old) (F.shown files.new) (λ calls.
        ReadsOn limit [] calls (bytes_of result) × (taken.new ≡ length (given_by calls))) }
    ensures bytes { IfOk result (λ v. IsTrue F.tells → v.items ≡ (F.shown files.old).left) }
    ensures longer { IsErrOf result StoreError.TooLong → IsTrue F.tells → limit < length (F.shown files.old).left }
    ensures stays { SameHeld F.tells (F.shown files.old) (F.shown files.new) }
    ensures takes { TakesToLimit limit taken.new faults.old faults.new result }
{
    let mut bytes = Vec::new(alloc);
    let mut buffer = [0; MAX_TURN];
    loop {
        let most = turn_size(limit, *taken);
        let count = read_once(files, &mut buffer, most, faults)?;
        if count == 0 {
            return Ok(bytes);
        }
        *taken += count as u64;
        if *taken > limit {
            return Err(StoreError::TooLong);
        }
        bytes.extend_from_slice(&buffer[..count])?;
    }
}

/// Opens a file and reads it to its end, to an error, or until limit + 1 bytes were taken, and counts the bytes taken.
pub fn read_file<F: RawFiles>(
    alloc: Global,
    files: &mut F,
    name: &str,
    limit: u64,
    taken: &mut u64,
    faults: &mut u64,
) -> Result<Vec<u8>, StoreError>
    requires { taken.old ≡ 0 }
    ensures asks { Asks (F.shown files.old) (F.shown files.new) (λ calls.
        AsksToRead name.now limit calls (bytes_of result) × (taken.new ≡ length (given_by calls))) }
    ensures bytes { IfOk result (λ v. IsTrue F.tells
        → (F.shown files.old).held (Named name.now) ≡ Some v.items) }
    ensures longer { IsErrOf result StoreError.TooLong → IsTrue F.tells
        → IsLongerThan limit ((F.shown files.old).held (Named name.now)) }
    ensures stays { SameHeld F.tells (F.shown files.old) (F.shown files.new) }
    ensures takes { TakesToLimit limit taken.new faults.old faults.new result }
{
    count_fault(files.open(name), faults)?;
    read_to_limit(alloc, files, limit, taken, faults)
}
