ghost use Rattle.std.specs.Prelude.{◌≡◌, ◌≢◌, ◌+◌, ◌-◌, ◌<◌, ◌≤◌, ◌++◌, ◌∷◌, [], ℕ, Bool, Option, length, take, drop, replicate, true, false, is_ok, IsTrue, IfOk, IfErr, OnOk, OnErr, IsErrOf};
ghost use Rattle.crash_disk.specs.declared.opening.Opening.TheVariants.{Opened};
ghost use Rattle.crash_disk.specs.Counted.{CountsFault};
ghost use Rattle.crash_disk.specs.DiskView.{Passes, Torn, after_write, synced_file, bytes_at};
ghost use Rattle.crash_disk.specs.RawFile.{Opens, Reads, Writes, Syncs, SyncsFolder, Asks, ReadsOn, WritesOn, AsksToRead, AsksToWrite, AsksToSync, zeros_behind, given_by, read_bytes, raw_now, disk_of};
ghost use Rattle.crash_disk.specs.Asked.{asked_of};
ghost use Rattle.outside_io.specs.Faults.{Rose, RoseByOne};
ghost use Rattle.outside_io.specs.RawOut.{count_of};

use crate::asked::{AskLog, note_read, note_sync, note_write};
use crate::disk::{DISK_END, Disk, DiskError};
use crate::opening::Opening;
use crate::raw_file::RawFile;
use std::alloc::Global;

/// A file as a disk, opened at its first call. While it isn't there a read gives zeros, and the first write or sync
/// makes it. After a write or a sync that failed it refuses every later call: what the machine still answers then says
/// nothing of what it has on the disk.
#[derive(Drop)]
pub struct FileDisk<F: RawFile + Drop> {
    file: F,
    broken: bool,
    faults: u64,
    asked: AskLog,
}

/// The machine refused, or a write or a sync had failed before.
#[derive(Drop)]
struct Refused;

impl<F: RawFile + Drop> FileDisk<F> {
    /// A file as a disk of which nothing was asked.
    pub fn over(file: F) -> Self
        ensures file { result.file ≡ file }
        ensures whole { result.broken ≡ false }
        ensures no_fault { result.faults ≡ 0 }
        ensures nothing_asked { asked_of result.asked ≡ [] }
    {
        FileDisk {
            file,
            broken: false,
            faults: 0,
            asked: AskLog::new(),
        }
    }

    /// The file below the disk.
    pub fn file(&self) -> &F
        ensures { result.now ≡ self.now.file }
    {
        &self.file
    }
}

/// Reads once behind the first `from` bytes of a buffer, and answers how many bytes there are more.
fn read_once<F: RawFile>(
    file: &mut F,
    at: u64,
    bytes: &mut [u8],
    from: usize,
) -> Result<usize, Refused>
    requires open { (F.shown file.old).is_open ≡ true }
    requires within { from ≤ length bytes.old }
    requires inside { at + length bytes.old ≤ DISK_END }
    ensures recorded { (F.shown file.new).asked ≡ (F.shown file.old).asked
        ++ Reads (at + from) (length bytes.old - from) (read_bytes result (drop from bytes.new)) ∷ [] }
    ensures open_stays { (F.shown file.new).is_open ≡ true }
    ensures kept { take from bytes.new ≡ take from bytes.old }
    ensures size { length bytes.new ≡ length bytes.old }
    ensures bound { IfOk result (λ n. n ≤ length bytes.old - from) }
    ensures bytes { IfOk result (λ n. IsTrue F.tells
        → take n (drop from bytes.new) ≡ bytes_at (raw_now (F.shown file.old)).bytes (at + from) n) }
    ensures end { IfOk result (λ n. n ≡ 0 → from < length bytes.old → IsTrue F.tells
        → (i : ℕ) → at + from ≤ i → (raw_now (F.shown file.old)).bytes i ≡ 0) }
    ensures stays { IsTrue F.tells → raw_now (F.shown file.new) ≡ raw_now (F.shown file.old) }
    ensures time { IsTrue F.tells → Passes (disk_of (F.shown file.old)) (disk_of (F.shown file.new)) }
{
    match file.read_at(at + from as u64, &mut bytes[from..]) {
        Ok(count) => Ok(count),
        Err(_) => Err(Refused),
    }
}

/// Puts zeros behind the first `from` bytes of a buffer.
fn clear_behind(bytes: &mut [u8], from: usize)
    requires { from ≤ length bytes.old }
    ensures { bytes.new ≡ take from bytes.old ++ replicate (length bytes.old - from) 0 }
{
    bytes[from..].fill(0);
}

/// Reads from an address on until the buffer is full, or the file ends and zeros follow.
fn fill<F: RawFile>(file: &mut F, at: u64, bytes: &mut [u8]) -> Result<(), Refused>
    requires open { (F.shown file.old).is_open ≡ true }
    requires inside { at + length bytes.old ≤ DISK_END }
    ensures asks { Asks (F.shown file.old).asked (F.shown file.new).asked (λ calls.
        ReadsOn at (length bytes.old) calls (is_ok result)
        × OnOk result (bytes.new ≡ zeros_behind (length bytes.old) (given_by calls))) }
    ensures open_stays { (F.shown file.new).is_open ≡ true }
    ensures size { length bytes.new ≡ length bytes.old }
    ensures bytes { OnOk result (IsTrue F.tells
        → bytes.new ≡ bytes_at (raw_now (F.shown file.old)).bytes at (length bytes.old)) }
    ensures stays { IsTrue F.tells → raw_now (F.shown file.new) ≡ raw_now (F.shown file.old) }
    ensures time { IsTrue F.tells → Passes (disk_of (F.shown file.old)) (disk_of (F.shown file.new)) }
{
    let mut filled = 0;
    while filled < bytes.len() {
        match read_once(file, at, bytes, filled) {
            Ok(0) => {
                clear_behind(bytes, filled);
                return Ok(());
            }
            Ok(count) => filled += count,
            Err(refused) => return Err(refused),
        }
    }
    Ok(())
}

/// Writes the bytes behind the first `from`, once, and answers how many the machine took: none where it refused.
fn write_once<F: RawFile>(file: &mut F, at: u64, bytes: &[u8], from: usize) -> usize
    requires open { (F.shown file.old).is_open ≡ true }
    requires within { from ≤ length bytes.now }
    requires inside { at + length bytes.now ≤ DISK_END }
    ensures recorded { (answer : Option ℕ) × ((F.shown file.new).asked ≡ (F.shown file.old).asked
        ++ Writes (at + from) (drop from bytes.now) answer ∷ []) × (count_of answer ≡ result) }
    ensures open_stays { (F.shown file.new).is_open ≡ true }
    ensures bound { result ≤ length bytes.now - from }
    ensures written { 0 < result → IsTrue F.tells → raw_now (F.shown file.new)
        ≡ after_write (raw_now (F.shown file.old)) (at + from) (take result (drop from bytes.now)) }
    ensures torn { result ≡ 0 → IsTrue F.tells → Torn (raw_now (F.shown file.old)) (raw_now (F.shown file.new))
        (at + from) (length bytes.now - from) }
    ensures time { IsTrue F.tells → Passes (disk_of (F.shown file.old)) (disk_of (F.shown file.new)) }
{
    file.write_at(at + from as u64, &bytes[from..]).unwrap_or(0)
}

/// Opens a file that isn't open, and makes it where it isn't there; then syncs the folder, whatever the machine answers
/// to that.
fn open_or_make<F: RawFile>(file: &mut F) -> Opening
    ensures asks_opened { result ≡ Opened → (answer : Bool) × ((F.shown file.new).asked
        ≡ (F.shown file.old).asked ++ Opens true Opened ∷ (SyncsFolder answer ∷ [])) }
    ensures asks_once { result ≢ Opened
        → (F.shown file.new).asked ≡ (F.shown file.old).asked ++ Opens true result ∷ [] }
    ensures opened { result ≡ Opened → (F.shown file.new).is_open ≡ true }
    ensures stays { IsTrue F.tells → raw_now (F.shown file.new) ≡ raw_now (F.shown file.old) }
    ensures time { IsTrue F.tells → Passes (disk_of (F.shown file.old)) (disk_of (F.shown file.new)) }
{
    match file.open(true) {
        Opening::Opened => {
            let _ = file.sync_folder();
            Opening::Opened
        }
        refused => refused,
    }
}

/// Writes bytes from an address on until all were taken, or the machine refuses, or takes nothing.
fn put<F: RawFile>(file: &mut F, at: u64, bytes: &[u8]) -> Result<(), Refused>
    requires open { (F.shown file.old).is_open ≡ true }
    requires inside { at + length bytes.now ≤ DISK_END }
    ensures asks { Asks (F.shown file.old).asked (F.shown file.new).asked
        (λ calls. WritesOn at bytes.now calls (is_ok result)) }
    ensures open_stays { (F.shown file.new).is_open ≡ true }
    ensures written { OnOk result (IsTrue F.tells
        → raw_now (F.shown file.new) ≡ after_write (raw_now (F.shown file.old)) at bytes.now) }
    ensures torn { OnErr result (IsTrue F.tells
        → Torn (raw_now (F.shown file.old)) (raw_now (F.shown file.new)) at (length bytes.now)) }
    ensures time { IsTrue F.tells → Passes (disk_of (F.shown file.old)) (disk_of (F.shown file.new)) }
{
    let mut taken = 0;
    while taken < bytes.len() {
        let count = write_once(file, at, bytes, taken);
        if count == 0 {
            return Err(Refused);
        }
        taken += count;
    }
    Ok(())
}

/// Reads into a buffer of zeros, from the file that is open or is opened for it.
fn read_file<F: RawFile>(
    file: &mut F,
    broken: bool,
    at: u64,
    bytes: &mut [u8],
) -> Result<(), Refused>
    requires zeros { bytes.old ≡ replicate (length bytes.old) 0 }
    requires inside { at + length bytes.old ≤ DISK_END }
    ensures asks { Asks (F.shown file.old).asked (F.shown file.new).asked (λ calls.
        AsksToRead broken (F.shown file.old).is_open at (length bytes.old) calls (is_ok result)
        × OnOk result (bytes.new ≡ zeros_behind (length bytes.old) (given_by calls))) }
    ensures size { length bytes.new ≡ length bytes.old }
    ensures bytes { OnOk result (IsTrue F.tells
        → bytes.new ≡ bytes_at (raw_now (F.shown file.old)).bytes at (length bytes.old)) }
    ensures stays { IsTrue F.tells → raw_now (F.shown file.new) ≡ raw_now (F.shown file.old) }
    ensures time { IsTrue F.tells → Passes (disk_of (F.shown file.old)) (disk_of (F.shown file.new)) }
{
    if broken {
        return Err(Refused);
    }
    if file.is_open() {
        return fill(file, at, bytes);
    }
    match file.open(false) {
        Opening::Opened => fill(file, at, bytes),
        Opening::Absent => Ok(()),
        Opening::Refused => Err(Refused),
    }
}

/// Writes bytes from an address on, to the file that is open or is opened for it.
fn write_file<F: RawFile>(file: &mut F, broken: bool, at: u64, bytes: &[u8]) -> Result<(), Refused>
    requires inside { at + length bytes.now ≤ DISK_END }
    ensures asks { Asks (F.shown file.old).asked (F.shown file.new).asked
        (λ calls. AsksToWrite broken (F.shown file.old).is_open at bytes.now calls (is_ok result)) }
    ensures written { OnOk result (IsTrue F.tells
        → raw_now (F.shown file.new) ≡ after_write (raw_now (F.shown file.old)) at bytes.now) }
    ensures torn { OnErr result (IsTrue F.tells
        → Torn (raw_now (F.shown file.old)) (raw_now (F.shown file.new)) at (length bytes.now)) }
    ensures time { IsTrue F.tells → Passes (disk_of (F.shown file.old)) (disk_of (F.shown file.new)) }
{
    if broken {
        return Err(Refused);
    }
    if file.is_open() {
        return put(file, at, bytes);
    }
    match open_or_make(file) {
        Opening::Opened => put(file, at, bytes),
        Opening::Absent | Opening::Refused => Err(Refused),
    }
}

/// Syncs a file that is open.
fn sync_open<F: RawFile>(file: &mut F) -> Result<(), Refused>
    requires open { (F.shown file.old).is_open ≡ true }
    ensures recorded { (F.shown file.new).asked ≡ (F.shown file.old).asked ++ Syncs (is_ok result) ∷ [] }
    ensures synced { OnOk result (IsTrue F.tells
        → raw_now (F.shown file.new) ≡ synced_file (raw_now (F.shown file.old))) }
    ensures stays { OnErr result (IsTrue F.tells → raw_now (F.shown file.new) ≡ raw_now (F.shown file.old)) }
    ensures time { IsTrue F.tells → Passes (disk_of (F.shown file.old)) (disk_of (F.shown file.new)) }
{
    match file.sync() {
        Ok(()) => Ok(()),
        Err(_) => Err(Refused),
    }
}

/// Syncs the file that is open or is opened for it.
fn sync_file<F: RawFile>(file: &mut F, broken: bool) -> Result<(), Refused>
    ensures asks { Asks (F.shown file.old).asked (F.shown file.new).asked
        (λ calls. AsksToSync broken (F.shown file.old).is_open calls (is_ok result)) }
    ensures synced { OnOk result (IsTrue F.tells
        → raw_now (F.shown file.new) ≡ synced_file (raw_now (F.shown file.old))) }
    ensures stays { OnErr result (IsTrue F.tells → raw_now (F.shown file.new) ≡ raw_now (F.shown file.old)) }
    ensures time { IsTrue F.tells → Passes (disk_of (F.shown file.old)) (disk_of (F.shown file.new)) }
{
    if broken {
        return Err(Refused);
    }
    if file.is_open() {
        return sync_open(file);
    }
    match open_or_make(file) {
        Opening::Opened => sync_open(file),
        Opening::Absent | Opening::Refused => Err(Refused),
    }
}

/// The answer of a call, where a call that is refused is a fault that is counted.
fn count_fault(answer: Result<(), Refused>, faults: &mut u64) -> Result<(), DiskError>
    ensures same { is_ok result ≡ is_ok answer }
    ensures failed { IfErr result (λ error. error ≡ DiskError.Failed) }
    ensures stays { OnOk result (faults.new ≡ faults.old) }
    ensures once { OnErr result (RoseByOne faults.old faults.new) }
    ensures cause { OnErr result (Rose faults.old faults.new) }
    ensures stays_or_rises { faults.old ≤ faults.new }
{
    match answer {
        Ok(()) => Ok(()),
        Err(Refused) => {
            *faults = faults.saturating_add(1);
            Err(DiskError::Failed)
        }
    }
}

/// Reads as many bytes as are asked for, and counts a fault where the machine refused. Without memory for them
/// nothing is asked.
fn read_counted<F: RawFile>(
    alloc: Global,
    file: &mut F,
    broken: bool,
    at: u64,
    len: u32,
    faults: &mut u64,
) -> Result<Vec<u8>, DiskError>
    requires inside { at + len ≤ DISK_END }
    ensures asks { ¬ (IsErrOf result DiskError.NoMemory)
        → Asks (F.shown file.old).asked (F.shown file.new).asked (λ calls.
        AsksToRead broken (F.shown file.old).is_open at len calls (is_ok result)
        × IfOk result (λ v. v.items ≡ zeros_behind len (given_by calls))) }
    ensures asks_nothing { IsErrOf result DiskError.NoMemory → file.new ≡ file.old }
    ensures count { IfOk result (λ v. length v.items ≡ len) }
    ensures bytes { IfOk result
        (λ v. IsTrue F.tells → v.items ≡ bytes_at (raw_now (F.shown file.old)).bytes at len) }
    ensures stays { IsTrue F.tells → raw_now (F.shown file.new) ≡ raw_now (F.shown file.old) }
    ensures time { IsTrue F.tells → Passes (disk_of (F.shown file.old)) (disk_of (F.shown file.new)) }
    ensures faults { CountsFault faults.old faults.new result }
{
    let mut bytes = vec![in alloc; 0; len as usize]?;
    count_fault(read_file(file, broken, at, &mut bytes), faults)?;
    Ok(bytes)
}

impl<F: RawFile + Drop> Disk for FileDisk<F> {
    ghost use Rattle.std.specs.Prelude.{is_err};
    ghost use Rattle.crash_disk.specs.DiskView.{disk_read, disk_write, disk_sync};
    ghost use Rattle.crash_disk.specs.RawFile.{disk_with};

    ghost tells = { F.tells };

    ghost shown = { λ disk. disk_with (F.shown disk.file) disk.faults (asked_of disk.asked) };

    fn read(&mut self, alloc: Global, at: u64, len: u32) -> Result<Vec<u8>, DiskError>
        requires inside { at + len ≤ DISK_END }
        ensures asks { ¬ (IsErrOf result DiskError.NoMemory)
            → Asks (F.shown self.old.file).asked (F.shown self.new.file).asked (λ calls.
            AsksToRead self.old.broken (F.shown self.old.file).is_open at len calls (is_ok result)
            × IfOk result (λ v. v.items ≡ zeros_behind len (given_by calls))) }
        ensures asks_nothing { IsErrOf result DiskError.NoMemory → self.new.file ≡ self.old.file }
        ensures recorded { asked_of self.new.asked ≡ asked_of self.old.asked ++ disk_read at len result ∷ [] }
        ensures broken_stays { self.new.broken ≡ self.old.broken }
        ensures count { IfOk result (λ v. length v.items ≡ len) }
        ensures bytes { IfOk result
            (λ v. IsTrue F.tells → v.items ≡ bytes_at (raw_now (F.shown self.old.file)).bytes at len) }
        ensures stays { IsTrue F.tells → raw_now (F.shown self.new.file) ≡ raw_now (F.shown self.old.file) }
        ensures time { IsTrue F.tells → Passes
            (disk_with (F.shown self.old.file) self.old.faults (asked_of self.old.asked))
            (disk_with (F.shown self.new.file) self.new.faults (asked_of self.new.asked)) }
        ensures cause { IsErrOf result DiskError.Failed → Rose self.old.faults self.new.faults }
        ensures once { IsErrOf result DiskError.Failed → RoseByOne self.old.faults self.new.faults }
        ensures memory_is_no_fault { IsErrOf result DiskError.NoMemory → self.new.faults ≡ self.old.faults }
        ensures faults_stay { OnOk result (self.new.faults ≡ self.old.faults) }
        ensures faults_stay_or_rise { self.old.faults ≤ self.new.faults }
    {
        let answer = read_counted(
            alloc,
            &mut self.file,
            self.broken,
            at,
            len,
            &mut self.faults,
        );
        note_read(&mut self.asked, at, len, answer)
    }

    fn write_at(&mut self, at: u64, bytes: &[u8]) -> Result<(), DiskError>
        requires inside { at + length bytes.now ≤ DISK_END }
        ensures asks { Asks (F.shown self.old.file).asked (F.shown self.new.file).asked (λ calls.
            AsksToWrite self.old.broken (F.shown self.old.file).is_open at bytes.now calls (is_ok result)) }
        ensures breaks { self.new.broken ≡ is_err result }
        ensures recorded { asked_of self.new.asked
            ≡ asked_of self.old.asked ++ disk_write at bytes.now result ∷ [] }
        ensures never_no_memory { ¬ (IsErrOf result DiskError.NoMemory) }
        ensures written { OnOk result (IsTrue F.tells
            → raw_now (F.shown self.new.file) ≡ after_write (raw_now (F.shown self.old.file)) at bytes.now) }
        ensures torn { IsErrOf result DiskError.Failed → IsTrue F.tells
            → Torn (raw_now (F.shown self.old.file)) (raw_now (F.shown self.new.file)) at (length bytes.now) }
        ensures time { IsTrue F.tells → Passes
            (disk_with (F.shown self.old.file) self.old.faults (asked_of self.old.asked))
            (disk_with (F.shown self.new.file) self.new.faults (asked_of self.new.asked)) }
        ensures cause { IsErrOf result DiskError.Failed → Rose self.old.faults self.new.faults }
        ensures once { IsErrOf result DiskError.Failed → RoseByOne self.old.faults self.new.faults }
        ensures memory_is_no_fault { IsErrOf result DiskError.NoMemory → self.new.faults ≡ self.old.faults }
        ensures faults_stay { OnOk result (self.new.faults ≡ self.old.faults) }
        ensures faults_stay_or_rise { self.old.faults ≤ self.new.faults }
    {
        let answer = write_file(&mut self.file, self.broken, at, bytes);
        self.broken = answer.is_err();
        let answer = count_fault(answer, &mut self.faults);
        note_write(&mut self.asked, at, bytes, &answer);
        answer
    }

    fn sync(&mut self) -> Result<(), DiskError>
        ensures asks { Asks (F.shown self.old.file).asked (F.shown self.new.file).asked (λ calls.
            AsksToSync self.old.broken (F.shown self.old.file).is_open calls (is_ok result)) }
        ensures breaks { self.new.broken ≡ is_err result }
        ensures recorded { asked_of self.new.asked ≡ asked_of self.old.asked ++ disk_sync result ∷ [] }
        ensures never_no_memory { ¬ (IsErrOf result DiskError.NoMemory) }
        ensures synced { OnOk result (IsTrue F.tells
            → raw_now (F.shown self.new.file) ≡ synced_file (raw_now (F.shown self.old.file))) }
        ensures stays { OnErr result (IsTrue F.tells
            → raw_now (F.shown self.new.file) ≡ raw_now (F.shown self.old.file)) }
        ensures time { IsTrue F.tells → Passes
            (disk_with (F.shown self.old.file) self.old.faults (asked_of self.old.asked))
            (disk_with (F.shown self.new.file) self.new.faults (asked_of self.new.asked)) }
        ensures cause { IsErrOf result DiskError.Failed → Rose self.old.faults self.new.faults }
        ensures once { IsErrOf result DiskError.Failed → RoseByOne self.old.faults self.new.faults }
        ensures memory_is_no_fault { IsErrOf result DiskError.NoMemory → self.new.faults ≡ self.old.faults }
        ensures faults_stay { OnOk result (self.new.faults ≡ self.old.faults) }
        ensures faults_stay_or_rise { self.old.faults ≤ self.new.faults }
    {
        let answer = sync_file(&mut self.file, self.broken);
        self.broken = answer.is_err();
        let answer = count_fault(answer, &mut self.faults);
        note_sync(&mut self.asked, &answer);
        answer
    }
}
