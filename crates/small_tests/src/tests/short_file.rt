ghost use Rattle.std.specs.Prelude.{◌≡◌, ◌≢◌, ◌+◌, ◌≤◌, length, true, IfOk, IfSome};
ghost use Rattle.crash_disk.specs.declared.opening.Opening.TheVariants.{Opened};

use crate::tests::parts::{copy_first, first};
use crash_disk::{DISK_END, Disk, MemDisk, Opening, RawCalls, RawFile};
use std::alloc::Global;
use std::io;

/// A file over a disk in memory, which takes and gives at most `most` bytes a call. Each call of it is one of the disk,
/// to open it too, so each can fail and be cut by a crash.
#[derive(Drop)]
pub struct ShortFile {
    alloc: Global,
    pub disk: MemDisk,
    is_there: bool,
    is_open: bool,
    most: u32,
    calls: RawCalls,
}

impl ShortFile {
    /// A file that is there or not, over a disk.
    pub fn new(alloc: Global, disk: MemDisk, is_there: bool, most: u32) -> ShortFile {
        ShortFile {
            alloc,
            disk,
            is_there,
            is_open: false,
            most,
            calls: RawCalls::new(),
        }
    }

    /// What opening it answers.
    fn answer_open(&mut self, makes: bool) -> Opening
        ensures calls { self.new.calls ≡ self.old.calls }
        ensures opened { result ≡ Opened → self.new.is_open ≡ true }
        ensures refused { result ≢ Opened → self.new.is_open ≡ self.old.is_open }
    {
        if self.disk.read(self.alloc, 0, 0).is_err() {
            return Opening::Refused;
        }
        if !self.is_there && !makes {
            return Opening::Absent;
        }
        self.is_there = true;
        self.is_open = true;
        Opening::Opened
    }

    /// The bytes that one call takes or gives of a buffer of this length, or none where they go past the end of a disk.
    fn share(&self, at: u64, len: usize) -> Option<u32>
        ensures few { IfSome result (λ most. most ≤ len) }
        ensures inside { IfSome result (λ most. at + most ≤ DISK_END) }
    {
        let most = len.min(self.most as usize) as u32;
        if at > DISK_END - u64::from(u32::MAX) {
            return None;
        }
        Some(most)
    }

    /// What a read answers.
    fn answer_read(&mut self, at: u64, bytes: &mut [u8]) -> io::Result<usize>
        ensures calls { self.new.calls ≡ self.old.calls }
        ensures open { self.new.is_open ≡ self.old.is_open }
        ensures bound { IfOk result (λ n. n ≤ length bytes.new) }
    {
        let Some(most) = self.share(at, bytes.len()) else {
            return Err(io::ErrorKind::FileTooLarge.into());
        };
        match self.disk.read(self.alloc, at, most) {
            Ok(read) => {
                let count = copy_first(&read, bytes, most as usize);
                drop(read);
                Ok(count)
            }
            Err(_) => Err(io::ErrorKind::Other.into()),
        }
    }

    /// What a write answers.
    fn answer_write(&mut self, at: u64, bytes: &[u8]) -> io::Result<usize>
        ensures calls { self.new.calls ≡ self.old.calls }
        ensures open { self.new.is_open ≡ self.old.is_open }
        ensures bound { IfOk result (λ n. n ≤ length bytes.now) }
    {
        let Some(most) = self.share(at, bytes.len()) else {
            return Err(io::ErrorKind::FileTooLarge.into());
        };
        let taken = first(bytes, most as usize);
        match self.disk.write_at(at, taken) {
            Ok(()) => Ok(taken.len()),
            Err(_) => Err(io::ErrorKind::StorageFull.into()),
        }
    }
}

impl RawFile for ShortFile {
    ghost use Rattle.std.specs.Prelude.{false};
    ghost use Rattle.crash_disk.specs.DiskView.{blank};
    ghost use Rattle.crash_disk.specs.HostFile.{calls_of};

    ghost tells = { false };

    ghost shown = { λ file. record { is_open = file.is_open; asked = calls_of file.calls; moment = 0; held = λ _. blank } };

    fn is_open(&self) -> bool {
        self.is_open
    }

    fn open(&mut self, makes: bool) -> Opening {
        let answer = self.answer_open(makes);
        self.calls.note_open(makes, answer)
    }

    fn read_at(&mut self, at: u64, bytes: &mut [u8]) -> io::Result<usize> {
        let answer = self.answer_read(at, bytes);
        self.calls.note_read(at, bytes, answer)
    }

    fn write_at(&mut self, at: u64, bytes: &[u8]) -> io::Result<usize> {
        let answer = self.answer_write(at, bytes);
        self.calls.note_write(at, bytes, answer)
    }

    fn sync(&mut self) -> io::Result<()> {
        let answer = match self.disk.sync() {
            Ok(()) => Ok(()),
            Err(_) => Err(io::ErrorKind::Other.into()),
        };
        self.calls.note_sync(answer)
    }

    fn sync_folder(&mut self) -> io::Result<()> {
        self.calls.note_sync_folder(Ok(()))
    }
}
