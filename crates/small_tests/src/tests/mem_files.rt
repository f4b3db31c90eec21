ghost use Rattle.std.specs.Prelude.{◌≡◌, ◌≤◌, length, true, IfOk, IsErr};

use crate::tests::parts::{copy_first, first};
use outside_io::{FilesCalls, RawFiles};
use std::alloc::{AllocError, Global};
use std::io;
use std::io::ErrorKind;

/// A file in memory: what reads give of it, and what of it was synced.
#[derive(Drop)]
struct MemFile {
    bytes: Vec<u8>,
    synced: Vec<u8>,
}

impl MemFile {
    /// An empty file.
    fn empty(alloc: Global) -> MemFile {
        MemFile {
            bytes: Vec::new(alloc),
            synced: Vec::new(alloc),
        }
    }

    /// Puts bytes behind those that it has.
    fn append(&mut self, bytes: &[u8]) -> Result<(), AllocError> {
        self.bytes.extend_from_slice(bytes)
    }

    /// Makes what was written durable.
    fn settle(&mut self) -> Result<(), AllocError> {
        self.synced.clear();
        self.synced.extend_from_slice(&self.bytes)
    }
}

/// How a machine fails, and what it takes and gives.
#[derive(Clone, Copy)]
pub struct Faults {
    /// The first call that fails, and the last one, by their numbers from 1; all from the first on where the machine
    /// stops.
    pub calls: (u32, u32),
    /// How many bytes a call takes and gives at most.
    pub most: usize,
    /// Whether no spare file can be made.
    pub bars_spare: bool,
}

/// A file that is there, and the spare one beside it, as a machine has them. No contract speaks of it.
#[derive(Drop)]
struct Machine {
    alloc: Global,
    faults: Faults,
    named: MemFile,
    spare: Option<MemFile>,
    writes_spare: bool,
    read: usize,
    count: u32,
}

/// The answer of a machine that refuses.
fn refused<T>() -> io::Result<T>
    ensures { IsErr result }
{
    Err(ErrorKind::StorageFull.into())
}

impl Machine {
    /// Counts a call, and says whether it is to fail.
    fn is_due(&mut self) -> bool {
        self.count = self.count.saturating_add(1);
        let (first, last) = self.faults.calls;
        first <= self.count && self.count <= last
    }

    /// What a call answers that does nothing.
    fn answer(&mut self) -> io::Result<()> {
        if self.is_due() {
            return refused();
        }
        Ok(())
    }

    /// What looking at the name answers.
    fn look(&mut self) -> io::Result<bool> {
        if self.is_due() {
            return refused();
        }
        Ok(true)
    }

    /// What opening the file to be read answers.
    fn open(&mut self) -> io::Result<()> {
        self.read = 0;
        self.answer()
    }

    /// What a read answers.
    fn read(&mut self, bytes: &mut [u8]) -> io::Result<usize>
        ensures { IfOk result (λ n. n ≤ length bytes.new) }
    {
        if self.is_due() {
            return refused();
        }
        let file = &self.named;
        let left = file.bytes.get(self.read..).unwrap_or(&[]);
        let count = copy_first(left, bytes, self.faults.most);
        self.read = self.read.saturating_add(count);
        Ok(count)
    }

    /// What making or emptying the file answers.
    fn create(&mut self) -> io::Result<()> {
        if self.is_due() {
            return refused();
        }
        replace(&mut self.named, MemFile::empty(self.alloc));
        self.writes_spare = false;
        Ok(())
    }

    /// What making the spare file answers.
    fn create_spare(&mut self) -> io::Result<()> {
        if self.is_due() {
            return refused();
        }
        if self.faults.bars_spare {
            return Err(ErrorKind::PermissionDenied.into());
        }
        if self.spare.is_some() {
            return Err(ErrorKind::AlreadyExists.into());
        }
        replace(&mut self.spare, Some(MemFile::empty(self.alloc)));
        self.writes_spare = true;
        Ok(())
    }

    /// The file that is written to.
    fn written(&mut self) -> &mut MemFile {
        match &mut self.spare {
            Some(spare) if self.writes_spare => spare,
            _ => &mut self.named,
        }
    }

    /// What a write answers.
    fn write(&mut self, bytes: &[u8]) -> io::Result<usize>
        ensures { IfOk result (λ n. n ≤ length bytes.now) }
    {
        if self.is_due() {
            return refused();
        }
        let taken = first(bytes, self.faults.most);
        match self.written().append(taken) {
            Ok(()) => Ok(taken.len()),
            Err(_) => refused(),
        }
    }

    /// What a sync answers.
    fn sync(&mut self) -> io::Result<()> {
        if self.is_due() {
            return refused();
        }
        match self.written().settle() {
            Ok(()) => Ok(()),
            Err(_) => refused(),
        }
    }

    /// What renaming the spare file answers.
    fn rename(&mut self) -> io::Result<()> {
        if self.is_due() {
            return refused();
        }
        match self.spare.take() {
            Some(spare) => {
                replace(&mut self.named, spare);
                Ok(())
            }
            None => refused(),
        }
    }

    /// What removing the spare file answers.
    fn remove(&mut self) -> io::Result<()> {
        if self.is_due() || self.spare.is_none() {
            return refused();
        }
        replace(&mut self.spare, None);
        Ok(())
    }
}

/// Puts a value in the place of another, which is let go here.
fn replace<T: Drop>(place: &mut T, value: T) {
    *place = value;
}

/// The files of a machine in memory, which counts its calls.
#[derive(Drop)]
pub struct MemFiles {
    machine: Machine,
    is_open: bool,
    calls: FilesCalls,
}

impl MemFiles {
    /// A file that holds these bytes, which were synced.
    pub fn new(alloc: Global, bytes: &[u8], faults: Faults) -> Result<MemFiles, AllocError> {
        let named = MemFile {
            bytes: bytes.to_vec(alloc)?,
            synced: bytes.to_vec(alloc)?,
        };
        let machine = Machine {
            alloc,
            faults,
            named,
            spare: None,
            writes_spare: false,
            read: 0,
            count: 0,
        };
        Ok(MemFiles {
            machine,
            is_open: false,
            calls: FilesCalls::new(),
        })
    }

    /// What the file holds, or what a crash leaves of it, where that is asked for.
    pub fn content(&self, after_crash: bool) -> &[u8] {
        if after_crash {
            &self.machine.named.synced
        } else {
            &self.machine.named.bytes
        }
    }

    /// Whether a spare file is there.
    pub fn has_spare(&self) -> bool {
        self.machine.spare.is_some()
    }
}

/// The answer of a call that opens a file, where it goes well.
fn opened(is_open: &mut bool, answer: io::Result<()>) -> io::Result<()>
    ensures same { result ≡ answer }
    ensures opened { IfOk result (λ _. is_open.new ≡ true) }
{
    if answer.is_ok() {
        *is_open = true;
    }
    answer
}

impl RawFiles for MemFiles {
    ghost use Rattle.std.specs.Prelude.{[], None, false};
    ghost use Rattle.outside_io.specs.HostFiles.{files_calls};
    ghost use Rattle.outside_io.specs.RawFiles.{Named};

    ghost tells = { false };

    ghost shown = { λ files. record {
      is_open = files.is_open;
      asked = files_calls files.calls;
      held = λ _. None;
      left = [];
      writes_to = Named [];
    } };

    fn open(&mut self, name: &str) -> io::Result<()> {
        let answer = opened(&mut self.is_open, self.machine.open());
        self.calls.note_open(name, answer)
    }

    fn read(&mut self, bytes: &mut [u8]) -> io::Result<usize> {
        let answer = self.machine.read(bytes);
        self.calls.note_read(bytes, answer)
    }

    fn is_file(&mut self, name: &str) -> io::Result<bool> {
        let answer = self.machine.look();
        self.calls.note_look(name, answer)
    }

    fn create(&mut self, name: &str) -> io::Result<()> {
        let answer = opened(&mut self.is_open, self.machine.create());
        self.calls.note_create(name, answer)
    }

    fn create_spare(&mut self, spare: &str) -> io::Result<()> {
        let answer = opened(&mut self.is_open, self.machine.create_spare());
        self.calls.note_create_spare(spare, answer)
    }

    fn write(&mut self, bytes: &[u8]) -> io::Result<usize> {
        let answer = self.machine.write(bytes);
        self.calls.note_write(bytes, answer)
    }

    fn sync(&mut self) -> io::Result<()> {
        let answer = self.machine.sync();
        self.calls.note_sync(answer)
    }

    fn rename(&mut self, spare: &str, name: &str) -> io::Result<()> {
        let answer = self.machine.rename();
        self.calls.note_rename(spare, name, answer)
    }

    fn remove(&mut self, spare: &str) -> io::Result<()> {
        let answer = self.machine.remove();
        self.calls.note_remove(spare, answer)
    }

    fn close(&mut self) {
        self.is_open = false;
    }
}
