//! Each line that hands a call to the machine, and notes it with the answer. A contract sees what is noted, and not what
//! is handed on: so these lines are read, and tried by `tools/asks-of-the-kernel`.
ghost use Rattle.std.specs.Prelude.{false};
ghost use Rattle.crash_disk.specs.HostFile.{host_view};
ghost use Rattle.outside_io.specs.HostFiles.{host_files_view};
ghost use Rattle.outside_io.specs.Machine.{out_calls};

use crate::{HostFile, HostFiles, HostOut, keep};
use crash_disk::{Opening, RawFile};
use outside_io::{RawFiles, RawOut};
use std::fs::{self, File, OpenFile};
use std::io::{self, Read, Write};
use std::os::unix::fs::FileExt;
use std::rt::Files;

impl<R: Files + Drop> RawFiles for HostFiles<R> {
    ghost tells = { false };

    ghost shown = { λ host. host_files_view host.file host.calls };

    fn open(&mut self, name: &str) -> io::Result<()> {
        let answer = keep(&mut self.file, fs::open(&self.rt, name));
        self.calls.note_open(name, answer)
    }

    fn read(&mut self, bytes: &mut [u8]) -> io::Result<usize> {
        let answer = self.file.as_mut().unwrap().read(bytes);
        self.calls.note_read(bytes, answer)
    }

    fn is_file(&mut self, name: &str) -> io::Result<bool> {
        let answer = self.rt.symlink_metadata(name).map(|found| found.is_file());
        self.calls.note_look(name, answer)
    }

    fn create(&mut self, name: &str) -> io::Result<()> {
        let answer = keep(&mut self.file, fs::create(&self.rt, name));
        self.calls.note_create(name, answer)
    }

    fn create_spare(&mut self, spare: &str) -> io::Result<()> {
        let answer = keep(&mut self.file, File::create_new(&self.rt, spare));
        self.calls.note_create_spare(spare, answer)
    }

    fn write(&mut self, bytes: &[u8]) -> io::Result<usize> {
        let answer = self.file.as_mut().unwrap().write(bytes);
        self.calls.note_write(bytes, answer)
    }

    fn sync(&mut self) -> io::Result<()> {
        let answer = self.file.as_mut().unwrap().sync_all();
        self.calls.note_sync(answer)
    }

    fn rename(&mut self, spare: &str, name: &str) -> io::Result<()> {
        let answer = self.rt.rename(spare, name);
        self.calls.note_rename(spare, name, answer)
    }

    fn remove(&mut self, spare: &str) -> io::Result<()> {
        let answer = self.rt.remove_file(spare);
        self.calls.note_remove(spare, answer)
    }

    fn close(&mut self) {
        self.file = None;
    }
}

impl<R: Files + Drop> RawFile for HostFile<R>
where
    R::File: FileExt,
{
    ghost tells = { false };

    ghost shown = { λ host. host_view host.file host.calls };

    fn is_open(&self) -> bool {
        self.file.is_some()
    }

    fn open(&mut self, makes: bool) -> Opening {
        let mut how = File::options();
        how.read(true).write(true).create(makes);
        let answer = keep(&mut self.file, how.open(&self.rt, "pull.slots"));
        self.calls.note_open(makes, Opening::of(&answer))
    }

    fn read_at(&mut self, at: u64, bytes: &mut [u8]) -> io::Result<usize> {
        let answer = self.file.as_ref().unwrap().read_at(bytes, at);
        self.calls.note_read(at, bytes, answer)
    }

    fn write_at(&mut self, at: u64, bytes: &[u8]) -> io::Result<usize> {
        let answer = self.file.as_ref().unwrap().write_at(bytes, at);
        self.calls.note_write(at, bytes, answer)
    }

    fn sync(&mut self) -> io::Result<()> {
        let answer = self.file.as_ref().unwrap().sync_all();
        self.calls.note_sync(answer)
    }

    fn sync_folder(&mut self) -> io::Result<()> {
        let answer = fs::open(&self.rt, ".").and_then(|folder| folder.sync_all());
        self.calls.note_sync_folder(answer)
    }
}

impl<P: Print + Drop> RawOut for HostOut<P> {
    ghost asked = { λ out. out_calls out.calls };

    fn write(&mut self, bytes: &[u8]) -> io::Result<usize> {
        let answer = self.rt.write_some(bytes);
        self.calls.note_write(bytes, answer)
    }
}
