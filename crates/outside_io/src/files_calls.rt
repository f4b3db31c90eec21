//! The calls of the files of the machine, for contracts alone.
ghost use Rattle.std.specs.Prelude.{◌≡◌, ◌++◌, ◌∷◌, [], is_ok};
ghost use Rattle.outside_io.specs.HostFiles.{files_calls};
ghost use Rattle.outside_io.specs.RawFiles.{Opens, Looks, Creates, CreatesSpare, Syncs, Renames, Removes, by_kind, read_call, write_call};

use crate::noting::note_call;
use line_base::Transcript;
use std::io;
use std::marker::Model;

/// Stands in the type of a transcript for a call, as contracts see it. No value of it is made.
pub struct FilesCallName {}

impl Model for FilesCallName {
    ghost use Rattle.std.specs.Prelude.{[], false};
    ghost use Rattle.outside_io.specs.RawFiles.{FilesCall, Opens};

    ghost Value = { FilesCall };

    ghost view = { λ _. Opens [] false };
}

/// The calls with their answers, which only contracts see.
#[derive(Drop)]
pub struct FilesCalls {
    calls: Transcript<FilesCallName>,
}

impl FilesCalls {
    /// No call yet.
    pub fn new() -> Self
        ensures { files_calls result ≡ [] }
    {
        FilesCalls {
            calls: Transcript::new(),
        }
    }

    /// Notes that a file was opened to be read, and hands on the answer.
    pub fn note_open(&mut self, name: &str, answer: io::Result<()>) -> io::Result<()>
        ensures same { result ≡ answer }
        ensures noted { files_calls self.new ≡ files_calls self.old ++ Opens name.now (is_ok result) ∷ [] }
    {
        note_call(&mut self.calls, name.as_bytes(), &[], answer)
    }

    /// Notes that bytes were read, and hands on the answer.
    pub fn note_read(&mut self, bytes: &[u8], answer: io::Result<usize>) -> io::Result<usize>
        ensures same { result ≡ answer }
        ensures noted { files_calls self.new ≡ files_calls self.old ++ read_call bytes.now result ∷ [] }
    {
        note_call(&mut self.calls, bytes, &[], answer)
    }

    /// Notes that a name was looked at, and hands on the answer.
    pub fn note_look(&mut self, name: &str, answer: io::Result<bool>) -> io::Result<bool>
        ensures same { result ≡ answer }
        ensures noted { files_calls self.new ≡ files_calls self.old ++ Looks name.now (by_kind result) ∷ [] }
    {
        note_call(&mut self.calls, name.as_bytes(), &[], answer)
    }

    /// Notes that a file was made or emptied, and hands on the answer.
    pub fn note_create(&mut self, name: &str, answer: io::Result<()>) -> io::Result<()>
        ensures same { result ≡ answer }
        ensures noted { files_calls self.new ≡ files_calls self.old ++ Creates name.now (is_ok result) ∷ [] }
    {
        note_call(&mut self.calls, name.as_bytes(), &[], answer)
    }

    /// Notes that a spare file was made, and hands on the answer.
    pub fn note_create_spare(&mut self, spare: &str, answer: io::Result<()>) -> io::Result<()>
        ensures same { result ≡ answer }
        ensures noted { files_calls self.new
            ≡ files_calls self.old ++ CreatesSpare spare.now (by_kind result) ∷ [] }
    {
        note_call(&mut self.calls, spare.as_bytes(), &[], answer)
    }

    /// Notes that bytes were written, and hands on the answer.
    pub fn note_write(&mut self, bytes: &[u8], answer: io::Result<usize>) -> io::Result<usize>
        ensures same { result ≡ answer }
        ensures noted { files_calls self.new ≡ files_calls self.old ++ write_call bytes.now result ∷ [] }
    {
        note_call(&mut self.calls, bytes, &[], answer)
    }

    /// Notes a sync, and hands on the answer.
    pub fn note_sync(&mut self, answer: io::Result<()>) -> io::Result<()>
        ensures same { result ≡ answer }
        ensures noted { files_calls self.new ≡ files_calls self.old ++ Syncs (is_ok result) ∷ [] }
    {
        note_call(&mut self.calls, &[], &[], answer)
    }

    /// Notes that a spare file got the name of a file, and hands on the answer.
    pub fn note_rename(&mut self, spare: &str, name: &str, answer: io::Result<()>) -> io::Result<()>
        ensures same { result ≡ answer }
        ensures noted { files_calls self.new
            ≡ files_calls self.old ++ Renames spare.now name.now (is_ok result) ∷ [] }
    {
        note_call(&mut self.calls, spare.as_bytes(), name.as_bytes(), answer)
    }

    /// Notes that a spare file was removed, and hands on the answer.
    pub fn note_remove(&mut self, spare: &str, answer: io::Result<()>) -> io::Result<()>
        ensures same { result ≡ answer }
        ensures noted { files_calls self.new ≡ files_calls self.old ++ Removes spare.now (is_ok result) ∷ [] }
    {
        note_call(&mut self.calls, spare.as_bytes(), &[], answer)
    }
}
