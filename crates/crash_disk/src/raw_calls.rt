//! The calls of a file of the machine, for contracts alone.
ghost use Rattle.std.specs.Prelude.{◌≡◌, ◌++◌, ◌∷◌, [], is_ok};
ghost use Rattle.crash_disk.specs.HostFile.{calls_of};
ghost use Rattle.crash_disk.specs.RawFile.{RawCall, Opens, SyncsFolder, read_call, write_call, sync_call};

use crate::opening::Opening;
use line_base::Transcript;
use std::io;
use std::marker::Model;

/// How many bytes the machine read or took.
type Count = io::Result<usize>;

/// Stands in the type of a transcript for a call, as contracts see it. No value of it is made.
pub struct RawCallName {}

impl Model for RawCallName {
    ghost use Rattle.std.specs.Prelude.{false};
    ghost use Rattle.crash_disk.specs.RawFile.{RawCall, Syncs};

    ghost Value = { RawCall };

    ghost view = { λ _. Syncs false };
}

/// The calls with their answers, which only contracts see.
#[derive(Drop)]
pub struct RawCalls {
    calls: Transcript<RawCallName>,
}

/// Notes a call, which the caller's proof picks from the address and the bytes that were given to it and from its
/// answer, and hands on the answer.
fn note_call(calls: &mut Transcript<RawCallName>, at: u64, bytes: &[u8], answer: Count) -> Count
    ghost call: { RawCall }
    ensures same { result ≡ answer }
    ensures noted { calls.new.items ≡ calls.old.items ++ call ∷ [] }
{
    *calls = Transcript::of(&*calls);
    answer
}

impl RawCalls {
    /// No call yet.
    pub fn new() -> Self
        ensures { calls_of result ≡ [] }
    {
        RawCalls {
            calls: Transcript::new(),
        }
    }

    /// Notes that the file was opened, and hands on the answer.
    pub fn note_open(&mut self, makes: bool, answer: Opening) -> Opening
        ensures same { result ≡ answer }
        ensures noted { calls_of self.new ≡ calls_of self.old ++ Opens makes result ∷ [] }
    {
        self.calls = Transcript::of(&(&self.calls, makes, answer));
        answer
    }

    /// Notes that bytes were read, and hands on the answer.
    pub fn note_read(&mut self, at: u64, bytes: &[u8], answer: Count) -> Count
        ensures same { result ≡ answer }
        ensures noted { calls_of self.new ≡ calls_of self.old ++ read_call at bytes.now result ∷ [] }
    {
        note_call(&mut self.calls, at, bytes, answer)
    }

    /// Notes that bytes were written, and hands on the answer.
    pub fn note_write(&mut self, at: u64, bytes: &[u8], answer: Count) -> Count
        ensures same { result ≡ answer }
        ensures noted { calls_of self.new ≡ calls_of self.old ++ write_call at bytes.now result ∷ [] }
    {
        note_call(&mut self.calls, at, bytes, answer)
    }

    /// Notes a sync, and hands on the answer.
    pub fn note_sync(&mut self, answer: io::Result<()>) -> io::Result<()>
        ensures same { result ≡ answer }
        ensures noted { calls_of self.new ≡ calls_of self.old ++ sync_call result ∷ [] }
    {
        self.calls = Transcript::of(&(&self.calls, &answer));
        answer
    }

    /// Notes that the folder was synced, and hands on the answer.
    pub fn note_sync_folder(&mut self, answer: io::Result<()>) -> io::Result<()>
        ensures same { result ≡ answer }
        ensures noted { calls_of self.new ≡ calls_of self.old ++ SyncsFolder (is_ok result) ∷ [] }
    {
        self.calls = Transcript::of(&(&self.calls, &answer));
        answer
    }
}
