//! The calls of a disk, for contracts alone.
ghost use Rattle.std.specs.Prelude.{◌≡◌, ◌++◌, ◌∷◌, [], Ok};
ghost use Rattle.crash_disk.specs.DiskView.{DiskAsk, Sync, disk_read, disk_write, disk_sync};
ghost use Rattle.crash_disk.specs.Asked.{asked_of};

use crate::disk::DiskError;
use line_base::Transcript;
use std::marker::Model;

/// Stands in the type of a transcript for a call, as contracts see it. No value of it is made.
pub struct AskName {}

impl Model for AskName {
    ghost Value = { DiskAsk };

    ghost view = { λ _. Sync (Ok tt) };
}

/// The calls of a disk with their answers, which only contracts see.
pub type AskLog = Transcript<AskName>;

/// Notes a read, and hands on its answer.
pub fn note_read(
    asked: &mut AskLog,
    at: u64,
    len: u32,
    answer: Result<Vec<u8>, DiskError>,
) -> Result<Vec<u8>, DiskError>
    ensures same { result ≡ answer }
    ensures noted { asked_of asked.new ≡ asked_of asked.old ++ disk_read at len result ∷ [] }
{
    *asked = Transcript::of(&(&*asked, at, len, &answer));
    answer
}

/// Notes a write with its answer.
pub fn note_write(asked: &mut AskLog, at: u64, bytes: &[u8], answer: &Result<(), DiskError>)
    ensures { asked_of asked.new ≡ asked_of asked.old ++ disk_write at bytes.now answer.now ∷ [] }
{
    *asked = Transcript::of(&(&*asked, at, bytes, answer));
}

/// Notes a sync with its answer.
pub fn note_sync(asked: &mut AskLog, answer: &Result<(), DiskError>)
    ensures { asked_of asked.new ≡ asked_of asked.old ++ disk_sync answer.now ∷ [] }
{
    *asked = Transcript::of(&(&*asked, answer));
}
