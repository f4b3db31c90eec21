//! The machine below the program: its files, the file of the slots, and standard output. Every line of the program that
//! hands a call to the machine stands in `calls.rt`.
#![tactic(auto)]

ghost use Rattle.std.specs.Prelude.{◌≡◌, [], None, true, is_ok, is_some, OnOk, OnErr};
ghost use Rattle.crash_disk.specs.HostFile.{calls_of};
ghost use Rattle.outside_io.specs.HostFiles.{files_calls};
ghost use Rattle.outside_io.specs.Machine.{out_calls};

mod calls;

use crash_disk::RawCalls;
use outside_io::{FilesCalls, OutCalls};
use std::io;
use std::rt::Files;

/// The files of the machine, by their paths from the folder in which the program runs.
#[derive(Drop)]
pub struct HostFiles<R: Files + Drop> {
    rt: R,
    file: Option<R::File>,
    calls: FilesCalls,
}

impl<R: Files + Drop> HostFiles<R> {
    /// The runtime that opens files, or a reference to it.
    pub fn new(rt: R) -> Self
        ensures opens { result.rt ≡ rt }
        ensures not_open { result.file ≡ None }
        ensures nothing_asked { files_calls result.calls ≡ [] }
    {
        HostFiles {
            rt,
            file: None,
            calls: FilesCalls::new(),
        }
    }
}

/// The file `pull.slots` of the machine, in the folder in which the program runs.
#[derive(Drop)]
pub struct HostFile<R: Files + Drop> {
    rt: R,
    file: Option<R::File>,
    calls: RawCalls,
}

impl<R: Files + Drop> HostFile<R> {
    /// The runtime that opens files, or a reference to it.
    pub fn new(rt: R) -> Self
        ensures opens { result.rt ≡ rt }
        ensures not_open { result.file ≡ None }
        ensures nothing_asked { calls_of result.calls ≡ [] }
    {
        HostFile {
            rt,
            file: None,
            calls: RawCalls::new(),
        }
    }
}

/// Standard output.
#[derive(Drop)]
pub struct HostOut<P: Print + Drop> {
    rt: P,
    calls: OutCalls,
}

impl<P: Print + Drop> HostOut<P> {
    /// The runtime that prints, or a reference to it.
    pub fn new(rt: P) -> Self
        ensures prints { result.rt ≡ rt }
        ensures nothing_asked { out_calls result.calls ≡ [] }
    {
        HostOut {
            rt,
            calls: OutCalls::new(),
        }
    }
}

/// Keeps a file that was opened, in place of the one before.
fn keep<F: Drop>(file: &mut Option<F>, answer: io::Result<F>) -> io::Result<()>
    ensures same { is_ok result ≡ is_ok answer }
    ensures opened { OnOk result (is_some file.new ≡ true) }
    ensures stays { OnErr result (file.new ≡ file.old) }
{
    *file = Some(answer?);
    Ok(())
}
