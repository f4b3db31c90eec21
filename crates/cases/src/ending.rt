//! A command over files, a sink and a disk in memory.
use crate::files::content_of;
use crate::looks::{arcs_of, circuits_of};
use crate::reason::{Reason, both_if_ok, value_if_ok};
use crate::run::Faults;
use crate::runner::{Attempt, Found};
use crate::slots::{Crash, Slots};
use crash_disk::MemDisk;
use line_workers::FreeGate;
use outside_io::{Files, MemSink, MemStore, put_all};
use pull_cli::pull;
use std::alloc::Global;
use std::sync::Wait;
use std::thread::Threads;

/// How a command ends: its status, and the files, the sink and the disk as it leaves them.
#[derive(Drop)]
pub struct Ending {
    pub status: u8,
    store: MemStore,
    sink: MemSink,
    disk: MemDisk,
}

impl Ending {
    /// The files, the sink and the disk as a command finds them.
    fn at_start(alloc: Global, attempt: &Attempt) -> Result<Self, Reason> {
        let faults = attempt.faults;
        let sink = sink_of(alloc, faults)?;
        let (sink, store) = both_if_ok(sink, store_of(alloc, &attempt.found.files, faults))?;
        let disk = attempt.found.slots.disk(alloc, faults.disk);
        let ((sink, store), disk) = both_if_ok((sink, store), disk)?;
        Ok(Ending {
            status: 0,
            store,
            sink,
            disk,
        })
    }

    /// What was written.
    pub fn written(&self) -> &[u8] {
        self.sink.written()
    }

    /// The files.
    pub fn files(&self) -> &Files {
        self.store.files()
    }

    /// What the commands below find, where this crash comes.
    pub fn leftover(&self, alloc: Global, crash: Crash) -> Result<Found, Reason> {
        let slots = Slots::left_by(alloc, &self.disk, crash)?;
        let (slots, files) = both_if_ok(slots, copy_of(self.files()))?;
        Ok(Found { files, slots })
    }
}

/// A copy of files.
fn copy_of(files: &Files) -> Result<Files, Reason> {
    Ok(files.clone()?)
}

/// A sink with these faults.
fn sink_of(alloc: Global, faults: Faults) -> Result<MemSink, Reason> {
    let failing = vec![in alloc; faults.put]?;
    let keep = faults.keep.unwrap_or(0);
    Ok(MemSink::new(alloc, faults.room, failing, keep)?)
}

/// A store of these files, with these faults.
fn store_of(alloc: Global, files: &Files, faults: Faults) -> Result<MemStore, Reason> {
    let failing = vec![in alloc; faults.store]?;
    let files = files.clone()?;
    Ok(match faults.keep {
        None => MemStore::new(alloc, files, failing),
        Some(keep) => MemStore::torn(alloc, files, failing, keep),
    })
}

/// How a command ends: a look, or the top call.
pub fn ending_of<R: Threads + Wait + Sync>(
    rt: &R,
    alloc: Global,
    attempt: &Attempt,
) -> Result<Ending, Reason> {
    let mut ending = Ending::at_start(alloc, attempt)?;
    let outcome = run_words(rt, alloc, attempt, &mut ending);
    value_if_ok(ending, outcome)
}

/// Runs the words of a command.
fn run_words<R: Threads + Wait + Sync>(
    rt: &R,
    alloc: Global,
    attempt: &Attempt,
    ending: &mut Ending,
) -> Result<(), Reason> {
    let Some((program, words)) = attempt.words.split_first() else {
        return Err(Reason::NoDirective);
    };
    if program.as_str() != "pull" {
        return look(alloc, program.as_str(), words, attempt, &mut ending.sink);
    }
    ending.status = status_of(
        rt,
        alloc,
        words,
        &mut ending.store,
        &mut ending.sink,
        &mut ending.disk,
    );
    Ok(())
}

/// The status of the top call. What its contract says is let go here.
fn status_of<R: Threads + Wait + Sync>(
    rt: &R,
    alloc: Global,
    words: &[String],
    store: &mut MemStore,
    sink: &mut MemSink,
    disk: &mut MemDisk,
) -> u8 {
    pull(rt, alloc, words, store, sink, &FreeGate, disk)
}

/// Writes what a look shows.
fn look(
    alloc: Global,
    name: &str,
    words: &[String],
    attempt: &Attempt,
    sink: &mut MemSink,
) -> Result<(), Reason> {
    let text = look_of(alloc, name, words, attempt)?;
    match put_all(sink, &text) {
        Ok(()) => Ok(()),
        Err(_) => Err(Reason::NoSink),
    }
}

/// What a look at the slots or at a plant shows.
fn look_of(
    alloc: Global,
    name: &str,
    words: &[String],
    attempt: &Attempt,
) -> Result<Vec<u8>, Reason> {
    let found = attempt.found;
    match (name, words) {
        ("slots", []) => found.slots.text(alloc),
        ("arcs", [file]) => arcs_of(alloc, content_of(&found.files, file.as_str())),
        ("circuits", [file]) => circuits_of(alloc, content_of(&found.files, file.as_str())),
        _ => Err(Reason::NoDirective),
    }
}
