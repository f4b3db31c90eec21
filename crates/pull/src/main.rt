//! The program `pull`: it hands the words of the command line to the top call and ends with its status.
#![tactic(auto)]

mod hints;

use crash_disk::{Disk, FileDisk};
use hints::line_beside;
use host_calls::{HostFile, HostFiles, HostOut};
use line_workers::FreeGate;
use outside_io::{FileStore, Sink, StdSink, Store};
use pull_cli::pull;
use std::alloc::Global;
use std::fs::Files;
use std::process::ExitCode;
use std::rt::Env;
use std::sync::Wait;
use std::thread::Threads;
use std::{env, fs, io};

/// The status where the machine doesn't hand over the words, as where one is no UTF-8. The top call never answers it.
const NO_WORDS: u8 = 1;

/// The status where there is no memory for the words.
const NO_MEMORY: u8 = 9;

/// The words after the program's name.
fn words_of<R: Env + AllocGlobal>(rt: &R) -> io::Result<Vec<String>> {
    let mut words = env::args(rt)?;
    words.next();
    Ok(words.collect(rt.alloc())?)
}

/// The end with a status. Where there is something to say beside the answer, standard error gets a line: which status
/// it is, and what to do next. Whether that can be written changes nothing.
fn end<R: Eprint + AllocGlobal + Files, S: Store>(
    rt: &R,
    store: &mut S,
    status: u8,
    words: &[String],
) -> ExitCode {
    let _ = match line_beside(rt, rt.alloc(), store, status, words) {
        Ok(Some(line)) => eprintln!(rt; "{line}"),
        Ok(None) => Ok(()),
        Err(_) => eprintln!(rt; "pull: status {status}, and out of memory"),
    };
    status.into()
}

/// The status of the top call. What its contract says is let go here.
fn status_of<R: Threads + Wait + Sync, S: Store, K: Sink, D: Disk>(
    rt: &R,
    alloc: Global,
    words: &[String],
    store: &mut S,
    sink: &mut K,
    disk: &mut D,
) -> u8 {
    pull(rt, alloc, words, store, sink, &FreeGate, disk)
}

/// The status where the words can't be had.
fn status_without_words(error: &io::Error) -> u8 {
    match error.kind() {
        io::ErrorKind::OutOfMemory => NO_MEMORY,
        _ => NO_WORDS,
    }
}

fn main(rt: HostRuntime) -> ExitCode {
    // Where the program is started without standard input, output or error, the file that is opened
    // next gets its number. These get it first, and can only be read: a write to standard output
    // then fails, and no report goes into another file.
    let _held = [
        fs::open(&rt, "/dev/null"),
        fs::open(&rt, "/dev/null"),
        fs::open(&rt, "/dev/null"),
    ];
    let mut store = FileStore::over(rt.alloc(), HostFiles::new(&rt));
    match words_of(&rt) {
        Ok(words) => {
            let words = words.as_slice();
            let mut sink = StdSink::over(HostOut::new(rt.stdout()));
            let mut disk = FileDisk::over(HostFile::new(&rt));
            let status = status_of(&rt, rt.alloc(), words, &mut store, &mut sink, &mut disk);
            end(&rt, &mut store, status, words)
        }
        Err(error) => end(&rt, &mut store, status_without_words(&error), &[]),
    }
}
