//! Runs the cases of the case files, and prints a line for each.
#![tactic(auto)]

mod ending;
mod files;
mod findings;
mod lines;
mod looks;
mod reason;
mod run;
mod runner;
mod slots;
mod words;

use files::read_file;
use findings::Findings;
use host_calls::{HostFiles, HostOut};
use lines::{is_comment, line_at, lines_of};
use outside_io::{FileStore, Sink, StdSink, Store, put_all};
use reason::Reason;
use runner::run_case;
use std::alloc::{AllocError, Global};
use std::process::ExitCode;
use std::sync::Wait;
use std::thread::Threads;

/// The file that names the case files in order, one a line.
const LIST: &str = "CASES.txt";

/// The status where a case does what isn't wanted.
const FAILED: u8 = 1;

/// The status where the case files can't be followed.
const BROKEN: u8 = 2;

fn main(rt: HostRuntime) -> ExitCode {
    let alloc = rt.alloc();
    let mut folder = FileStore::over(alloc, HostFiles::new(&rt));
    let mut sink = StdSink::over(HostOut::new(rt.stdout()));
    match run_all(&rt, alloc, &mut folder, &mut sink) {
        Ok(true) => ExitCode::SUCCESS,
        Ok(false) => FAILED.into(),
        Err(_) => BROKEN.into(),
    }
}

/// Runs the cases of all case files. Answers whether each did what is wanted.
fn run_all<R: Threads + Wait + Sync, S: Store, K: Sink>(
    rt: &R,
    alloc: Global,
    folder: &mut S,
    sink: &mut K,
) -> Result<bool, Reason> {
    let mut all_well = true;
    let list = text_of(alloc, folder, LIST)?;
    for name in list.lines() {
        all_well &= run_file(rt, alloc, name, folder, sink)?;
    }
    Ok(all_well)
}

/// The text of a file.
fn text_of<S: Store>(alloc: Global, folder: &mut S, name: &str) -> Result<String, Reason> {
    match String::from_utf8(read_file(alloc, folder, name)?) {
        Ok(text) => Ok(text),
        Err(_) => Err(Reason::BadText),
    }
}

/// Runs the cases of a file.
fn run_file<R: Threads + Wait + Sync, S: Store, K: Sink>(
    rt: &R,
    alloc: Global,
    name: &str,
    folder: &mut S,
    sink: &mut K,
) -> Result<bool, Reason> {
    let text = text_of(alloc, folder, name)?;
    let lines = lines_of(alloc, text.as_str())?;
    let ran = run_cases(rt, alloc, name, &lines, folder, sink);
    drop(lines);
    ran
}

/// Runs the cases of the lines of a file in order.
fn run_cases<R: Threads + Wait + Sync, S: Store, K: Sink>(
    rt: &R,
    alloc: Global,
    name: &str,
    lines: &[&str],
    folder: &mut S,
    sink: &mut K,
) -> Result<bool, Reason> {
    let mut all_well = true;
    let mut has_case = false;
    for index in 0..lines.len() {
        let (line, below) = line_at(&*lines, index);
        if let Some(title) = line.strip_prefix("case ") {
            has_case = true;
            let findings = run_case(rt, alloc, lines.len(), below, folder);
            let reported = report(alloc, name, title, &findings, sink);
            drop(findings);
            all_well &= reported?;
        } else if !has_case && !is_comment(line) {
            return Err(Reason::NoCase);
        }
    }
    Ok(all_well)
}

/// Prints the line of a case that was run, with its findings. Answers whether it did what is wanted.
fn report<K: Sink>(
    alloc: Global,
    name: &str,
    title: &str,
    findings: &Findings,
    sink: &mut K,
) -> Result<bool, Reason> {
    let mut line = format!(in alloc; "{name}: {title}")?;
    let well = write_outcome(&mut line, findings)?;
    print(sink, line.as_bytes())?;
    print(sink, &findings.text)?;
    Ok(well)
}

/// Writes whether a case did what is wanted. Answers whether it did.
fn write_outcome(line: &mut String, findings: &Findings) -> Result<bool, AllocError> {
    if let Some(reason) = findings.stopped {
        write!(line, ", line {}: {reason}\n", findings.line)?;
        return Ok(false);
    }
    let well = findings.text.is_empty();
    line.push_str(if well { " ok\n" } else { " FAILED\n" })?;
    Ok(well)
}

/// Prints some bytes.
fn print<K: Sink>(sink: &mut K, bytes: &[u8]) -> Result<(), Reason> {
    match put_all(sink, bytes) {
        Ok(()) => Ok(()),
        Err(_) => Err(Reason::NoSink),
    }
}
