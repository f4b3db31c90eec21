//! Runs a case, and finds what it does that isn't wanted.
use crate::ending::{Ending, ending_of};
use crate::files::{output_of, put_file, wanted_files};
use crate::findings::Findings;
use crate::lines::{belongs, line_at};
use crate::reason::{Reason, both_if_ok, replace, value_if_ok};
use crate::run::{Faults, Run, run_of};
use crate::slots::Slots;
use crate::words::{Words, command_words};
use outside_io::{Files, Store};
use std::alloc::Global;
use std::sync::Wait;
use std::thread::Threads;

/// The status where a call of the store fails.
const STORE_FAULT: u32 = 5;

/// The status where the output can't be written.
const OUTPUT_FAULT: u32 = 6;

/// The status where a call of the disk fails.
const DISK_FAULT: u32 = 12;

/// What a command finds: the files of the store, and the slots of the disk.
#[derive(Drop)]
pub struct Found {
    pub files: Files,
    pub slots: Slots,
}

/// The words of a command, and what is wanted of it beside its status.
#[derive(Drop)]
struct Request {
    words: Vec<String>,
    output: Vec<u8>,
    files: Files,
}

/// A command that is tried over files and slots, and what is wanted of it.
#[derive(Clone, Copy)]
pub struct Attempt<'a> {
    /// The line that asks for it.
    pub line: &'a str,
    pub words: &'a [String],
    pub found: &'a Found,
    pub faults: Faults,
    status: u32,
    output: &'a [u8],
    files: &'a Files,
}

/// What each step of a case runs on.
#[derive(Drop)]
struct Bench<'a, R, S> {
    rt: &'a R,
    alloc: Global,
    /// The folder of the case files.
    folder: &'a mut S,
    findings: &'a mut Findings,
    /// How many lines the case file has.
    lines: usize,
}

/// What is found in the case of a file of this many lines that begins above these.
pub fn run_case<R: Threads + Wait + Sync, S: Store>(
    rt: &R,
    alloc: Global,
    lines: usize,
    below: &[&str],
    folder: &mut S,
) -> Findings {
    let mut found = Found {
        files: Files::new(alloc),
        slots: Slots::blank(alloc),
    };
    let mut findings = Findings::new(alloc);
    let mut bench = Bench {
        rt,
        alloc,
        folder,
        findings: &mut findings,
        lines,
    };
    let ran = bench.run_steps(below, &mut found);
    drop(found);
    findings.stopped = ran.err();
    findings
}

impl<'a, R: Threads + Wait + Sync, S: Store> Bench<'a, R, S> {
    /// Runs the steps of a case in order, up to the next case. The last is to be a command.
    fn run_steps(&mut self, lines: &[&str], found: &mut Found) -> Result<(), Reason> {
        let mut opener = "case";
        for index in 0..lines.len() {
            let (line, below) = line_at(&*lines, index);
            if line.starts_with("case ") {
                break;
            }
            if let Some(word) = self.run_step(line, below, opener, found)? {
                opener = word;
            }
        }
        if opener == "$" {
            Ok(())
        } else {
            Err(Reason::NoLastCommand)
        }
    }

    /// Runs the step that begins with a line, if one does, and answers its first word.
    fn run_step<'b>(
        &mut self,
        line: &'b str,
        below: &[&str],
        opener: &str,
        found: &mut Found,
    ) -> Result<Option<&'b str>, Reason> {
        let mut words = Words::of(line);
        let word = words.word();
        self.findings.line = self.lines.saturating_sub(below.len());
        match word {
            "file" => put_file(self.alloc, words, below, &mut found.files, self.folder)?,
            "$" => self.run_command(line, words.rest(), below, found)?,
            _ if belongs(line, opener) => return Ok(None),
            _ => return Err(Reason::NoCommand),
        }
        Ok(Some(word))
    }

    /// Runs a command over what it finds.
    fn run_command(
        &mut self,
        line: &str,
        words: &str,
        below: &[&str],
        found: &mut Found,
    ) -> Result<(), Reason> {
        let run = run_of(&*below)?;
        let status = run.status()?;
        let request = self.request_of(words, &run, found)?;
        let left = self.run_request(line, &request, status, &run, found);
        drop(request);
        replace(found, left?);
        Ok(())
    }

    /// The words of a command, and what is wanted of it.
    fn request_of(&mut self, words: &str, run: &Run, found: &Found) -> Result<Request, Reason> {
        let words = command_words(self.alloc, words)?;
        let (words, output) = both_if_ok(words, output_of(self.alloc, run.lines, self.folder))?;
        let files = wanted_files(self.alloc, run.lines, &found.files, self.folder);
        let ((words, output), files) = both_if_ok((words, output), files)?;
        Ok(Request {
            words,
            output,
            files,
        })
    }

    /// Runs a command over what it finds: with each fault in turn, and then to its status. Answers what it leaves.
    fn run_request(
        &mut self,
        line: &str,
        request: &Request,
        status: u32,
        run: &Run,
        found: &Found,
    ) -> Result<Found, Reason> {
        let attempt = Attempt {
            line,
            words: &request.words,
            found,
            faults: run.faults,
            status,
            output: &request.output,
            files: &request.files,
        };
        for line in run.lines {
            self.run_line(&attempt, *line)?;
        }
        let ending = self.run_attempt(&attempt)?;
        let left = ending.leftover(self.alloc, run.crash);
        drop(ending);
        left
    }

    /// Makes the runs of a command for which a line below it asks.
    fn run_line(&mut self, attempt: &Attempt, line: &str) -> Result<(), Reason> {
        let Some(rest) = line.strip_prefix("each ") else {
            return Ok(());
        };
        let attempt = Attempt { line, ..*attempt };
        if let Some(names) = rest.strip_prefix("fault in turn") {
            self.fail_store(&attempt, names)?;
            self.fail_puts(&attempt)
        } else if let Some(count) = rest.strip_prefix("disk fault in turn ") {
            self.fail_disk(&attempt, Words::of(count).number()?)
        } else {
            Err(Reason::NoDirective)
        }
    }

    /// Makes each call of the store fail in turn, which are of these files, then one more.
    fn fail_store(&mut self, attempt: &Attempt, names: &str) -> Result<(), Reason> {
        let mut faults = attempt.faults;
        faults.store = 1;
        for name in names.split_whitespace() {
            self.fail_file(attempt, faults, name)?;
            faults.store = faults.store.saturating_add(1);
        }
        self.check(&Attempt { faults, ..*attempt })
    }

    /// Makes a call of the store fail, which is of this file.
    fn fail_file(&mut self, attempt: &Attempt, faults: Faults, name: &str) -> Result<(), Reason> {
        let line = format!(in self.alloc; "store: {name}\n")?;
        let failed = self.fail(attempt, faults, STORE_FAULT, line.as_bytes());
        drop(line);
        failed
    }

    /// Makes each call of the disk fail in turn, then one more.
    fn fail_disk(&mut self, attempt: &Attempt, calls: u32) -> Result<(), Reason> {
        let mut faults = attempt.faults;
        faults.disk = 1;
        for _ in 0..calls {
            self.fail(attempt, faults, DISK_FAULT, b"disk\n")?;
            faults.disk = faults.disk.saturating_add(1);
        }
        self.check(&Attempt { faults, ..*attempt })
    }

    /// Makes a call fail where the command is to end with this status, to write this, and to change no file.
    fn fail(
        &mut self,
        attempt: &Attempt,
        faults: Faults,
        status: u32,
        output: &[u8],
    ) -> Result<(), Reason> {
        self.check(&Attempt {
            faults,
            status,
            output,
            files: &attempt.found.files,
            ..*attempt
        })
    }

    /// Makes the first put fail, which keeps 0 or 5 bytes.
    fn fail_puts(&mut self, attempt: &Attempt) -> Result<(), Reason> {
        self.fail_put(attempt, 0)?;
        self.fail_put(attempt, 5)
    }

    /// Makes the first put fail, which keeps this many bytes of all that is to be written.
    fn fail_put(&mut self, attempt: &Attempt, keep: u32) -> Result<(), Reason> {
        let whole = attempt.output;
        let kept = whole.get(..keep as usize).unwrap_or(whole);
        self.check(&Attempt {
            faults: Faults {
                put: 1,
                keep: Some(keep),
                ..attempt.faults
            },
            status: OUTPUT_FAULT,
            output: kept,
            ..*attempt
        })
    }

    /// Runs a command for the findings alone.
    fn check(&mut self, attempt: &Attempt) -> Result<(), Reason> {
        drop(self.run_attempt(attempt)?);
        Ok(())
    }

    /// Runs a command, and answers how it ends, which is among the findings where it isn't wanted.
    fn run_attempt(&mut self, attempt: &Attempt) -> Result<Ending, Reason> {
        let ending = ending_of(self.rt, self.alloc, attempt)?;
        let judged = self.judge(attempt, &ending);
        value_if_ok(ending, judged)
    }

    /// Adds how an attempt ends to the findings where it isn't wanted.
    fn judge(&mut self, attempt: &Attempt, ending: &Ending) -> Result<(), Reason> {
        if u32::from(ending.status) == attempt.status
            && ending.written() == attempt.output
            && *ending.files() == *attempt.files
        {
            Ok(())
        } else {
            self.findings.add(attempt, ending)
        }
    }
}
