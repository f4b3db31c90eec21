//! What is printed of a command that doesn't end as wanted.
use crate::ending::Ending;
use crate::reason::Reason;
use crate::runner::Attempt;
use crate::slots::add_number;
use outside_io::Files;
use std::alloc::{AllocError, Global};

/// What is found in a case.
#[derive(Drop)]
pub struct Findings {
    /// The number of the line of the step that is run.
    pub line: usize,
    /// Why this line can't be followed, if it can't.
    pub stopped: Option<Reason>,
    /// How commands end that don't end as wanted; nothing where all do.
    pub text: Vec<u8>,
}

impl Findings {
    /// Nothing is found so far.
    pub fn new(alloc: Global) -> Self {
        Findings {
            line: 0,
            stopped: None,
            text: Vec::new(alloc),
        }
    }

    /// Adds how an attempt ends: its status, all that it wrote, and the files that changed.
    pub fn add(&mut self, attempt: &Attempt, ending: &Ending) -> Result<(), Reason> {
        self.add_head(attempt, ending.status)?;
        self.text.extend_from_slice(ending.written())?;
        Ok(add_changed(&mut self.text, &attempt.found.files, ending.files())?)
    }

    /// Adds the line of the command, the line below it that asks for the attempt, and the status that it ended with.
    fn add_head(&mut self, attempt: &Attempt, status: u8) -> Result<(), Reason> {
        add_number(&mut self.text, "line ", as_u32(self.line))?;
        self.text.extend_from_slice(b": ")?;
        self.text.extend_from_slice(attempt.line.as_bytes())?;
        add_number(&mut self.text, "\nstatus ", u32::from(status))?;
        Ok(self.text.push(b'\n')?)
    }
}

/// A number, or the greatest that is shown.
fn as_u32(number: usize) -> u32 {
    u32::try_from(number).unwrap_or(u32::MAX)
}

/// Adds the files that changed.
fn add_changed(text: &mut Vec<u8>, before: &Files, files: &Files) -> Result<(), AllocError> {
    for (name, bytes) in files.iter() {
        if before.get(name.as_str()) != Some(bytes) {
            add_file(text, name.as_str(), bytes)?;
        }
    }
    Ok(())
}

/// Adds the name of a file and what it holds.
fn add_file(text: &mut Vec<u8>, name: &str, bytes: &[u8]) -> Result<(), AllocError> {
    text.extend_from_slice(b"after ")?;
    text.extend_from_slice(name.as_bytes())?;
    text.push(b'\n')?;
    text.extend_from_slice(bytes)
}
