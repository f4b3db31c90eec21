//! What the lines below a command say of it.
use crate::lines::{is_comment, wanted_lines};
use crate::reason::Reason;
use crate::slots::Crash;
use crate::words::Words;

/// What is said of a command.
#[derive(Clone, Copy)]
pub struct Run<'a> {
    pub faults: Faults,
    pub crash: Crash,
    /// All lines that say something of it.
    pub lines: &'a [&'a str],
    status: Option<u32>,
    /// Whether a line says a text, which stands below it.
    has_text: bool,
}

/// What fails in a run.
#[derive(Clone, Copy)]
pub struct Faults {
    /// The call of the store, counted from 1; 0 for none.
    pub store: u32,
    /// The call of the disk, counted from 1; 0 for none.
    pub disk: u32,
    /// The put, counted from 1; 0 for none.
    pub put: u32,
    /// How many bytes a write or a put that fails leaves; none where a write leaves the file as it was.
    pub keep: Option<u32>,
    /// How many bytes the sink takes.
    pub room: u32,
}

/// How many bytes a sink takes where a case doesn't say it.
const ROOM: u32 = 100_000;

/// What the lines below a command say of it.
pub fn run_of<'a>(below: &'a [&'a str]) -> Result<Run<'a>, Reason> {
    let lines = wanted_lines(below);
    let mut run = Run {
        faults: Faults {
            store: 0,
            disk: 0,
            put: 0,
            keep: None,
            room: ROOM,
        },
        crash: Crash { call: 0, pick: 1 },
        lines,
        status: None,
        has_text: false,
    };
    for line in lines {
        run.read(*line)?;
    }
    Ok(run)
}

impl<'a> Run<'a> {
    /// The status that is wanted.
    pub fn status(&self) -> Result<u32, Reason> {
        self.status.ok_or(Reason::NoStatus)
    }

    /// Reads a line; one that begins with `each`, and a text, is read in full when the command is run.
    fn read(&mut self, line: &str) -> Result<(), Reason> {
        if is_comment(line) || line.starts_with("each ") {
            return Ok(());
        }
        let mut words = Words::of(line);
        match words.word() {
            "output" | "after" => self.has_text = true,
            "|" if self.has_text => {}
            "fail" => return self.read_numbers(words),
            _ => return self.read_numbers(Words::of(line)),
        }
        Ok(())
    }

    /// Reads words with a number behind each.
    fn read_numbers(&mut self, words: Words) -> Result<(), Reason> {
        let mut words = words;
        for _ in 0..words.rest().len() {
            if words.rest().is_empty() {
                break;
            }
            let word = words.word();
            self.set(word, words.number()?)?;
        }
        Ok(())
    }

    /// Sets the number that this word names.
    fn set(&mut self, word: &str, number: u32) -> Result<(), Reason> {
        match word {
            "status" => self.status = Some(number),
            "store" => self.faults.store = number,
            "disk" => self.faults.disk = number,
            "put" => self.faults.put = number,
            "keep" => self.faults.keep = Some(number),
            "room" => self.faults.room = number,
            "crash" => self.crash.call = number,
            "pick" => self.crash.pick = number,
            _ => return Err(Reason::NoDirective),
        }
        Ok(())
    }
}
