ghost use Rattle.std.specs.Cow.{cow_slice_items};
ghost use Rattle.std.specs.Prelude.{◌≡◌, ◌++◌, codes, decimal, IfOk, OnErr};
ghost use Rattle.command_line.specs.Lines.{as_line};
ghost use Rattle.live_plant.specs.Refusal.{status_of, text_of, IsFixed};
ghost use Rattle.live_plant.specs.Refusals.{sizing_refusal, edits_refusal, latest_refusal};
ghost use Rattle.live_plant.specs.declared.refusals.refusal.Refusal.TheVariants.{NoMemory};

use crate::refusals::dead::dead_line;
use card_sizing::SizingError;
use command_line::FileName;
use latest_dates::LatestError;
use line_base::{Items, Label, Text};
use plant_model::PlantError;
use std::alloc::{AllocError, Global};
use std::borrow::CowSlice;
use what_if::RefusedLine;

/// The line of `NoMemory`, which takes none.
pub const OUT_OF_MEMORY: &str = "memory\n";

/// Why a command isn't done, by the status that the program ends with.
#[derive(Drop)]
pub enum Refusal {
    /// Status 2: the words are no command.
    Usage,
    /// Status 3: the plant is refused.
    Refused {
        /// Why.
        error: PlantError,
    },
    /// Status 3: all that is wrong with the plant, as lint says it.
    Faults {
        /// The lines.
        lines: Text,
    },
    /// Status 4: the plant's graph has a circuit without a token.
    Dead {
        /// The labels of the circuit's stations.
        labels: Items<Label>,
    },
    /// Status 5: a file couldn't be read or written.
    StoreFault {
        /// Its name.
        file: FileName,
    },
    /// Status 7: the checkpoint is the text of no state of the plant that firings reach.
    NotReached {
        /// What is wrong with it, as `checkpoint_refusal` writes it.
        line: Items<u8>,
    },
    /// Status 8: a machine has a list of times, and so the plant no cycle time.
    Varying {
        /// The label of the first such machine.
        label: Items<u8>,
    },
    /// Status 9: memory ran out.
    NoMemory,
    /// Status 10: a file is longer than its limit.
    TooLong {
        /// Its name.
        file: FileName,
    },
    /// Status 11: the schedule can't be followed.
    NotFollowed {
        /// Why, as `schedule_refusal` writes it.
        line: Items<u8>,
    },
    /// Status 12: the disk of the slots failed.
    Disk,
    /// Status 13: no count of cards keeps the wait.
    NoCount {
        /// The first job that waits longer with the most cards, counted from 1.
        job: u32,
        /// How long it waits, in the plant's unit.
        wait: u64,
    },
    /// Status 14: no slot is open.
    NothingSaved,
    /// Status 16: a line of the edits file can't be followed.
    NotEdited {
        /// The first such line, counted from 1.
        line: u64,
    },
    /// Status 17: the plant has no single count of cards.
    NoSingleCount,
    /// Status 18: no station has the label, or there are fewer jobs.
    NoDate {
        /// The label.
        label: Text,
        /// The job, counted from 1.
        job: u32,
    },
    /// Status 19: a job waits longer than it may.
    Late {
        /// The first such job, counted from 1.
        job: u32,
        /// How long it waits, in the plant's unit.
        wait: u64,
    },
    /// Status 20: the picture has too many bars and lanes.
    TooLarge {
        /// How many bars meet the window, and lanes there are, together.
        bars: u64,
    },
}

impl From<AllocError> for Refusal {
    ghost from_gives = { λ _ refusal. refusal ≡ NoMemory };

    fn from(_: AllocError) -> Self {
        Refusal::NoMemory
    }
}

impl From<SizingError> for Refusal {
    ghost from_gives = { λ error refusal. refusal ≡ sizing_refusal error };

    fn from(error: SizingError) -> Self {
        match error {
            SizingError::NoSingleCount => Refusal::NoSingleCount,
            SizingError::NoCount { job, wait } => Refusal::NoCount { job, wait },
            SizingError::NoMemory => Refusal::NoMemory,
        }
    }
}

impl From<LatestError> for Refusal {
    ghost from_gives = { λ error refusal. refusal ≡ latest_refusal error };

    fn from(error: LatestError) -> Self {
        match error {
            LatestError::Late { job, wait } => Refusal::Late { job, wait },
            LatestError::NoMemory => Refusal::NoMemory,
        }
    }
}

impl From<RefusedLine> for Refusal {
    ghost from_gives = { λ refused refusal. refusal ≡ edits_refusal refused };

    fn from(refused: RefusedLine) -> Self {
        Refusal::NotEdited { line: refused.line }
    }
}

impl Refusal {
    /// The status that the program ends with.
    pub fn status(&self) -> u8
        ensures { result ≡ status_of self.now }
    {
        match self {
            Refusal::Usage => 2,
            Refusal::Refused { .. } => 3,
            Refusal::Faults { .. } => 3,
            Refusal::Dead { .. } => 4,
            Refusal::StoreFault { .. } => 5,
            Refusal::NotReached { .. } => 7,
            Refusal::Varying { .. } => 8,
            Refusal::NoMemory => 9,
            Refusal::TooLong { .. } => 10,
            Refusal::NotFollowed { .. } => 11,
            Refusal::Disk => 12,
            Refusal::NoCount { .. } => 13,
            Refusal::NothingSaved => 14,
            Refusal::NotEdited { .. } => 16,
            Refusal::NoSingleCount => 17,
            Refusal::NoDate { .. } => 18,
            Refusal::Late { .. } => 19,
            Refusal::TooLarge { .. } => 20,
        }
    }

    /// The line that it writes, or the lines of all faults. One that is known beforehand takes no memory.
    pub fn text(&self, alloc: Global) -> Result<CowSlice<'_, u8>, AllocError>
        ensures text { IfOk result (λ text. cow_slice_items text ≡ text_of self.now) }
        ensures memory { OnErr result (IsFixed self.now → ⊥) }
    {
        let line = match self {
            Refusal::Usage => return fixed_line("pull: the words are no command\n"),
            Refusal::Refused { error } => format!(in alloc; "plant: {error}")?.into_bytes(),
            Refusal::Faults { lines } => return fixed_line(lines.as_str()),
            Refusal::Dead { labels } => dead_line(alloc, labels.as_slice())?,
            Refusal::StoreFault { file } => words_of(alloc, b"store: ", file.as_str().as_bytes())?,
            Refusal::NotReached { line } => Vec::from_slice(alloc, line.as_slice())?,
            Refusal::Varying { label } => words_of(alloc, b"varying: ", label.as_slice())?,
            Refusal::NoMemory => return fixed_line(OUT_OF_MEMORY),
            Refusal::TooLong { file } => words_of(alloc, b"too long: ", file.as_str().as_bytes())?,
            Refusal::NotFollowed { line } => Vec::from_slice(alloc, line.as_slice())?,
            Refusal::Disk => return fixed_line("disk\n"),
            Refusal::NoCount { job, wait } => {
                format!(in alloc; "no count: job {job} waits {wait}")?.into_bytes()
            }
            Refusal::NothingSaved => return fixed_line("nothing saved\n"),
            Refusal::NotEdited { line } => format!(in alloc; "edits: line {line}")?.into_bytes(),
            Refusal::NoSingleCount => return fixed_line("no single count\n"),
            Refusal::NoDate { label, job } => no_date(alloc, label.as_str(), *job)?,
            Refusal::Late { job, wait } => {
                format!(in alloc; "late: job {job} waits {wait}")?.into_bytes()
            }
            Refusal::TooLarge { bars } => {
                format!(in alloc;
                    "too large a picture: {bars} bars and lanes, at most 20000"
                )?.into_bytes()
            }
        };
        with_end(line)
    }
}

/// A line that is known beforehand.
fn fixed_line<'a>(line: &'a str) -> Result<CowSlice<'a, u8>, AllocError>
    ensures text { IfOk result (λ text. cow_slice_items text ≡ line.now) }
    ensures memory { OnErr result ⊥ }
{
    Ok(CowSlice::Borrowed(line.as_bytes()))
}

/// Words, and the name behind them.
fn words_of(alloc: Global, words: &[u8], named: &[u8]) -> Result<Vec<u8>, AllocError>
    ensures { IfOk result (λ line. line.items ≡ words.now ++ named.now) }
{
    let mut line = Vec::from_slice(alloc, words)?;
    line.extend_from_slice(named)?;
    Ok(line)
}

/// That a station and a job have no date.
fn no_date(alloc: Global, label: &str, job: u32) -> Result<Vec<u8>, AllocError>
    ensures { IfOk result (λ line. line.items ≡ codes "no date: " ++ (label.now ++ (codes " " ++ decimal job))) }
{
    Ok(format!(in alloc; "no date: {label} {job}")?.into_bytes())
}

/// A line with its line feed.
fn with_end<'a>(mut line: Vec<u8>) -> Result<CowSlice<'a, u8>, AllocError>
    ensures { IfOk result (λ text. cow_slice_items text ≡ as_line line.items) }
{
    line.push(b'\n')?;
    Ok(CowSlice::Owned(line))
}
