use std::alloc::{AllocError, AllocFailed};
use std::fmt;

/// Why a line of a case file can't be followed.
#[derive(Clone, Copy)]
pub enum Reason {
    /// Its words say nothing that a case file says.
    NoDirective,
    /// A case file is no text.
    BadText,
    /// A number is wanted.
    BadNumber,
    /// It stands before the first case.
    NoCase,
    /// It belongs to no command or file before it.
    NoCommand,
    /// No status is wanted of the command that stands there.
    NoStatus,
    /// A case ends there, and not with a command.
    NoLastCommand,
    /// The folder of the case files has no such file.
    NoSuchFile,
    /// The plant isn't sound, or names other files, where its graph is to be shown.
    NoPlant,
    /// The disk got no such call, or what its slots hold is too long.
    NoSuchCall,
    /// What is to be printed can't be.
    NoSink,
    /// There was no memory for it.
    NoMemory,
}

impl Reason {
    /// The words that say it.
    fn words(self) -> &'static str {
        match self {
            Reason::NoDirective => "the words say nothing",
            Reason::BadText => "it is no text",
            Reason::BadNumber => "a number is wanted",
            Reason::NoCase => "no case has begun",
            Reason::NoCommand => "nothing stands before it that it belongs to",
            Reason::NoStatus => "no status is wanted of the command",
            Reason::NoLastCommand => "a case ends here without a command",
            Reason::NoSuchFile => "there is no such file",
            Reason::NoPlant => "the plant is refused, or names other files",
            Reason::NoSuchCall => "the disk got no such call",
            Reason::NoSink => "the output can't be written",
            Reason::NoMemory => "out of memory",
        }
    }
}

impl fmt::Display for Reason {
    fn fmt<W: fmt::Write>(&self, f: &mut fmt::Formatter<W>) -> fmt::Result {
        f.write_str(self.words())
    }
}

/// The value, where what was done with it went well; else the value is let go here.
pub fn value_if_ok<T: Drop>(value: T, outcome: Result<(), Reason>) -> Result<T, Reason> {
    match outcome {
        Ok(()) => Ok(value),
        Err(reason) => {
            drop(value);
            Err(reason)
        }
    }
}

/// Both values, where the second is there; else the first is let go here.
pub fn both_if_ok<T: Drop, U>(value: T, second: Result<U, Reason>) -> Result<(T, U), Reason> {
    match second {
        Ok(other) => Ok((value, other)),
        Err(reason) => {
            drop(value);
            Err(reason)
        }
    }
}

/// Adds a value to a list.
pub fn add_to<T: Drop>(list: &mut Vec<T>, value: T) -> Result<(), Reason> {
    Ok(list.push(value)?)
}

/// Puts a value in the place of another, which is let go here.
pub fn replace<T: Drop>(place: &mut T, value: T) {
    *place = value;
}

impl From<AllocError> for Reason {
    fn from(_: AllocError) -> Self {
        Reason::NoMemory
    }
}

impl<T: Drop> From<AllocFailed<T>> for Reason {
    fn from(_: AllocFailed<T>) -> Self {
        Reason::NoMemory
    }
}
