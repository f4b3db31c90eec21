//! The top call of `pull`: it reads the words of the command line, the plant file and what else a
//! command needs from a store, does what the command asks for, by workers, over a store and a disk,
//! and writes what it has to say to a sink.
#![tactic(auto)]

mod actions;
mod top;

pub use command_line::{Command, FileName, Stop, USAGE, WordsError, has_stand, read_words};
pub use top::{pull, pull_still};
