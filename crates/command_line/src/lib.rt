//! The words after the program's name, as a command with its operands and its options.
#![tactic(auto)]

mod alone_question;
mod command;
mod disk_question;
mod file_name;
mod file_question;
mod first;
mod label;
mod laws;
mod limits;
mod number;
mod options;
mod plant_question;
mod plant_source;
mod screens;
mod settings;
mod statuses;
mod topic;
mod words;

pub use alone_question::AloneQuestion;
pub use command::{Command, Stop, WordsError};
pub use disk_question::DiskQuestion;
pub use file_name::FileName;
pub use file_question::FileQuestion;
pub use laws::options_stand_in_any_order;
pub use limits::{MAX_COUNTS, MAX_FIRINGS, MAX_WAIT, limits_are_those_of_the_definitions};
pub use options::has_stand;
pub use plant_question::PlantQuestion;
pub use plant_source::PlantSource;
pub use screens::{USAGE, help_text, usage_is_that_of_the_definitions};
pub use topic::Topic;
pub use words::read_words;
