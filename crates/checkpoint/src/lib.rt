//! The text of a state of a line: written, and read back exactly.
#![tactic(auto)]

mod error;
mod format;
mod kept;
mod kept_log;
mod laws;
mod lists;
mod log;
mod read;
mod reader;
mod tokens;
mod word_room;
mod words;
mod writer;

pub use error::CheckpointError;
pub use kept::KeptText;
pub use laws::{texts_of_different_states_differ, texts_of_few_arcs_fit};
pub use read::read_state;
pub use writer::write_state;
