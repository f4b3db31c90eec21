//! What each command does, each kind of question matched once: a run by a line of workers, to its end or to a stop, a
//! run that goes on from what was saved, a schedule that is replayed, or what else is asked of a live plant.
#![tactic(auto)]

mod asks;
mod big;
mod cards;
mod causes;
mod dates;
mod edits;
mod graphs;
mod lateness;
mod replaying;
mod reports;
mod runs;
mod slots;
mod stopping;

pub use asks::{ask_alone, ask_disk, ask_file, ask_plant};
pub use runs::run_standing;
pub use stopping::run_until;
