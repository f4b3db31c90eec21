//! Runs of a line: to the end, by bursts or by workers that stay in their threads, as far as a stop, and on from what
//! was saved.
#![tactic(auto)]

mod error;
mod resuming;
mod run;
mod scheduler;
mod slots;
mod slots_resuming;
mod stop;
mod store;

pub use error::ResumeError;
pub use resuming::{line_of_text, resume};
pub use run::{run_standing, run_through, run_to_end};
pub use scheduler::paying::line_of_run;
pub use slots::run_with_slots;
pub use slots_resuming::resume_slots;
pub use stop::{Outcome, run_until};
pub use store::save_state;
