//! What-if: which dates of a run change when job times and demand dates are edited, without a new run.
#![tactic(auto)]

mod copies;
mod edit;
mod edits;
mod marks;
mod reader;
mod renewal;
mod row;
mod settle;
mod sheet;
mod slots;
mod words;

pub use edits::{RefusedLine, follow_edits};
pub use sheet::Sheet;
pub use slots::{date_at_slot, slot};
