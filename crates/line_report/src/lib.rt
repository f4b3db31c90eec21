//! The report of a finished run of a plant, or its summary, written to a sink piece by piece.
#![tactic(auto)]

mod dates;
mod laws;
pub mod line_end;
pub mod line_start;
mod making;
mod observed;
mod portion;
mod report;
mod run;
mod summary;
mod texts;
mod totals;
mod words;

pub use laws::schedules_agree;
pub use report::Report;
pub use totals::write_peak_end;
pub use words::{write_number_behind, write_number_line};
