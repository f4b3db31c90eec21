//! Every fault of a plant file and of its tables, as lines, and what may not be meant.
#![tactic(auto)]

mod draft;
mod draft_lint;
mod file;
mod headers;
mod labels;
mod laws;
mod lines;
mod lint;
mod paths;
mod plant;
mod position;
mod records;
mod remarks;
mod unused;

pub use draft::lint_draft;
pub use draft_lint::DraftLint;
pub use file::{FileLint, lint_file};
pub use laws::faults_are_refusals;
pub use lines::lines_of;
pub use lint::Lint;
pub use plant::{clean_text, lint_plant};
pub use remarks::{FileRemarks, NoRemarks, PlantRemarks, Remarks};
