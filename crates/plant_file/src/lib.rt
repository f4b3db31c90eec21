//! Plant files: the draft of the bytes, and the plant of a draft and of the files that it names, or the first refusal.
#![tactic(auto)]

mod build;
mod columns;
mod counts;
mod draft;
mod finish;
mod read;
mod reading;

pub use draft::{Draft, DraftDemands, DraftLoop, DraftMachine, DraftPlant, DraftStage, DraftTimes};
pub use finish::{CopyError, assemble_plant, complete_draft, dates_in, finish_draft, times_in};
pub use read::{read_plant, read_tree_or_faults};
pub use reading::TreeReading;
