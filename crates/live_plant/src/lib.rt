//! Plants with their live graphs. A plant file and the files that it names are read from a store, and the live graph of
//! their plant is made, or the refusal that the command ends with: the steps that every command of a plant begins with.
//! Why a command isn't done: each refusal, with its status and its line. The plant of a seed, a line of fifty stations
//! with drawn numbers, needs no file.
#![tactic(auto)]

mod big;
mod files;
mod generator;
mod lint;
mod live_plant;
mod refusals;
mod sound_file;
mod source;

pub use big::big_plant;
pub use command_line::FileName;
pub use files::{NamedFiles, read_file, read_plant_files};
pub use generator::Generator;
pub use line_graph::dead_labels;
pub use lint::lint_plant_file;
pub use live_plant::{LivePlant, live_graph, live_plant_of, read_live_plant};
pub use refusals::{OUT_OF_MEMORY, Refusal, checkpoint_refusal, cycle_refusal, schedule_refusal};
pub use sound_file::SoundFile;
pub use source::read_source;
