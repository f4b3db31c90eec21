//! Why a command isn't done: each refusal, with its status and its line.

mod checkpoints;
mod cycle;
mod dead;
mod refusal;
mod schedules;

pub use checkpoints::checkpoint_refusal;
pub use cycle::cycle_refusal;
pub use refusal::{OUT_OF_MEMORY, Refusal};
pub use schedules::schedule_refusal;
