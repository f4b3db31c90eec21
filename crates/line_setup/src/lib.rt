//! The workers of a line, made from a state: a queue is laid for each arc, and each worker's stations take their ends.
#![tactic(auto)]

mod laying;
mod making;
mod start;
mod workers;

pub use start::Start;
pub use workers::workers_of;
