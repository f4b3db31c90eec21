//! One worker of a line: its stations, and its sweeps over them.
#![tactic(auto)]

mod clearing;
mod counts;
mod gate;
mod logs;
mod order;
mod owner;
mod team;
mod worker;

pub use gate::{FreeGate, Gate};
pub use owner::{first_is_least, first_of, worker_of};
pub use team::Team;
pub use worker::{SWEEPS, Worker};
