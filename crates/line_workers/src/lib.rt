//! An event graph that several workers run at once.
#![tactic(auto)]

mod clearing;
mod closing;
mod laws;
mod line;
mod link;
mod pace;
mod threading;
mod work;
mod workers;

pub use laws::{
    logs_that_grow_from_a_state_are_reached, sweeps_follow_sweeps, sweeps_let_logs_grow,
    swept_workers_are_workers,
};
pub use line::{Burst, Line};
pub use line_worker::{FreeGate, Gate, Worker};
