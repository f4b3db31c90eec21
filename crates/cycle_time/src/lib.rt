//! The cycle time of an event graph: the greatest ratio of job times and delays to tokens over its circuits, with a
//! certificate that anybody can check.
#![tactic(auto)]

mod acceptance;
mod certificate;
mod circuit;
mod greatest_ratio;
mod laws;
mod ratio;
mod search;
mod tree;
mod varying;
mod weights;

pub use acceptance::accept;
pub use certificate::{Certificate, CycleError};
pub use circuit::{time_of, tokens_of};
pub use greatest_ratio::cycle;
pub use laws::{certificates_bound_every_ratio, circuits_hold_back_dates, potentials_bound_dates};
