//! How late each job may be at each station, where every customer waits at most a given time.
#![tactic(auto)]

mod arc_bounds;
mod bounds;
mod error;
mod latest;
mod latest_date;
mod laws;
mod pass;
mod run;
mod waits;
mod writing;

pub use error::LatestError;
pub use latest::{Latest, latest_dates};
pub use laws::{
    latest_dates_are_one, latest_dates_serve, latest_dates_solve, no_dates_are_later,
    none_is_unbounded,
};
