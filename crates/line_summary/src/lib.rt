//! What a planner asks of a line first, over the dates of a finished run: how long the jobs wait, what stands in the
//! line on the mean, and how busy each machine is. And what each number of cards gives a plant: one row for each count,
//! shared among threads.
#![tactic(auto)]

mod curve;
mod date_sums;
mod figures;
mod laws;
mod machines;
mod making;
mod percentiles;
mod point;
mod rows;
mod sizes;
mod stages;
mod summary;
mod texts;
mod thousandths;
mod trying;
mod waits;

pub use curve::{CurveError, write_curve};
pub use figures::Figures;
pub use laws::{
    busy_within_servers, counts_add_up_to_times, empty_horizons_have_no_means, means_stay_bounded,
    plants_have_one_curve, ratios_are_rounded,
};
pub use point::Point;
pub use summary::Summary;
pub use thousandths::push_thousandths;
