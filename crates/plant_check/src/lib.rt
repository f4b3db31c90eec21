//! The test whether a plant is sound, one file for neighbouring classes of refusals, all refusals of a plant as a
//! whole, and what may not be meant in one that is sound.
#![tactic(auto)]

mod classes;
mod feeds;
mod names;
mod notes;
mod ranges;
mod refusals;

pub use classes::{check, check_whole};
pub use feeds::check_flow;
pub use notes::plant_notes;
pub use refusals::{count_stations, refusals_of_plant, stock_of_loop};
