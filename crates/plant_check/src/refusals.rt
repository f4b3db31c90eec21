//! All that is wrong with a plant as a whole, where its parts are right.

mod cards;
mod sizes;
mod whole;

pub use cards::stock_of_loop;
pub use sizes::count_stations;
pub use whole::refusals_of_plant;
