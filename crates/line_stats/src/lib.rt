//! Counts of parts in a line, over the dates of a finished run: what is in process, on its way and in stock at a date,
//! the demands that are not delivered, the most that a stage ever had, and how long the jobs waited. And what contracts
//! see of a report, a summary and a table of dates: `PlantDates`, with `AreLeastDates`, `AreOfPlant` and `Stays`.
#![tactic(auto)]

mod counts;
mod date_sums;
mod laws;
mod logs;
mod peaks;
mod totals;

pub use counts::{backlog, in_move, in_process, in_stock};
pub use date_sums::date_total;
pub use laws::{deliveries_follow_demands, jobs_stay_in_order, stages_stay_bounded};
pub use peaks::peak;
pub use totals::{last, waiting_total};
