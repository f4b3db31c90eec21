//! Two drawings of the dates of a finished run. As csv: all dates, with the start of each job at each machine and the
//! customer who gets the part. As SVG: a bar for each job at each machine, and the counts of each stage over time.
#![tactic(auto)]

mod areas;
mod axis;
mod bar;
mod bars;
mod chart;
mod count;
mod dates;
mod error;
mod heights;
mod lanes;
mod laws;
mod machines;
mod making;
mod names;
mod picture;
mod records;
mod run;
mod starts;
mod stocks;
mod table;
mod table_run;
mod text;
mod window;

pub use chart::Chart;
pub use error::ChartError;
pub use laws::{
    areas_are_counts, bars_of_a_lane_stay_apart, each_job_has_one_bar, parts_serve_behind_stock,
    starts_and_dates,
};
pub use starts::start;
pub use table::DateTable;
pub use window::Window;
