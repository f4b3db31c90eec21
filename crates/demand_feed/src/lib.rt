//! Demand dates and job times from csv files.
#![tactic(auto)]

mod bad_field;
mod columns;
mod dates;
mod error;
mod field;
mod header;
mod reader;
mod row;
mod rows;

pub use bad_field::{BadField, bad_date, bad_time};
pub use columns::{Columns, read_times};
pub use dates::read_dates;
pub use error::FeedError;
pub use header::header_count;
