//! One station of an event graph at work: it takes tokens into its hands, and fires where all of them are full
//! and there is space for what it puts. And the shelf on which the stations of a worker stand: their logs, and the
//! queues between them, whose tokens are dates of the logs.
#![tactic(auto)]

mod ends;
mod fronts;
mod input;
mod inputs;
mod noted;
mod outlets;
mod refilled;
mod ring_inputs;
mod shelf;
mod source;
mod station;
mod stepped;
mod tally;
mod threads;
mod waits;

pub use ends::{Inlet, Outlet};
pub use shelf::Shelf;
pub use source::Source;
pub use station::{Station, meet_at};
pub use stepped::Stepped;
pub use threads::stations_may_move_to_another_thread;
