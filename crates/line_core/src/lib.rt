//! The pure machine of an event graph: one station fires after the other.
#![tactic(auto)]

mod as_state;
mod dates;
mod error;
mod laws;
mod lines;
mod logs;
mod parts;
mod rounds;
mod schedule;
mod state;
mod table;
mod tokens;

pub use as_state::{AsState, place_in};
pub use error::{FireError, ReplayError, StateError};
pub use laws::{
    circuits_keep_their_number, dates_stay_early, dead_stations_stay_idle,
    finished_states_are_least, live_graphs_have_a_least_solution, reached_states_are_consistent,
};
pub use lines::{behind, end_before, prefix, without_return};
pub use logs::log_with;
pub use rounds::{fire_each, run};
pub use schedule::replay;
pub use state::State;
pub use table::Table;
pub use tokens::Tokens;
