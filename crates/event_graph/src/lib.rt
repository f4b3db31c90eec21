//! The event graph of a line: stations, arcs with tokens and delays, job times and demand dates.
#![tactic(auto)]

mod checks;
mod error;
mod graph;
mod laws;
mod lists;
mod marking;

pub use error::GraphError;
pub use graph::Graph;
pub use laws::{
    circuits_keep_their_tokens, least_dates_are_greatest_terms, one_least_solution,
    start_is_reached,
};
pub use line_base::{Arc, Parts};
pub use marking::Marking;
